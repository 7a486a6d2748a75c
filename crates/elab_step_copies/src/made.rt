// What a node of a source is made of in another dag: the same node over the copies of its operands.
ghost use Rattle.std.specs.Prelude.{◌≡◌, ◌<◌, ℕ, length, Some, is_none, true, false, MatchOption};
ghost use Rattle.word_dag.specs.Given.{is_free};
ghost use Rattle.word_dag.specs.Walks.{Each, operands, renumbered};
ghost use Rattle.elab_step_copies.specs.Copies.{HasCopy, HaveCopies, copy_at, made_at};
ghost use Rattle.elab_step_copies.specs.Walks.{first_unmade};

use word_dag::Node;

/// The number of a node's copy.
#[tactic(auto, using(crate::proofs::Making::copy_within))]
pub fn node_of(copies: &[Option<u64>], number: u64) -> u64
    requires { HasCopy copies.now number }
    ensures made { made_at copies.now number ≡ Some result }
    ensures number { result ≡ copy_at copies.now number }
{
    match copies[number as usize] {
        Some(copy) => copy,
        None => unreachable!(),
    }
}

/// Whether a node has no copy.
pub fn is_unmade(copies: &[Option<u64>], number: u64) -> bool
    requires { number < length copies.now }
    ensures { result ≡ is_none (made_at copies.now number) }
{
    copies[number as usize].is_none()
}

/// Whether a node has a copy that isn't this node.
pub fn is_other(copies: &[Option<u64>], number: u64, node: u64) -> bool
    requires { number < length copies.now }
    ensures { result ≡ false → (i : ℕ) → made_at copies.now number ≡ Some i → i ≡ node }
{
    match copies[number as usize] {
        Some(copy) => copy != node,
        None => false,
    }
}

/// The first operand that has no copy.
pub fn unmade_operand(node: &Node, copies: &[Option<u64>]) -> Option<u64>
    requires { Each (λ a. a < length copies.now) (operands node.now) }
    ensures { result ≡ first_unmade copies.now (operands node.now) }
{
    match node {
        Node::Free { .. } | Node::Const(_) => None,
        Node::Two { a, b, .. } => {
            if is_unmade(copies, *a) {
                Some(*a)
            } else if is_unmade(copies, *b) {
                Some(*b)
            } else {
                None
            }
        }
        Node::Not { a, .. } | Node::Slice { a, .. } | Node::Zext { a, .. } | Node::Sext { a, .. } =>
            {
                if is_unmade(copies, *a) {
                    Some(*a)
                } else {
                    None
                }
            }
        Node::Mux { c, a, b, .. } => {
            if is_unmade(copies, *c) {
                Some(*c)
            } else if is_unmade(copies, *a) {
                Some(*a)
            } else if is_unmade(copies, *b) {
                Some(*b)
            } else {
                None
            }
        }
    }
}

/// The node over the copies of its operands. A free word has none.
pub fn over_copies(node: &Node, copies: &[Option<u64>]) -> Option<Node>
    requires { HaveCopies copies.now (operands node.now) }
    ensures { MatchOption result (is_free node.now ≡ true) (λ n. (is_free node.now ≡ false) ×
        (n ≡ renumbered (copy_at copies.now) node.now)) }
{
    match node {
        Node::Free { .. } => None,
        Node::Const(word) => Some(Node::Const(*word)),
        Node::Two { op, width, a, b } => Some(Node::Two {
            op: *op,
            width: *width,
            a: node_of(copies, *a),
            b: node_of(copies, *b),
        }),
        Node::Not { width, a } => Some(Node::Not {
            width: *width,
            a: node_of(copies, *a),
        }),
        Node::Slice { width, a, lo } => Some(Node::Slice {
            width: *width,
            a: node_of(copies, *a),
            lo: *lo,
        }),
        Node::Zext { width, a } => Some(Node::Zext {
            width: *width,
            a: node_of(copies, *a),
        }),
        Node::Sext { width, a } => Some(Node::Sext {
            width: *width,
            a: node_of(copies, *a),
        }),
        Node::Mux { width, c, a, b } => Some(Node::Mux {
            width: *width,
            c: node_of(copies, *c),
            a: node_of(copies, *a),
            b: node_of(copies, *b),
        }),
    }
}
