// Nodes of constants, and choices by a constant.
ghost use Rattle.std.specs.Prelude.{◌≡◌, ℕ, ◌<◌, length, map, slice_index, IfSome};
ghost use Rattle.word_core.specs.Words.{Bits, IsWord, not_of, slice_of, zext_of, sext_of};
ghost use Rattle.word_dag.specs.declared.node.Node.TheVariants.{Const};
ghost use Rattle.word_dag.specs.Nodes.{FitsNode, FitsOp, op_value, width_of};
ghost use Rattle.word_dag.specs.Adding.{constant_of, constant_at, folded, FoldedFits};

use crate::node::Node;
use crate::values::operate;
use word_core::Word;

/// What becomes of a node: another node to make, or a node that is there.
#[derive(Drop)]
pub enum Folded {
    Make(Node),
    Is(u64),
}

// The word of a constant node.
fn constant_word(node: &Node) -> Option<Word>
    ensures value { result ≡ constant_of node.now }
    ensures width { IfSome result (λ w. w.width ≡ width_of node.now) }
{
    match node {
        Node::Const(word) => Some(*word),
        Node::Free { .. } | Node::Two { .. } | Node::Not { .. } | Node::Slice { .. } => None,
        Node::Zext { .. } | Node::Sext { .. } | Node::Mux { .. } => None,
    }
}

#[tactic(auto, using(crate::proofs::Constants::constants))]
fn constant(nodes: &[Node], number: u64) -> Option<Word>
    requires { number < length nodes.now }
    ensures value { result ≡ constant_at nodes.now number }
    ensures width { IfSome result (λ w. w.width ≡ slice_index (map width_of nodes.now) number) }
{
    constant_word(&nodes[number as usize])
}

/// The node of a constant.
pub fn constant_node(word: Word) -> Node
    ensures value { result ≡ Const word }
    ensures word { IsWord word }
{
    let _ = word.value();
    Node::Const(word)
}

/// The node that is to be made in place of this one.
pub fn fold(nodes: &[Node], node: Node) -> Folded
    requires { FitsNode (map width_of nodes.now) node }
    ensures value { result ≡ folded nodes.now node }
    ensures fits { FoldedFits nodes.now result }
{
    match node {
        Node::Two { op, width, a, b } => {
            match (constant(nodes, a), constant(nodes, b)) {
                (Some(v), Some(w)) => Folded::Make(constant_node(operate(op, width, v, w))),
                _ => Folded::Make(Node::Two { op, width, a, b }),
            }
        }
        Node::Not { width, a } => {
            match constant(nodes, a) {
                Some(word) => Folded::Make(constant_node(Word::not(word))),
                None => Folded::Make(Node::Not { width, a }),
            }
        }
        Node::Slice { width, a, lo } => {
            match constant(nodes, a) {
                Some(word) => Folded::Make(constant_node(Word::slice(word, lo, width))),
                None => Folded::Make(Node::Slice { width, a, lo }),
            }
        }
        Node::Zext { width, a } => {
            match constant(nodes, a) {
                Some(word) => Folded::Make(constant_node(Word::extend(word, width, false))),
                None => Folded::Make(Node::Zext { width, a }),
            }
        }
        Node::Sext { width, a } => {
            match constant(nodes, a) {
                Some(word) => Folded::Make(constant_node(Word::extend(word, width, true))),
                None => Folded::Make(Node::Sext { width, a }),
            }
        }
        Node::Mux { width, c, a, b } => {
            match constant(nodes, c) {
                Some(word) => Folded::Is(if word.value() == 1 { a } else { b }),
                None => Folded::Make(Node::Mux { width, c, a, b }),
            }
        }
        node => Folded::Make(node),
    }
}
