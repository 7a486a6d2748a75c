// Whether two nodes are the same, and a fingerprint that tells most nodes apart.
ghost use Rattle.std.specs.Prelude.{◌≡◌};
ghost use Rattle.word_dag.specs.Prints.{mixed, all_mixed, op_code as op_code_of, print_of, same};

use crate::node::{Node, Op};

// A fingerprint with one more number in it.
fn mix(print: u64, number: u64) -> u64
    ensures { result ≡ mixed print number }
{
    print.wrapping_mul(1_099_511_628_211).wrapping_add(number)
}

fn mix_all(start: u64, bytes: &[u8]) -> u64
    ensures { result ≡ all_mixed start bytes.now }
{
    let mut print = start;
    for byte in bytes {
        print = mix(print, u64::from(*byte));
    }
    print
}

fn op_code(op: Op) -> u64
    ensures { result ≡ op_code_of op }
{
    match op {
        Op::Add => 1,
        Op::Sub => 2,
        Op::Mul => 3,
        Op::And => 4,
        Op::Or => 5,
        Op::Xor => 6,
        Op::Shl => 7,
        Op::Shr => 8,
        Op::Sar => 9,
        Op::Ult => 10,
        Op::Slt => 11,
        Op::Eq => 12,
        Op::Concat => 13,
    }
}

/// A number that equal nodes share.
pub fn fingerprint(node: &Node) -> u64
    ensures { result ≡ print_of node.now }
{
    match node {
        Node::Free {
            name,
            width,
            side,
            cycle,
        } => {
            let print = mix(mix_all(14, name.bytes()), u64::from(*width));
            mix(
                mix(print, u64::from(*side)),
                u64::from(cycle.unsigned_abs()),
            )
        }
        Node::Const(word) => mix(mix(15, u64::from(word.width())), word.value()),
        Node::Two { op, width, a, b } => mix(mix(mix(op_code(*op), u64::from(*width)), *a), *b),
        Node::Not { width, a } => mix(mix(16, u64::from(*width)), *a),
        Node::Slice { width, a, lo } => { mix(mix(mix(17, u64::from(*width)), *a), u64::from(*lo)) }
        Node::Zext { width, a } => mix(mix(18, u64::from(*width)), *a),
        Node::Sext { width, a } => mix(mix(19, u64::from(*width)), *a),
        Node::Mux { width, c, a, b } => mix(mix(mix(mix(20, u64::from(*width)), *c), *a), *b),
    }
}

/// Whether these are equal nodes.
pub fn is_same(x: &Node, y: &Node) -> bool
    ensures { result ≡ same x.now y.now }
{
    match (x, y) {
        (
            Node::Free {
                name,
                width,
                side,
                cycle,
            },
            Node::Free {
                name: other,
                width: w,
                side: s,
                cycle: c,
            },
        ) => name.bytes() == other.bytes() && *width == *w && *side == *s && *cycle == *c,
        (Node::Const(a), Node::Const(b)) => a.width() == b.width() && a.value() == b.value(),
        (
            Node::Two { op, width, a, b },
            Node::Two {
                op: op2,
                width: w,
                a: c,
                b: d,
            },
        ) => op_code(*op) == op_code(*op2) && *width == *w && *a == *c && *b == *d,
        (Node::Not { width, a }, Node::Not { width: w, a: b }) => *width == *w && *a == *b,
        (
            Node::Slice { width, a, lo },
            Node::Slice {
                width: w,
                a: b,
                lo: l,
            },
        ) => *width == *w && *a == *b && *lo == *l,
        (Node::Zext { width, a }, Node::Zext { width: w, a: b }) => *width == *w && *a == *b,
        (Node::Sext { width, a }, Node::Sext { width: w, a: b }) => *width == *w && *a == *b,
        (
            Node::Mux { width, c, a, b },
            Node::Mux {
                width: w,
                c: c2,
                a: a2,
                b: b2,
            },
        ) => *width == *w && *c == *c2 && *a == *a2 && *b == *b2,
        _ => false,
    }
}
