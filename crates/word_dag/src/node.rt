// One node: a word by itself, or an operation on earlier nodes.
ghost use Rattle.std.specs.Prelude.{◌≡◌};
ghost use Rattle.word_dag.specs.Nodes.{width_of};

use outside::Text;
use word_core::Word;

/// An operation on two words, as `word_core::Word` has it. `Shl`, `Shr` and `Sar` take a second word of any width,
/// `Ult`, `Slt` and `Eq` give one bit, and all others have operands of the node's width; `Concat` has the first word's
/// bits above the second's.
#[derive(Clone, Copy, PartialEq, Eq, Debug)]
pub enum Op {
    Add,
    Sub,
    Mul,
    And,
    Or,
    Xor,
    Shl,
    Shr,
    Sar,
    Ult,
    Slt,
    Eq,
    Concat,
}

/// A node: a word of `width` bits. `a`, `b` and `c` are numbers of earlier nodes.
#[derive(Drop)]
pub enum Node {
    /// A free word: an input or a first register value in one trace (`side` 0 or 1) at one cycle, negative in reset
    /// cycles.
    Free {
        name: Text,
        width: u8,
        side: u8,
        cycle: i16,
    },
    /// A constant.
    Const(Word),
    /// An operation on two words.
    Two {
        op: Op,
        width: u8,
        a: u64,
        b: u64,
    },
    /// Each bit turned.
    Not {
        width: u8,
        a: u64,
    },
    /// The bits of `a` from `lo` on.
    Slice {
        width: u8,
        a: u64,
        lo: u8,
    },
    /// The word with zeros above it.
    Zext {
        width: u8,
        a: u64,
    },
    /// The word with copies of its top bit above it.
    Sext {
        width: u8,
        a: u64,
    },
    /// The choice: `a` where the bit `c` is 1, else `b`.
    Mux {
        width: u8,
        c: u64,
        a: u64,
        b: u64,
    },
}

impl Node {
    /// The width of its word, in bits.
    pub fn width(&self) -> u8
        ensures { result ≡ width_of self.now }
    {
        match self {
            Node::Const(word) => word.width(),
            Node::Free { width, .. }
            | Node::Two { width, .. }
            | Node::Not { width, .. }
            | Node::Slice { width, .. }
            | Node::Zext { width, .. }
            | Node::Sext { width, .. }
            | Node::Mux { width, .. } => *width,
        }
    }
}
