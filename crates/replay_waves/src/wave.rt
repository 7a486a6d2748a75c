// What is shown as a waveform.
use outside::Text;
use set_tree::Rows;

/// A declared name with its length in bits, 1 to 64. A name with dots is a path through instances.
#[derive(Drop)]
pub struct Signal {
    pub name: Text,
    pub width: u8,
}

/// A register with its length in bits, 1 to 64, and its value in the first cycle that is shown.
#[derive(Drop)]
pub struct First {
    pub name: Text,
    pub width: u8,
    pub value: u64,
}

/// What is shown of a counterexample: one window of cycles, or two. The rows of a window have for each cycle the values
/// of the signals, in their order; each is below 2 to the length of its signal.
#[derive(Drop)]
pub struct Wave {
    pub clock: Text,
    pub signals: Rows<Signal>,
    /// The registers, where their first values are known.
    pub firsts: Rows<First>,
    /// How many reset cycles stand at the head of the first window.
    pub before: u32,
    pub first: Rows<Rows<u64>>,
    pub second: Option<Rows<Rows<u64>>>,
}

/// A window: its rows, how many of them are reset cycles, and the number of its first variable.
#[derive(Drop)]
pub struct Window<'a> {
    pub rows: &'a [Rows<u64>],
    pub before: u32,
    pub number: u64,
}

/// The type of a variable (18.2.3).
#[derive(Clone, Copy)]
pub enum Kind {
    Wire,
    Reg,
    Integer,
}

/// A variable as it is declared: its type, its length in bits, and its name, which is a path.
#[derive(Drop)]
pub struct Variable<'a> {
    pub kind: Kind,
    pub width: u8,
    pub path: &'a [u8],
}
