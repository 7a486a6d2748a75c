// What is shown of a refuted line.
use outside::Text;
use set_tree::Rows;

/// A register and its value at the first cycle that is shown.
#[derive(Drop)]
pub struct Start {
    pub name: Text,
    pub value: u64,
}

/// The declared names in order, and for each cycle their values in the same order.
#[derive(Drop)]
pub struct Trace {
    pub names: Rows<Text>,
    pub rows: Rows<Rows<u64>>,
}

/// What is shown of a refuted line: of a line on a design its registers' first values and one trace, of a line of the
/// set one trace or two.
#[derive(Drop)]
pub struct Shown {
    pub start: Rows<Start>,
    /// How many reset cycles stand at the head of the first trace.
    pub before: u32,
    pub first: Trace,
    pub second: Option<Trace>,
}
