// One module without instances.

use outside::Text;
use sqlite_items::Items;
use vlog_tree::{Assign, Stmt};

/// A declared signal.
#[derive(Drop)]
pub struct Signal {
    pub name: Text,
    /// Its length in bits; for a memory that of a word.
    pub width: u8,
    /// The number of its lowest bit.
    pub low: u64,
    pub signed: bool,
    /// It is declared by `reg`.
    pub reg: bool,
    /// The number of words of a memory; 0 for every other name.
    pub depth: u8,
}

/// An `always` block.
#[derive(Drop)]
pub struct Always {
    /// It waits for edges.
    pub clocked: bool,
    /// The names that a block without edges waits for; None: all that it reads.
    pub names: Option<Items<Text>>,
    pub body: Stmt,
}

/// A port of the top.
#[derive(Drop)]
pub struct TopPort {
    pub name: Text,
    pub output: bool,
}

/// An input that resets registers at once, and the level at which it does.
#[derive(Drop)]
pub struct Async {
    pub name: Text,
    pub high: bool,
}

/// One module without instances and parameters: its names are hierarchical, joined by `.` without the top's name, and
/// each parameter is replaced by its number.
#[derive(Drop)]
pub struct Flat {
    pub signals: Items<Signal>,
    /// Continuous assignments and connections of ports.
    pub assigns: Items<Assign>,
    pub blocks: Items<Always>,
    /// In the order of the top's header.
    pub ports: Items<TopPort>,
    pub clock: Option<Text>,
    pub asyncs: Items<Async>,
}
