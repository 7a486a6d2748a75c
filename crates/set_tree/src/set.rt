// Sets of operation properties.

use outside::Text;
use sqlite_items::Items;
use vlog_tree::Expr;

/// What a declared name is for the block: a top input, a top output, or any signal that the properties read.
#[derive(Clone, Copy, PartialEq, Eq)]
pub enum Role {
    Input,
    Output,
    State,
}

/// A declared name: its length in bits, the number of its lowest bit, and its sign.
#[derive(Drop)]
pub struct Name {
    pub name: Text,
    pub role: Role,
    pub width: u8,
    pub low: u32,
    pub signed: bool,
    /// Where the set claims an output; None: at every cycle that a cover claims.
    pub domain: Option<Expr>,
}

/// A constraint or an invariant.
#[derive(Drop)]
pub struct Rule {
    pub name: Text,
    pub formula: Expr,
}

/// How long a property is, in cycles. With `until` it ends at the first offset from `low` to `high` at which that
/// formula holds; without, `low` is `high` and is its length.
#[derive(Drop)]
pub struct Length {
    pub low: u8,
    pub high: u8,
    pub until: Option<Expr>,
}

/// Where a cover ends.
#[derive(Clone, Copy, PartialEq, Eq)]
pub enum To {
    /// Before this offset.
    At(u32),
    /// So many cycles after the end of its property.
    AfterEnd(u32),
}

/// The offsets, from `from` on, at which a property claims that an output is determined. The output goes by its
/// position among the declared names.
#[derive(Clone, Copy, PartialEq, Eq)]
pub struct Cover {
    pub output: u32,
    pub from: u32,
    pub to: To,
}

/// The reset property or an operation.
#[derive(Drop)]
pub struct Property {
    pub name: Text,
    pub length: Length,
    /// The largest offset that its formulas may read.
    pub window: u8,
    pub assume: Items<Expr>,
    pub commit: Items<Expr>,
    /// What it hands over to the property that follows it.
    pub hand: Items<Expr>,
    pub covers: Items<Cover>,
    /// Its successors: 0 is the reset property and i is operation i - 1.
    pub next: Items<u32>,
}

/// A set of operation properties of one block.
#[derive(Drop)]
pub struct Set {
    /// The name of the block's module.
    pub block: Text,
    pub clock: Text,
    pub reset: Text,
    /// The reset is active where its input is 1; else where it is 0.
    pub high: bool,
    /// For how many cycles a run from reset begins with reset active.
    pub cycles: u8,
    pub names: Items<Name>,
    pub constraints: Items<Rule>,
    pub invariants: Items<Rule>,
    /// The reset property.
    pub first: Property,
    pub operations: Items<Property>,
}
