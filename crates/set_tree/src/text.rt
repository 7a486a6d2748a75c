// What the text of a set spells, before its names are looked up.

use crate::rows::Rows;
use crate::set::Role;
use outside::Text;
use sqlite_items::Items;
use vlog_tree::Expr;

/// `[high:low]`
#[derive(Clone, Copy, PartialEq, Eq)]
pub struct Bits {
    pub high: u64,
    pub low: u64,
}

/// `input`, `output` or `state` with a name.
#[derive(Drop)]
pub struct Declaration {
    pub role: Role,
    pub signed: bool,
    /// None: one bit.
    pub bits: Option<Bits>,
    /// The name, its parts joined by dots.
    pub name: Text,
    /// `when formula` of an output.
    pub domain: Option<Expr>,
}

#[derive(Clone, Copy, PartialEq, Eq)]
pub enum RuleKind {
    Constraint,
    Invariant,
}

/// `constraint name : formula;` or `invariant name : formula;`
#[derive(Drop)]
pub struct RuleText {
    pub kind: RuleKind,
    pub name: Text,
    pub formula: Expr,
}

/// `to high until condition`
#[derive(Drop)]
pub struct Until {
    pub high: u64,
    pub condition: Expr,
}

/// `length low`, or `length low to high until condition`.
#[derive(Drop)]
pub struct LengthText {
    pub low: u64,
    pub until: Option<Until>,
}

/// `cover output from from to to;`. The name's parts are joined by dots.
#[derive(Drop)]
pub struct CoverText {
    pub output: Text,
    pub from: u64,
    pub to: EndText,
}

/// Where a cover ends: `number`, or `end + number`, and `end` alone for `end + 0`.
#[derive(Clone, Copy, PartialEq, Eq)]
pub enum EndText {
    At(u64),
    AfterEnd(u64),
}

/// The reset property or an operation.
#[derive(Drop)]
pub struct PropertyText {
    pub name: Text,
    pub length: LengthText,
    pub window: Option<u64>,
    pub assume: Items<Expr>,
    pub commit: Items<Expr>,
    pub hand: Items<Expr>,
    pub covers: Items<CoverText>,
    /// The names of its successors.
    pub next: Items<Text>,
}

/// A whole set.
#[derive(Drop)]
pub struct SetText {
    pub block: Text,
    pub clock: Text,
    pub reset: Text,
    pub high: bool,
    pub cycles: u64,
    pub declarations: Rows<Declaration>,
    pub rules: Rows<RuleText>,
    pub first: PropertyText,
    pub operations: Rows<PropertyText>,
}
