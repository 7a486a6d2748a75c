// What a search for the least values ends with.
use clause_check::Step;

/// A bit that can't be 0 where the bits before it are as in the values.
#[derive(Drop)]
pub struct Excluded {
    /// The number of the bit, from 0 in the order of the bits.
    pub bit: u64,
    /// A derivation of the empty clause from the clauses of the obligation, a unit clause for each bit before this one
    /// as in the values, and the unit clause that this bit is 0.
    pub steps: Vec<Step>,
}

/// How a search for the least values ended. Values are of the free nodes in number order.
#[derive(Drop)]
pub enum LeastEnd {
    /// The least values, and for each bit that is 1 in them why it can't be 0, in the order of the bits.
    Found {
        values: Vec<u64>,
        excluded: Vec<Excluded>,
    },
    /// The budget is spent at this bit: no values that come first differ from these at an earlier bit, and the chain
    /// doesn't tell whether this bit can be 0 too.
    Stopped {
        values: Vec<u64>,
        bit: u64,
        chain: Vec<Step>,
    },
}
