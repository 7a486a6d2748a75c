//! What modules mean over time: a module without instances, the cycles and runs of one and of a list of modules, and
//! laws of assignments: which bits are written.
#![tactic(auto)]

mod flat;
mod law;

pub use flat::{Always, Async, Flat, Signal, TopPort};
pub use law::bits_are_written;
