//! The clock and the asynchronous resets of the instances of a list of modules: what a block with edges waits for, and
//! which inputs of the top reach the one-bit inputs of instances.
#![tactic(auto)]

mod asyncs;
mod bits;
mod clocks;
mod condition;
mod head;
mod kept;
mod reads;
mod reset;
mod table;
mod timing;
mod timings;
mod ways;

pub use clocks::{Clocks, clocks_of};
pub use reset::Reset;
pub use table::{Link, Table, child_table, top_table};
pub use timing::{Timing, timing_of};
