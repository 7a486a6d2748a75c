//! Graphs: an order of the vertices, each after its successors, or a cycle; whether a node leads into a cycle.
#![tactic(auto)]

mod cycles;
mod graph;
mod levels;
mod search;
mod sort;
mod sorted;
mod stack;

pub use cycles::{Cycle, cycle_from};
pub use graph::Graph;
pub use sort::order;
pub use sorted::Sorted;
