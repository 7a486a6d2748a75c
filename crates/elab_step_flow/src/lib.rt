//! What the bits of a combinational block depend on, over all its paths, in one pass through its text.
#![tactic(auto)]

mod assign;
mod block;
mod branches;
mod cases;
mod edges;
mod flow;
mod graph;
mod latch;
mod listed;
mod marks;
mod own;
mod pass;
mod places;
mod scope;
mod sets;
mod words;

pub use block::flow_of;
pub use flow::BlockFlow;
pub use graph::dependences;
pub use latch::latch_of;
pub use listed::unlisted_in;
pub use scope::Scope;
