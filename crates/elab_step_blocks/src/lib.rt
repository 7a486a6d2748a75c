//! Blocks as nodes of a dag: from a node for each signal to a node for each signal after the block.
#![tactic(auto)]

mod bits;
mod blocks;
mod branches;
mod cases;
mod firsts;
mod indexed;
mod items;
mod left;
mod parts;
mod places;
mod stores;
mod targets;

pub use blocks::run;
pub use branches::{Saved, put_back, saved_at};
pub use places::{before_assign, before_one};
pub use stores::assign;
