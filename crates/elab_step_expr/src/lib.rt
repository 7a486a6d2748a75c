//! Expressions as nodes of a dag.
#![tactic(auto)]

mod bits;
mod counts;
mod families;
mod indexed;
mod joins;
mod leaves;
mod node;
mod nodes;
mod operands;
mod operators;
mod pieces;
mod reductions;
mod shapes;

pub use indexed::{Own, code_of, hit};
pub use leaves::{Leaf, Leaves};
pub use node::{assigned_node, holds_node, node_of, value_node};
pub use nodes::{Wire, choice, constant, slice, two};
pub use operators::length_of;
pub use shapes::shape;
