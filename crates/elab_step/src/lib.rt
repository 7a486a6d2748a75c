//! Modules without instances as designs.
#![tactic(auto)]

mod design;
mod flags;
mod graph;
mod groups;
mod inputs;
mod judge;
mod ordered;
mod parts;
mod places;

pub use graph::design_by_graph;
pub use judge::elaborate;
pub use ordered::design_in_order;
