//! The module without instances that a list of modules is from its top. Scopes whose texts break no rule can be
//! flattened, stand in the order of their paths, and have the ports of the top as inputs and outputs.
#![tactic(auto)]

mod block;
mod check;
mod hierarchy;
mod law;
mod left;
mod link;
mod module;
mod port;
mod scope;
mod signal;

pub use hierarchy::flatten;
pub use law::{checked_scopes_flatten, ports_are_inputs, unfolded_scopes_follow};
