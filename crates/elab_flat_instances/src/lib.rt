//! The instances of a list of modules from its top.
#![tactic(auto)]

mod child;
mod graph;
mod recursion;
mod scope;
mod unfold;

pub use child::{full_name, range_fault, unfit_fault};
pub use recursion::inner_prefix;
pub use scope::Scope;
pub use unfold::scopes_of;
