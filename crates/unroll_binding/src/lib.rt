//! Whether a set of properties fits a design: its names, their lengths and their roles.
#![tactic(auto)]

mod bound;
mod check;
mod fault;
mod find;

pub use bound::Bound;
pub use check::bind;
pub use fault::BindFault;
