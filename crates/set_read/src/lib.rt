//! The reader of property sets.
#![tactic(auto)]

mod fault;
mod parts;
mod property;
mod read;
mod tokens;

pub use fault::SetFault;
pub use read::read_set;
pub use set_read_lookup::Quantity;
