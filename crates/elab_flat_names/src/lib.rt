//! Names and ports of the instances of a list of modules: what is used and isn't declared, what stands twice, and ports
//! that don't fit. The expressions in a module's text, and the names that it reads, assigns and waits for, are views
//! that borrow from it.
#![tactic(auto)]

mod again;
mod assignable;
mod check;
mod decl;
mod declared;
mod exprs;
mod inner;
mod left;
mod module;
mod names;
mod search;
mod signal;
mod stmt;
mod word;

pub use check::{check_declared, check_instances, check_names, check_ports, check_used};
pub use exprs::{exprs_in, own_exprs_in};
pub use names::{assigned_in, names_in, names_read, waited_in};
pub use signal::declared_signal;
