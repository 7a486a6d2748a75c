//! A keeper over SQL tables, in a file or in memory. It doesn't tell what they hold: what is proved of it is that it is
//! safe, and that its count of faults rises with each call in which a statement is refused, running out of memory aside, and
//! stays in the others.
#![tactic(auto)]

mod database;
mod keeper;
mod statements;

pub use keeper::SqlKeeper;
