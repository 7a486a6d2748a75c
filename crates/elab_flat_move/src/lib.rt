//! The text of a scope as a module without instances has it: its names under its prefix, its parameters replaced by
//! their numbers.
#![tactic(auto)]

mod copies;
mod expr;
mod left;
mod pair;
mod stmt;
mod text;

pub use copies::copied;
pub use expr::{Mover, moved_expr};
pub use pair::both;
pub use stmt::moved_stmt;
pub use text::{moved_block, moved_link, moved_signal};
