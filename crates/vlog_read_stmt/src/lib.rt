//! Reads left sides and statements from tokens.
#![tactic(auto)]

mod label;
mod lval;
mod stmt;

pub use lval::{ParsedLval, read_lval};
pub use stmt::{ParsedStmt, read_stmt};
