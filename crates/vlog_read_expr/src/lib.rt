//! Reads expressions from tokens.
#![tactic(auto)]

mod expr;
mod name;
mod tokens;

pub use expr::{Parsed, read_expr, read_tree};
pub use name::{Path, identifier, read_path};
pub use tokens::{after, is_alone, is_sign, is_word, kind_at, span_at};
