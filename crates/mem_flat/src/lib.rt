//! A module without instances, freed of its memories: each word is a register of its own.
#![tactic(auto)]

mod expr;
mod idle;
mod index;
mod left;
mod module;
mod parts;
mod spreader;
mod stmt;
mod store;
mod words;

pub use module::{spread, spread_flat};
