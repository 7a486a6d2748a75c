//! Laws of flattening: a module without instances that has the runs of a list of modules.
#![tactic(auto)]

mod law;

pub use law::{flat_keeps_runs, moved_texts_do_the_same, scopes_are_apart};
