//! At one place of a list of tokens stands at most one tree: laws and lemmas for the readers above.
#![tactic(auto)]

mod law;

pub use law::{one_module_list, one_tree};
