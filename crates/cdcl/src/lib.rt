//! A solver that answers with evidence. Two steps of derivations are worked: one that tells propagation something new,
//! and one that doesn't.
#![tactic(auto)]

mod conflict;
mod copies;
mod examples;
mod laws;
mod learn;
mod lists;
mod minimizer;
mod order;
mod reasons;
mod restarts;
mod resumes;
mod search;
mod solver;
mod trail;
mod watches;

pub use examples::examples_stand;
pub use laws::supersets_are_not_new;
pub use solver::{End, solve};
