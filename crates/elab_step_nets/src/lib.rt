//! Modules without instances as functions of words.
#![tactic(auto)]

mod edge;
mod law;
mod nets;
mod nodes;
mod outcomes;
mod solution;
mod start;

pub use law::solved_designs_have_the_modules_runs;
pub use solution::{Solution, solve};
