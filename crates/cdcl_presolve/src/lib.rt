//! A solver that simplifies a formula before it searches it.
#![tactic(auto)]

mod aside;
mod classes;
mod decide;
mod derivation;
mod facts;
mod gates;
mod pool;
mod reduce;
mod resolve;
mod smaller;
mod sweep;
mod trim;

pub use decide::solve;
