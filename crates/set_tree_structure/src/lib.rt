//! The test of a set's structure: its properties' covers, successors and offsets.
#![tactic(auto)]

mod cover;
mod fault;
mod find;
mod offset;
mod sound;

pub use fault::{GraphFault, Place};
pub use find::first_fault;
pub use offset::largest;
pub use sound::{Sound, Unsound, faults_are_exact, structure};
