//! Why a check refuses two texts, and how refusals are written: the name of a fault, and then what it is about, each
//! behind a space.
#![tactic(auto)]

mod designs;
mod fault;
mod line;
mod put;
mod reading;
mod sets;

pub use fault::{CheckFault, ModuleFault, SetStop};
pub use line::{fault_line, status_of};
