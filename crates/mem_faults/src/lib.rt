//! Memories of a module without instances: which of their faults stands, what their names stand for, and the signals
//! that their words become.
#![tactic(auto)]

mod faults;
mod kept;
mod rest;
mod signals;
mod survey;
mod twice;
mod uses;

pub use faults::fault_of;
pub use rest::at_rest;
pub use signals::{all_holders, word_text, words};
