//! The commands that words spell.
#![tactic(auto)]

mod choice;
mod command;
mod name;
mod number;
mod options;
mod reading;
mod words;

pub use command::{Acceptance, Command, Form, Job, Service, Task, Wants};
pub use options::{DEFAULT_BUDGET, DEFAULT_TIMEOUT, DEFAULT_WORKERS};
pub use words::{command_in, wants};
