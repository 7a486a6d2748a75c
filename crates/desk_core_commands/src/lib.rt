//! What a check and the desk are asked, and what the desk answers.
#![tactic(auto)]

mod command;
mod fault;
mod which;

pub use command::{Answer, Command, Names, Signs};
pub use fault::DeskFault;
pub use which::Which;
