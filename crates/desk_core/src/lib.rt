//! The check of a module text with a set's text: which lines its report has, how each was decided, and what the report
//! says of the modules. And the desk that holds such texts, their reports and sign-offs.
#![tactic(auto)]

mod acting;
mod blocks;
mod checker;
mod checking;
mod keeping;
mod law;
mod listing;
mod signing;

pub use checker::Checker;
pub use checking::check_fault_of;
pub use desk_core_commands::Which;
pub use desk_core_reports::{Book, Line, Report, Verdict};
pub use law::{commands_repeat, empty_tables_are_a_desk, reports_agree, sign_offs_mean};
pub use proof_store::{Prover, Settings};
