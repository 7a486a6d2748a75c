//! The report of a check: the lines that were asked for, how each was decided, and its text.
#![tactic(auto)]

mod book;
mod report;

pub use book::{Book, Line, Verdict, verdict_of};
pub use report::{Report, all_proved, report_of};
