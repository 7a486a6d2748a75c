//! Laws of the lines of a design over values of free words: which values name segments that violate a line. A line is
//! violated of a design of words exactly where it is of the modules whose runs it has, and a report without a violated
//! line is a promise about every run, of which there are some of every length. Each law is the contract of a function
//! that does nothing.
#![tactic(auto)]

mod law;
mod laws;

pub use law::{bound_modules_run, lines_are_the_modules, reports_are_promises};
pub use laws::{
    named_rows_are_traces, runs_have_values, tests_are_exact, tests_are_of_lines,
    violations_have_values,
};
