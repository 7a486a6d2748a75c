//! Laws of the lines of a set over values of free words: which values name windows that violate a line, each law being
//! the contract of a function that does nothing; and the names of lines.
#![tactic(auto)]

mod laws;
mod names;

pub use laws::{
    named_rows_are_traces, tests_are_exact, tests_are_of_lines, violations_have_values,
    windows_have_values,
};
pub use names::line_name;
