//! The obligations of a set's own lines.
#![tactic(auto)]

mod ending;
mod formula;
mod frame;
mod hands;
mod leaves;
mod line;
mod lines;
mod obligation;
mod obs;
mod pair;
mod part;
mod property;
mod set_line;
mod shared;
mod twins;
mod window;
mod words;

pub use formula::{all_node, constraints_node, rows_after, test_node};
pub use frame::largest_window;
pub use lines::lines_of;
pub use obligation::obligation_of;
pub use obs::{twin_ob, twin_obs};
pub use property::{assumed_node, property_of};
pub use set_line::SetLine;
pub use window::{NodeRow, rows_before};
pub use words::{both, constant, negated};
