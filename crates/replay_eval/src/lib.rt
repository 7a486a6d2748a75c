//! A plain program that says whether windows violate a line of a set: the judge of the circuits that say it for all
//! windows at once.
#![tactic(auto)]

mod formula;
mod judge;
mod property;
mod trace;

pub use formula::{all_hold, holds, rows_from};
pub use judge::{Windows, is_constrained};
pub use property::{end_of, is_assumed, is_committed, meets_constraints, property_at};
