//! The least values at which the root of an obligation is 1, each smaller choice shown to be impossible.
#![tactic(auto)]

mod bits;
mod ends;
mod finding;
mod laws;
mod walk;
mod words;

pub use ends::{Excluded, LeastEnd};
pub use finding::least;
pub use laws::{least_is_one, order_is_one};
