//! Constants and lengths in the texts of instances: ranges of declarations, expressions in their places, and left
//! sides.
#![tactic(auto)]

mod assignment;
mod block;
mod cases;
mod check;
mod constant;
mod declared;
mod inner;
mod left;
mod output;
mod part;
mod resting;
mod side;
mod site;
mod store;
mod taken;
mod violation;

pub use assignment::check_assignments;
pub use block::check_blocks;
pub use check::check_texts;
pub use declared::check_ranges;
pub use inner::check_inners;
pub use output::check_output;
pub use resting::at_rest;
