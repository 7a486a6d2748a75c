//! What the bytes of a connection ask the desk for: its head within a front of bounded length, the length of its body,
//! its place among the routes, and what it asks for there.
#![tactic(auto)]

mod bounds;
mod fields;
mod judge;
mod order;
mod places;
mod read;
mod refusal;
mod wanted;

pub use bounds::front_len;
pub use order::{Order, asked, wanted_of};
pub use places::Place;
pub use read::{More, Reading, read_head, read_some};
pub use refusal::Refusal;
pub use wanted::{PageFile, Wanted};
