//! What the text of a set means: its names looked up, and its quantities within their bounds.
#![tactic(auto)]

mod constant;
mod formed;
mod limit;
mod looked;
mod names;
mod present;
mod quantity;
mod twice;
mod unknown;
mod wrong;

pub use looked::look_up;
pub use quantity::Quantity;
pub use wrong::Wrong;
