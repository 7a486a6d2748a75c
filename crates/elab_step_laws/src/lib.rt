//! Laws of blocks: what their bits depend on.
#![tactic(auto)]

mod law;

pub use law::{bits_are_apart, bits_follow, bits_stay, passes_are_paths};
