//! Laws: what each stage of a check hands on is what the next one asks for. Modules that are read are plain; what has
//! no fault of flattening has texts that can be taken where they stand and bits with numbers of 64 bits, can be freed
//! of its memories, and made a design without them.
#![tactic(auto)]

mod memories;
mod names;
mod numbers;
mod ready;

pub use memories::{sized_can_spread, spread_can_elaborate, spread_is_numbered};
pub use names::read_texts_are_plain;
pub use numbers::flat_is_numbered;
pub use ready::{flat_has_sized_texts, moved_blocks_stay_ready};
