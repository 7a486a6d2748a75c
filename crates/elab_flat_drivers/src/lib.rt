//! What drives the bits of a module without instances, and which of its assignments have the wrong form.
#![tactic(auto)]

mod claims;
mod declared;
mod drivers;
mod kind;
mod lacking;
mod masks;
mod names;
mod parts;
mod pieces;
mod wanted;

pub use claims::{Claim, Run, bit_run, clipped, known, ones, span_run};
pub use declared::{Declared, names_of};
pub use drivers::{Driver, driven_twice, driver_claims};
pub use kind::wrongly_assigned;
pub use lacking::undriven;
pub use masks::{Bit, clash, no_bits};
pub use names::{Form, add_left_names, block_names};
pub use parts::{Part, add_parts, add_reads, name_of, parts_of, reads_of};
pub use pieces::{Piece, pieces_of};
pub use wanted::add_store_reads;
