//! Records of derivations, as bytes: they are written, and read exactly.
//!
//! Both versions begin with the byte 44 (hexadecimal) and tell the number of steps; each step tells the number of its
//! literals, the literals, the number of its hints and the hints. A literal is told by twice its variable, and 1 more
//! where it is negative. Nothing follows the last step, and no clause has a variable twice.
//!
//! Version 1 goes on with the byte 31. Numbers of steps, of literals and of hints have four bytes each, literals and
//! hints eight, the highest byte first.
//!
//! Version 2 goes on with the byte 32, and all its numbers are varints: seven bits a byte from the lowest, with the top
//! bit set in all bytes but the last. The last byte isn't 0 unless it is the only one, and the value is below 2^64. The
//! first hint of a step stands as it is, each further one by twice its distance from the one before, and 1 more where
//! it is lower; a distance of 0 is told by 0.
//!
//! Variables and hints are below 2^32 in both versions.
//!
//! The step with the empty clause and the hint 5 is `44 31 00000001 00000000 00000001 0000000000000005` in version 1
//! and `44 32 01 00 01 05` in version 2.
#![tactic(auto)]

mod fits;
mod hints;
mod read;
mod varint;
mod version;
mod write;

pub use fits::{fits_version_1, record_fits};
pub use read::read_steps;
pub use write::{write_steps, write_steps_1};
