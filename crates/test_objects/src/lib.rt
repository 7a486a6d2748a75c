//! Objects of the program's runs: what a run is given, what it came to, and what is told of that; kept proofs that are
//! damaged, and helpers whose claims are false; expressions as what they come to.
#![tactic(auto)]

mod aides;
mod damage;
mod inputs;
mod lies;
mod ran;
mod tell;
mod values;

pub use aides::{Aide, aide_of};
pub use damage::{Damage, Kept, Key, given, wrong};
pub use inputs::{Given, failing_port, failing_put};
pub use lies::{Liar, Lie};
pub use ran::{Counts, Ran};
pub use tell::{Tell, parts, text_of};
pub use values::{names, shown};
