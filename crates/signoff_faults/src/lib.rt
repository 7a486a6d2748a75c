//! What a refusal is about, for a reader at a terminal: the place of its fault in the text, a sentence that says what
//! is wrong and what would be right, and the line of the place. The calls are safe and end; that the places and the
//! sentences are right is tested, not proved.
#![tactic(auto)]

mod covers;
mod elab;
mod explain;
mod finding;
mod fit;
mod flat;
mod help;
mod limits;
mod mem;
mod ports;
mod reading;
mod sources;
mod structure;
mod subset;
mod syntax;

pub use explain::{Files, Texts, explained};
pub use help::{usage, version};
