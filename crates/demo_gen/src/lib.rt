//! Generated texts: a chain of stages, each with a valid bit and 8 data bits, and its set of properties.
#![tactic(auto)]

mod parts;
mod texts;

pub use texts::{module_text, set_text};
