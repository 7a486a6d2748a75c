//! At one place of a list of tokens stands at most one part of a set's text, and the whole of it spells at most one
//! set. So no text both spells a set with nothing against it and is refused for a fault of its own. The lines of a
//! report are known by their names.
#![tactic(auto)]

mod line_names;
mod readings;

pub use line_names::lines_have_names;
pub use readings::{one_reading, one_set};
