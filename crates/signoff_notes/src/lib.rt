//! What a counterexample shows, for a reader at a terminal: a sentence that says which commitment, invariant,
//! assumption, hand-over or output is violated and at which cycle, its place in the set's text, and the values of the
//! names that are read. The calls are safe and end; that the sentences are right is tested, not proved.
#![tactic(auto)]

mod design;
mod note;
mod scene;
mod span;
mod twin;
mod window;

pub use note::trace_note;
pub use scene::SetFile;
