//! Counterexamples: what is shown of a line that is refuted, and its text.
#![tactic(auto, using(crate::proofs::Putting::putting))]

mod cycle;
mod printing;
mod segment;
mod shown;
mod sinking;
mod source;
mod twin;
mod values;
mod window;

pub use printing::{print_trace, shown_text, trace_text};
pub use segment::{Reach, replay, rows_of_source, shown_segment};
pub use shown::{Shown, Start, Trace};
pub use sinking::{put, put_all, put_number, put_word};
pub use source::{Position, Source};
pub use twin::{trace_of, twin_trace};
