//! Plain programs for tests: whether values of a module's signals are a cycle, whether a cycle follows another one,
//! whether cycles are a run, and whether rows break a line of a design. Rows tell the last without the design.
#![tactic(auto)]

mod board;
mod judge;
mod laws;
mod masks;
mod numbers;
mod parts;
mod runs;
mod segments;
mod values;

pub use judge::{follows, is_cycle};
pub use laws::violations_are_breaking_runs;
pub use runs::is_run;
pub use segments::is_broken;
pub use values::are_values;
