//! Designs: what the cycles and rows of modules are to a set, and blocks as functions of words: what each signal is of
//! registers and inputs, and what each register is after a cycle.
#![tactic(auto)]

mod design;
mod flat_lines;
mod law;

pub use design::{Design, Net, Register};
pub use flat_lines::flat_lines_are_the_modules_lines;
pub use law::{design_lines_are_the_modules_lines, designs_have_one_cycle};
