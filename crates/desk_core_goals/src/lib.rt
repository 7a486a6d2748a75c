//! The obligations of a report's lines, of a set that is bound to a design. The lines that are asked for, decided, and
//! what they say of modules whose runs the design has. What other solvers are given of a line, and what is taken from
//! them: the clauses of its obligation, and a derivation of the empty clause from them, which is kept where our own
//! checker accepts it.
#![tactic(auto)]

mod clauses;
mod decide;
mod fault;
mod goals;
mod keep_fault;
mod keeping;
mod law;
mod lessen;
mod obs;
mod telling;
mod trace;

pub use clauses::clauses_text;
pub use decide::decide_lines;
pub use fault::LineFault;
pub use goals::{all_lines, goal_named, only};
pub use keep_fault::KeepFault;
pub use keeping::keep_proof;
pub use law::{decided_of_modules, obligations_of_a_line_agree, proved_lines_promise};
pub use obs::{ob_of_line, obs_of_all, obs_of_design};
pub use telling::{Kind, kind_of};
