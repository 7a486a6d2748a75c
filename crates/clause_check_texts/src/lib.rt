//! Formulas as DIMACS texts, and derivations read from LRAT texts.
//!
//! `dimacs` writes what the solvers of the SAT competitions read. `read_proof` reads what they tell of an unsatisfiable
//! formula in the text form of LRAT (Cruz-Filipe, Heule, Hunt, Kaufmann and Schneider-Kamp, 2017): a line `ID LIT.. 0
//! HINT.. 0` adds a step, and a line `ID d ID.. 0` deletes clauses. What it gives is a refutation as `clause_check`
//! defines it, whoever wrote the text.
#![tactic(auto)]

mod fault;
mod follow;
mod formula;
mod ids;
mod line;
mod read;
mod words;

pub use fault::{ProofFault, fault_text};
pub use formula::dimacs;
pub use read::read_proof;
