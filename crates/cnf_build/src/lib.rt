//! Gates, circuits of gates for the operations on words, and the clauses of gates. The clauses of an obligation are
//! satisfiable exactly where values of its free words make its root 1.
#![tactic(auto)]

mod bits;
mod building;
mod circuit_laws;
mod circuits;
mod clauses;
mod gates;
mod laws;
mod lowering;
mod operations;
mod tidy;

pub use bits::Vars;
pub use building::{Built, build};
pub use circuit_laws::{
    adder_adds, clauses_run, product_sound, rows_compute, run_exists, wires_compute, words_compare,
    words_move, words_shift,
};
pub use circuits::{
    Bitwise, Direction, Sum, add, equal, false_lit, gate_row, inverted, moved, multiply, shift,
    subtract, true_lit,
};
pub use gates::{Gate, add_gate};
pub use laws::{example_clauses, ops_denote};
pub use tidy::{is_tidy, negative, positive, tidy_clause};
