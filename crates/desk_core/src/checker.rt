// What commands are carried out by.
use desk_core_reports::Book;
use helper_box::Helper;
use outside::{Gate, Keeper};
use proof_store::Prover;
use std::thread::Threads;

/// What checks and commands are carried out by: a prover, whose keeper holds the desk, and the book of what was last
/// decided.
#[derive(Drop)]
pub struct Checker<'a, 'k, 'h, 'b, R: Threads + Sync, K: Keeper, H: Helper, G: Gate + Sync> {
    pub prover: Prover<'a, 'k, 'h, R, K, H, G>,
    pub book: &'b mut Book,
}
