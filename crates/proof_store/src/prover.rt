// What goals are settled by.
use crate::settings::Settings;
use helper_box::Helper;
use outside::{Gate, Keeper};
use std::alloc::Global;
use std::thread::Threads;

/// What goals are settled by: a keeper of proofs, helpers that may claim, workers in threads of this runtime, each of
/// which enters the gate before each of its jobs, and how much is spent.
#[derive(Drop)]
pub struct Prover<'a, 'k, 'h, R: Threads + Sync, K: Keeper, H: Helper, G: Gate + Sync> {
    pub rt: &'a R,
    pub alloc: Global,
    pub settings: Settings,
    pub keeper: &'k mut K,
    pub helpers: &'h mut Vec<H>,
    pub gate: &'a G,
}
