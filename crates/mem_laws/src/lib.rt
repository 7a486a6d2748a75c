//! Laws of memories: a module without memories that has the runs of one with memories, and which faults stand.
#![tactic(auto)]

mod fault;
mod law;

pub use fault::MemFault;
pub use law::{
    spread_declares_words, spread_keeps_runs, spread_texts_do_the_same, spread_texts_stay_ready,
};
