//! The top call over real objects: files, standard output, proofs and a desk in a file, connections to this machine,
//! and threads.
#![tactic(auto)]

mod objects;
mod progress;

pub use objects::answer;
pub use progress::Told;
