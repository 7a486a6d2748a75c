//! A counterexample as a waveform: a value change dump (IEEE 1364-2005, clause 18), which GTKWave and Surfer show.
#![tactic(auto)]

mod cycles;
mod line;
mod parts;
mod scopes;
mod wave;
mod waves;

pub use line::wave_of;
pub use wave::{First, Signal, Wave};
pub use waves::wave_text;
