//! Rows of the top call that a script of command lines can't tell: the obligation of a line that is asked for alone,
//! and workers at work at once. Rows of traces: rows of inputs that are read, machines as graphs, counterexamples as
//! waveforms, and what standard error says.
#![tactic(auto)]

#[cfg(test)]
mod alone;
#[cfg(test)]
mod examples;
#[cfg(test)]
mod gathering;
#[cfg(test)]
mod machines;
#[cfg(test)]
mod notes;
#[cfg(test)]
mod places;
#[cfg(test)]
mod running;
#[cfg(test)]
mod stimuli;
#[cfg(test)]
mod waves;
