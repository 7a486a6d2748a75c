//! Rows of words and of sets: their texts and structure, the lines that windows violate and that are refuted, and texts
//! that are made.
#![tactic(auto)]

#[cfg(test)]
mod counterexamples;
#[cfg(test)]
mod generated;
#[cfg(test)]
mod lines;
#[cfg(test)]
mod pieces;
#[cfg(test)]
mod sets;
#[cfg(test)]
mod windows;
#[cfg(test)]
mod words;
