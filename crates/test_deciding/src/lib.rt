//! Rows of the deciding layer: words, derivations, their records and texts, the solver and the simplifier, least
//! values, helpers, the workers, and obligations settled over a keeper.
#![tactic(auto)]

#[cfg(test)]
mod derivations;
#[cfg(test)]
mod faults;
#[cfg(test)]
mod formulas;
#[cfg(test)]
mod helpers;
#[cfg(test)]
mod jobs;
#[cfg(test)]
mod least;
#[cfg(test)]
mod proofs;
#[cfg(test)]
mod records;
#[cfg(test)]
mod settling;
#[cfg(test)]
mod simplifying;
#[cfg(test)]
mod solver;
#[cfg(test)]
mod words;
