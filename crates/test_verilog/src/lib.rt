//! Rows of modules: tokens, trees, what stands for names, what follows in modules that are freed of memories, and the
//! faults of memories.
#![tactic(auto)]

#[cfg(test)]
mod flats;
#[cfg(test)]
mod leaves;
#[cfg(test)]
mod memory_faults;
#[cfg(test)]
mod modules;
#[cfg(test)]
mod names;
#[cfg(test)]
mod steps;
#[cfg(test)]
mod tokens;
