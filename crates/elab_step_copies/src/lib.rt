//! Nodes of one dag made again in another one, where the free words of the first are the nodes of leaves (composition
//! of functions).
#![tactic(auto)]

mod copier;
mod lists;
mod made;
mod words;

pub use copier::Copier;
