//! Nodes of words, dags that share and fold them, obligations taken out of dags, and their free words by their names.
#![tactic(auto)]

mod dag;
mod extraction;
mod fold;
mod index;
mod names;
mod node;
mod ob;
mod same;
mod values;
mod writing;

pub use dag::Dag;
pub use extraction::extract;
pub use names::{obligations_have_one_word_each, values_have_namings};
pub use node::{Node, Op};
pub use ob::{Named, Ob, copy_ob};
pub use values::{Table, fits, operate, value_at, value_of};
pub use writing::text;
