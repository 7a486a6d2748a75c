//! The stages of a check: from two texts to a set of properties that is bound to the design of its modules.
#![tactic(auto)]

mod bound;
mod design;
mod texts;

pub use bound::bound_of;
pub use design::{design_of, flat_of};
pub use texts::{modules_of, set_of, try_modules, try_set};
