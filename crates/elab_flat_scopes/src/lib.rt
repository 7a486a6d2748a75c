//! The parts of a module's text, in the order of its text: views that borrow from it.
#![tactic(auto)]

mod assign;
mod block;
mod decl;
mod given;
mod inner;
mod modules;
mod names;
mod param;
mod port;
mod signal;

pub use assign::{Assigned, Target, assigns_in};
pub use block::{Block, blocks_in};
pub use decl::{Decl, decls_in};
pub use given::{Given, given_to, overriding};
pub use inner::{Inner, instances_in};
pub use modules::Modules;
pub use names::Names;
pub use param::{Param, is_open, params_in};
pub use port::port_names;
pub use signal::{Signals, signals_in};
