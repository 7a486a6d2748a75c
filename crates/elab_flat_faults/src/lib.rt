//! Which faults stand: for a list of modules from its top, and for a module without instances. What flattening is asked
//! of the texts that are read, and what it hands on.
#![tactic(auto)]

mod elaborating;
mod flattening;

pub use elaborating::ElabFault;
pub use flattening::FlatFault;
