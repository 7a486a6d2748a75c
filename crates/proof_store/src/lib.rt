//! Goals settled by a prover: proofs that are kept count where they pass the check again, which workers do side by
//! side, helpers may claim what isn't kept, the rest is solved by workers, and new proofs are kept. Kept rows of
//! version 1 can be moved to version 2.
#![tactic(auto)]

mod checking;
mod crews;
mod fault;
mod goal;
mod helping;
mod keeping;
mod looking;
mod moving;
mod placing;
mod prover;
mod putting;
mod settings;
mod settling;
mod weight;

pub use fault::StoreFault;
pub use goal::{Decided, Goal, Source};
pub use keeping::keep;
pub use moving::{Moved, migrate};
pub use prover::Prover;
pub use settings::Settings;
pub use settling::Settled;
