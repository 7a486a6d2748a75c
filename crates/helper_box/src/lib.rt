//! Helpers that may claim how an obligation ends. A claim counts only where it passes a check of our own, so nothing is
//! promised of what helpers claim.
#![tactic(auto)]

mod claim;
mod offering;
mod passing;
mod sampler;
mod source;
mod table;
mod units;

pub use claim::{Claim, Claims, Helper};
pub use offering::{claims_of, offer_all, offer_ready};
pub use sampler::Sampler;
pub use table::Table;
pub use units::Units;
