//! One connection: its request is read, and a reply is written to what its command came to.
#![tactic(auto)]

mod body;
mod laws;
mod request;
mod serve;

pub use laws::one_request;
pub use request::{Request, Take, read_request};
pub use serve::{Incoming, ServeFault, Served, receive, reply_to};
