//! Serves the desk that a keeper holds to connections, one after another.
#![tactic(auto)]

mod serving;

pub use serving::{Quota, serve, serve_one};
