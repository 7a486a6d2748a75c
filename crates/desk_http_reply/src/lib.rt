//! The bytes of replies: one for each answer of the desk, for each file of the page, for each cause of refusal, and
//! where the store or memory fails.
#![tactic(auto)]

mod body;
mod page_files;
mod replies;

pub use page_files::{PAGE_CSS, PAGE_HTML, PAGE_JS};
pub use replies::{Reply, STARVED, file_reply, keeper_reply, refusal_reply, reply_of};
