//! Tasks done with the elements of a list by workers in threads of their own, which draw the numbers of the elements
//! from one shared word; and obligations decided so.
#![tactic(auto)]

mod crew;
mod evidence;
mod order;
mod rule;
mod run;
mod task;
mod tickets;
mod work;

pub use crew::{Crew, Ran};
pub use evidence::Evidence;
pub use run::run_jobs;
pub use task::Task;
pub use tickets::{Seat, Tickets};
