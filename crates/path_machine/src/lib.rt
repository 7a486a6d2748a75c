//! The abstract machine of a set: its properties are the transitions, and the path of a trace is the run of the
//! machine.
#![tactic(auto, using(replay::proofs::Putting::putting))]

mod failing;
mod graph;
mod law;
mod line;
mod path;
mod rows;
mod run;
mod stimulus;
mod texts;
mod words;

pub use failing::unmet;
pub use graph::machine_graph;
pub use law::run_traces_are_the_modules;
pub use path::path_of;
pub use rows::{RowFault, read_rows};
pub use run::run_trace;
pub use texts::{fault_text, machine_text, path_text, put_machine};
