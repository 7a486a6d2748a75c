//! What can be met: which properties some run of a design starts, as obligations, and the segments that show it.
#![tactic(auto)]

mod decide;
mod goals;
mod laws;
mod line;
mod meeting;
mod node;
mod obs;
mod report;
mod segments;
mod trace;

pub use laws::{
    met_lines_are_the_modules, met_lines_have_values, obligations_decide, tests_are_exact,
    tests_are_of_lines,
};
pub use line::{MeetLine, meet_lines_of, meet_name};
pub use meeting::meet;
pub use obs::meet_obs;
pub use trace::meet_trace;
