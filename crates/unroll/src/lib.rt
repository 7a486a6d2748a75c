//! The obligations of a design's lines.
#![tactic(auto)]

mod copies;
mod design_line;
mod leaves;
mod line;
mod lines;
mod obs;
mod part;
mod rows;
mod segment;

pub use design_line::DesignLine;
pub use leaves::{Moment, cycle_of, level};
pub use line::begins_node;
pub use lines::lines_of;
pub use obs::{design_ob, design_obs};
pub use rows::segment_nodes;
pub use segment::places_of;
