//! The parameters and the signals of an instance: constants over parameters, ranges, and overrides.
#![tactic(auto)]

mod bound;
mod bounds;
mod constant;
mod param;
mod range;
mod signal;
mod stranger;
mod unfit;
mod value;
mod words;

pub use bounds::bounds_defined;
pub use constant::{Number, number_at};
pub use param::{ParamFault, params_of};
pub use range::{Vector, vector_of};
pub use signal::signal_of;
pub use stranger::stranger_in;
pub use unfit::{BadParam, BadRange, BadSignal, BadWords, Unfit};
pub use words::words_of;
