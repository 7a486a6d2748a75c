//! The evaluator: lengths, signs and values of expressions, by IEEE 1364-2005 sections 5.1, 5.2, 5.4 and 5.5. Calls
//! that are passed an allocator take each count once, at the cost of a copy of the expression; the others take no
//! memory.
#![tactic(auto)]

mod counts;
mod evaluate;
mod names;
mod operators;
mod selects;

pub use counts::{evaluated, evaluated_at, folded, measured};
pub use evaluate::{checked_own_value, checked_value, is_signed, own_value, shape_of, value};
pub use names::number_width;
pub use operators::{
    Counting, Family, cut, family_of, integer, is_reduction, joined_shape, left_place, longer,
    low_bits, placing, right_place, sizing,
};
