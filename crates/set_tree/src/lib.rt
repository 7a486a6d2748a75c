//! Sets of operation properties: their trees, what their texts spell, and what they mean.
#![tactic(auto)]

mod line;
mod path;
mod rows;
mod set;
mod text;

pub use line::Line;
pub use path::{At, Path};
pub use rows::Rows;
pub use set::{Cover, Length, Name, Property, Role, Rule, Set, To};
pub use text::{
    Bits, CoverText, Declaration, EndText, LengthText, PropertyText, RuleKind, RuleText, SetText,
    Until,
};
