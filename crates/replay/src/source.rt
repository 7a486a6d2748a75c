// Where the values of a segment's registers and inputs come from.
ghost use Rattle.std.specs.Prelude.{◌≡◌, ◌<◌, ℕ};
ghost use Rattle.word_dag.specs.Nodes.{Naming};
ghost use Rattle.unroll_laws.specs.Segments.{cycle_number};
ghost use Rattle.replay.specs.Values.{AreOf};

use crate::values::{Values, value_at};
use unroll::{Moment, cycle_of};

/// The place of a cycle in a segment, and how many of the segment's first cycles are reset cycles. Cycle 0 is the first
/// one behind those.
#[derive(Clone, Copy)]
pub struct Position {
    pub at: usize,
    pub resets: u8,
}

/// Where the values of a segment's registers and inputs come from.
pub trait Source {
    ghost use Rattle.std.specs.Prelude.{ℕ};
    ghost use Rattle.word_dag.specs.Nodes.{Naming};

    /// It has the values of this naming.
    ghost gives: { Self → Naming → Type 0 };

    /// For how many cycles from the first one on.
    ghost count: { Self → ℕ };

    /// The value of a word in the cycle at a position, where so many reset cycles stand before cycle 0.
    fn value(&self, name: &[u8], position: Position) -> u64
        requires { position.at < count self.now }
        ensures { (e : Naming) → gives self.now e → result ≡ e name.now 0 (cycle_number position.resets position.at) };
}

impl Source for Values<'_> {
    ghost gives = { λ values e. AreOf e values };

    ghost count = { λ values. 256 };

    fn value(&self, name: &[u8], position: Position) -> u64 {
        let moment = Moment {
            position: position.at as u8,
            resets: position.resets,
        };
        value_at(self, name, 0, cycle_of(moment))
    }
}
