ghost use Rattle.std.specs.Prelude.{◌≡◌};
ghost use Rattle.set_read_lookup.specs.declared.wrong.Wrong.TheVariants.{Memory};

use crate::quantity::Quantity;
use outside::Text;
use std::alloc::{AllocError, AllocFailed};

/// Why the text of a set means no set.
#[derive(Drop)]
pub enum Wrong {
    /// A formula, a cover or a successor uses a name that isn't declared, or a cover one that is no output.
    Unknown(Text),
    /// Two signals have a name, or two of the properties, constraints and invariants, or it stands twice in one list of
    /// successors.
    Twice(Text),
    /// A quantity leaves its bounds.
    Limit(Quantity),
    /// Out of memory.
    Memory,
}

impl From<AllocError> for Wrong {
    ghost from_gives = { λ _ fault. fault ≡ Memory };

    fn from(_error: AllocError) -> Wrong {
        Wrong::Memory
    }
}

impl<T: Drop> From<AllocFailed<T>> for Wrong {
    ghost from_gives = { λ _ fault. fault ≡ Memory };

    fn from(_error: AllocFailed<T>) -> Wrong {
        Wrong::Memory
    }
}
