// Which rule a text breaks.

ghost use Rattle.std.specs.Prelude.{◌≡◌};
ghost use Rattle.elab_flat_widths.specs.declared.violation.Violation.TheVariants.{Memory};

use std::alloc::AllocError;

/// A rule that a text breaks.
#[derive(Clone, Copy, PartialEq, Eq)]
pub enum Violation {
    /// What must be constant isn't, or a divisor is 0.
    Constant,
    /// A length isn't from 1 to 64 bits, or a part-select leaves its vector.
    Length,
    /// None: memory is wanting.
    Memory,
}

impl From<AllocError> for Violation {
    ghost from_gives = { λ _ violation. violation ≡ Memory };

    fn from(_error: AllocError) -> Violation {
        Violation::Memory
    }
}
