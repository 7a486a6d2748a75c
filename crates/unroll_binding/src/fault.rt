ghost use Rattle.std.specs.Prelude.{◌≡◌};
ghost use Rattle.unroll_binding.specs.declared.fault.BindFault.TheVariants.{Memory};

use outside::Text;
use std::alloc::AllocError;

/// Why a set doesn't fit a design. A name is that of a signal of the design or of the set.
#[derive(Drop)]
pub enum BindFault {
    /// The design has no signal of a name that the set declares.
    Missing(Text),
    /// The signal has another length than the set declares.
    WidthOf(Text),
    /// An input of the design other than the clock and the reset isn't declared in the set.
    ExtraInput(Text),
    /// A declared input is no input, or it is the clock or the reset; a declared output is no output; a declared state
    /// is an input; the clock or the reset is no input of one bit, or both are one; the design has another clock; or it
    /// has an asynchronous reset that isn't the set's reset at its level.
    Role(Text),
    /// Out of memory.
    Memory,
}

impl From<AllocError> for BindFault {
    ghost from_gives = { λ _ fault. fault ≡ Memory };

    fn from(_error: AllocError) -> BindFault {
        BindFault::Memory
    }
}
