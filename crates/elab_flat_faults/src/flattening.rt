ghost use Rattle.std.specs.Prelude.{◌≡◌};
ghost use Rattle.elab_flat_faults.specs.declared.flattening.FlatFault.TheVariants.{Memory};

use outside::Text;
use std::alloc::{AllocError, AllocFailed};

/// Why a list of modules has no flat module. A name is the hierarchical name, without the top's, of the signal,
/// parameter, port or instance at fault; for an expression it is that of the instance whose text it stands in, and the
/// top's name at the top.
#[derive(Drop)]
pub enum FlatFault {
    /// No module has the top's name.
    NoTop,
    /// A name, module, port or parameter is used and isn't declared.
    Unknown(Text),
    /// A name is declared twice in a module, two modules have one name, or one list of overrides names a parameter
    /// twice.
    Twice(Text),
    /// The ports of a module or of an instance don't fit.
    Port(Text),
    /// A module contains itself.
    Recursion(Text),
    /// The top and all instances are more than 4,096.
    Instances,
    /// What must be constant isn't, operands of `/` and `%` among it; a range isn't `[m:l]` with m >= l >= 0, or that
    /// of a memory's words `[0:n]`; or a divisor is 0 at the length and sign that it has in its place (IEEE 1364-2005,
    /// sections 4.2.1, 4.9 and 5.1.5).
    Constant(Text),
    /// A length isn't from 1 to 64 bits, a part-select leaves its vector, or a memory has more than 64 words.
    Width(Text),
    /// A block waits for other edges than the rising one of a clock, alone or beside an edge of a reset that its body
    /// tests first; the clock or the reset isn't an input of the top of one bit that is passed on by its name alone;
    /// blocks wait for two clocks; or the clock is read otherwise than to pass it on (IEEE 1364.1-2002, section 5.2.2).
    Clock(Text),
    /// Out of memory.
    Memory,
}

impl From<AllocError> for FlatFault {
    ghost from_gives = { λ _ fault. fault ≡ Memory };

    fn from(_error: AllocError) -> FlatFault {
        FlatFault::Memory
    }
}

impl<T: Drop> From<AllocFailed<T>> for FlatFault {
    ghost from_gives = { λ _ fault. fault ≡ Memory };

    fn from(_error: AllocFailed<T>) -> FlatFault {
        FlatFault::Memory
    }
}
