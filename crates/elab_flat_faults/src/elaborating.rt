ghost use Rattle.std.specs.Prelude.{◌≡◌};
ghost use Rattle.elab_flat_faults.specs.declared.elaborating.ElabFault.TheVariants.{Memory};

use outside::Text;
use std::alloc::{AllocError, AllocFailed};

/// Why a module without instances has no functions. A name is that of the signal at fault, and a bit goes by its
/// declared number.
#[derive(Drop)]
pub enum ElabFault {
    /// A combinational block drives a bit that some path through it doesn't set.
    Latch(Text),
    /// A signal depends on itself within a cycle.
    Loop(Text),
    /// A bit has two drivers.
    Drivers(Text, u64),
    /// A bit that is read, or that is of an output of the top, has no driver and is of no register.
    Undriven(Text, u64),
    /// A list of names leaves out one that its block reads.
    Sensitivity(Text),
    /// The wrong form of assignment for the block or the declaration, or a signal that a clocked and a combinational
    /// block both assign.
    Kind(Text),
    /// Out of memory.
    Memory,
}

impl From<AllocError> for ElabFault {
    ghost from_gives = { λ _ fault. fault ≡ Memory };

    fn from(_error: AllocError) -> ElabFault {
        ElabFault::Memory
    }
}

impl<T: Drop> From<AllocFailed<T>> for ElabFault {
    ghost from_gives = { λ _ fault. fault ≡ Memory };

    fn from(_error: AllocFailed<T>) -> ElabFault {
        ElabFault::Memory
    }
}
