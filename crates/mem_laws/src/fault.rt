ghost use Rattle.std.specs.Prelude.{◌≡◌};
ghost use Rattle.mem_laws.specs.declared.fault.MemFault.TheVariants.{Memory};

use outside::Text;
use std::alloc::{AllocError, AllocFailed};

/// Why a module without instances can't be freed of its memories.
#[derive(Drop)]
pub enum MemFault {
    /// A memory's word has a name that is declared already.
    Twice(Text),
    /// A memory is used without exactly one plain index.
    Whole(Text),
    /// The index of this memory contains a read of a memory.
    Nested(Text),
    /// A memory is signed, is assigned nowhere, or is assigned otherwise than by `<=` in a clocked block.
    Kind(Text),
    /// Indexed uses of memories are more than 1,024.
    Uses,
    /// Out of memory.
    Memory,
}

impl From<AllocError> for MemFault {
    ghost from_gives = { λ _ fault. fault ≡ Memory };

    fn from(_error: AllocError) -> MemFault {
        MemFault::Memory
    }
}

impl<T: Drop> From<AllocFailed<T>> for MemFault {
    ghost from_gives = { λ _ fault. fault ≡ Memory };

    fn from(_error: AllocFailed<T>) -> MemFault {
        MemFault::Memory
    }
}
