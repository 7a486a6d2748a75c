// Why obligations can't be settled.
ghost use Rattle.std.specs.Prelude.{◌≡◌};
ghost use Rattle.proof_store.specs.Causes.{store_fault_of};

use outside::OutFault;
use std::alloc::{AllocError, AllocFailed};
use std::error::Error;
use std::fmt;

/// Why a call over a keeper gave no answer.
#[derive(Clone, Copy, Debug, PartialEq, Eq)]
pub enum StoreFault {
    /// The keeper failed: its count of faults rose in this call, or stands at its last value, 2^64 - 1.
    Keeper,
    /// Out of memory.
    Memory,
}

impl fmt::Display for StoreFault {
    fn fmt<W: fmt::Write>(&self, f: &mut fmt::Formatter<W>) -> fmt::Result {
        f.write_str(match self {
            StoreFault::Keeper => "the keeper of proofs failed",
            StoreFault::Memory => "out of memory",
        })
    }
}

impl Error for StoreFault {}

impl From<OutFault> for StoreFault {
    ghost from_gives = { λ fault e. e ≡ store_fault_of fault };

    fn from(fault: OutFault) -> Self {
        match fault {
            OutFault::Failed => StoreFault::Keeper,
            OutFault::Memory => StoreFault::Memory,
        }
    }
}

impl From<AllocError> for StoreFault {
    ghost use Rattle.proof_store.specs.declared.fault.StoreFault.TheVariants.{Memory};

    ghost from_gives = { λ _ e. e ≡ Memory };

    fn from(_: AllocError) -> Self {
        StoreFault::Memory
    }
}

impl<T: Drop> From<AllocFailed<T>> for StoreFault {
    ghost use Rattle.proof_store.specs.declared.fault.StoreFault.TheVariants.{Memory};

    ghost from_gives = { λ _ e. e ≡ Memory };

    fn from(_: AllocFailed<T>) -> Self {
        StoreFault::Memory
    }
}
