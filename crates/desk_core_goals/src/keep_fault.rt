// Why no derivation is kept for a line.
ghost use Rattle.std.specs.Prelude.{◌≡◌};
ghost use Rattle.desk_core_goals.specs.declared.keep_fault.KeepFault.TheVariants.{Memory};
ghost use Rattle.desk_core_goals.specs.Keeping.{fault_of_line, fault_of_proof, fault_of_store};

use crate::LineFault;
use clause_check_texts::ProofFault;
use proof_store::StoreFault;
use std::alloc::AllocError;
use std::error::Error;
use std::fmt;

/// Why no derivation is kept for a line.
#[derive(Debug, Drop)]
pub enum KeepFault {
    /// The set's report has no line of the name.
    NoLine,
    /// The text has no derivation of the empty clause from the line's clauses.
    Proof(ProofFault),
    /// The record of the derivation, or the text of the line's obligation, has more bytes than may be kept.
    Large,
    /// The keeper of proofs failed.
    Keeper,
    /// Out of memory.
    Memory,
}

impl fmt::Display for KeepFault {
    fn fmt<W: fmt::Write>(&self, f: &mut fmt::Formatter<W>) -> fmt::Result {
        match self {
            KeepFault::NoLine => write!(f, "the report has no line of this name"),
            KeepFault::Proof(fault) => write!(f, "no derivation of the empty clause: {fault}"),
            KeepFault::Large => write!(
                f,
                "the derivation or the obligation is too long to be kept"
            ),
            KeepFault::Keeper => write!(f, "the keeper of proofs failed"),
            KeepFault::Memory => write!(f, "out of memory"),
        }
    }
}

impl Error for KeepFault {}

impl From<AllocError> for KeepFault {
    ghost from_gives = { λ _ fault. fault ≡ Memory };

    fn from(_error: AllocError) -> KeepFault {
        KeepFault::Memory
    }
}

impl From<LineFault> for KeepFault {
    ghost from_gives = { λ fault e. e ≡ fault_of_line fault };

    fn from(fault: LineFault) -> KeepFault {
        match fault {
            LineFault::NoLine => KeepFault::NoLine,
            LineFault::Keeper => KeepFault::Keeper,
            LineFault::Memory => KeepFault::Memory,
        }
    }
}

impl From<ProofFault> for KeepFault {
    ghost from_gives = { λ fault e. e ≡ fault_of_proof fault };

    fn from(fault: ProofFault) -> KeepFault {
        match fault {
            ProofFault::Memory => KeepFault::Memory,
            fault => KeepFault::Proof(fault),
        }
    }
}

impl From<StoreFault> for KeepFault {
    ghost from_gives = { λ fault e. e ≡ fault_of_store fault };

    fn from(fault: StoreFault) -> KeepFault {
        match fault {
            StoreFault::Keeper => KeepFault::Keeper,
            StoreFault::Memory => KeepFault::Memory,
        }
    }
}
