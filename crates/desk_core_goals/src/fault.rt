// Why no lines are decided.
ghost use Rattle.std.specs.Prelude.{◌≡◌};
ghost use Rattle.desk_core_goals.specs.declared.fault.LineFault.TheVariants.{Memory};
ghost use Rattle.desk_core_goals.specs.Settled.{line_fault_of};

use proof_store::StoreFault;
use std::alloc::AllocError;
use std::error::Error;
use std::fmt;

/// Why no lines are decided.
#[derive(Debug, Drop)]
pub enum LineFault {
    /// The set's report has no line of the name that was asked for.
    NoLine,
    /// The keeper of proofs failed.
    Keeper,
    /// Out of memory.
    Memory,
}

impl fmt::Display for LineFault {
    fn fmt<W: fmt::Write>(&self, f: &mut fmt::Formatter<W>) -> fmt::Result {
        f.write_str(match self {
            LineFault::NoLine => "the report has no line of this name",
            LineFault::Keeper => "the keeper of proofs failed",
            LineFault::Memory => "out of memory",
        })
    }
}

impl Error for LineFault {}

impl From<AllocError> for LineFault {
    ghost from_gives = { λ _ fault. fault ≡ Memory };

    fn from(_error: AllocError) -> LineFault {
        LineFault::Memory
    }
}

impl From<StoreFault> for LineFault {
    ghost from_gives = { λ fault e. e ≡ line_fault_of fault };

    fn from(fault: StoreFault) -> LineFault {
        match fault {
            StoreFault::Keeper => LineFault::Keeper,
            StoreFault::Memory => LineFault::Memory,
        }
    }
}
