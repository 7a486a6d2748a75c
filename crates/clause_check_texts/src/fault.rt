// Why a text of LRAT is refused.
ghost use Rattle.std.specs.Prelude.{◌≡◌, ◌++◌, IfOk, OnOk, codes};
ghost use Rattle.std.specs.Fmt.{decimal};
ghost use Rattle.clause_check_texts.specs.Faults.{fault_text};

use crate::formula::push_number;
use outside::Text;
use std::alloc::{AllocError, Global};
use std::error::Error;
use std::fmt;

/// Why a text of LRAT is refused.
#[derive(Debug, Drop, PartialEq, Eq)]
pub enum ProofFault {
    /// The text has more than 67,108,864 bytes.
    Long,
    /// The line of this number, from 1, is no line of LRAT, or its step's ID isn't above all before it.
    Syntax(u64),
    /// The step of this line isn't implied by unit propagation along its hints.
    Unimplied(u64),
    /// The text ends before the empty clause.
    Open,
    /// There is no memory.
    Memory,
}

impl From<AllocError> for ProofFault {
    ghost use Rattle.std.specs.Prelude.{◌≡◌};
    ghost use Rattle.clause_check_texts.specs.declared.fault.ProofFault.TheVariants.{Memory};

    ghost from_gives = { λ _ fault. fault ≡ Memory };

    fn from(_error: AllocError) -> ProofFault {
        ProofFault::Memory
    }
}

impl fmt::Display for ProofFault {
    fn fmt<W: fmt::Write>(&self, f: &mut fmt::Formatter<W>) -> fmt::Result {
        match self {
            ProofFault::Long => write!(f, "Long"),
            ProofFault::Syntax(line) => write!(f, "Syntax {line}"),
            ProofFault::Unimplied(line) => write!(f, "Unimplied {line}"),
            ProofFault::Open => write!(f, "Open"),
            ProofFault::Memory => write!(f, "Memory"),
        }
    }
}

impl Error for ProofFault {}

// A word and the number of a line.
fn numbered(alloc: Global, word: &[u8], line: u64) -> Result<Text, AllocError>
    ensures { IfOk result (λ text. text ≡ word.now ++ decimal line) }
{
    let mut out = word.to_vec(alloc)?;
    push_number(alloc, &mut out, line)?;
    Ok(Text::new(out))
}

/// The text of a fault: its name, with a line's number behind `Syntax` and `Unimplied`.
pub fn fault_text(alloc: Global, fault: &ProofFault) -> Result<Text, AllocError>
    ensures { IfOk result (λ text. text ≡ fault_text fault.now) }
{
    match fault {
        ProofFault::Long => Text::copy(alloc, b"Long"),
        ProofFault::Syntax(line) => numbered(alloc, b"Syntax ", *line),
        ProofFault::Unimplied(line) => numbered(alloc, b"Unimplied ", *line),
        ProofFault::Open => Text::copy(alloc, b"Open"),
        ProofFault::Memory => Text::copy(alloc, b"Memory"),
    }
}
