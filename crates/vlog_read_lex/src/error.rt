ghost use Rattle.std.specs.Prelude.{◌≡◌};
ghost use Rattle.vlog_read_lex.specs.declared.error.ReadFault.TheVariants.{Memory};

use std::alloc::AllocError;

/// Why a text is refused. The number is a byte's place.
#[derive(Clone, Copy, PartialEq, Eq)]
pub enum ReadFault {
    Bytes(usize),
    Number(usize),
    Outside(usize),
    Syntax(usize),
    Deep,
    Memory,
}

impl ReadFault {
    /// The fault itself; what its reader had read so far is dropped by this call: dropped in place, it would be proved
    /// anew at each exit.
    pub fn dropping<T: Drop>(self, _read: T) -> ReadFault
        ensures { result ≡ self }
    {
        self
    }
}

impl From<AllocError> for ReadFault {
    ghost from_gives = { λ _ fault. fault ≡ Memory };

    fn from(_error: AllocError) -> ReadFault {
        ReadFault::Memory
    }
}
