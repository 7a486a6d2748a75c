// Why a command got no answer.
use std::error::Error;
use std::fmt;

/// Why a command got no answer.
#[derive(Clone, Copy, Debug, PartialEq, Eq)]
pub enum DeskFault {
    /// The desk's store failed.
    Keeper,
    /// Memory ran out.
    Memory,
}

impl fmt::Display for DeskFault {
    fn fmt<W: fmt::Write>(&self, f: &mut fmt::Formatter<W>) -> fmt::Result {
        f.write_str(match self {
            DeskFault::Keeper => "the desk's store failed",
            DeskFault::Memory => "out of memory",
        })
    }
}

impl Error for DeskFault {}
