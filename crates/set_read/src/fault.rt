ghost use Rattle.std.specs.Prelude.{◌≡◌, ℕ, List};
ghost use Rattle.vlog_tree.specs.declared.token.Token.{Token};
ghost use Rattle.vlog_read_lex.specs.Tokens.{LieWithin};
ghost use Rattle.set_read.specs.Read.{of_tokens, of_text, of_wrong, NamesByte, RefusesTokens};
ghost use Rattle.set_read.specs.declared.fault.SetFault.TheVariants.{Memory};
ghost use Rattle.set_read.specs.declared.fault.TextFault.TheVariants as text;

use outside::Text;
use set_read_lookup::{Quantity, Wrong};
use std::alloc::{AllocError, AllocFailed};
use vlog_read_lex::{ReadFault, byte_of};
use vlog_tree::Token;

/// Why a text is refused. The numbers are places of bytes.
#[derive(Drop)]
pub enum SetFault {
    /// A byte that begins no token, or a comment without its end.
    Bytes(usize),
    /// A number that breaks a rule.
    Number(usize),
    /// The tokens spell no set; the place is where the reader stopped.
    Syntax(usize),
    /// A formula, a cover or a successor uses a name that isn't declared, or a cover one that is no output.
    Unknown(Text),
    /// Two signals have a name, or two of the properties, constraints and invariants, or it stands twice in one list of
    /// successors.
    Twice(Text),
    /// A quantity leaves its bounds.
    Limit(Quantity),
    /// The set is higher than 500: a formula is higher than 498. It can come in place of `Syntax` for more than 500
    /// tokens.
    Deep,
    /// Out of memory.
    Memory,
}

impl From<AllocError> for SetFault {
    ghost from_gives = { λ _ fault. fault ≡ Memory };

    fn from(_error: AllocError) -> SetFault {
        SetFault::Memory
    }
}

impl<T: Drop> From<AllocFailed<T>> for SetFault {
    ghost from_gives = { λ _ fault. fault ≡ Memory };

    fn from(_error: AllocFailed<T>) -> SetFault {
        SetFault::Memory
    }
}

/// Why tokens spell no set. The number is the place of a token.
#[derive(Clone, Copy, PartialEq, Eq)]
pub enum TextFault {
    Syntax(usize),
    Deep,
    Memory,
}

impl TextFault {
    /// The fault itself; what its reader had read so far is dropped by this call: dropped in place, it would be proved
    /// anew at each exit.
    pub fn dropping<T: Drop>(self, _read: T) -> TextFault
        ensures { result ≡ self }
    {
        self
    }
}

impl From<AllocError> for TextFault {
    ghost from_gives = { λ _ fault. fault ≡ text.Memory };

    fn from(_error: AllocError) -> TextFault {
        TextFault::Memory
    }
}

impl<T: Drop> From<AllocFailed<T>> for TextFault {
    ghost from_gives = { λ _ fault. fault ≡ text.Memory };

    fn from(_error: AllocFailed<T>) -> TextFault {
        TextFault::Memory
    }
}

/// The refusal of a text by the reader of its tokens.
pub fn of_tokens(fault: ReadFault) -> SetFault
    ensures { result ≡ of_tokens fault }
{
    match fault {
        ReadFault::Bytes(at) => SetFault::Bytes(at),
        ReadFault::Number(at) => SetFault::Number(at),
        ReadFault::Outside(at) | ReadFault::Syntax(at) => SetFault::Syntax(at),
        ReadFault::Deep => SetFault::Deep,
        ReadFault::Memory => SetFault::Memory,
    }
}

/// The refusal of a text that is spelt.
pub fn of_wrong(wrong: Wrong) -> SetFault
    ensures { result ≡ of_wrong wrong }
{
    match wrong {
        Wrong::Unknown(name) => SetFault::Unknown(name),
        Wrong::Twice(name) => SetFault::Twice(name),
        Wrong::Limit(quantity) => SetFault::Limit(quantity),
        Wrong::Memory => SetFault::Memory,
    }
}

/// The refusal of tokens that spell no set, with the place of a byte.
pub fn of_text(tokens: &[Token], fault: TextFault) -> SetFault
    ensures refused { (ts : List Token) → RefusesTokens ts (of_text fault) → RefusesTokens ts result }
    ensures within { (size : ℕ) → LieWithin size tokens.now → NamesByte size result }
{
    match fault {
        TextFault::Syntax(at) => SetFault::Syntax(byte_of(tokens, at)),
        TextFault::Deep => SetFault::Deep,
        TextFault::Memory => SetFault::Memory,
    }
}
