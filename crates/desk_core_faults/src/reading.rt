// Faults of the readers.
ghost use Rattle.std.specs.Prelude.{◌≡◌, IfOk};
ghost use Rattle.desk_core_faults.specs.Texts.{read_text, set_text};

use crate::put::{at_byte, with_word};
use outside::Text;
use set_read::SetFault;
use std::alloc::{AllocError, Global};
use vlog_read_lex::ReadFault;

/// A fault of the reader of modules.
pub fn read_text(alloc: Global, fault: &ReadFault) -> Result<Text, AllocError>
    ensures { IfOk result (λ text. text ≡ read_text fault.now) }
{
    match fault {
        ReadFault::Bytes(at) => at_byte(alloc, b"Bytes", *at),
        ReadFault::Number(at) => at_byte(alloc, b"Number", *at),
        ReadFault::Outside(at) => at_byte(alloc, b"Outside", *at),
        ReadFault::Syntax(at) => at_byte(alloc, b"Syntax", *at),
        ReadFault::Deep => Text::copy(alloc, b"Deep"),
        ReadFault::Memory => Text::copy(alloc, b"Memory"),
    }
}

/// A fault of the reader of sets.
pub fn set_text(alloc: Global, fault: &SetFault) -> Result<Text, AllocError>
    ensures { IfOk result (λ text. text ≡ set_text fault.now) }
{
    match fault {
        SetFault::Bytes(at) => at_byte(alloc, b"Bytes", *at),
        SetFault::Number(at) => at_byte(alloc, b"Number", *at),
        SetFault::Syntax(at) => at_byte(alloc, b"Syntax", *at),
        SetFault::Unknown(name) => with_word(alloc, b"Unknown", name.bytes()),
        SetFault::Twice(name) => with_word(alloc, b"Twice", name.bytes()),
        SetFault::Limit(quantity) => with_word(alloc, b"Limit", quantity.word()),
        SetFault::Deep => Text::copy(alloc, b"Deep"),
        SetFault::Memory => Text::copy(alloc, b"Memory"),
    }
}
