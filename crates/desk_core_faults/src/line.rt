// The line and the status of a refusal.
ghost use Rattle.std.specs.Prelude.{◌≡◌, ◌++◌, IfOk};
ghost use Rattle.desk_core_faults.specs.Texts.{fault_line, status_of};

use crate::CheckFault;
use crate::designs::{bind_text, module_text};
use crate::sets::stop_text;
use outside::Text;
use std::alloc::{AllocError, Global};

fn behind(alloc: Global, head: &[u8], text: &Text) -> Result<Text, AllocError>
    ensures { IfOk result (λ line. line ≡ head.now ++ text.now) }
{
    let mut line = Text::copy(alloc, head)?;
    line.append(text.bytes())?;
    Ok(line)
}

/// The line of a refusal, without its line feed.
pub fn fault_line(alloc: Global, fault: &CheckFault) -> Result<Text, AllocError>
    ensures { IfOk result (λ line. line ≡ fault_line fault.now) }
{
    match fault {
        CheckFault::Module(fault) => {
            let text = module_text(alloc, fault)?;
            behind(alloc, b"module: ", &text)
        }
        CheckFault::Set(stop) => {
            let text = stop_text(alloc, stop)?;
            behind(alloc, b"set: ", &text)
        }
        CheckFault::Bind(fault) => {
            let text = bind_text(alloc, fault)?;
            behind(alloc, b"bind: ", &text)
        }
        CheckFault::NoLine => Text::copy(alloc, b"usage"),
        CheckFault::Keeper => Text::copy(alloc, b"keeper"),
        CheckFault::Memory => Text::copy(alloc, b"memory"),
    }
}

/// The exit status of a refusal.
pub fn status_of(fault: &CheckFault) -> u8
    ensures { result ≡ status_of fault.now }
{
    match fault {
        CheckFault::Module(_) => 3,
        CheckFault::Set(_) => 4,
        CheckFault::Bind(_) => 5,
        CheckFault::NoLine => 2,
        CheckFault::Keeper => 8,
        CheckFault::Memory => 70,
    }
}
