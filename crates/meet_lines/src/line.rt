// The lines of what can be met.
ghost use Rattle.std.specs.Prelude.{◌≡◌, IfOk};
ghost use Rattle.meet_lines.specs.Lines.{SpeaksOf, meet_lines};
ghost use Rattle.meet_lines.specs.Named.{meet_name};

use outside::Text;
use set_tree::Set;
use set_tree_structure::Sound;
use std::alloc::{AllocError, Global};
use twin_tests::property_of;

/// A line of what can be met. An operation goes by its position, i being operation i - 1.
#[derive(Clone, Copy, Debug, PartialEq, Eq)]
pub enum MeetLine {
    /// `reset`: some run from reset goes on for the largest window.
    Reset,
    /// `P`: some segment of P's window begins where P is assumed.
    Operation(u32),
}

/// The lines of a set: `reset`, and then the operations in the order of the set.
pub fn meet_lines_of(alloc: Global, set: &Sound) -> Result<Vec<MeetLine>, AllocError>
    ensures { IfOk result (λ lines. lines.items ≡ meet_lines set.now) }
{
    let operations = set.set().operations.as_slice().len() as u32;
    let mut lines = Vec::new(alloc);
    lines.push(MeetLine::Reset)?;
    for at in 0..operations {
        lines.push(MeetLine::Operation(at + 1))?;
    }
    Ok(lines)
}

/// The name of a line: `reset`, or the operation's name.
pub fn meet_name(alloc: Global, set: &Set, line: MeetLine) -> Result<Text, AllocError>
    requires { SpeaksOf set.now line }
    ensures { IfOk result (λ name. name ≡ meet_name set.now line) }
{
    match line {
        MeetLine::Reset => Text::copy(alloc, b"reset"),
        MeetLine::Operation(p) => Text::copy(alloc, property_of(set, p as usize).name.bytes()),
    }
}
