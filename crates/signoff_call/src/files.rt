// What is read for a command.
ghost use Rattle.std.specs.Prelude.{◌≡◌, ◌≤◌, IfOk};
ghost use Rattle.outside.specs.Faults.{HasCause};
ghost use Rattle.signoff_call.specs.Run.{IsFile, IsRead, IsThird};

use outside::{OutFault, Shelf, Text};
use signoff_words::{Job, Task};
use std::alloc::{AllocError, Global};

/// The text of a module, that of a set, and that of a third file, which is empty where a command has none.
#[derive(Drop)]
pub struct Texts {
    pub module: Text,
    pub set: Text,
    pub third: Text,
}

/// What was read. The files are read in the order of the words.
#[derive(Drop)]
pub enum Read {
    NoModule,
    NoSet,
    NoThird,
    All(Texts),
}

// The most bytes of a module's text, a set's, and of rows.
const LIMIT: usize = 1048576;

// The most bytes of a derivation's text.
const PROOF_LIMIT: usize = 67108864;

// Reads a file up to one byte past a limit.
fn read_text<F: Shelf>(
    alloc: Global,
    shelf: &mut F,
    name: &Text,
    limit: usize,
) -> Result<Text, OutFault>
    requires { limit ≤ 67108864 }
    ensures is { IfOk result (IsFile (F.files shelf.old) limit name.now) }
    ensures same { F.files shelf.new ≡ F.files shelf.old }
    ensures cause { HasCause (F.faults shelf.old) (F.faults shelf.new) result }
{
    let bytes = shelf.read(alloc, name.bytes(), limit)?;
    Ok(Text::new(bytes))
}

// Reads the third file, where the command has one.
fn read_third<F: Shelf>(alloc: Global, shelf: &mut F, task: &Task) -> Result<Text, OutFault>
    ensures is { IfOk result (IsThird (F.files shelf.old) task.now) }
    ensures cause { HasCause (F.faults shelf.old) (F.faults shelf.new) result }
{
    match task {
        Task::Walk(rows) => read_text(alloc, shelf, rows, LIMIT),
        Task::Accept(given) => read_text(alloc, shelf, &given.proof, PROOF_LIMIT),
        Task::Decide(_)
        | Task::Wave(_)
        | Task::Meet(_)
        | Task::Machine(_)
        | Task::Lines
        | Task::Clauses(_) => Ok(Text::new(Vec::new(alloc))),
    }
}

/// Reads the module, then the set, and then the third file, where the command has one.
pub fn read_all<F: Shelf>(alloc: Global, shelf: &mut F, job: &Job) -> Result<Read, AllocError>
    ensures { IfOk result (λ read. IsRead (F.files shelf.old) (F.faults shelf.old) (F.faults shelf.new) job.now read) }
{
    let module = match read_text(alloc, shelf, &job.module, LIMIT) {
        Ok(text) => text,
        Err(OutFault::Failed) => return Ok(Read::NoModule),
        Err(OutFault::Memory) => return Err(AllocError),
    };
    let set = match read_text(alloc, shelf, &job.set, LIMIT) {
        Ok(text) => text,
        Err(OutFault::Failed) => return Ok(Read::NoSet),
        Err(OutFault::Memory) => return Err(AllocError),
    };
    match read_third(alloc, shelf, &job.task) {
        Ok(third) => Ok(Read::All(Texts { module, set, third })),
        Err(OutFault::Failed) => Ok(Read::NoThird),
        Err(OutFault::Memory) => Err(AllocError),
    }
}
