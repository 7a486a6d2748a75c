// The command that words spell.
ghost use Rattle.std.specs.Prelude.{◌≡◌, ◌≤◌, map, option_map, string_bytes, IfOk, IfSome};
ghost use Rattle.signoff_words.specs.Commands.{HasBounds, IsBounded, command_by, command_of, command_with, job_of, serve_of, task_of, texts_of, wants_of};
ghost use Rattle.signoff_words.specs.Numbers.{number_within};
ghost use Rattle.signoff_words.specs.Options.{AreBounded};
ghost use Rattle.signoff_words.specs.declared.command.Command.TheVariants as c;
ghost use Rattle.signoff_words.specs.Seen.{seen};

use crate::command::{Acceptance, Command, Form, Job, Service, Task, Wants};
use crate::name::Name;
use crate::number::number_within;
use crate::options::{DEFAULT_TIMEOUT, Options};
use crate::reading::{Reading, read};
use desk_core_commands::Which;
use outside::Text;
use std::alloc::{AllocError, Global};

fn copied(alloc: Global, word: &Text) -> Result<Text, AllocError>
    ensures { IfOk result (λ text. text ≡ word.now) }
{
    Text::copy(alloc, word.bytes())
}

// What is done with two texts, by the words behind their files.
fn task_of(
    alloc: Global,
    name: Name,
    options: &Options,
    words: &[Text],
) -> Result<Option<Task>, AllocError>
    ensures { IfOk result (λ o. o ≡ task_of name options.now words.now) }
{
    let task = match (name, words) {
        (Name::Ops, []) => Task::Decide(Which::Ops),
        (Name::Check, []) => Task::Decide(Which::All),
        (Name::Trace, [line]) => Task::Decide(Which::One(copied(alloc, line)?)),
        (Name::Least, [line]) => Task::Decide(Which::Least(copied(alloc, line)?)),
        (Name::Wave, [line]) => Task::Wave(copied(alloc, line)?),
        (Name::Meet, []) => Task::Meet(None),
        (Name::Meet, [property]) => Task::Meet(Some(copied(alloc, property)?)),
        (Name::Machine, []) => Task::Machine(Form::of(options.dot)),
        (Name::Walk, [rows]) => Task::Walk(copied(alloc, rows)?),
        (Name::Lines, []) => Task::Lines,
        (Name::Clauses, [line]) => Task::Clauses(copied(alloc, line)?),
        (Name::Accept, [line, proof]) if options.store.is_some() => Task::Accept(Acceptance {
            line: copied(alloc, line)?,
            proof: copied(alloc, proof)?,
        }),
        _ => return Ok(None),
    };
    Ok(Some(task))
}

fn job_of(
    alloc: Global,
    module: &Text,
    set: &Text,
    options: &Options,
    task: Task,
) -> Result<Job, AllocError>
    requires { AreBounded options.now }
    ensures is { IfOk result (λ j. j ≡ job_of «module».now set.now options.now task) }
    ensures bounded { IfOk result HasBounds }
{
    let store = match &options.store {
        None => None,
        Some(file) => Some(copied(alloc, file)?),
    };
    Ok(Job {
        task,
        module: copied(alloc, module)?,
        set: copied(alloc, set)?,
        budget: options.budget,
        workers: options.workers,
        store,
        progress: options.progress,
    })
}

// What is done with the texts of two files, which are the first words.
fn texts_of(
    alloc: Global,
    name: Name,
    options: &Options,
    words: &[Text],
) -> Result<Option<Command>, AllocError>
    requires { AreBounded options.now }
    ensures is { IfOk result (λ o. o ≡ texts_of name options.now words.now) }
    ensures bounded { IfOk result (λ o. IfSome o IsBounded) }
{
    let [module, set, rest @ ..] = words else {
        return Ok(None);
    };
    match task_of(alloc, name, options, rest)? {
        Some(task) => Ok(Some(Command::Texts(job_of(alloc, module, set, options, task)?))),
        None => Ok(None),
    }
}

// A desk that is served.
fn serve_of(
    alloc: Global,
    options: &Options,
    port: &Text,
    count: &Text,
    file: &Text,
) -> Result<Option<Command>, AllocError>
    requires { AreBounded options.now }
    ensures is { IfOk result (λ o. o ≡ serve_of options.now port.now count.now file.now) }
    ensures bounded { IfOk result (λ o. IfSome o IsBounded) }
{
    let Some(port) = number_within(1, 65_535, port.bytes()) else {
        return Ok(None);
    };
    let Some(count) = number_within(1, 1_000_000, count.bytes()) else {
        return Ok(None);
    };
    Ok(Some(Command::Serve(Service {
        port: port as u16,
        count: count as u32,
        file: copied(alloc, file)?,
        timeout: options.timeout,
        replied: options.replied,
        budget: options.budget,
        workers: options.workers,
    })))
}

// A generated check.
fn demo_of(stages: &Text) -> Option<Command>
    ensures is { result ≡ option_map c.Demo (number_within 1 64 stages.now) }
    ensures bounded { IfSome result IsBounded }
{
    let stages = number_within(1, 64, stages.bytes())?;
    Some(Command::Demo(stages as u32))
}

// The command of a name, with what options say and the plain words.
fn command_with(
    alloc: Global,
    name: Name,
    options: &Options,
    words: &[Text],
) -> Result<Option<Command>, AllocError>
    requires { AreBounded options.now }
    ensures is { IfOk result (λ o. o ≡ command_with name options.now words.now) }
    ensures bounded { IfOk result (λ o. IfSome o IsBounded) }
{
    match (name, words) {
        (Name::Demo, [stages]) => Ok(demo_of(stages)),
        (Name::Serve, [port, count, file]) => serve_of(alloc, options, port, count, file),
        (Name::Migrate, [file]) => Ok(Some(Command::Migrate(copied(alloc, file)?))),
        _ => texts_of(alloc, name, options, words),
    }
}

// The command of a name that may have the options that are given.
fn command_by(alloc: Global, name: Name, read: &Reading) -> Result<Option<Command>, AllocError>
    requires { AreBounded read.now.options }
    ensures is { IfOk result (λ o. o ≡ command_by name (seen read.now)) }
    ensures bounded { IfOk result (λ o. IfSome o IsBounded) }
{
    if name.takes_all(&read.given) {
        command_with(alloc, name, &read.options, &read.plain)
    } else {
        Ok(None)
    }
}

/// The command that words spell. The first one is its name. Options stand anywhere after it, each at most once, as `--x
/// v` or `--x=v`, or as `--replied`, `--dot` and `--progress`, which have no value; a value of the first form doesn't
/// begin with `-`. The word `--` ends the options, and before it any other word that begins with `-` and isn't `-`
/// alone is wrong. A number is 1 to 10 decimal digits and nothing else. None: the words are no command.
pub fn command_in(alloc: Global, words: &[String]) -> Result<Option<Command>, AllocError>
    ensures is { IfOk result (λ o. o ≡ command_of (map string_bytes words.now)) }
    ensures bounded { IfOk result (λ o. IfSome o IsBounded) }
{
    let [name, rest @ ..] = words else {
        return Ok(None);
    };
    let Some(name) = Name::of(name.as_bytes()) else {
        return Ok(None);
    };
    match read(alloc, rest)? {
        Some(read) => command_by(alloc, name, &read),
        None => Ok(None),
    }
}

/// What the command that words spell wants opened: the file of proofs that an option `--store` names, that `migrate`
/// moves, or that holds the desk of `serve`, and the port of `serve` with the seconds that a peer has there. Neither
/// file nor port where the words are no command, or it names none.
pub fn wants(alloc: Global, words: &[String]) -> Result<Wants, AllocError>
    ensures { IfOk result (λ w. w ≡ wants_of (command_of (map string_bytes words.now))) }
{
    let (store, port, timeout) = match command_in(alloc, words)? {
        Some(Command::Texts(job)) => (job.store, None, DEFAULT_TIMEOUT),
        Some(Command::Serve(service)) => (Some(service.file), Some(service.port), service.timeout),
        Some(Command::Migrate(file)) => (Some(file), None, DEFAULT_TIMEOUT),
        Some(Command::Demo(_)) | None => (None, None, DEFAULT_TIMEOUT),
    };
    Ok(Wants {
        store,
        port,
        timeout,
    })
}
