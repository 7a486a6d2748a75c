// What standard error says of a refusal, and of a counterexample. The status and what went to standard output stand
// before, and don't depend on it.
use crate::files::read_again;
use desk_core_commands::Which;
use desk_core_faults::CheckFault;
use desk_core_goals::all_lines;
use desk_core_reports::Book;
use desk_core_stages::bound_of;
use outside::Text;
use replay::Shown;
use set_tree::Line;
use signoff_faults::{Files, Texts, explained, usage, version};
use signoff_notes::{SetFile, trace_note};
use signoff_words::{Command, Job, Task, command_in};
use std::alloc::{AllocError, Global};
use std::io::Write;
use twin_tests_laws::line_name;
use unroll_binding::Bound;

/// Says on standard error where and why the words were refused with a status, how the program is called, or what the
/// counterexample shows that the book has. Where that can't be said, as where memory runs out, nothing is.
pub fn put_note(rt: &HostRuntime, words: &[String], status: u8, book: &Book) {
    if let Ok(Some(note)) = note_of(rt, words, status, book) {
        let _ = rt.stderr().write_all(note.bytes());
    }
}

// What is said of words, their status and the lines that were decided; nothing where the words weren't refused and no
// counterexample is shown.
fn note_of(
    rt: &HostRuntime,
    words: &[String],
    status: u8,
    book: &Book,
) -> Result<Option<Text>, AllocError> {
    let alloc = rt.alloc();
    match command_in(alloc, words)? {
        Some(Command::Texts(job)) => note_of_job(rt, &job, status, book),
        None if status == 2 => Ok(Some(how_called(alloc, words)?)),
        _ => Ok(None),
    }
}

// What is said of words that are no command: what the program is, or how it is called.
fn how_called(alloc: Global, words: &[String]) -> Result<Text, AllocError> {
    match words {
        [word] if word.as_str() == "--version" => version(alloc),
        _ => usage(alloc),
    }
}

fn note_of_job(
    rt: &HostRuntime,
    job: &Job,
    status: u8,
    book: &Book,
) -> Result<Option<Text>, AllocError> {
    match status {
        1 => note_of_trace(rt, job, book),
        2 => said(rt.alloc(), job, &[], &[], &CheckFault::NoLine),
        3..=5 => note_of_texts(rt, job),
        _ => Ok(None),
    }
}

// What is said of two texts that were refused: they go through the stages again.
fn note_of_texts(rt: &HostRuntime, job: &Job) -> Result<Option<Text>, AllocError> {
    let alloc = rt.alloc();
    let Some(read) = read_again(rt, job)? else {
        return Ok(None);
    };
    match bound_of(alloc, &read.module, &read.set) {
        Ok(bound) => {
            // calls, since a proof would write out the drops of all trees here
            drop(bound);
            Ok(None)
        }
        Err(fault) => {
            let note = said(alloc, job, &read.module, &read.set, &fault);
            drop(fault);
            note
        }
    }
}

// What the counterexample shows of the one line that was asked for.
fn note_of_trace(rt: &HostRuntime, job: &Job, book: &Book) -> Result<Option<Text>, AllocError> {
    let name = match &job.task {
        Task::Decide(Which::One(name) | Which::Least(name)) | Task::Wave(name) => name,
        _ => return Ok(None),
    };
    let Some(shown) = book.lines.first().and_then(|line| line.trace.as_ref()) else {
        return Ok(None);
    };
    let Some(read) = read_again(rt, job)? else {
        return Ok(None);
    };
    match bound_of(rt.alloc(), &read.module, &read.set) {
        Ok(bound) => {
            let file = SetFile {
                name: job.set.bytes(),
                text: &read.set,
            };
            let note = shown_in(rt.alloc(), file, &bound, name, shown);
            // a call, as above
            drop(bound);
            note
        }
        Err(fault) => {
            drop(fault);
            Ok(None)
        }
    }
}

// What a counterexample shows of the line of this name.
fn shown_in(
    alloc: Global,
    file: SetFile<'_>,
    bound: &Bound,
    name: &Text,
    shown: &Shown,
) -> Result<Option<Text>, AllocError> {
    let set = bound.set().set();
    match line_named(alloc, bound, name)? {
        Some(line) => Ok(Some(trace_note(alloc, file, set, line, shown)?)),
        None => Ok(None),
    }
}

// The line of a name.
fn line_named(alloc: Global, bound: &Bound, name: &Text) -> Result<Option<Line>, AllocError> {
    for line in all_lines(alloc, bound)? {
        if line_name(alloc, bound.set().set(), line)?.bytes() == name.bytes() {
            return Ok(Some(line));
        }
    }
    Ok(None)
}

fn said(
    alloc: Global,
    job: &Job,
    module: &[u8],
    set: &[u8],
    fault: &CheckFault,
) -> Result<Option<Text>, AllocError> {
    let names = Files {
        module: job.module.bytes(),
        set: job.set.bytes(),
    };
    let texts = Texts { module, set };
    Ok(Some(explained(alloc, &names, &texts, fault)?))
}
