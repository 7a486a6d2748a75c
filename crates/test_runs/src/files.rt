// Runs over the program's real objects. The texts of their script become files.
use desk_core_reports::Book;
use signoff_objects::{Told, answer};
use std::alloc::AllocError;
use std::thread::Threads;
use std::{fs, io};

// The parts of a line `NAME BASE: OLD => NEW`: the text BASE with NEW in place of the first OLD is named NAME.
#[derive(Clone, Copy)]
struct Change<'a> {
    name: &'a str,
    base: &'a str,
    old: &'a str,
    new: &'a str,
}

fn change_of(line: &str) -> Option<Change<'_>> {
    let (names, parts) = line.split_once(": ")?;
    let (name, base) = names.split_once(' ')?;
    let (old, new) = parts.split_once(" =>")?;
    let new = new.strip_prefix(' ').unwrap_or(new);
    Some(Change {
        name,
        base,
        old,
        new,
    })
}

// Writes the text that a line makes of another one; a line that isn't one of these is refused.
fn write_change(rt: &HostRuntime, line: &str) -> io::Result<()> {
    let Some(change) = change_of(line) else {
        return Err(io::Error::from(io::ErrorKind::InvalidData));
    };
    let text = fs::read_to_string(rt, change.base)?;
    let Some((before, after)) = text.split_once(change.old) else {
        return Err(io::Error::from(io::ErrorKind::InvalidData));
    };
    let new = change.new;
    fs::write(
        rt,
        change.name,
        format!(in rt.alloc(); "{before}{new}{after}")?,
    )
}

/// The words of a command line. One that has spaces stands between quotes.
pub fn words_of(rt: &HostRuntime, line: &str) -> Result<Vec<String>, AllocError> {
    let mut words = Vec::new(rt.alloc());
    for (at, part) in line.split('"').enumerate() {
        if at % 2 == 1 {
            words.push(String::from_str(rt.alloc(), part)?)?;
        } else {
            for word in part.split_whitespace() {
                words.push(String::from_str(rt.alloc(), word)?)?;
            }
        }
    }
    Ok(words)
}

// Prints a command line, answers it, and prints the status under what it put.
fn run<R: Threads + Sync>(threads: &R, rt: &HostRuntime, line: &str) -> io::Result<()> {
    println!(rt; ">{line}")?;
    let words = words_of(rt, line)?;
    let mut book = Book::new(rt.alloc());
    let status = answer(threads, rt, &words, Told::Nothing, &mut book);
    println!(rt; "status {status}")
}

/// Does what each line of a script says.
pub fn play<R: Threads + Sync>(threads: &R, rt: &HostRuntime, script: &str) -> io::Result<()> {
    let mut name = String::new(rt.alloc());
    let mut text = String::new(rt.alloc());
    for line in script.lines() {
        if let Some(begun) = line.strip_prefix("= ") {
            name.clear();
            name.push_str(begun)?;
            text.clear();
        } else if line == "." {
            fs::write(rt, name.as_str(), text.as_bytes())?;
        } else if let Some(change) = line.strip_prefix("~ ") {
            write_change(rt, change)?;
        } else if let Some(words) = line.strip_prefix('>') {
            run(threads, rt, words)?;
        } else {
            text.push_str(line)?;
            text.push('\n')?;
        }
    }
    Ok(())
}
