// Runs of the top call over objects in memory.
ghost use Rattle.std.specs.Prelude.{◌≡◌, []};

use crate::files::words_of;
use desk_core_reports::Book;
use helper_box::{Helper, Sampler, Table, Units};
use outside::{File, MemKeeper, MemPort, MemShelf, MemSink, QuietGate, Text};
use signoff_call::signoff;
use std::alloc::{AllocError, Global};
use std::thread::Threads;
use std::{fs, io};
use test_objects::{Aide, Given, Liar, Ran};

// The room for each reply of a port, in bytes.
const ROOM: usize = 4_096;

// The files that these words name.
fn files_of(rt: &HostRuntime, words: &[String]) -> io::Result<Vec<File>> {
    let alloc = rt.alloc();
    let mut files = Vec::new(alloc);
    for word in words {
        if let Ok(text) = fs::read_to_string(rt, word.as_str()) {
            files.push(File {
                name: Text::copy(alloc, word.as_bytes())?,
                bytes: Text::copy(alloc, text.as_bytes())?,
            })?;
        }
    }
    Ok(files)
}

// The objects of a run but its keeper.
#[derive(Drop)]
struct Objects {
    shelf: MemShelf,
    out: MemSink,
    port: MemPort,
    aides: Vec<Aide>,
}

fn objects_of(rt: &HostRuntime, words: &[String], given: Given) -> io::Result<Objects> {
    let alloc = rt.alloc();
    let Given {
        shelf,
        sink,
        port,
        peers,
        aides,
    } = given;
    Ok(Objects {
        shelf: MemShelf::new(files_of(rt, words)?, shelf),
        out: MemSink::new(alloc, sink),
        port: MemPort::new(alloc, peers, ROOM, port)?,
        aides,
    })
}

// Makes the helpers, and calls the top call: its status, and the book.
fn called<R: Threads + Sync>(
    threads: &R,
    alloc: Global,
    words: &[String],
    objects: &mut Objects,
    keeper: &mut MemKeeper,
) -> Result<(u8, Book), AllocError> {
    let mut helpers: Vec<Box<dyn Helper>> = Vec::new(alloc);
    for aide in &objects.aides {
        match *aide {
            Aide::Sampler => helpers.push(Box::new(alloc, Sampler::new(1, 1_000))?)?,
            Aide::Table => helpers.push(Box::new(alloc, Table::new())?)?,
            Aide::Units => helpers.push(Box::new(alloc, Units::new())?)?,
            Aide::Lies(lie) => helpers.push(Box::new(alloc, Liar { lie, offers: 0 })?)?,
        }
    }
    let mut book = Book::new(alloc);
    let status = signoff(
        threads,
        alloc,
        words,
        &mut objects.shelf,
        &mut objects.out,
        keeper,
        &mut objects.port,
        &QuietGate,
        helpers,
        &mut book,
    );
    Ok((status, book))
}

/// Runs a command line over a keeper.
pub fn run<R: Threads + Sync>(
    threads: &R,
    rt: &HostRuntime,
    line: &str,
    keeper: &mut MemKeeper,
    given: Given,
) -> io::Result<Ran> {
    let alloc = rt.alloc();
    let words = words_of(rt, line)?;
    let peers = given.peers.len();
    let mut objects = objects_of(rt, &words, given)?;
    let (status, book) = called(threads, alloc, &words, &mut objects, keeper)?;
    let ran = Ran::of(alloc, status, &book, (&objects.out, &objects.port), peers);
    // calls, since a proof would write out these drops where the next line fails
    drop(book);
    drop(objects);
    Ok(ran?)
}
