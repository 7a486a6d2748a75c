// What is told of a run, in one line.
use crate::memory::run;
use outside::{MemKeeper, Text};
use std::io;
use std::thread::Threads;
use test_objects::{Given, Tell, text_of};

/// A command line, and what is told of a run of it.
#[derive(Clone, Copy)]
pub struct Asked<'a> {
    pub line: &'a str,
    pub tell: Tell<'a>,
}

/// Runs a command line over a keeper, and tells what is asked for.
pub fn told<R: Threads + Sync>(
    threads: &R,
    rt: &HostRuntime,
    keeper: &mut MemKeeper,
    given: Given,
    asked: Asked<'_>,
) -> io::Result<String> {
    let ran = run(threads, rt, asked.line, keeper, given)?;
    Ok(text_of(rt.alloc(), &ran, asked.tell)?)
}

/// What is told of a run over a new keeper.
pub fn told_anew<R: Threads + Sync>(
    threads: &R,
    rt: &HostRuntime,
    given: Given,
    asked: Asked<'_>,
) -> io::Result<String> {
    let alloc = rt.alloc();
    let mut keeper = MemKeeper::new(alloc, Vec::new(alloc));
    told(threads, rt, &mut keeper, given, asked)
}

/// What is told of a run over a new keeper of which the call of this number fails, and of a run after it, in which none
/// does.
pub fn told_twice<R: Threads + Sync>(
    threads: &R,
    rt: &HostRuntime,
    peers: &[Text],
    at: usize,
    asked: (Asked<'_>, Asked<'_>),
) -> io::Result<String> {
    let alloc = rt.alloc();
    let mut fails = Vec::new(alloc);
    fails.push(at as u64)?;
    let mut keeper = MemKeeper::new(alloc, fails);
    let first = told(
        threads,
        rt,
        &mut keeper,
        Given::peers(alloc, peers)?,
        asked.0,
    )?;
    keeper.set_fails(Vec::new(alloc));
    let next = told(
        threads,
        rt,
        &mut keeper,
        Given::peers(alloc, peers)?,
        asked.1,
    )?;
    Ok(format!(in alloc; "{first}; then {next}")?)
}
