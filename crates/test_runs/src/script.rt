// The script of runs over objects in memory.
use crate::each::{Each, repeat};
use crate::memory::run;
use crate::obligations::put_obligations;
use crate::shown::put_run;
use outside::{Keeper, MemKeeper, Text};
use proof_store::migrate;
use std::alloc::Global;
use std::thread::Threads;
use std::{fs, io};
use test_objects::{Damage, Given, Kept, Key, aide_of, given, wrong};

/// What a script has made so far: the keeper with the lines of the last run, and what the next run is given.
#[derive(Drop)]
pub struct World {
    pub kept: Kept,
    pub given: Given,
}

// What the first word of a line asks for.
#[derive(Clone, Copy)]
enum Verb {
    New,
    Keeper,
    Shelf,
    Put,
    Port,
    Helper,
    Peer,
    Run,
    Turn,
    First,
    Move,
    Missing,
    Obligations,
    Each(Each),
}

const VERBS: &[(&str, Verb)] = &[
    ("new", Verb::New),
    ("keeper", Verb::Keeper),
    ("shelf", Verb::Shelf),
    ("put", Verb::Put),
    ("port", Verb::Port),
    ("helper", Verb::Helper),
    ("peer", Verb::Peer),
    (">", Verb::Run),
    ("turn", Verb::Turn),
    ("first", Verb::First),
    ("move", Verb::Move),
    ("missing", Verb::Missing),
    ("obligations", Verb::Obligations),
    ("each-put", Verb::Each(Each::Put)),
    ("each-keeper", Verb::Each(Each::Keeper)),
    ("each-served", Verb::Each(Each::Served)),
    ("each-port", Verb::Each(Each::Port)),
    ("each-cut", Verb::Each(Each::Cut)),
    ("each-byte", Verb::Each(Each::Byte)),
    ("each-emptied", Verb::Each(Each::Line(Damage::Emptied))),
    ("each-halved", Verb::Each(Each::Line(Damage::Halved))),
    ("each-neighbour", Verb::Each(Each::Line(Damage::Neighbour))),
];

fn verb_of(word: &str) -> io::Result<Verb> {
    match VERBS.iter().find(|pair| pair.0 == word) {
        Some(pair) => Ok(pair.1),
        None => Err(wrong()),
    }
}

/// A number.
pub fn number(text: &str) -> io::Result<usize> {
    text.parse::<usize>().map_err(|_| wrong())
}

// The numbers of a line.
fn numbers(alloc: Global, line: &str) -> io::Result<Vec<u64>> {
    let mut all = Vec::new(alloc);
    for part in line.split_whitespace() {
        all.push(number(part)? as u64)?;
    }
    Ok(all)
}

/// The bytes of a request: its first line up to the version, and the text of a file as its body, of which some last
/// bytes may be kept back.
pub fn request(rt: &HostRuntime, line: &str) -> io::Result<Text> {
    let alloc = rt.alloc();
    let (first, rest) = line.split_once(" | ").unwrap_or((line, ""));
    let (file, back) = rest.split_once(" | ").unwrap_or((rest, "0"));
    let back = number(back)?;
    let body = if file.is_empty() {
        String::new(alloc)
    } else {
        fs::read_to_string(rt, file)?
    };
    let length = body.len();
    let head = format!(in alloc; "{first} HTTP/1.1\r\nContent-Length: {length}\r\n\r\n")?;
    let mut bytes = head.as_bytes().to_vec(alloc)?;
    let (sent, _) = body.as_bytes().split_at(length.saturating_sub(back));
    bytes.extend_from_slice(sent)?;
    Ok(Text::new(bytes))
}

// Changes what the next run is given, or what the keeper has. False: the line asks for something else.
fn set(rt: &HostRuntime, world: &mut World, verb: Verb, rest: &str) -> io::Result<bool> {
    let alloc = rt.alloc();
    match verb {
        Verb::New => world.kept.keeper = MemKeeper::new(alloc, Vec::new(alloc)),
        Verb::Keeper => world.kept.keeper.set_fails(numbers(alloc, rest)?),
        Verb::Shelf => world.given.shelf = numbers(alloc, rest)?,
        Verb::Put => world.given.sink = numbers(alloc, rest)?,
        Verb::Port => world.given.port = numbers(alloc, rest)?,
        Verb::Helper => world.given.aides.push(aide_of(rest)?)?,
        Verb::Peer => world.given.peers.push(request(rt, rest)?)?,
        Verb::First => world.kept.put_first(alloc)?,
        Verb::Turn => turn(alloc, &mut world.kept, rest)?,
        _ => return Ok(false),
    }
    Ok(true)
}

// Turns the lowest bit of the first byte that is kept for a line.
fn turn(alloc: Global, kept: &mut Kept, name: &str) -> io::Result<()> {
    let at = kept.place(name)?;
    let bytes = kept.damaged(alloc, at, Damage::Turned(0))?;
    kept.put(alloc, at, &bytes)
}

// Takes what the next run is given, so that the one after it is given nothing.
fn take_given(alloc: Global, world: &mut World) -> Given {
    std::mem::replace(&mut world.given, Given::nothing(alloc))
}

// Runs a command line, prints what it came to, and remembers its lines, where it has some.
fn run_shown<R: Threads + Sync>(
    threads: &R,
    rt: &HostRuntime,
    world: &mut World,
    line: &str,
) -> io::Result<()> {
    let given = take_given(rt.alloc(), world);
    let ran = run(threads, rt, line, &mut world.kept.keeper, given)?;
    put_run(rt, line, &ran)?;
    if !ran.keys.is_empty() {
        world.kept.keys = ran.keys;
    }
    Ok(())
}

// Prints the lines of a run over a new keeper that have no proof at the keeper.
fn put_missing<R: Threads + Sync>(
    threads: &R,
    rt: &HostRuntime,
    world: &mut World,
    line: &str,
) -> io::Result<()> {
    let alloc = rt.alloc();
    let mut other = MemKeeper::new(alloc, Vec::new(alloc));
    let ran = run(threads, rt, line, &mut other, Given::nothing(alloc))?;
    for key in &ran.keys {
        if given(world.kept.keeper.proof(alloc, &key.key))?.is_none() {
            put_missing_line(rt, key)?;
        }
    }
    Ok(())
}

fn put_missing_line(rt: &HostRuntime, key: &Key) -> io::Result<()> {
    let name = str::from_utf8(key.name.bytes()).unwrap_or("");
    println!(rt; "missing {name}")
}

// Moves so many rows at most, and prints what it came to.
fn put_moved(rt: &HostRuntime, world: &mut World, most: usize) -> io::Result<()> {
    match migrate(rt.alloc(), &mut world.kept.keeper, (most as u64).max(1)) {
        Ok(now) => {
            let (moved, left, more) = (now.moved, now.left, now.more);
            println!(rt; "moved {moved}, left {left}, more {more}")
        }
        Err(_) => Err(wrong()),
    }
}

// Does what a line asks for.
fn step<R: Threads + Sync>(
    threads: &R,
    rt: &HostRuntime,
    world: &mut World,
    line: &str,
) -> io::Result<()> {
    let (word, rest) = line.split_once(' ').unwrap_or((line, ""));
    let verb = verb_of(word)?;
    if set(rt, world, verb, rest)? {
        return Ok(());
    }
    match verb {
        Verb::Missing => put_missing(threads, rt, world, rest),
        Verb::Move => put_moved(rt, world, number(rest)?),
        Verb::Obligations => put_obligations(rt, &world.kept.keys, rest),
        Verb::Each(each) => {
            println!(rt; "{line}")?;
            repeat(threads, rt, world, each, rest)
        }
        _ => run_shown(threads, rt, world, rest),
    }
}

/// Does what each line of a script says. Those that begin with # say nothing.
pub fn play<R: Threads + Sync>(threads: &R, rt: &HostRuntime, script: &str) -> io::Result<()> {
    let alloc = rt.alloc();
    let mut world = World {
        kept: Kept::new(alloc),
        given: Given::nothing(alloc),
    };
    for line in script.lines() {
        if !line.is_empty() && !line.starts_with('#') {
            step(threads, rt, &mut world, line)?;
        }
    }
    Ok(())
}
