// Runs that are repeated with one thing changed. Runs in a row that come to the same are told by one line.
use crate::memory::run;
use crate::script::{World, number, request};
use crate::told::{Asked, told, told_anew, told_twice};
use outside::{Keeper, MemKeeper, Text};
use std::alloc::Global;
use std::io;
use std::ops::Range;
use std::thread::Threads;
use test_objects::{Damage, Given, Kept, Tell, failing_port, failing_put, given, wrong};

/// What is changed from run to run.
#[derive(Clone, Copy)]
pub enum Each {
    /// `COUNT WORDS`: the put of each number up to COUNT fails.
    Put,
    /// `COUNT WORDS`: the call of the port of each number up to COUNT fails.
    Port,
    /// `COUNT WORDS`: the call of the keeper of each number up to COUNT fails, and none in the run after it.
    Keeper,
    /// The same, told by the replies.
    Served,
    /// `LINE | FILE`: this request ends after each number of its bytes, all of them at last.
    Cut,
    /// `NAME | WORDS`: each byte of what is kept for a line has its lowest bit turned.
    Byte,
    /// `WORDS`: what is kept for each line of the last run is damaged, one line at a time.
    Line(Damage),
}

// Runs of a command line, each with one thing changed.
#[derive(Clone, Copy)]
struct Series<'a> {
    each: Each,
    line: &'a str,
    // What a run puts where nothing is changed.
    all: &'a [u8],
    // The request that is cut.
    sent: &'a [u8],
    // The place of the line of whose proof bytes are turned.
    place: usize,
}

impl<'a> Series<'a> {
    fn new(each: Each, line: &'a str) -> Series<'a> {
        Series {
            each,
            line,
            all: &[],
            sent: &[],
            place: 0,
        }
    }

    fn asked(&self, tell: Tell<'a>) -> Asked<'a> {
        Asked {
            line: self.line,
            tell,
        }
    }
}

// Numbers in a row that come to the same.
#[derive(Drop)]
struct Stretch {
    from: usize,
    to: usize,
    text: String,
}

impl Stretch {
    fn begun(alloc: Global) -> Stretch {
        Stretch {
            from: 0,
            to: 0,
            text: String::new(alloc),
        }
    }

    fn put(&self, rt: &HostRuntime) -> io::Result<()> {
        if self.text.is_empty() {
            return Ok(());
        }
        let (from, to, text) = (self.from, self.to, self.text.as_str());
        println!(rt; "{from} to {to}: {text}")
    }

    // What the next number comes to.
    fn add(&mut self, rt: &HostRuntime, at: usize, text: String) -> io::Result<()> {
        if self.text.as_str() != text.as_str() {
            self.put(rt)?;
            self.from = at;
            self.text = text;
        }
        self.to = at;
        Ok(())
    }
}

// What a run comes to that meets a damaged proof; then the proof is as before.
fn told_damaged<R: Threads + Sync>(
    threads: &R,
    rt: &HostRuntime,
    kept: &mut Kept,
    series: &Series<'_>,
    (place, damage): (usize, Damage),
) -> io::Result<String> {
    let alloc = rt.alloc();
    let bytes = kept.proof(alloc, place)?;
    let other = kept.damaged(alloc, place, damage)?;
    kept.put(alloc, place, &other)?;
    let asked = series.asked(Tell::Decided(series.all));
    let text = told(threads, rt, &mut kept.keeper, Given::nothing(alloc), asked)?;
    kept.put(alloc, place, &bytes)?;
    Ok(text)
}

// What a run comes to whose peer sends the first bytes of the request alone, and how many blocks the desk has then.
fn told_cut<R: Threads + Sync>(
    threads: &R,
    rt: &HostRuntime,
    series: &Series<'_>,
    at: usize,
) -> io::Result<String> {
    let alloc = rt.alloc();
    let mut keeper = MemKeeper::new(alloc, Vec::new(alloc));
    let sent = Given::peer(alloc, series.sent.get(..at).unwrap_or(series.sent))?;
    let replies = told(threads, rt, &mut keeper, sent, series.asked(Tell::Replies))?;
    let blocks = given(keeper.names(alloc))?.len();
    Ok(format!(in alloc; "{replies}, blocks {blocks}")?)
}

// What the run of a number comes to.
fn told_at<R: Threads + Sync>(
    threads: &R,
    rt: &HostRuntime,
    world: &mut World,
    series: &Series<'_>,
    at: usize,
) -> io::Result<String> {
    let alloc = rt.alloc();
    let peers = &world.given.peers;
    match series.each {
        Each::Put => {
            let given = failing_put(alloc, peers, at)?;
            told_anew(threads, rt, given, series.asked(Tell::First(series.all)))
        }
        Each::Port => {
            let given = failing_port(alloc, peers, at)?;
            told_anew(threads, rt, given, series.asked(Tell::Replies))
        }
        Each::Keeper => {
            let asked = (
                series.asked(Tell::Begin),
                series.asked(Tell::Same(series.all)),
            );
            told_twice(threads, rt, peers, at, asked)
        }
        Each::Served => {
            let asked = (series.asked(Tell::Replies), series.asked(Tell::Replies));
            told_twice(threads, rt, peers, at, asked)
        }
        Each::Cut => told_cut(threads, rt, series, at),
        Each::Byte => {
            let damage = (series.place, Damage::Turned(at));
            told_damaged(threads, rt, &mut world.kept, series, damage)
        }
        Each::Line(damage) => told_damaged(threads, rt, &mut world.kept, series, (at, damage)),
    }
}

// Prints what the runs of these numbers come to.
fn put_series<R: Threads + Sync>(
    threads: &R,
    rt: &HostRuntime,
    world: &mut World,
    series: &Series<'_>,
    numbers: Range<usize>,
) -> io::Result<()> {
    let mut stretch = Stretch::begun(rt.alloc());
    for at in numbers {
        let text = told_at(threads, rt, world, series, at)?;
        stretch.add(rt, at, text)?;
    }
    stretch.put(rt)
}

// What a command line puts over a new keeper, where nothing fails.
fn whole<R: Threads + Sync>(
    threads: &R,
    rt: &HostRuntime,
    peers: &[Text],
    line: &str,
) -> io::Result<Vec<u8>> {
    let alloc = rt.alloc();
    let mut keeper = MemKeeper::new(alloc, Vec::new(alloc));
    let ran = run(threads, rt, line, &mut keeper, Given::peers(alloc, peers)?)?;
    Ok(ran.out)
}

// `COUNT WORDS`
fn each_number<R: Threads + Sync>(
    threads: &R,
    rt: &HostRuntime,
    world: &mut World,
    each: Each,
    rest: &str,
) -> io::Result<()> {
    let (count, line) = rest.split_once(' ').ok_or(wrong())?;
    let numbers = 1..number(count)?.saturating_add(1);
    let all = whole(threads, rt, &world.given.peers, line)?;
    let series = Series {
        all: &all,
        ..Series::new(each, line)
    };
    put_series(threads, rt, world, &series, numbers)
}

// `LINE | FILE`
fn each_cut<R: Threads + Sync>(
    threads: &R,
    rt: &HostRuntime,
    world: &mut World,
    rest: &str,
) -> io::Result<()> {
    let sent = request(rt, rest)?;
    let sent = sent.bytes();
    let series = Series {
        sent,
        ..Series::new(Each::Cut, "serve 8080 1 desk.db")
    };
    put_series(threads, rt, world, &series, 0..sent.len().saturating_add(1))
}

// `NAME | WORDS`
fn each_byte<R: Threads + Sync>(
    threads: &R,
    rt: &HostRuntime,
    world: &mut World,
    rest: &str,
) -> io::Result<()> {
    let (name, line) = rest.split_once(" | ").ok_or(wrong())?;
    let place = world.kept.place(name)?;
    let bytes = world.kept.proof(rt.alloc(), place)?.len();
    let all = whole(threads, rt, &[], line)?;
    let series = Series {
        all: &all,
        place,
        ..Series::new(Each::Byte, line)
    };
    put_series(threads, rt, world, &series, 0..bytes)
}

// `WORDS`
fn each_line<R: Threads + Sync>(
    threads: &R,
    rt: &HostRuntime,
    world: &mut World,
    each: Each,
    line: &str,
) -> io::Result<()> {
    let lines = world.kept.keys.len();
    let all = whole(threads, rt, &[], line)?;
    let series = Series {
        all: &all,
        ..Series::new(each, line)
    };
    put_series(threads, rt, world, &series, 0..lines)
}

/// Repeats runs as the rest of a line says, and prints what they come to.
pub fn repeat<R: Threads + Sync>(
    threads: &R,
    rt: &HostRuntime,
    world: &mut World,
    each: Each,
    rest: &str,
) -> io::Result<()> {
    match each {
        Each::Put | Each::Port | Each::Keeper | Each::Served => {
            each_number(threads, rt, world, each, rest)
        }
        Each::Cut => each_cut(threads, rt, world, rest),
        Each::Byte => each_byte(threads, rt, world, rest),
        Each::Line(_) => each_line(threads, rt, world, each, rest),
    }
}
