// How far the workers are, on standard error.
use outside::{Gate, OutFault, Sink};
use std::alloc::Global;
use std::io;
use std::io::{IsTerminal, Write};
use std::sync::atomic::Ordering::SeqCst;
use std::sync::atomic::{AtomicBool, AtomicU64};
use std::time::Instant;

/// What standard error says while lines are decided.
#[derive(Clone, Copy, Debug, PartialEq, Eq)]
pub enum Told {
    /// Nothing.
    Nothing,
    /// How many lines workers were handed so far, and the seconds.
    Handed,
    /// And how many lines were asked for.
    HandedOf(usize),
}

/// A gate that says on standard error how many lines workers were handed so far, and how many seconds after the gate
/// was made. On a terminal it rewrites one line. Where nothing is to be told, or the clock can't be read, it says
/// nothing.
#[derive(Drop)]
pub struct Progress {
    rt: HostRuntime,
    told: Told,
    // When the gate was made. None: nothing is said.
    since: Option<Instant>,
    // How many lines workers were handed.
    handed: AtomicU64,
    // A line stands that the next one rewrites.
    stands: AtomicBool,
}

impl Progress {
    /// A gate that no worker entered yet.
    pub fn new(rt: &HostRuntime, told: Told) -> Progress {
        let since = match told {
            Told::Nothing => None,
            Told::Handed | Told::HandedOf(_) => Instant::now(rt).ok(),
        };
        Progress {
            rt: *rt,
            told,
            since,
            handed: AtomicU64::new(0),
            stands: AtomicBool::new(false),
        }
    }

    /// The runtime that the gate was made over.
    pub fn runtime(&self) -> &HostRuntime {
        &self.rt
    }

    fn say(&self, since: Instant, handed: u64) -> io::Result<()> {
        let alloc = self.rt.alloc();
        let time = since.elapsed(&self.rt)?;
        let seconds = time.as_secs();
        let tenths = time.subsec_millis() / 100;
        let said = match self.told {
            Told::HandedOf(all) => format!(in alloc;
                "solving line {handed} (of {all}), {seconds}.{tenths} s"
            )?,
            Told::Nothing | Told::Handed => format!(in alloc;
                "solving line {handed}, {seconds}.{tenths} s"
            )?,
        };
        let line = if self.rt.stderr().is_terminal() {
            self.stands.store(true, SeqCst);
            format!(in alloc; "\r{said}")?
        } else {
            format!(in alloc; "{said}\n")?
        };
        self.rt.stderr().write_all(line.as_bytes())
    }

    // Takes a line away that stands, so that other output begins at its place.
    fn clear(&self) {
        if self.stands.swap(false, SeqCst) {
            let _ = self.rt.stderr().write_all(b"\r\x1b[K");
        }
    }
}

impl Gate for Progress {
    fn enter(&self, _job: u64) {
        let handed = self.handed.fetch_add(1, SeqCst).wrapping_add(1);
        if let Some(since) = self.since {
            // what can't be said isn't
            let _ = self.say(since, handed);
        }
    }
}

/// An output, before whose bytes the line of progress is taken away.
#[derive(Drop)]
pub struct Screen<'p, S: Sink + Drop> {
    pub out: S,
    pub progress: &'p Progress,
}

impl<S: Sink + Drop> Sink for Screen<'_, S> {
    ghost written = { λ s. S.written s.out };

    ghost faults = { λ s. S.faults s.out };

    fn put(&mut self, bytes: &[u8]) -> Result<(), OutFault> {
        self.progress.clear();
        self.out.put(bytes)
    }
}
