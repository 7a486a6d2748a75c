// What standard error says at the end, where progress is wanted.
use desk_core_reports::{Book, Verdict};
use std::io;
use std::io::Write;
use std::time::Instant;

/// Says on standard error how many lines were decided and how, where their evidence came from, and the seconds since
/// the program began. A command that decides no lines has no summary. Where it can't be said, nothing is.
pub fn put_summary(rt: &HostRuntime, book: &Book, since: Option<Instant>) {
    if !book.lines.is_empty() {
        let _ = say(rt, book, since);
    }
}

fn say(rt: &HostRuntime, book: &Book, since: Option<Instant>) -> io::Result<()> {
    let proved = count_of(book, Verdict::Proved);
    let refuted = count_of(book, Verdict::Refuted);
    let spent = count_of(book, Verdict::Spent);
    let kept = book.kept;
    let helped = book.helped;
    let solved = book.solved;
    let line = format!(in rt.alloc();
        "proved {proved}, refuted {refuted}, spent {spent}; kept {kept}, helped {helped}, solved {solved}"
    )?;
    rt.stderr().write_all(line.as_bytes())?;
    if let Some(since) = since {
        let time = since.elapsed(rt)?;
        let seconds = time.as_secs();
        let tenths = time.subsec_millis() / 100;
        let line = format!(in rt.alloc(); "; {seconds}.{tenths} s")?;
        rt.stderr().write_all(line.as_bytes())?;
    }
    rt.stderr().write_all(b"\n")
}

fn count_of(book: &Book, verdict: Verdict) -> usize {
    book.lines
        .iter()
        .filter(|line| line.verdict == verdict)
        .count()
}
