// What is told of a run, in one line.
use crate::ran::Ran;
use std::alloc::{AllocError, Global};
use std::fmt::Write;

/// The status and the body of a reply. None: it has no head.
pub fn parts(reply: &[u8]) -> Option<(&str, &str)> {
    let text = str::from_utf8(reply).ok()?;
    let (head, body) = text.split_once("\r\n\r\n")?;
    let (_, rest) = head.split_once(' ')?;
    let (status, _) = rest.split_once(' ')?;
    Some((status, body))
}

/// What is told of a run, its status first.
#[derive(Clone, Copy)]
pub enum Tell<'a> {
    /// Whether it put whole lines, the first of these bytes, and how many.
    First(&'a [u8]),
    /// Its first line, and how many lines it decided.
    Begin,
    /// Whether it put these bytes.
    Same(&'a [u8]),
    /// The same, and where its lines were decided.
    Decided(&'a [u8]),
    /// The statuses of its replies, before its own.
    Replies,
}

// How many lines bytes have, each ended by a line feed.
fn line_count(bytes: &[u8]) -> usize {
    bytes.iter().filter(|byte| **byte == b'\n').count()
}

fn first_text(alloc: Global, ran: &Ran, all: &[u8]) -> Result<String, AllocError> {
    let status = ran.status;
    let lines = line_count(&ran.out);
    let begins = all.starts_with(&ran.out) && (ran.out.is_empty() || ran.out.ends_with(b"\n"));
    let what = if begins { "first" } else { "wrong" };
    format!(in alloc; "status {status}, the {what} {lines} lines")
}

fn begin_text(alloc: Global, ran: &Ran) -> Result<String, AllocError> {
    let status = ran.status;
    let text = str::from_utf8(&ran.out).unwrap_or("");
    let first = text.lines().next().unwrap_or("");
    let lines = ran.keys.len();
    format!(in alloc; "status {status}, {first}, {lines} lines in the book")
}

fn same_text(alloc: Global, ran: &Ran, all: &[u8]) -> Result<String, AllocError> {
    let status = ran.status;
    let same = ran.out.as_slice() == all;
    format!(in alloc; "status {status}, same {same}")
}

fn decided_text(alloc: Global, ran: &Ran, all: &[u8]) -> Result<String, AllocError> {
    let status = ran.status;
    let same = ran.out.as_slice() == all;
    let (kept, solved) = (ran.counts.kept, ran.counts.solved);
    format!(in alloc; "status {status}, same {same}, kept {kept}, solved {solved}")
}

fn replies_text(alloc: Global, ran: &Ran) -> Result<String, AllocError> {
    let mut all = String::new(alloc);
    for reply in &ran.replies {
        match parts(reply.bytes()) {
            Some((status, _)) => all.push_str(status)?,
            None => all.push_str("none")?,
        }
        all.push(' ')?;
    }
    let status = ran.status;
    write!(all, "status {status}")?;
    Ok(all)
}

/// What is told of a run.
pub fn text_of(alloc: Global, ran: &Ran, tell: Tell<'_>) -> Result<String, AllocError> {
    match tell {
        Tell::First(all) => first_text(alloc, ran, all),
        Tell::Begin => begin_text(alloc, ran),
        Tell::Same(all) => same_text(alloc, ran, all),
        Tell::Decided(all) => decided_text(alloc, ran, all),
        Tell::Replies => replies_text(alloc, ran),
    }
}
