// Places in a text, and the line that is shown for one.
ghost use Rattle.std.specs.Prelude.{◌≡◌, ◌++◌, OnOk, map};
ghost use Rattle.std.specs.List.{flat_map};
ghost use Rattle.signoff_places.specs.Lines.{
  is_feed,
  last_line,
  first_line,
  place_at,
  shown,
  room,
  shown_head,
  shown_tail,
  line_and_mark,
};

use std::alloc::AllocError;

/// A place in a text: a line and a column, both counted from 1. Columns count bytes.
#[derive(Clone, Copy, Debug, PartialEq, Eq)]
pub struct Place {
    pub line: usize,
    pub column: usize,
}

// The most bytes of a line that are shown.
const SHOWN: usize = 112;

fn is_feed(byte: &u8) -> bool
    ensures { result ≡ is_feed byte.now }
{
    *byte == b'\n'
}

// What stands behind the last line feed.
fn last_line(text: &[u8]) -> &[u8]
    ensures { result.now ≡ last_line text.now }
{
    for at in (0..text.len()).rev() {
        if is_feed(&text[at]) {
            return &text[at + 1..];
        }
    }
    text
}

// What stands before the first line feed.
fn first_line(text: &[u8]) -> &[u8]
    ensures { result.now ≡ first_line text.now }
{
    for at in 0..text.len() {
        if is_feed(&text[at]) {
            return &text[..at];
        }
    }
    text
}

/// The place of a byte, and past the end that of the end.
#[tactic(auto, using(crate::proofs::LineLemmas::cut))]
pub fn place_of(text: &[u8], at: usize) -> Place
    ensures { result ≡ place_at text.now at }
{
    let before = &text[..at.min(text.len())];
    Place {
        line: before.iter().filter(|byte| is_feed(byte)).count() + 1,
        column: last_line(before).len() + 1,
    }
}

// Bytes that would move what follows on a terminal are shown as spaces.
#[tactic(auto, unfolding(crate::specs::Lines::shown))]
fn shown(byte: u8) -> u8
    ensures { result ≡ shown byte }
{
    if byte == b'\t' || byte >= b' ' {
        byte
    } else {
        b' '
    }
}

#[tactic(auto, using(crate::proofs::LineLemmas::shown_more))]
fn add_shown(out: &mut Vec<u8>, bytes: &[u8]) -> Result<(), AllocError>
    ensures { OnOk result (out.new.items ≡ out.old.items ++ map shown bytes.now) }
{
    for byte in bytes {
        out.push(shown(*byte))?;
    }
    Ok(())
}

// The room that a byte takes: tabs stay, and the later bytes of a character of UTF-8 take none.
#[tactic(auto, unfolding(crate::specs::Lines::room))]
fn room(byte: u8) -> &'static [u8]
    ensures { result.now ≡ room byte }
{
    if byte == b'\t' {
        b"\t"
    } else if byte & 0xc0 == 0x80 {
        b""
    } else {
        b" "
    }
}

// As much space as the bytes take.
#[tactic(auto, using(crate::proofs::LineLemmas::room_more))]
fn add_space(out: &mut Vec<u8>, bytes: &[u8]) -> Result<(), AllocError>
    ensures { OnOk result (out.new.items ≡ out.old.items ++ flat_map room bytes.now) }
{
    for byte in bytes {
        out.extend_from_slice(room(*byte))?;
    }
    Ok(())
}

// What is shown of the line around a place: all of it, or where it is long the parts next to the place.
#[tactic(auto, using(crate::proofs::LineLemmas::cut), unfolding(crate::specs::Lines::shown_head, crate::specs::Lines::shown_tail))]
fn shown_around<'a>(head: &'a [u8], tail: &'a [u8]) -> (&'a [u8], &'a [u8])
    ensures head { result.0.now ≡ shown_head head.now tail.now }
    ensures tail { result.1.now ≡ shown_tail head.now tail.now }
{
    if head.len() + tail.len() <= SHOWN {
        return (head, tail);
    }
    let from = head.len().saturating_sub(SHOWN / 2);
    let end = (SHOWN / 2).min(tail.len());
    (&head[from..], &tail[..end])
}

/// Adds the line of a byte, and below it a mark under the byte.
pub fn add_line(out: &mut Vec<u8>, text: &[u8], at: usize) -> Result<(), AllocError>
    ensures { OnOk result (out.new.items ≡ out.old.items ++ line_and_mark text.now at) }
{
    let (before, after) = text.split_at(at.min(text.len()));
    let (head, tail) = shown_around(last_line(before), first_line(after));
    out.extend_from_slice(b"    ")?;
    add_shown(out, head)?;
    add_shown(out, tail)?;
    out.extend_from_slice(b"\n    ")?;
    add_space(out, head)?;
    out.extend_from_slice(b"^\n")
}
