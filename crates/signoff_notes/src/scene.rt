// What a counterexample is told from, and how notes are written.
use crate::span::{Item, Span, span_in};
use crate::window::Window;
use set_tree::{Property, Set};
use signoff_places::{add_line, place_of, property_at, property_name, shown};
use std::alloc::{AllocError, Global};
use vlog_tree::{Entry, Expr, Token};

// The longest formula, in bytes, that a sentence quotes.
const QUOTED: usize = 64;

/// The file of a set: its name and its bytes.
#[derive(Clone, Copy)]
pub struct SetFile<'a> {
    pub name: &'a [u8],
    pub text: &'a [u8],
}

/// A set with its text, and the windows that are shown. The second one has no cycles where the line speaks of one
/// window.
#[derive(Clone, Copy)]
pub struct Scene<'a> {
    pub alloc: Global,
    pub file: SetFile<'a>,
    pub tokens: &'a [Token],
    pub set: &'a Set,
    pub first: Window<'a>,
    pub second: Window<'a>,
}

impl<'a> Scene<'a> {
    /// The property at a position.
    pub fn property(&self, at: u32) -> &'a Property {
        property_at(self.set, at).unwrap_or(&self.set.first)
    }

    /// Where an item of a clause of the property at a position stands.
    pub fn span(&self, at: u32, item: Item<'_>) -> Option<Span> {
        span_in(self.tokens, property_name(self.set, at), item)
    }

    // A part of the text, where it is short and stands in one line.
    fn short(&self, span: Option<Span>) -> Option<&'a str> {
        let span = span?;
        let bytes = self.file.text.get(span.from..span.end)?.trim_ascii_end();
        if bytes.len() <= QUOTED && bytes.iter().all(|byte| *byte >= b' ') {
            str::from_utf8(bytes).ok()
        } else {
            None
        }
    }

    /// A formula as a sentence names it: by its text where that is short, else by its number among those of its kind.
    pub fn named(
        &self,
        kind: &str,
        number: usize,
        span: Option<Span>,
    ) -> Result<String, AllocError> {
        let place = number.saturating_add(1);
        match self.short(span) {
            Some(formula) => format!(in self.alloc; "{kind} `{formula}`"),
            None => format!(in self.alloc; "{kind} {place}"),
        }
    }

    /// Adds a sentence, with the place that it speaks of and the line of it where that is known.
    pub fn add_note(
        &self,
        out: &mut Vec<u8>,
        span: Option<Span>,
        sentence: &str,
    ) -> Result<(), AllocError> {
        out.extend_from_slice(self.file.name)?;
        let Some(span) = span else {
            let note = format!(in self.alloc; ": note: {sentence}\n")?;
            return out.extend_from_slice(note.as_bytes());
        };
        let place = place_of(self.file.text, span.from);
        let line = place.line;
        let column = place.column;
        let note = format!(in self.alloc; ":{line}:{column}: note: {sentence}\n")?;
        out.extend_from_slice(note.as_bytes())?;
        add_line(out, self.file.text, span.from)
    }

    /// Adds the values of the names that a formula reads at a cycle, in each window.
    pub fn add_values(
        &self,
        out: &mut Vec<u8>,
        formula: &Expr,
        cycle: usize,
    ) -> Result<(), AllocError> {
        let first = self.first.entries(formula, cycle)?;
        if self.second.rows.is_empty() {
            return add_entries(self.alloc, out, "", first.entries(), cycle);
        }
        let second = self.second.entries(formula, cycle)?;
        add_entries(self.alloc, out, "first window: ", first.entries(), cycle)?;
        add_entries(self.alloc, out, "second window: ", second.entries(), cycle)
    }
}

// Adds what a name stands for, at its cycle.
fn add_entry(
    alloc: Global,
    out: &mut Vec<u8>,
    before: &str,
    entry: &Entry,
    cycle: usize,
) -> Result<(), AllocError> {
    let name = shown(entry.name.bytes());
    let at = cycle.saturating_add(entry.offset as usize);
    let value = entry.value;
    let one = format!(in alloc; "{before}{name}@{at} = {value}")?;
    out.extend_from_slice(one.as_bytes())
}

// Adds a line with what names stand for, each at its cycle, in the order of the cycles; none where there are no names.
fn add_entries(
    alloc: Global,
    out: &mut Vec<u8>,
    title: &str,
    entries: &[Entry],
    cycle: usize,
) -> Result<(), AllocError> {
    let Some(last) = entries.iter().map(|entry| entry.offset).max() else {
        return Ok(());
    };
    out.extend_from_slice(b"    ")?;
    let mut before = title;
    for offset in 0..last.saturating_add(1) {
        for entry in entries {
            if entry.offset == offset {
                add_entry(alloc, out, before, entry, cycle)?;
                before = ", ";
            }
        }
    }
    out.extend_from_slice(b"\n")
}
