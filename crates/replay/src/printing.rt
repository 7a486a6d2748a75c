// The text of a counterexample.
ghost use Rattle.std.specs.Prelude.{◌≡◌, ◌+◌, ◌<◌, ◌^◌, codes, length, map, IfOk};
ghost use Rattle.std.specs.Fmt.{decimal};
ghost use Rattle.word_dag.specs.Text.{line, spaced};
ghost use Rattle.replay.specs.Puts.{Prints};
ghost use Rattle.replay.specs.Texts.{cycle_number, row_line, row_lines, shown_text, start_line, start_lines, table, tables, trace_text};

use crate::shown::{Shown, Start, Trace};
use crate::sinking::{put, put_all, put_number, put_word};
use itoa::Buffer;
use outside::{MemSink, OutFault, Sink, Text};
use set_tree::Rows;
use std::alloc::{AllocError, Global};

// The number of a cycle.
fn put_cycle<S: Sink>(sink: &mut S, before: usize, i: usize) -> Result<(), OutFault>
    ensures { Prints S.written S.faults sink.old sink.new result (cycle_number before i) }
{
    if i < before {
        put_number(sink, b"-", (before - i) as u64)
    } else {
        put_number(sink, b"", (i - before) as u64)
    }
}

// Numbers, each behind a space.
fn put_values<S: Sink>(sink: &mut S, values: &[u64]) -> Result<(), OutFault>
    ensures { Prints S.written S.faults sink.old sink.new result (spaced (map decimal values.now)) }
{
    for value in values {
        put_number(sink, b" ", *value)?;
    }
    Ok(())
}

// The line of a cycle.
fn put_row<S: Sink>(sink: &mut S, before: usize, i: usize, row: &[u64]) -> Result<(), OutFault>
    ensures { Prints S.written S.faults sink.old sink.new result (row_line before i row.now) }
{
    put_cycle(sink, before, i)?;
    put_values(sink, row)?;
    put(sink, b"\n")
}

// The lines of the cycles from this one on.
fn put_rows<S: Sink>(
    sink: &mut S,
    before: usize,
    i: usize,
    rows: &[Rows<u64>],
) -> Result<(), OutFault>
    requires { i + length rows.now < 2 ^ 64 }
    ensures { Prints S.written S.faults sink.old sink.new result (row_lines before i rows.now) }
{
    match rows {
        [] => Ok(()),
        [row, rest @ ..] => {
            put_row(sink, before, i, row.as_slice())?;
            put_rows(sink, before, i + 1, rest)
        }
    }
}

// Words, each behind a space.
fn put_words<S: Sink>(sink: &mut S, words: &[Text]) -> Result<(), OutFault>
    ensures { Prints S.written S.faults sink.old sink.new result (spaced words.now) }
{
    for word in words {
        put_word(sink, word.bytes())?;
    }
    Ok(())
}

// The line of the names.
fn put_names<S: Sink>(sink: &mut S, names: &[Text]) -> Result<(), OutFault>
    ensures { Prints S.written S.faults sink.old sink.new result (line (codes "cycle") names.now) }
{
    put(sink, b"cycle")?;
    put_words(sink, names)?;
    put(sink, b"\n")
}

// A trace.
fn put_table<S: Sink>(sink: &mut S, before: usize, trace: &Trace) -> Result<(), OutFault>
    ensures { Prints S.written S.faults sink.old sink.new result (table before trace.now) }
{
    put_names(sink, trace.names.as_slice())?;
    put_rows(sink, before, 0, trace.rows.as_slice())
}

// A register's first value.
fn put_start<S: Sink>(sink: &mut S, start: &Start) -> Result<(), OutFault>
    ensures { Prints S.written S.faults sink.old sink.new result (start_line start.now) }
{
    let mut digits = Buffer::new();
    put_all(
        sink,
        &[
            b"start ",
            start.name.bytes(),
            b" ",
            digits.format(start.value).as_bytes(),
            b"\n",
        ],
    )
}

// The registers' first values.
fn put_starts<S: Sink>(sink: &mut S, starts: &[Start]) -> Result<(), OutFault>
    ensures { Prints S.written S.faults sink.old sink.new result (start_lines starts.now) }
{
    for start in starts {
        put_start(sink, start)?;
    }
    Ok(())
}

// One trace, or two under their names.
fn put_tables<S: Sink>(sink: &mut S, shown: &Shown) -> Result<(), OutFault>
    ensures { Prints S.written S.faults sink.old sink.new result
        (tables shown.now.before shown.now.first shown.now.second) }
{
    let before = shown.before as usize;
    match &shown.second {
        None => put_table(sink, before, &shown.first),
        Some(second) => {
            put(sink, b"first\n")?;
            put_table(sink, before, &shown.first)?;
            put(sink, b"second\n")?;
            put_table(sink, 0, second)
        }
    }
}

// What follows the first line.
fn put_shown<S: Sink>(sink: &mut S, shown: &Shown) -> Result<(), OutFault>
    ensures { Prints S.written S.faults sink.old sink.new result (shown_text shown.now) }
{
    put_starts(sink, shown.start.as_slice())?;
    put_tables(sink, shown)
}

/// Puts the text of a counterexample: the line that is refuted, the registers' first values, and then the trace, or
/// both traces under `first` and `second`. A trace is a line with `cycle` and the names, and a line for each cycle with
/// its number and the values; reset cycles are numbered up to -1. It takes no memory of its own. It is refused where
/// the sink refuses, and then a prefix of the text was put.
pub fn print_trace<S: Sink>(line: &[u8], shown: &Shown, sink: &mut S) -> Result<(), OutFault>
    ensures { Prints S.written S.faults sink.old sink.new result (trace_text line.now shown.now) }
{
    put_all(sink, &[b"refuted ", line, b"\n"])?;
    put_shown(sink, shown)
}

/// The text of a counterexample, as `print_trace` puts it.
pub fn trace_text(alloc: Global, line: &[u8], shown: &Shown) -> Result<Text, AllocError>
    ensures { IfOk result (λ text. text ≡ trace_text line.now shown.now) }
{
    let mut sink = MemSink::new(alloc, Vec::new(alloc));
    match print_trace(line, shown, &mut sink) {
        Ok(()) => Text::copy(alloc, sink.bytes()),
        Err(_) => Err(AllocError),
    }
}

/// What follows the first line of a counterexample's text: the registers' first values, and the traces.
pub fn shown_text(alloc: Global, shown: &Shown) -> Result<Text, AllocError>
    ensures { IfOk result (λ text. text ≡ shown_text shown.now) }
{
    let mut sink = MemSink::new(alloc, Vec::new(alloc));
    match put_shown(&mut sink, shown) {
        Ok(()) => Text::copy(alloc, sink.bytes()),
        Err(_) => Err(AllocError),
    }
}
