// The path of a trace.
ghost use Rattle.std.specs.Prelude.{◌≡◌, ◌+◌, ◌<◌, ◌≤◌, length, IfOk};
ghost use Rattle.std.specs.Option.{IfSome};
ghost use Rattle.set_tree.specs.Formulas.{meaning_of};
ghost use Rattle.set_tree.specs.Parts.{IsOperation, IsPosition, largest_window};
ghost use Rattle.set_tree.specs.Paths.{IsPath, next_of};
ghost use Rattle.set_tree.specs.Traces.{IsTrace};
ghost use Rattle.path_machine.specs.Steps.{GoesOn, IsAfter};

use replay::Trace;
use replay_eval::{end_of, is_assumed, property_at, rows_from};
use set_tree::{At, Path, Rows, Set};
use set_tree_structure::Sound;
use sqlite_items::Items;
use std::alloc::{AllocError, Global};

// The largest window of the properties.
fn largest_window(set: &Set) -> u8
    ensures { result ≡ largest_window set.now }
{
    let mut largest = set.first.window;
    for property in set.operations.as_slice() {
        largest = largest.max(property.window);
    }
    largest
}

// The first successor of a property that is assumed in the first row.
fn next_of(
    alloc: Global,
    set: &Sound,
    at: u32,
    rows: &[Rows<u64>],
) -> Result<Option<u32>, AllocError>
    requires trace { IsTrace set.now rows.now }
    requires position { IsPosition set.now at }
    requires fits { largest_window set.now < length rows.now }
    ensures { IfOk result (λ next. next ≡ next_of (meaning_of set.now) set.now at rows.now) }
{
    for successor in property_at(set, at).next.as_slice() {
        let assumed = is_assumed(alloc, set, *successor, rows)?;
        if assumed {
            return Ok(Some(*successor));
        }
    }
    Ok(None)
}

/// What follows a property of a path: another one, or the path's end, which may be stuck.
#[derive(Clone, Copy)]
pub enum After {
    Next(At),
    End { stuck: bool },
}

// What follows a property, where the largest window is this.
fn follow(
    alloc: Global,
    set: &Sound,
    window: usize,
    at: At,
    rows: &[Rows<u64>],
) -> Result<After, AllocError>
    requires trace { IsTrace set.now rows.now }
    requires window { window ≡ largest_window set.now }
    requires position { IsPosition set.now at.property }
    requires fits { at.start + window < length rows.now }
    ensures { IfOk result (IsAfter (meaning_of set.now) set.now rows.now at) }
{
    let start = at.start as usize;
    let here = rows_from(rows, start);
    // for so many cycles from here on the largest window fits
    let room = here.len() - window;
    let Some(end) = end_of(alloc, set, at.property, here)? else {
        return Ok(After::End { stuck: true });
    };
    let end = usize::from(end);
    if end >= room {
        return Ok(After::End { stuck: false });
    }
    let next = next_of(alloc, set, at.property, rows_from(here, end))?;
    match next {
        Some(property) => Ok(After::Next(At {
            property,
            start: (start + end) as u64,
        })),
        None => Ok(After::End { stuck: true }),
    }
}

/// The path of a trace: the properties that follow one another from reset at cycle 0 on, each of which starts where the
/// one before ends, with the first of its successors that is assumed there. It has none where the largest window
/// doesn't fit into the trace, and ends where it no longer fits; it is stuck where a property has no end, or no
/// successor is assumed there.
pub fn path_of(alloc: Global, sound: &Sound, trace: &Trace) -> Result<Path, AllocError>
    requires { IsTrace sound.now trace.now.rows }
    ensures { IfOk result (IsPath (meaning_of sound.now) sound.now trace.now.rows) }
{
    let rows = trace.rows.as_slice();
    let window = usize::from(largest_window(sound.set()));
    if rows.len() <= window {
        return Ok(Path {
            steps: Items::new(alloc),
            stuck: false,
        });
    }
    let mut steps = Items::new(alloc);
    let mut at = At {
        property: 0,
        start: 0,
    };
    loop {
        steps.push(at)?;
        match follow(alloc, sound, window, at, rows)? {
            After::Next(next) => at = next,
            After::End { stuck } => return Ok(Path { steps, stuck }),
        }
    }
}
