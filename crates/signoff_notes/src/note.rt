// The whole note on a counterexample.
use crate::design::{add_commitments, add_invariant};
use crate::scene::{Scene, SetFile};
use crate::twin::{Edge, add_choice, add_endless, add_ends, add_hands, add_outputs, add_split};
use crate::window::Window;
use outside::Text;
use replay::Shown;
use set_tree::{Line, Rows, Set};
use signoff_places::tokens_of;
use std::alloc::{AllocError, Global};

// The cycles of the second window; none where there is one window.
fn second_rows(shown: &Shown) -> &[Rows<u64>] {
    match &shown.second {
        Some(trace) => trace.rows.as_slice(),
        None => &[],
    }
}

// Adds what violates a line.
fn add_violation(scene: &Scene<'_>, out: &mut Vec<u8>, line: Line) -> Result<(), AllocError> {
    match line {
        Line::Base(at) => add_invariant(scene, out, "the run from reset", at, 0),
        Line::Step(at) => add_invariant(scene, out, "the step from cycle 0", at, 1),
        Line::Reset => add_commitments(scene, out, 0),
        Line::Operation(at) => add_commitments(scene, out, at),
        Line::End(at) => add_endless(scene, out, at),
        Line::Split(at) => add_split(scene, out, at),
        Line::SameEnd(at) => add_ends(scene, out, at),
        Line::Choose(from, to) => add_choice(scene, out, Edge { from, to }),
        Line::Hand(from, to) => add_hands(scene, out, Edge { from, to }),
        Line::Determine(at) => add_outputs(scene, out, at),
    }
}

/// What a counterexample of a line of a set shows, in the manner of a compiler's notes: the file, the line and the
/// column of the commitment, the invariant, the assumption, the hand-over or the cover that is violated, a sentence
/// that says so and at which cycle, the text's line with a mark, and the values of the names that are read there, each
/// at its cycle. The set is that of the file, and what is shown violates the line; else this says less, or nothing.
pub fn trace_note(
    alloc: Global,
    file: SetFile<'_>,
    set: &Set,
    line: Line,
    shown: &Shown,
) -> Result<Text, AllocError> {
    let tokens = tokens_of(alloc, file.text, true)?;
    let names = set.names.as_slice();
    let rows = shown.first.rows.as_slice();
    // reset cycles stand first
    let rows = rows.get(shown.before as usize..).unwrap_or(&[]);
    let scene = Scene {
        alloc,
        file,
        tokens: &tokens,
        set,
        first: Window { alloc, names, rows },
        second: Window {
            alloc,
            names,
            rows: second_rows(shown),
        },
    };
    let mut out = Vec::new(alloc);
    add_violation(&scene, &mut out, line)?;
    Ok(Text::new(out))
}
