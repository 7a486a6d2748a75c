// A note for each kind of line: windows of the set below that violate it, and what is said of them.
use desk_core_stages::set_of;
use outside::Text;
use replay::{Shown, Trace};
use set_tree::{Line, Rows, Set};
use signoff_notes::{SetFile, trace_note};
use std::alloc::{AllocError, Global};
use std::test::Fail;

const SET: &str = "block top; clock clk; reset rst high 1;
input en; output [1:0] q; output [1:0] y when en;
invariant low : q != 2'd3;
property reset { length 0; commit q@0 == 2'd0; cover q from 0 to 1; cover y from 0 to 1;
  next step; }
operation step { length 1; assume en@0; commit q@1 == q@0 + 1; hand {q@0, en@0}, q@0;
  cover q from 1 to 2; cover y from 1 to 2; next step, hold; }
operation hold { length 1 to 2 until en; assume !en@0; commit q@1 == q@0; hand q@0;
  cover q from 1 to end + 1; cover y from 1 to end + 1; next step; }
";

// A line, so many reset cycles, windows with the values of `en`, `q` and `y`, and what is said.
struct Row {
    line: Line,
    before: u32,
    first: &'static [[u64; 3]],
    second: &'static [[u64; 3]],
    says: &'static str,
}

static ROWS: [Row; 11] = [
    Row {
        line: Line::Base(0),
        before: 1,
        first: &[[0, 1, 0], [0, 3, 0]],
        second: &[],
        says: "s.set:3:17: note: the run from reset violates invariant low at cycle 0
    invariant low : q != 2'd3;
                    ^
    q@0 = 3
",
    },
    Row {
        line: Line::Step(0),
        before: 0,
        first: &[[0, 2, 0], [0, 3, 0]],
        second: &[],
        says: "s.set:3:17: note: the step from cycle 0 violates invariant low at cycle 1
    invariant low : q != 2'd3;
                    ^
    q@1 = 3
",
    },
    Row {
        line: Line::Reset,
        before: 1,
        first: &[[0, 0, 0], [0, 1, 0]],
        second: &[],
        says: "s.set:4:35: note: property reset violates its commitment `q@0 == 2'd0` at cycle 0
    property reset { length 0; commit q@0 == 2'd0; cover q from 0 to 1; cover y from 0 to 1;
                                      ^
    q@0 = 1
",
    },
    Row {
        line: Line::Operation(1),
        before: 0,
        first: &[[1, 3, 0], [0, 0, 0]],
        second: &[],
        says: "s.set:6:48: note: operation step violates its commitment `q@1 == q@0 + 1` at cycle 0
    operation step { length 1; assume en@0; commit q@1 == q@0 + 1; hand {q@0, en@0}, q@0;
                                                   ^
    q@0 = 3, q@1 = 0
",
    },
    Row {
        line: Line::End(2),
        before: 0,
        first: &[[0, 0, 0], [0, 0, 0], [0, 0, 0]],
        second: &[],
        says: "s.set:8:25: note: operation hold starts at cycle 0 and doesn't end: its condition is false from cycle 1 to cycle 2
    operation hold { length 1 to 2 until en; assume !en@0; commit q@1 == q@0; hand q@0;
                            ^
    en@1 = 0
    en@2 = 0
",
    },
    Row {
        line: Line::Split(0),
        before: 1,
        first: &[[0, 0, 0], [0, 0, 0], [0, 0, 0]],
        second: &[],
        says: "s.set:5:8: note: property reset ends at cycle 0, where no successor's assumptions hold
      next step; }
           ^
s.set:6:35: note: operation step isn't assumed at cycle 0: its assumption `en@0` is false
    operation step { length 1; assume en@0; commit q@1 == q@0 + 1; hand {q@0, en@0}, q@0;
                                      ^
    en@0 = 0
",
    },
    Row {
        line: Line::SameEnd(2),
        before: 0,
        first: &[[0, 0, 0], [1, 0, 0], [0, 0, 0]],
        second: &[[0, 0, 0], [0, 0, 0], [1, 0, 0]],
        says: "s.set:8:25: note: operation hold ends at cycle 1 in the first window, ends at cycle 2 in the second
    operation hold { length 1 to 2 until en; assume !en@0; commit q@1 == q@0; hand q@0;
                            ^
    first window: en@1 = 1
    second window: en@1 = 0
",
    },
    Row {
        line: Line::Choose(1, 2),
        before: 0,
        first: &[[1, 0, 0], [0, 0, 0], [0, 0, 0], [0, 0, 0]],
        second: &[[1, 0, 0], [1, 0, 0], [0, 0, 0], [0, 0, 0]],
        says: "s.set:8:49: note: operation hold is assumed in the first window alone at cycle 1: its assumption `!en@0` is false
    operation hold { length 1 to 2 until en; assume !en@0; commit q@1 == q@0; hand q@0;
                                                    ^
    first window: en@1 = 0
    second window: en@1 = 1
",
    },
    Row {
        line: Line::Hand(1, 1),
        before: 0,
        first: &[[1, 0, 0], [1, 1, 0], [1, 2, 0]],
        second: &[[1, 0, 0], [1, 1, 0], [1, 2, 0]],
        says: "",
    },
    Row {
        line: Line::Hand(1, 1),
        before: 0,
        first: &[[1, 0, 0], [1, 1, 0], [1, 2, 0]],
        second: &[[1, 0, 0], [1, 2, 0], [1, 2, 0]],
        says: "s.set:6:69: note: the hand-over `{q@0, en@0}` of operation step at cycle 1 is 3 in the first window, 5 in the second
    operation step { length 1; assume en@0; commit q@1 == q@0 + 1; hand {q@0, en@0}, q@0;
                                                                        ^
    first window: q@1 = 1, en@1 = 1
    second window: q@1 = 2, en@1 = 1
s.set:6:82: note: the hand-over `q@0` of operation step at cycle 1 is 1 in the first window, 2 in the second
    operation step { length 1; assume en@0; commit q@1 == q@0 + 1; hand {q@0, en@0}, q@0;
                                                                                     ^
    first window: q@1 = 1
    second window: q@1 = 2
",
    },
    Row {
        line: Line::Determine(1),
        before: 0,
        first: &[[1, 0, 0], [1, 1, 0]],
        second: &[[1, 0, 0], [1, 2, 3]],
        says: "s.set:7:9: note: output q is claimed at cycle 1 and differs: 1 in the first window, 2 in the second
      cover q from 1 to 2; cover y from 1 to 2; next step, hold; }
            ^
s.set:7:30: note: output y is claimed at cycle 1 and differs: 0 in the first window, 3 in the second
      cover q from 1 to 2; cover y from 1 to 2; next step, hold; }
                                 ^
",
    },
];

fn row_of(alloc: Global, cycle: &[u64; 3]) -> Result<Rows<u64>, AllocError> {
    let mut row = Rows::new(alloc);
    for value in cycle {
        row.push(*value)?;
    }
    Ok(row)
}

fn trace_of(alloc: Global, cycles: &[[u64; 3]]) -> Result<Trace, AllocError> {
    let mut rows = Rows::new(alloc);
    for cycle in cycles {
        rows.push(row_of(alloc, cycle)?)?;
    }
    Ok(Trace {
        names: Rows::new(alloc),
        rows,
    })
}

fn second_of(alloc: Global, row: &Row) -> Result<Option<Trace>, AllocError> {
    if row.second.is_empty() {
        return Ok(None);
    }
    Ok(Some(trace_of(alloc, row.second)?))
}

fn shown_of(alloc: Global, row: &Row) -> Result<Shown, AllocError> {
    let first = trace_of(alloc, row.first)?;
    let second = second_of(alloc, row)?;
    Ok(Shown {
        start: Rows::new(alloc),
        before: row.before,
        first,
        second,
    })
}

fn note_of(alloc: Global, set: &Set, row: &Row) -> Result<Text, AllocError> {
    let file = SetFile {
        name: b"s.set",
        text: SET.as_bytes(),
    };
    let shown = shown_of(alloc, row)?;
    trace_note(alloc, file, set, row.line, &shown)
}

// What is said of a row.
fn said(alloc: Global, row: &Row) -> Result<Text, AllocError> {
    match set_of(alloc, SET.as_bytes()) {
        Ok(sound) => {
            let note = note_of(alloc, sound.set(), row);
            // calls, since a proof would write out the drops of all trees here
            drop(sound);
            note
        }
        Err(stop) => {
            drop(stop);
            Text::copy(alloc, b"the set isn't read")
        }
    }
}

#[test]
fn says_what_is_violated(rt: HostRuntime) -> Result<(), Fail> {
    for row in &ROWS {
        let note = said(rt.alloc(), row)?;
        assert!(rt; note.bytes() == row.says.as_bytes());
    }
    Ok(())
}
