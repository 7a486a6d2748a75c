// Whether windows violate a line of a set's text, or rows break a line of a design, shown as a word.
use crate::pieces::{PIPE, PIPED, WAITED, WAITER};
use outside::Text;
use replay_eval::{Windows as Pair, is_constrained};
use set_read::read_set;
use set_tree::{Line, Rows};
use set_tree_structure::{Sound, structure};
use std::alloc::{AllocError, Global};
use std::process::Abort;
use std::test::Fail;
use test_judges::is_broken;
use twin_tests::SetLine;

// A line, by what is asked to violate it: windows, or the rows of a segment.
#[derive(Clone, Copy)]
enum Judged {
    Set(SetLine),
    Design(Line),
}

// A line, the end of its property where the line speaks of one, and the windows that may violate it: a row of values in
// the order of the set's names for each cycle. A line on a design has the first window alone, the rows of a segment.
struct Windows<'a> {
    line: Judged,
    end: u8,
    one: &'a [&'a [u64]],
    other: &'a [&'a [u64]],
}

fn add_values(row: &mut Rows<u64>, values: &[u64]) -> Result<(), AllocError> {
    for value in values {
        row.push(*value)?;
    }
    Ok(())
}

fn row_of(alloc: Global, values: &[u64]) -> Result<Rows<u64>, AllocError> {
    let mut row = Rows::new(alloc);
    add_values(&mut row, values)?;
    Ok(row)
}

fn add_rows(alloc: Global, all: &mut Vec<Rows<u64>>, rows: &[&[u64]]) -> Result<(), AllocError> {
    for values in rows {
        all.push(row_of(alloc, values)?)?;
    }
    Ok(())
}

fn rows_of(alloc: Global, rows: &[&[u64]]) -> Result<Vec<Rows<u64>>, AllocError> {
    let mut all = Vec::new(alloc);
    add_rows(alloc, &mut all, rows)?;
    Ok(all)
}

fn judged_rows(
    alloc: Global,
    set: &Sound,
    windows: &Windows,
    one: &[Rows<u64>],
    other: &[Rows<u64>],
) -> Result<&'static str, AllocError> {
    match windows.line {
        Judged::Set(line) => {
            let pair = Pair { set, one, other };
            if pair.violate(alloc, line, windows.end)? {
                return Ok("violated");
            }
        }
        Judged::Design(line) => {
            if is_broken(alloc, set, line, one)? {
                return Ok("broken");
            }
        }
    }
    if is_constrained(alloc, set, one)? {
        Ok("kept")
    } else {
        Ok("unconstrained")
    }
}

fn verdict_of(alloc: Global, set: &Sound, windows: &Windows) -> Result<&'static str, AllocError> {
    let one = rows_of(alloc, windows.one)?;
    let other = rows_of(alloc, windows.other)?;
    judged_rows(alloc, set, windows, &one, &other)
}

// `violated` where the windows violate a line of the set, `broken` where the rows break one of a design; else `kept`,
// or `unconstrained` where the first isn't a trace that meets the set's constraints. `unread` and `unsound` where the
// text is no set with a sound structure.
fn shown(alloc: Global, text: &[u8], windows: &Windows) -> Result<&'static str, AllocError> {
    match read_set(alloc, text) {
        Ok(set) => match structure(set) {
            Ok(sound) => {
                let word = verdict_of(alloc, &sound, windows);
                // a call, since a proof would write out the drop of all trees here
                drop(sound);
                word
            }
            Err(unsound) => {
                drop(unsound);
                Ok("unsound")
            }
        },
        Err(_) => Ok("unread"),
    }
}

// The first parts of a set's text, and the rest of it with a piece that makes the flaw and one that doesn't.
struct Flaw<'a> {
    head: &'a str,
    flaw: &'a str,
    sound: &'a str,
    tail: &'a str,
    // Windows that violate lines of the text with the flaw, or rows that break them.
    windows: &'a [Windows<'a>],
    // What they are to the text without it.
    want: &'a str,
}

const COUNTER: &str = "block counter; clock clk; reset rst high 1; input en; output [1:0] q;
property reset { length 0; commit q@0 == 2'd0; cover q from 0 to 1; next step, hold; }
operation step { length 1; assume en@0; commit q@1 == q@0 + 2'd1; hand q@0; cover q from 1 to 2; next step, hold; }
operation hold { length 1; assume !en@0; commit q@1 == q@0; ";

const COUNTED: &str = "cover q from 1 to 2; next step, hold; }";

const STEPS: &str = "block counter; clock clk; reset rst high 1; input en; output [1:0] q;
property reset { length 0; commit q@0 == 2'd0; cover q from 0 to 1; next step; }
operation step { length 1; ";

const STEPPED: &str =
    "commit en@0 == 1'b0 || q@1 == q@0 + 2'd1; hand q@0; cover q from 1 to 2; next step; }";

const FLIP: &str = "block flip; clock clk; reset rst high 1; output q; ";

const FLIPPED: &str = " m;
property reset { length 0; commit q@0 == 1'b0; cover q from 0 to 1; next on, off; }
operation on { length 1; assume m@0; commit q@1 == !q@0; hand q@0; cover q from 1 to 2; next on, off; }
operation off { length 1; assume !m@0; commit q@1 == q@0; hand q@0; cover q from 1 to 2; next on, off; }";

const FLAWS: &[Flaw] = &[
    Flaw {
        head: STEPS,
        flaw: "assume en@0; ",
        sound: "",
        tail: STEPPED,
        want: "kept",
        windows: &[
            Windows {
                line: Judged::Set(SetLine::Split(0)),
                end: 0,
                one: &[&[0, 0], &[0, 0]],
                other: &[],
            },
            Windows {
                line: Judged::Set(SetLine::Split(1)),
                end: 1,
                one: &[&[1, 3], &[0, 0], &[0, 0]],
                other: &[],
            },
        ],
    },
    Flaw {
        head: COUNTER,
        flaw: "",
        sound: "hand q@0; ",
        tail: COUNTED,
        want: "kept",
        windows: &[
            Windows {
                line: Judged::Set(SetLine::Hand(2, 1)),
                end: 1,
                one: &[&[0, 0], &[1, 0], &[0, 1]],
                other: &[&[0, 1], &[1, 1], &[0, 2]],
            },
            Windows {
                line: Judged::Set(SetLine::Determine(2)),
                end: 1,
                one: &[&[0, 0], &[0, 0]],
                other: &[&[0, 1], &[0, 1]],
            },
        ],
    },
    Flaw {
        head: FLIP,
        flaw: "state",
        sound: "input",
        tail: FLIPPED,
        want: "kept",
        windows: &[
            Windows {
                line: Judged::Set(SetLine::Choose(0, 1)),
                end: 0,
                one: &[&[0, 1], &[0, 1]],
                other: &[&[0, 0], &[0, 0]],
            },
            Windows {
                line: Judged::Set(SetLine::Choose(0, 2)),
                end: 0,
                one: &[&[0, 0], &[0, 0]],
                other: &[&[0, 1], &[1, 1]],
            },
            Windows {
                line: Judged::Set(SetLine::Choose(1, 1)),
                end: 1,
                one: &[&[0, 1], &[1, 1], &[0, 1]],
                other: &[&[0, 1], &[1, 0], &[1, 0]],
            },
            Windows {
                line: Judged::Set(SetLine::Choose(1, 2)),
                end: 1,
                one: &[&[0, 1], &[1, 0], &[1, 0]],
                other: &[&[0, 1], &[1, 1], &[0, 1]],
            },
            Windows {
                line: Judged::Set(SetLine::Choose(2, 1)),
                end: 1,
                one: &[&[1, 0], &[1, 1], &[0, 1]],
                other: &[&[1, 0], &[1, 0], &[1, 0]],
            },
            Windows {
                line: Judged::Set(SetLine::Choose(2, 2)),
                end: 1,
                one: &[&[1, 0], &[1, 0], &[1, 0]],
                other: &[&[1, 0], &[1, 1], &[0, 1]],
            },
        ],
    },
    Flaw {
        head: PIPE,
        flaw: "o == 8'd7",
        sound: "v",
        tail: PIPED,
        want: "kept",
        windows: &[
            Windows {
                line: Judged::Set(SetLine::Determine(0)),
                end: 0,
                one: &[&[0, 0, 0, 7]],
                other: &[&[0, 0, 0, 6]],
            },
            Windows {
                line: Judged::Set(SetLine::Determine(1)),
                end: 1,
                one: &[&[0, 0, 0, 0], &[0, 0, 0, 7]],
                other: &[&[0, 0, 0, 0], &[0, 0, 0, 6]],
            },
        ],
    },
    Flaw {
        head: WAITER,
        flaw: "",
        sound: "constraint soon : ok@0 || ok@1 || ok@2; ",
        tail: WAITED,
        want: "unconstrained",
        windows: &[Windows {
            line: Judged::Set(SetLine::End(2)),
            end: 0,
            one: &[&[1, 0, 0], &[0, 0, 1], &[0, 0, 1], &[0, 0, 1], &[0, 0, 1]],
            other: &[],
        }],
    },
];

const MOD3: &str = "block mod3; clock clk; reset rst high 1; output [1:0] q; ";

const TICKED: &str =
    "property reset { length 0; commit q@0 == 2'd0; cover q from 0 to 1; next tick; }
operation tick { length 1; commit q@1 == (q@0 == 2'd2 ? 2'd0 : q@0 + 2'd1); commit q@1 != 2'd0 || q@0 == 2'd2;
hand q@0; cover q from 1 to 2; next tick; }";

const RESETS: &str = "block mod3; clock clk; reset rst high 1; output [1:0] q;
property reset { length 0; commit q@0 == ";

const RESET: &str = "; cover q from 0 to 1; next tick; }
operation tick { length 1; commit q@1 == (q@0 == 2'd2 ? 2'd0 : q@0 + 2'd1); hand q@0; cover q from 1 to 2; next tick; }";

const ADDS: &str = "block counter; clock clk; reset rst high 1; input en; output [1:0] q;
property reset { length 0; commit q@0 == 2'd0; cover q from 0 to 1; next step, hold; }
operation step { length 1; assume en@0; commit q@1 == q@0 + ";

const ADDED: &str = "; hand q@0; cover q from 1 to 2; next step, hold; }
operation hold { length 1; assume !en@0; commit q@1 == q@0; hand q@0; cover q from 1 to 2; next step, hold; }";

const COUNTS: &str = "block counter; clock clk; reset rst high 1; input en; output [1:0] q; ";

const WIDE: &str = "property reset { length 0; commit q@0 == 2'd0; cover q from 0 to 1; next step; }
operation step { length 1; commit q@1 == (en@0 ? q@0 + 1 : q@0); hand q@0; cover q from 1 to 2; next step; }";

const BREAKS: &[Flaw] = &[
    Flaw {
        head: MOD3,
        flaw: "invariant low : q != 2'd0; ",
        sound: "invariant low : q != 2'd3; ",
        tail: TICKED,
        want: "kept",
        windows: &[Windows {
            line: Judged::Design(Line::Base(0)),
            end: 0,
            one: &[&[0]],
            other: &[],
        }],
    },
    Flaw {
        head: MOD3,
        flaw: "invariant low : q != 2'd2; ",
        sound: "invariant low : q != 2'd3; ",
        tail: TICKED,
        want: "kept",
        windows: &[Windows {
            line: Judged::Design(Line::Step(0)),
            end: 0,
            one: &[&[1], &[2]],
            other: &[],
        }],
    },
    Flaw {
        head: RESETS,
        flaw: "2'd1",
        sound: "2'd0",
        tail: RESET,
        want: "kept",
        windows: &[Windows {
            line: Judged::Design(Line::Reset),
            end: 0,
            one: &[&[0]],
            other: &[],
        }],
    },
    Flaw {
        head: ADDS,
        flaw: "1",
        sound: "2'd1",
        tail: ADDED,
        want: "kept",
        windows: &[Windows {
            line: Judged::Design(Line::Operation(1)),
            end: 0,
            one: &[&[1, 3], &[0, 0]],
            other: &[],
        }],
    },
    Flaw {
        head: MOD3,
        flaw: "",
        sound: "invariant low : q != 2'd3; ",
        tail: TICKED,
        want: "kept",
        windows: &[Windows {
            line: Judged::Design(Line::Operation(1)),
            end: 0,
            one: &[&[3], &[0]],
            other: &[],
        }],
    },
    Flaw {
        head: COUNTS,
        flaw: "",
        sound: "constraint below : !en@0 || q@0 != 2'd3; ",
        tail: WIDE,
        want: "unconstrained",
        windows: &[Windows {
            line: Judged::Design(Line::Operation(1)),
            end: 0,
            one: &[&[1, 3], &[0, 0]],
            other: &[],
        }],
    },
];

fn text_of(alloc: Global, head: &str, piece: &str, tail: &str) -> Result<Text, AllocError> {
    let mut text = Text::copy(alloc, head.as_bytes())?;
    text.append(piece.as_bytes())?;
    text.append(tail.as_bytes())?;
    Ok(text)
}

fn line(
    rt: &(impl Abort + AllocGlobal),
    flaw: &Flaw,
    piece: &str,
    windows: &Windows,
    want: &str,
) -> Result<(), Fail> {
    let text = text_of(rt.alloc(), flaw.head, piece, flaw.tail)?;
    let word = shown(rt.alloc(), text.bytes(), windows)?;
    assert_eq!(rt; word, want, "at {piece:?}");
    Ok(())
}

fn lines(rt: &(impl Abort + AllocGlobal), flaw: &Flaw, word: &str) -> Result<(), Fail> {
    for windows in flaw.windows {
        line(rt, flaw, flaw.flaw, windows, word)?;
        line(rt, flaw, flaw.sound, windows, flaw.want)?;
    }
    Ok(())
}

#[test]
fn windows_violate_the_line_that_the_flaw_refutes(rt: HostRuntime) -> Result<(), Fail> {
    for flaw in FLAWS {
        lines(&rt, flaw, "violated")?;
    }
    Ok(())
}

#[test]
fn rows_break_the_line_that_the_flaw_refutes(rt: HostRuntime) -> Result<(), Fail> {
    for flaw in BREAKS {
        lines(&rt, flaw, "broken")?;
    }
    Ok(())
}
