// Which lines of a set's text are refuted, by obligations, clauses and the solver.
use crate::pieces::{PIPE, PIPED, WAITED, WAITER};
use cdcl::{End, solve};
use cnf_build::build;
use outside::Text;
use set_read::read_set;
use set_tree_structure::{Sound, structure};
use std::alloc::{AllocError, Global};
use std::process::Abort;
use std::test::Fail;
use twin_tests::twin_obs;
use word_dag::{Named, Ob};

// Steps that suffice for the rows.
const BUDGET: u64 = 1_000_000;

fn refuted(alloc: Global, ob: &Ob) -> Result<bool, AllocError> {
    let built = build(alloc, ob)?;
    let end = solve(alloc, &built.cnf, BUDGET)?;
    Ok(matches!(end, End::Sat(_)))
}

fn add_refuted(alloc: Global, text: &mut Text, lines: &[Named]) -> Result<(), AllocError> {
    for line in lines {
        if refuted(alloc, &line.ob)? {
            text.append(line.name.bytes())?;
            text.append(b"\n")?;
        }
    }
    Ok(())
}

fn refuted_lines(alloc: Global, set: &Sound) -> Result<Text, AllocError> {
    let lines = twin_obs(alloc, set)?;
    let mut text = Text::copy(alloc, b"")?;
    add_refuted(alloc, &mut text, &lines)?;
    Ok(text)
}

// The names of the lines of the set whose root can be 1, a line each. `unread` and `unsound` where the text is no set
// with a sound structure.
fn shown(alloc: Global, text: &[u8]) -> Result<Text, AllocError> {
    match read_set(alloc, text) {
        Ok(set) => match structure(set) {
            Ok(sound) => {
                let lines = refuted_lines(alloc, &sound);
                // a call, since a proof would write out the drop of all trees here
                drop(sound);
                lines
            }
            Err(unsound) => {
                drop(unsound);
                Text::copy(alloc, b"unsound")
            }
        },
        Err(_) => Text::copy(alloc, b"unread"),
    }
}

// A set's text in parts, and the lines that are refuted.
struct Case<'a> {
    parts: &'a [&'a str],
    want: &'a str,
}

const COUNTER: &str = "block counter; clock clk; reset rst high 1; input en; output [1:0] q;
property reset { length 0; commit q@0 == 2'd0; cover q from 0 to 1; ";

const STEP: &str =
    "operation step { length 1; assume en@0; commit q@1 == q@0 + 2'd1; hand q@0; cover q from 1 to 2; ";

const HOLD: &str = "operation hold { length 1; assume !en@0; commit q@1 == q@0; ";

const BOTH: &str = "next step, hold; }\n";

const FLIP: &str = "block flip; clock clk; reset rst high 1; output q; state m;
property reset { length 0; commit q@0 == 1'b0; cover q from 0 to 1; next on, off; }
operation on { length 1; assume m@0; commit q@1 == !q@0; hand q@0; cover q from 1 to 2; next on, off; }
operation off { length 1; assume !m@0; commit q@1 == q@0; hand q@0; cover q from 1 to 2; next on, off; }";

const RULE: &str = "constraint soon : ok@0 || ok@1 || ok@2;\n";

const CASES: &[Case] = &[
    Case {
        parts: &[
            COUNTER,
            BOTH,
            STEP,
            BOTH,
            HOLD,
            "hand q@0; cover q from 1 to 2; ",
            BOTH,
        ],
        want: "",
    },
    Case {
        parts: &[COUNTER, "next step; }\n", STEP, "next step; }"],
        want: "split reset\nsplit step\n",
    },
    Case {
        parts: &[
            COUNTER,
            BOTH,
            STEP,
            BOTH,
            HOLD,
            "cover q from 1 to 2; ",
            BOTH,
        ],
        want: "hand hold step\ndetermine hold\n",
    },
    Case {
        parts: &[FLIP],
        want: "choose reset on\nchoose reset off\nchoose on on\nchoose on off\nchoose off on\nchoose off off\n",
    },
    Case {
        parts: &[PIPE, "v", PIPED],
        want: "",
    },
    Case {
        parts: &[PIPE, "o == 8'd7", PIPED],
        want: "determine reset\ndetermine move\n",
    },
    Case {
        parts: &[WAITER, RULE, WAITED],
        want: "",
    },
    Case {
        parts: &[WAITER, WAITED],
        want: "end serve\n",
    },
];

fn add_all(text: &mut Text, parts: &[&str]) -> Result<(), AllocError> {
    for part in parts {
        text.append(part.as_bytes())?;
    }
    Ok(())
}

fn text_of(alloc: Global, parts: &[&str]) -> Result<Text, AllocError> {
    let mut text = Text::copy(alloc, b"")?;
    add_all(&mut text, parts)?;
    Ok(text)
}

fn refutes(rt: &(impl Abort + AllocGlobal), case: &Case) -> Result<(), Fail> {
    let text = text_of(rt.alloc(), case.parts)?;
    let lines = shown(rt.alloc(), text.bytes())?;
    assert_eq!(rt; lines.bytes(), case.want.as_bytes());
    Ok(())
}

#[test]
fn lines_are_refuted_as_the_flaw_says(rt: HostRuntime) -> Result<(), Fail> {
    for case in CASES {
        refutes(&rt, case)?;
    }
    Ok(())
}
