// What a set's text comes to, shown as a line: why it is refused, the first fault of its structure, or that it is
// sound.
ghost use Rattle.set_tree_structure.specs.Condition.{IsWellFormed};

use outside::Text;
use set_read::{SetFault, read_set};
use set_tree::Set;
use set_tree_structure::{GraphFault, Place, structure};
use std::alloc::{AllocError, Global};
use std::fmt::Write;
use std::process::Abort;
use std::test::Fail;

fn show_place(out: &mut String, place: Place) -> Result<(), AllocError> {
    match place {
        Place::Property(at) => write!(out, "property {at}"),
        Place::Invariant(at) => write!(out, "invariant {at}"),
        Place::Output(at) => write!(out, "output {at}"),
    }
}

fn show_fault(out: &mut String, fault: GraphFault) -> Result<(), AllocError> {
    match fault {
        GraphFault::Tile(from, to, output) => write!(out, "Tile {from} {to} {output}"),
        GraphFault::Cover(at, output) => write!(out, "Cover {at} {output}"),
        GraphFault::Offset(place) => {
            out.push_str("Offset ")?;
            show_place(out, place)
        }
        GraphFault::IntoReset(at) => write!(out, "IntoReset {at}"),
        GraphFault::HandAtReset => out.push_str("HandAtReset"),
    }
}

fn fault_line(alloc: Global, fault: GraphFault) -> Result<Text, AllocError> {
    let mut out = String::new(alloc);
    show_fault(&mut out, fault)?;
    Text::copy(alloc, out.as_bytes())
}

fn structure_line(alloc: Global, set: Set) -> Result<Text, AllocError>
    requires { IsWellFormed set }
{
    match structure(set) {
        Ok(sound) => {
            // a call, since a proof would write out the drop of all trees here
            drop(sound);
            Text::copy(alloc, b"sound")
        }
        Err(unsound) => {
            let fault = unsound.fault;
            drop(unsound);
            fault_line(alloc, fault)
        }
    }
}

// A fault's name and the place of a byte.
fn at_byte(alloc: Global, fault: &str, at: usize) -> Result<Text, AllocError> {
    let mut out = String::new(alloc);
    write!(out, "{fault} {at}")?;
    Text::copy(alloc, out.as_bytes())
}

// A fault's name and what it is about.
fn about(alloc: Global, fault: &[u8], word: &[u8]) -> Result<Text, AllocError> {
    let mut out = Text::copy(alloc, fault)?;
    out.append(b" ")?;
    out.append(word)?;
    Ok(out)
}

fn refusal_line(alloc: Global, fault: &SetFault) -> Result<Text, AllocError> {
    match fault {
        SetFault::Bytes(at) => at_byte(alloc, "Bytes", *at),
        SetFault::Number(at) => at_byte(alloc, "Number", *at),
        SetFault::Syntax(at) => at_byte(alloc, "Syntax", *at),
        SetFault::Unknown(name) => about(alloc, b"Unknown", name.bytes()),
        SetFault::Twice(name) => about(alloc, b"Twice", name.bytes()),
        SetFault::Limit(quantity) => about(alloc, b"Limit", quantity.word()),
        SetFault::Deep => Text::copy(alloc, b"Deep"),
        SetFault::Memory => Text::copy(alloc, b"Memory"),
    }
}

// Why a text is refused, the first fault of its set's structure, or `sound`.
fn shown(alloc: Global, text: &[u8]) -> Result<Text, AllocError> {
    match read_set(alloc, text) {
        Ok(set) => structure_line(alloc, set),
        Err(fault) => refusal_line(alloc, &fault),
    }
}

fn row(rt: &(impl Abort + AllocGlobal), text: &[u8], want: &str) -> Result<(), Fail> {
    let line = shown(rt.alloc(), text)?;
    assert_eq!(rt; line.bytes(), want.as_bytes(), "at {text:?}");
    Ok(())
}

fn add_all(text: &mut Text, parts: &[&str]) -> Result<(), AllocError> {
    for part in parts {
        text.append(part.as_bytes())?;
    }
    Ok(())
}

// A set with these declarations and rules, this in its reset property and this operation.
fn set_of(alloc: Global, names: &str, first: &str, operation: &str) -> Result<Text, AllocError> {
    let mut text = Text::copy(alloc, b"block b; clock c; reset r high 1; ")?;
    let parts = [
        names,
        " property reset { length 0; ",
        first,
        " } operation go { ",
        operation,
        " }",
    ];
    add_all(&mut text, &parts)?;
    Ok(text)
}

// Each row has the three parts of a set and its line.
fn sets(rt: &(impl Abort + AllocGlobal), rows: &[(&str, &str, &str, &str)]) -> Result<(), Fail> {
    for (names, first, operation, want) in rows {
        let text = set_of(rt.alloc(), names, first, operation)?;
        row(rt, text.bytes(), want)?;
    }
    Ok(())
}

fn add_times(text: &mut Text, piece: &str, times: usize) -> Result<(), AllocError> {
    for _turn in 0..times {
        text.append(piece.as_bytes())?;
    }
    Ok(())
}

// A text with a piece in it that stands there so often.
fn repeated(
    alloc: Global,
    head: &str,
    piece: &str,
    times: usize,
    tail: &str,
) -> Result<Text, AllocError> {
    let mut text = Text::copy(alloc, head.as_bytes())?;
    add_times(&mut text, piece, times)?;
    text.append(tail.as_bytes())?;
    Ok(text)
}

const COUNTER: &str = "block counter; clock clk; reset rst high 1;
input en; output [1:0] q;
property reset { length 0; commit q@0 == 2'd0; cover q from 0 to 1; next step, hold; }
operation step { length 1; assume en@0; commit q@1 == q@0 + 2'd1; hand q@0;
  cover q from 1 to 2; next step, hold; }
operation hold { length 1; assume !en@0; commit q@1 == q@0; hand q@0;
  cover q from 1 to 2; next step, hold; }
";

const FLIP: &str = "block flip; clock clk; reset rst high 1;
output q; state m;
property reset { length 0; commit q@0 == 1'b0; cover q from 0 to 1; next on, off; }
operation on { length 1; assume m@0; commit q@1 == !q@0; hand q@0;
  cover q from 1 to 2; next on, off; }
operation off { length 1; assume !m@0; commit q@1 == q@0; hand q@0;
  cover q from 1 to 2; next on, off; }
";

const PIPE1: &str = "block pipe1; clock clk; reset rst high 1;
input iv; input [7:0] d; output v; output [7:0] o when v;
property reset { length 0; commit !v@0; cover v from 0 to 1; cover o from 0 to 1; next move; }
operation move { length 1; commit v@1 == iv@0; commit !iv@0 || o@1 == d@0;
  cover v from 1 to 2; cover o from 1 to 2; next move; }
";

const MOD3: &str = "block mod3; clock clk; reset rst high 1;
output [1:0] q;
property reset { length 0; commit q@0 == 2'd0; cover q from 0 to 1; next tick; }
operation tick { length 1; commit q@1 == (q@0 == 2'd2 ? 2'd0 : q@0 + 2'd1); hand q@0;
  cover q from 1 to 2; next tick; }
";

const HOP: &str = "block hop; clock clk; reset rst high 1;
output [2:0] q;
property reset { length 0; commit q@0 == 3'd0; cover q from 0 to 1; next tick; }
operation tick { length 1; commit q@1 == (q@0 == 3'd2 ? 3'd0 : q@0 + 3'd1); hand q@0;
  cover q from 1 to 2; next tick; }
";

const PIPE3: &str = "block pipe3; clock clk; reset rst high 1;
input [3:0] d; output [3:0] o;
property reset { length 0; window 2; commit o@0 == 0 && o@1 == 0 && o@2 == 0;
  cover o from 0 to 3; next shift; }
operation shift { length 1; window 3; commit o@3 == d@0; cover o from 3 to 4; next shift; }
";

const MUL: &str = "block mul; clock clk; reset rst high 1;
input [63:0] a; input [63:0] b; state [63:0] p; state [63:0] r;
property reset { length 0; next mul; }
operation mul { length 1; commit p@0 == r@0; next mul; }
";

const LATCH: &str = "block l; clock clk; reset rst high 1;
input a; output q;
property reset { length 0; cover q from 0 to 1; next go; }
operation go { length 1; cover q from 1 to 2; next go; }
";

const CTL: &str = "block ctl; clock clk; reset rst_n low 1;
input req; output ack; state busy;
property reset { length 0; commit !ack@0; commit !busy@0; cover ack from 0 to 1;
  next idle, serve; }
operation idle { length 1; assume !busy@0 && !req@0; commit !ack@1 && !busy@1;
  cover ack from 1 to 2; next idle, serve; }
operation serve { length 4; assume !busy@0 && req@0;
  commit !ack@1 && !ack@2 && ack@3 && !ack@4; commit !busy@4;
  cover ack from 1 to 5; next idle, serve; }
";

const WAITER: &str = "block waiter; clock clk; reset rst high 1;
input go; input ok; output busy;
constraint soon : ok@0 || ok@1 || ok@2;
property reset { length 0; commit !busy@0; cover busy from 0 to 1; next idle, serve; }
operation idle { length 1; assume !busy@0 && !go@0; commit !busy@1;
  cover busy from 1 to 2; next idle, serve; }
operation serve { length 2 to 4 until !busy; assume !busy@0 && go@0;
  commit busy@1; commit busy@2 == !ok@1;
  commit !busy@2 || busy@3 == !ok@2;
  commit !busy@2 || !busy@3 || busy@4 == !ok@3;
  cover busy from 1 to end + 1; next idle, serve; }
";

const SOUND: &[&str] = &[
    COUNTER, FLIP, PIPE1, MOD3, HOP, PIPE3, MUL, LATCH, CTL, WAITER,
];

#[test]
fn the_sets_of_the_examples_are_sound(rt: HostRuntime) -> Result<(), Fail> {
    for text in SOUND {
        row(&rt, text.as_bytes(), "sound")?;
    }
    Ok(())
}

const NO_SETS: &[(&str, &str)] = &[
    ("", "Syntax 0"),
    ("block m; clock", "Syntax 14"),
    ("block m; clock `c;", "Syntax 15"),
    (
        "block m; clock c; reset r high 1; output q when q / q;",
        "Syntax 50",
    ),
    ("block m \x01", "Bytes 8"),
    ("block 4'b2;", "Number 6"),
];

#[test]
fn texts_that_spell_no_set_are_refused(rt: HostRuntime) -> Result<(), Fail> {
    for (text, want) in NO_SETS {
        row(&rt, text.as_bytes(), want)?;
    }
    Ok(())
}

const GO: &str = "length 1; cover o from 1 to 2; next go;";

const TO_GO: &str = "cover o from 0 to 1; next go;";

const REFUSED: &[(&str, &str, &str, &str)] = &[
    ("output o when p;", TO_GO, GO, "Unknown p"),
    (
        "output o; state s;",
        "cover s from 0 to 1; next go;",
        GO,
        "Unknown s",
    ),
    ("output o;", "next stop;", GO, "Unknown stop"),
    ("output o; state o;", TO_GO, GO, "Twice o"),
    ("output o; constraint reset : o;", TO_GO, GO, "Twice reset"),
    ("output o; invariant go : o;", TO_GO, GO, "Twice go"),
    ("output o;", "next go, go;", GO, "Twice go"),
    (
        "output o;",
        TO_GO,
        "length 1; window 64; cover o from 1 to 2; next go;",
        "sound",
    ),
    (
        "output o;",
        TO_GO,
        "length 1; window 65; next go;",
        "Limit window",
    ),
    ("output o;", TO_GO, "length 0; next go;", "Limit length"),
    (
        "output o;",
        TO_GO,
        "length 3 to 2 until o; next go;",
        "Limit length",
    ),
    ("output [64:0] o;", TO_GO, GO, "Limit width"),
    ("output [0:1] o;", TO_GO, GO, "Limit width"),
    ("output o; constraint c : o@64;", TO_GO, GO, "sound"),
    ("output o; constraint c : o@65;", TO_GO, GO, "Limit window"),
    ("", TO_GO, GO, "Limit names"),
];

#[test]
fn names_and_quantities_are_refused(rt: HostRuntime) -> Result<(), Fail> {
    sets(&rt, REFUSED)
}

// Bounds, widths and counts name nothing and lengths are from 1 to 64, in whichever row the names are read.
const FORMULAS: &[(&str, &str, &str, &str)] = &[
    (
        "output o; state [7:4] s; constraint c : s@9[6:5] == {2{o@9}};",
        TO_GO,
        GO,
        "sound",
    ),
    ("output o when {0{o}};", TO_GO, GO, "Limit width"),
    ("output o; invariant i : {o{o}};", TO_GO, GO, "Limit width"),
    (
        "output o; state [7:4] s; constraint c : s[o:4];",
        TO_GO,
        GO,
        "Limit width",
    ),
    (
        "output o; state [7:4] s; invariant i : s[3:2];",
        TO_GO,
        GO,
        "Limit width",
    ),
    (
        "output o; state [7:4] s;",
        TO_GO,
        "length 1; assume s@1[4+:o]; next go;",
        "Limit width",
    ),
    (
        "output o;",
        TO_GO,
        "length 1; commit {65{o@1}}; next go;",
        "Limit width",
    ),
    (
        "output o;",
        TO_GO,
        "length 1; hand {33{o, o}}; next go;",
        "Limit width",
    ),
    (
        "output o;",
        TO_GO,
        "length 1 to 2 until {64{o, o}}; next go;",
        "Limit width",
    ),
];

#[test]
fn formulas_are_well_formed(rt: HostRuntime) -> Result<(), Fail> {
    sets(&rt, FORMULAS)
}

const HEAD: &str = "block b; clock c; reset r high 1; output o; ";

const TAIL: &str = "property reset { length 0; cover o from 0 to 1; next go; }
operation go { length 1; cover o from 1 to 2; next go; }";

const FIRST: &str =
    "block b; clock c; reset r high 1; output o; property reset { length 0; next go; } ";

const NEXT: &str = "operation go { length 1; next go; } ";

const HAND: &str = "block b; clock c; reset r high 1; output o;
property reset { length 0; cover o from 0 to 1; next go; } operation go { length 1; hand o";

const HANDED: &str = "; cover o from 1 to 2; next go; }";

const WHEN: &str = "block b; clock c; reset r high 1; output o when ";

const WHOLE: &str = "o; property reset { length 0; cover o from 0 to 1; next go; }
operation go { length 1; cover o from 1 to 2; next go; }";

// Each row has a text up to a piece, the piece, how often it stands there, the rest, and the set's line.
const COUNTED: &[(&str, &str, usize, &str, &str)] = &[
    (FIRST, NEXT, 64, "", "Twice go"),
    (FIRST, NEXT, 65, "", "Limit operations"),
    (HEAD, "invariant i : o; ", 64, TAIL, "Twice i"),
    (HEAD, "invariant i : o; ", 65, TAIL, "Limit invariants"),
    (HEAD, "constraint k : o; ", 65, TAIL, "Limit constraints"),
    (HEAD, "state s; ", 255, TAIL, "Twice s"),
    (HEAD, "state s; ", 256, TAIL, "Limit names"),
    (HAND, ", o", 63, HANDED, "sound"),
    (HAND, ", o", 64, HANDED, "Limit hands"),
    (WHEN, "!", 497, WHOLE, "sound"),
    (WHEN, "!", 498, WHOLE, "Deep"),
    (
        "block b; clock c; reset r low 1",
        "7",
        1,
        "; output o; property reset { length 0; next go; } operation go { length 1; next go; }",
        "Limit cycles",
    ),
];

#[test]
fn counts_and_heights_keep_their_bounds(rt: HostRuntime) -> Result<(), Fail> {
    for (head, piece, times, tail, want) in COUNTED {
        let text = repeated(rt.alloc(), head, piece, *times, tail)?;
        row(&rt, text.bytes(), want)?;
    }
    Ok(())
}

const FAULTS: &[(&str, &str, &str, &str)] = &[
    (
        "output o; invariant i : o; invariant j : o@1;",
        TO_GO,
        "length 1; commit o@2; cover o from 1 to 2; next go;",
        "Offset invariant 1",
    ),
    ("input i; output o when i@1;", TO_GO, GO, "Offset output 1"),
    (
        "output o;",
        TO_GO,
        "length 1; commit o@1; commit {o, o@2} == 0; cover o from 1 to 2; next go;",
        "Offset property 1",
    ),
    (
        "output o;",
        TO_GO,
        "length 1 to 2 until o@1; cover o from 1 to end + 1; next go;",
        "Offset property 1",
    ),
    (
        "output o;",
        TO_GO,
        "length 2 to 4 until o; cover o from 1 to 5; next go;",
        "Cover 1 0",
    ),
    ("output o; output p;", TO_GO, GO, "Cover 0 1"),
    (
        "output o;",
        TO_GO,
        "length 1; cover o from 1 to 2; cover o from 1 to 2; next go;",
        "Cover 1 0",
    ),
    (
        "output o;",
        "cover o from 1 to 1; next go;",
        GO,
        "Cover 0 0",
    ),
    (
        "output o;",
        TO_GO,
        "length 1; cover o from 1 to 3; next go;",
        "Cover 1 0",
    ),
    (
        "output o;",
        "hand o; cover o from 0 to 1; next reset;",
        GO,
        "HandAtReset",
    ),
    (
        "output o;",
        TO_GO,
        "length 1; commit o@9; cover o from 1 to 2; next go, reset;",
        "IntoReset 1",
    ),
    (
        "input i; output o;",
        TO_GO,
        "length 1; cover o from 0 to 1; next go;",
        "Tile 0 1 1",
    ),
    (
        "output o;",
        "cover o from 0 to 0; next go;",
        "length 2; cover o from 0 to 1; next go;",
        "Tile 1 1 0",
    ),
];

#[test]
fn faults_of_the_structure_are_told(rt: HostRuntime) -> Result<(), Fail> {
    sets(&rt, FAULTS)
}
