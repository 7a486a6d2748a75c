// Places and sentences of refusals: each row changes one of two texts that fit.
use desk_core_faults::CheckFault;
use desk_core_stages::bound_of;
use outside::Text;
use signoff_faults::{Files, Texts, explained, usage, version};
use signoff_places::shown;
use std::alloc::{AllocError, Global};
use std::process::Abort;
use std::test::Fail;

const MODULES: &str = "module leaf(input clk, input rst, input d, output reg q);
  always @(posedge clk) if (rst) q <= 1'b0; else q <= d;
endmodule
module top(input clk, input rst, input en, output [1:0] o);
  reg [1:0] c;
  wire n;
  leaf u(.clk(clk), .rst(rst), .d(en), .q(n));
  assign o = {n, c[0]};
  always @(posedge clk) if (rst) c <= 2'd0; else c <= c + 2'd1;
endmodule
";

const SET: &str = "block top; clock clk; reset rst high 1;
input en; output [1:0] o; state [1:0] c; state u.q;
constraint quiet : !en@0 || !en@1;
invariant tiny : c@0 != 2'd3 || c@0 == 2'd3;
property reset { length 0; commit c@0 == 2'd0; cover o from 0 to 1; next go; }
operation go { length 1; assume en@0; commit c@1 == c@0 + 2'd1; hand c@0;
  cover o from 1 to 2; next go, stay; }
operation stay { length 1; assume !en@0; commit c@1 == c@0 + 2'd1; hand c@0;
  cover o from 1 to 2; next go, stay; }
";

// Rows: what is written in place of something, the begin of what is said then, and a part of its sentence, with a tab
// between them. `\n` is a line feed.

const MODULE_ROWS: &str = "  wire n;\t  wire n; /* open\tm.v:6:11: error: \thas no end
  wire n;\t  wire n; (* keep\tm.v:6:11: error: \tattribute
2'd1\t65'd1\tm.v:9:59: error: \ta size is 1 to 64
2'd0\t'0\tm.v:9:39: error: \tSystemVerilog
  wire n;\t  wire n; initial c = 0;\tm.v:6:11: error: \tfirst value under the reset
  wire n;\t  wire n; integer i;\tm.v:6:11: error: \t`reg` or `wire` with a range
  wire n;\t`ifdef X\\n  wire n;\\n`endif\tm.v:6:1: error: \tpreprocessor
else c <= c\telse for (i = 0; i < 2; i = i + 1) c <= c\tm.v:9:50: error: \tunroll
  wire n;\t  wire n; function f; input a; f = a; endfunction\tm.v:6:11: error: \twhere it is called
  wire n;\t  wire n; always @* casex (c) 0: n = 1; endcase\tm.v:6:21: error: \tcasez
  wire n;\t  wire n; wire k = 1'bx;\tm.v:6:20: error: \ta digit `x` has no value
  wire n;\t  wire n; wire k = c === 2'd1;\tm.v:6:22: error: \tuse `==`
  wire n;\t  wire n; wire k = $clog2(4);\tm.v:6:20: error: \tit stands for no hardware
  wire n;\t  wire n; and (n, a, b);\tm.v:6:11: error: \toperator
reg [1:0] c;\treg [1:0] c = 0;\tm.v:5:15: error: \ttakes no value here
always @(posedge clk) if (rst) c\talways_ff @(posedge clk) if (rst) c\tm.v:9:13: error: \t`always_ff` is SystemVerilog
wire n;\tlogic n;\tm.v:6:10: error: \t`logic` is SystemVerilog
wire n;\tparameter int N = 4;\tm.v:6:17: error: \tparameter without a type
wire n;\twire n\tm.v:7:3: error: \tmay be missing before
  assign o\t  assign #1 o\tm.v:8:10: error: \tdelays
  assign o\t  if (N) assign o\tm.v:8:3: error: \toutside of an `always`
.d(en)\t.d(en), .*\tm.v:7:41: error: \t.port(expression)
2'd1;\\nendmodule\\n\t2'd1;\\n\tm.v:9:64: error: \tthe text ends within a module
.d(en)\t.d(enn)\tm.v:7:35: error: \tisn't declared in the module `top`
leaf u\tleaff u\tm.v:7:3: error: \tthe text doesn't have
leaf u\tleaf #(3) u\tm.v:7:13: error: \tmore parameters
.d(en)\t.x(en)\tm.v:7:33: error: \tno port or parameter
  wire n;\t  wire n; wire n;\tm.v:6:16: error: \tdeclared twice
module top\tmodule leaf(input a); endmodule\\nmodule top\tm.v:4:8: error: \ttwo modules are named
(.clk(clk), .rst(rst), .d(en), .q(n))\t(clk, rst, en)\tm.v:7:8: error: \tmore or fewer connections
.q(n)\t.q(n & en)\tm.v:7:41: error: \tcan't be assigned
module leaf(input clk, input rst, input d, output reg q);\tmodule leaf(clk, rst, d, q); input clk; input rst; output reg q;\tm.v:1:23: error: \tisn't declared in the module `leaf`
module leaf(input clk, input rst, input d, output reg q);\tmodule leaf(clk, rst, d, q); input clk, rst, d, z; output reg q;\tm.v:1:49: error: \tisn't both listed in the header of `leaf`
endmodule\\nmodule top\tleaf v(clk, rst, d, q); endmodule\\nmodule top\tm.v:7:8: error: \tcontains itself
reg [1:0] c\treg [en:0] c\tm.v:5:14: error: \tisn't constant
c + 2\tc / en + 2\tm.v:9:57: error: \toperand of `/`
reg [1:0] c\treg [64:0] c\tm.v:5:14: error: \tisn't 1 to 64 bits
c[0]\tc[2:1]\tm.v:8:19: error: \tleaves its vector
@(posedge clk) if (rst) c\t@(negedge clk) if (rst) c\tm.v:9:12: error: \tfalling edge
@(posedge clk) if (rst) c\t@(posedge clk or posedge rst or posedge en) if (rst) c\tm.v:9:12: error: \ttwo others
@(posedge clk) if (rst) c\t@(posedge clk or negedge rst) if (rst) c\tm.v:9:12: error: \tso the block is `if (!rst) .. else ..`
@(posedge clk) if (rst) c\t@(posedge n) if (rst) c\tm.v:9:12: error: \tis no input of the top
@(posedge clk) if (rst) c\t@(posedge en) if (rst) c\tm.v:4:18: error: \tone of two clocks
{n, c[0]}\t{clk, c[0]}\tm.v:8:15: error: \tis read here
reg [1:0] c;\treg [1:0] c; reg [7:0] m [0:3];\tm.v:5:26: error: \tisn't a memory as it has to be
  wire n;\t  wire n; reg k; always @* if (en) k = 1;\tm.v:6:15: error: \tleaves `k` unset
  wire n;\t  wire n; wire k = !k;\tm.v:6:16: error: \tdepends on itself
  assign o\t  assign n = 0;\\n  assign o\tm.v:6:8: error: \tbit 0 of `n` has two drivers
.q(n)\t.q()\tm.v:6:8: error: \tbit 0 of `n` is read
q <= 1'b0; else q <= d\t\tm.v:1:55: error: \tbit 0 of `u.q` is read
  wire n;\t  wire n; reg k; always @(en) k = en & c[0];\tm.v:5:13: error: \tlist of events leaves out
c <= 2'd0\tc = 2'd0\tm.v:5:13: error: \tis a `reg`
reg [1:0] c;\twire [1:0] c;\tm.v:5:14: error: \tis a wire
input en,\tinput en, input scan,\tm.v:4:50: error: \tlacks the input `scan`
@(posedge clk) if (rst) c\t@(posedge clk or negedge rst) if (!rst) c\ts.set:1:29: error: \tisn't the block's reset
";

const SET_ROWS: &str = "block top\tblock topp\ts.set:1:7: error: \tno module `topp`
assume en@0; commit c@1\tcommit c@1 == c@0; assume en@0; commit c@1\ts.set:6:45: error: \tthe order in a property is
property reset\tstate q;\\nproperty reset\ts.set:5:1: error: \tthe order in a set is
property reset\tproperty rst\ts.set:5:10: error: \t`property reset`
c@0 + 2'd1; hand\tc@0 / 2'd1; hand\ts.set:6:57: error: \tno `/`
c@0 + 2'd1; hand\tc@x + 2'd1; hand\ts.set:6:55: error: \tplain number
next go, stay; }\\n\tnext go, stay;\ts.set:7:38: error: \tbefore this operation is missing
high 1\thigh 17\ts.set:1:38: error: \t1 to 16 cycles
2'd3 ||\t65'd3 ||\ts.set:4:25: error: \tbreaks a rule
@0 != 2'd3 ||\t@0 !== 2'd3 ||\ts.set:4:22: error: \tuse `!=`
hand c@0;\thand k@0;\ts.set:6:70: error: \tisn't declared in the set
next go; }\tnext goo; }\ts.set:5:74: error: \tno operation is named `goo`
state u.q\tstate u.q; state u.q\ts.set:2:59: error: \tdeclares `u.q` twice
constraint quiet\tconstraint tiny\ts.set:4:11: error: \tare named `tiny`
next go; }\tnext go, go; }\ts.set:5:78: error: \ttwice in a list of successors
cover o from 0\tcover k from 0\ts.set:5:54: error: \tno output of the set
state [1:0] c\tstate [64:0] c\ts.set:2:33: error: \ta width is 1 to 64
length 1; assume en\tlength 65; assume en\ts.set:6:23: error: \t1 to 64 cycles
length 1; assume en\tlength 2 to 65 until en@0; assume en\ts.set:6:28: error: \tthe greatest length isn't below
cover o from 0\tcover c from 0\ts.set:5:54: error: \tno output of the set: a cover
length 1; assume en\tlength 2; window 1; assume en\ts.set:6:33: error: \tfrom its property's greatest length
commit c@1 == c@0 + 2'd1; hand c@0;\\n  cover o from 1 to 2; next go, stay; }\\noperation\tcommit c@2 == c@0 + 2'd1; hand c@0;\\n  cover o from 1 to 2; next go, stay; }\\noperation\ts.set:6:47: error: \toperation go reads behind its window, cycle 1
c@0 != 2'd3\tc@1 != 2'd3\ts.set:4:19: error: \tthe invariant tiny
output [1:0] o;\toutput [1:0] o when en@1;\ts.set:2:33: error: \tthe `when` of `o`
next go; }\tnext reset, go; }\ts.set:5:69: error: \tproperty reset has `reset` as a successor
== 2'd0; cover\t== 2'd0; hand c@0; cover\ts.set:5:48: error: \thands something over
cover o from 0 to 1; \t\ts.set:5:10: error: \thas no cover of `o`
cover o from 0 to 1\tcover o from 1 to 2\ts.set:5:48: error: \tbegins at 0
cover o from 0 to 1;\tcover o from 0 to 1; cover o from 0 to 1;\ts.set:5:48: error: \tseveral covers
length 1; assume en@0;\tlength 1 to 2 until en; assume en@0;\ts.set:7:3: error: \tto end + ..
length 1; assume en@0;\tlength 1 to 2 until en@1; assume en@0;\ts.set:6:38: error: \tthe `until` of operation go
  cover o from 1 to 2; next go, stay; }\\noperation\t  cover o from 1 to 1; next go, stay; }\\noperation\ts.set:7:3: error: \tby go ends in 0, but that by go begins in 1
invariant tiny\tinvariant small\ts.set:4:11: error: \treserved word
state u.q\tstate u.r\ts.set:2:48: error: \tno signal `u.r`
output [1:0] o\toutput [2:0] o\ts.set:2:24: error: \t3 bits here and 2 in the block
input en;\tstate en;\ts.set:2:7: error: \tdeclared as a state
input en;\tinput en; input n;\ts.set:2:17: error: \tdeclared as an input
clock clk\tclock en\tm.v:4:18: error: \tits clock `en`
clock clk; reset rst high\tclock rst; reset clk high\ts.set:1:18: error: \tisn't the block's clock
";

// What is said of two texts.
fn said(alloc: Global, module: &str, set: &str) -> Result<String, AllocError> {
    let names = Files {
        module: b"m.v",
        set: b"s.set",
    };
    let texts = Texts {
        module: module.as_bytes(),
        set: set.as_bytes(),
    };
    let text = match bound_of(alloc, texts.module, texts.set) {
        Ok(bound) => {
            // calls, since a proof would write out the drops of all trees here
            drop(bound);
            Text::copy(alloc, b"fits")
        }
        Err(fault) => {
            let text = explained(alloc, &names, &texts, &fault);
            drop(fault);
            text
        }
    };
    String::from_str(alloc, shown(text?.bytes()))
}

// A row of a table.
#[derive(Drop)]
struct Row<'a> {
    old: &'a str,
    new: &'a str,
    place: &'a str,
    part: &'a str,
}

fn row_of(line: &str) -> Row<'_> {
    let mut fields = line.split('\t');
    Row {
        old: fields.next().unwrap_or(""),
        new: fields.next().unwrap_or(""),
        place: fields.next().unwrap_or(""),
        part: fields.next().unwrap_or(""),
    }
}

// A text with a row's change.
fn changed(alloc: Global, text: &str, row: &Row<'_>) -> Result<String, AllocError> {
    let old = row.old.replace(alloc, "\\n", "\n")?;
    let new = row.new.replace(alloc, "\\n", "\n")?;
    text.replacen(alloc, old.as_str(), new.as_str(), 1)
}

fn is_said(rt: &impl Abort, said: &str, row: &Row<'_>) {
    let place = row.place;
    let part = row.part;
    assert!(rt; !part.is_empty(), "a row has four fields");
    assert!(rt;
        said.starts_with(place) && said.contains(part),
        "{said} in place of {place}{part}"
    );
}

#[test]
fn places_of_refused_modules(rt: HostRuntime) -> Result<(), Fail> {
    for line in MODULE_ROWS.lines() {
        let row = row_of(line);
        let module = changed(rt.alloc(), MODULES, &row)?;
        is_said(&rt, said(rt.alloc(), module.as_str(), SET)?.as_str(), &row);
    }
    Ok(())
}

#[test]
fn places_of_refused_sets(rt: HostRuntime) -> Result<(), Fail> {
    for line in SET_ROWS.lines() {
        let row = row_of(line);
        let set = changed(rt.alloc(), SET, &row)?;
        is_said(&rt, said(rt.alloc(), MODULES, set.as_str())?.as_str(), &row);
    }
    Ok(())
}

#[test]
fn marks_the_byte(rt: HostRuntime) -> Result<(), Fail> {
    let module = MODULES.replacen(rt.alloc(), "  wire n;", "\twire n; initial n = 0;", 1)?;
    let said = said(rt.alloc(), module.as_str(), SET)?;
    let marked = "\n    \twire n; initial n = 0;\n    \t        ^\n";
    assert!(rt; said.as_str().ends_with(marked), "{said}");
    Ok(())
}

#[test]
fn a_line_that_is_not_there_has_no_place(rt: HostRuntime) -> Result<(), Fail> {
    let none = Texts {
        module: b"",
        set: b"",
    };
    let names = Files {
        module: b"m.v",
        set: b"s.set",
    };
    let text = explained(rt.alloc(), &names, &none, &CheckFault::NoLine)?;
    assert!(rt; shown(text.bytes()).starts_with("error: the report has no line of this name"));
    Ok(())
}

#[test]
fn texts_that_fit_are_not_refused(rt: HostRuntime) -> Result<(), Fail> {
    assert_eq!(rt; said(rt.alloc(), MODULES, SET)?.as_str(), "fits");
    Ok(())
}

#[test]
fn usage_has_short_lines(rt: HostRuntime) -> Result<(), Fail> {
    let text = usage(rt.alloc())?;
    for line in shown(text.bytes()).lines() {
        assert!(rt; line.len() <= 80, "{line}");
    }
    let text = version(rt.alloc())?;
    assert!(rt; shown(text.bytes()).starts_with("signoff 1.0.0, "));
    Ok(())
}
