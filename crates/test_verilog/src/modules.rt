// The modules of a text, shown as a line of words.
use std::alloc::{AllocError, Global};
use std::fmt::Write;
use std::process::Abort;
use std::test::Fail;
use vlog_read::{ReadFault, read_modules};
use vlog_tree::{Module, Ports};

fn show_text(out: &mut String, bytes: &[u8]) -> Result<(), AllocError> {
    for byte in bytes {
        out.push(char::from(*byte))?;
    }
    Ok(())
}

fn port_count(ports: &Option<Ports>) -> usize {
    match ports {
        Some(Ports::Names(names)) => names.as_slice().len(),
        Some(Ports::Groups(groups)) => groups.as_slice().len(),
        None => 0,
    }
}

// The name, how many ports stand in the header, and how many items follow it.
fn show_module(out: &mut String, module: &Module) -> Result<(), AllocError> {
    show_text(out, module.name.bytes())?;
    let ports = port_count(&module.ports);
    let items = module.items.as_slice().len();
    write!(out, " {ports} {items}")?;
    Ok(())
}

fn show_modules(out: &mut String, modules: &[Module]) -> Result<(), AllocError> {
    for module in modules {
        if !out.is_empty() {
            out.push(' ')?;
        }
        show_module(out, module)?;
    }
    Ok(())
}

fn show_reading(alloc: Global, out: &mut String, text: &[u8]) -> Result<(), AllocError> {
    match read_modules(alloc, text) {
        Ok(modules) => {
            let shown = show_modules(out, modules.as_slice());
            // a call, since a proof would write out the drop of all trees here
            drop(modules);
            shown
        }
        Err(ReadFault::Syntax(at)) => write!(out, "Syntax {at}"),
        Err(ReadFault::Bytes(at)) => write!(out, "Bytes {at}"),
        Err(ReadFault::Number(at)) => write!(out, "Number {at}"),
        Err(ReadFault::Outside(at)) => write!(out, "Outside {at}"),
        Err(ReadFault::Deep) => out.push_str("Deep"),
        Err(ReadFault::Memory) => out.push_str("Memory"),
    }
}

// The modules of a text, or its fault.
fn shown(alloc: Global, text: &[u8]) -> Result<String, AllocError> {
    let mut out = String::new(alloc);
    show_reading(alloc, &mut out, text)?;
    Ok(out)
}

// A text, and the line of its modules.
type Row<'a> = (&'a [u8], &'a str);

fn row(rt: &(impl Abort + AllocGlobal), text: &[u8], want: &str) -> Result<(), Fail> {
    let line = shown(rt.alloc(), text)?;
    assert_eq!(rt; line.as_str(), want, "at {text:?}");
    Ok(())
}

fn rows(rt: &(impl Abort + AllocGlobal), rows: &[Row]) -> Result<(), Fail> {
    for (text, want) in rows {
        row(rt, text, want)?;
    }
    Ok(())
}

const PRODUCTIONS: &[Row] = &[
    (
        b"module m; endmodule module n(); endmodule module o(a, b); endmodule",
        "m 0 0 n 0 0 o 2 0",
    ),
    (
        b"module m #(parameter signed [3:0] P = 1, Q = 2, parameter R = 3)(input wire a, b, output wire c, output reg [1:0] d, output signed e); endmodule",
        "m 5 0",
    ),
    (
        b"module m; input wire a, b; output reg [1:0] c; output wire signed [1:0] d; wire w = 1, v; wire signed [3:0] u; reg r, s [0:3]; parameter P = 1; localparam signed Q = 2, R = 3; endmodule",
        "m 0 8",
    ),
    (
        b"module m; always @* ; always @(*) begin end always @(posedge c or negedge r) begin : b x = 1; {x, y[1], z[3:0], v[a +: 2]} <= 2; end always @(a, b or c) if (a) if (b) ; else ; else ; endmodule",
        "m 0 4",
    ),
    (
        b"module m; always @* case (a) 1, 2: x = 1; default: x = 2; endcase always @* casez (a) 4'b1?0z, 3: x = 1; default x = 2; endcase endmodule",
        "m 0 2",
    ),
    (
        b"module m; n u(); n #(1, 2) v(a, b), w(.a(x), .b()); n #(.W(3)) t(a[1], a[3:0], a[b -: 2], {a, b}, {2{a}}, $signed(a), (a), a ? -b : !c); endmodule",
        "m 0 3",
    ),
];

#[test]
fn productions(rt: HostRuntime) -> Result<(), Fail> {
    rows(&rt, PRODUCTIONS)
}

const STATEMENT_FAULTS: &[Row] = &[
    (
        b"module m; always @* case (a) endcase endmodule",
        "Syntax 29",
    ),
    (
        b"module m; always @* case (a) default: ; default: ; endcase endmodule",
        "Syntax 40",
    ),
    (
        b"module m; always @* case (a) 1'b?: ; endcase endmodule",
        "Syntax 29",
    ),
    (b"module m; always @* else ; endmodule", "Syntax 20"),
    (b"module m; assign a = 1'b?; endmodule", "Syntax 21"),
    (b"module m; assign a = 3[0]; endmodule", "Syntax 22"),
    (b"module m; assign a = 2'b2; endmodule", "Number 21"),
    (b"module m; initial ; endmodule", "Outside 10"),
];

#[test]
fn statement_faults(rt: HostRuntime) -> Result<(), Fail> {
    rows(&rt, STATEMENT_FAULTS)
}

fn add_times(text: &mut String, times: usize, piece: char) -> Result<(), AllocError> {
    for _ in 0..times {
        text.push(piece)?;
    }
    Ok(())
}

fn add_brackets(text: &mut String, opened: usize, closed: usize) -> Result<(), AllocError> {
    text.push_str("module m; assign a = ")?;
    add_times(text, opened, '(')?;
    text.push('1')?;
    add_times(text, closed, ')')?;
    text.push_str("; endmodule")
}

// A module whose one expression stands in brackets.
fn in_brackets(alloc: Global, opened: usize, closed: usize) -> Result<String, AllocError> {
    let mut text = String::new(alloc);
    add_brackets(&mut text, opened, closed)?;
    Ok(text)
}

// How many brackets are opened and closed, and the line of the module.
const BRACKETS: &[(usize, usize, &str)] = &[
    (497, 497, "m 0 1"),
    (498, 498, "Deep"),
    (600, 0, "Deep"),
    (400, 0, "Syntax 422"),
];

#[test]
fn heights(rt: HostRuntime) -> Result<(), Fail> {
    for (opened, closed, want) in BRACKETS {
        let text = in_brackets(rt.alloc(), *opened, *closed)?;
        row(&rt, text.as_bytes(), want)?;
    }
    Ok(())
}

const FAULTS: &[Row] = &[
    (b"", "Syntax 0"),
    (
        b"module counter(input clk, input rst, input en, output reg [1:0] q);\n  always @(posedge clk)\n    if (rst) q <= 2'd0;\n    else if (en) q <= q + 2'd1;",
        "Syntax 147",
    ),
    (b"module m; end", "Syntax 10"),
    (b"module m; endmodule x", "Syntax 20"),
    (b"module m; \x01", "Bytes 10"),
];

#[test]
fn faults(rt: HostRuntime) -> Result<(), Fail> {
    rows(&rt, FAULTS)
}
