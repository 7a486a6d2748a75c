// Texts with faults of memories, each beside one that has none.

use crate::flats::flat;
use desk_core_faults::{CheckFault, fault_line};
use std::alloc::{AllocError, Global};
use std::fmt::Write;
use std::process::Abort;
use std::test::Fail;

const HEAD: &str = "module m(input clk, input [1:0] a, input [3:0] d, output [3:0] o); ";

// What stands in the module, and the line of its refusal; none where it has no fault.
const ROWS: &[(&str, &str)] = &[
    (
        "reg [3:0] r [0:3]; assign o = r[a]; always @(posedge clk) r[a] <= d;",
        "",
    ),
    (
        "reg [3:0] r [0:3]; wire [3:0] r$3; assign r$3 = d; assign o = r[a]; always @(posedge clk) r[a] <= d;",
        "module: Twice r$3",
    ),
    (
        "reg [3:0] r [0:3]; wire [3:0] r$4; assign r$4 = d; assign o = r[a]; always @(posedge clk) r[a] <= d;",
        "",
    ),
    (
        "reg [3:0] r [0:3]; assign o = r; always @(posedge clk) r[a] <= d;",
        "module: Whole r",
    ),
    (
        "reg [3:0] r [0:3]; assign o = r[1:0]; always @(posedge clk) r[a] <= d;",
        "module: Whole r",
    ),
    (
        "reg [3:0] r [0:3]; assign o = r[r[a]]; always @(posedge clk) r[a] <= d;",
        "module: Nested r",
    ),
    (
        "reg [3:0] r [0:3]; wire [3:0] i; assign i = r[a]; assign o = r[i]; always @(posedge clk) r[a] <= d;",
        "",
    ),
    (
        "reg [3:0] r [0:3]; assign o = r[a]; always @(posedge clk) r[r[0]] <= d;",
        "module: Nested r",
    ),
    (
        "reg signed [3:0] r [0:3]; assign o = r[a]; always @(posedge clk) r[a] <= d;",
        "module: Kind r",
    ),
    ("reg [3:0] r [0:3]; assign o = r[a];", "module: Kind r"),
    (
        "reg [3:0] r [0:3]; assign o = r[a]; always @(posedge clk) r[a] = d;",
        "module: Kind r",
    ),
    (
        "reg [3:0] r [0:3]; assign o = r[a]; always @* r[a] = d;",
        "module: Kind r",
    ),
    (
        "reg [3:0] r [0:3]; assign o = r[a]; assign r[0] = d;",
        "module: Kind r",
    ),
    (
        "reg [3:0] r [0:64]; assign o = r[a]; always @(posedge clk) r[a] <= d;",
        "module: Width r",
    ),
];

fn told(rt: &impl Abort, alloc: Global, fault: CheckFault, want: &str) -> Result<(), AllocError> {
    let line = fault_line(alloc, &fault);
    // a call, since a proof would write out the drop of all trees here
    drop(fault);
    assert!(rt; line?.bytes() == want.as_bytes());
    Ok(())
}

fn row(rt: &impl Abort, alloc: Global, body: &str, want: &str) -> Result<(), AllocError> {
    let text = format!(in alloc; "{HEAD}{body} endmodule")?;
    match flat(alloc, &text) {
        Ok(flat) => {
            drop(flat);
            assert!(rt; want.is_empty());
            Ok(())
        }
        Err(fault) => told(rt, alloc, fault, want),
    }
}

#[test]
fn faults_of_memories(rt: HostRuntime) -> Result<(), Fail> {
    for (body, want) in ROWS {
        row(&rt, rt.alloc(), body, want)?;
    }
    Ok(())
}

// A memory that is read at so many places, and written at one.
fn reading(alloc: Global, count: u64) -> Result<String, AllocError> {
    let mut body = String::new(alloc);
    body.push_str("reg [3:0] r [0:3]; assign o = d; always @(posedge clk) r[a] <= d;")?;
    for number in 0..count {
        write!(body, " wire [3:0] w{number} = r[a];")?;
    }
    Ok(body)
}

#[test]
fn uses_of_memories(rt: HostRuntime) -> Result<(), Fail> {
    let most = reading(rt.alloc(), 1023)?;
    row(&rt, rt.alloc(), &most, "")?;
    let more = reading(rt.alloc(), 1024)?;
    row(&rt, rt.alloc(), &more, "module: Uses")?;
    Ok(())
}
