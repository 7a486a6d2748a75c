// Values of signals, the words of memories among them, and what follows.

ghost use Rattle.elab_step_nets.specs.Asked.{CanElaborate};

use crate::flats::flat;
use std::alloc::{AllocError, Global};
use std::process::Abort;
use std::test::Fail;
use test_judges::{are_values, follows, is_cycle};
use vlog_tree_runs::Flat;

// Three words of 8 bits; signals are clk, we, a, d, o, and the words.
const FILE: &str = "module m(input clk, input we, input [1:0] a, input [7:0] d, output [7:0] o);
reg [7:0] r [0:2]; assign o = r[a]; always @(posedge clk) if (we) r[a] <= d; endmodule";

// Values, and whether they are a cycle.
const FILE_CYCLES: &[(&[u64], bool)] = &[
    (&[0, 0, 1, 0, 20, 10, 20, 30], true),
    (&[0, 0, 1, 0, 10, 10, 20, 30], false),
    (&[0, 0, 2, 0, 30, 10, 20, 30], true),
    // past the last word a read is 0
    (&[0, 0, 3, 0, 0, 10, 20, 30], true),
    (&[0, 0, 3, 0, 30, 10, 20, 30], false),
    (&[0, 0, 3, 0, 10, 10, 20, 30], false),
];

// Values, others, and whether these follow.
const FILE_STEPS: &[(&[u64], &[u64], bool)] = &[
    (
        &[0, 1, 1, 7, 20, 10, 20, 30],
        &[0, 0, 0, 0, 10, 10, 7, 30],
        true,
    ),
    (
        &[0, 1, 1, 7, 20, 10, 20, 30],
        &[0, 0, 0, 0, 10, 10, 20, 30],
        false,
    ),
    (
        &[0, 1, 1, 7, 20, 10, 20, 30],
        &[0, 0, 0, 0, 7, 7, 20, 30],
        false,
    ),
    (
        &[0, 0, 1, 7, 20, 10, 20, 30],
        &[0, 0, 0, 0, 10, 10, 20, 30],
        true,
    ),
    // past the last word nothing is written
    (
        &[0, 1, 3, 7, 0, 10, 20, 30],
        &[0, 0, 0, 0, 10, 10, 20, 30],
        true,
    ),
    (
        &[0, 1, 3, 7, 0, 10, 20, 30],
        &[0, 0, 0, 0, 7, 7, 20, 30],
        false,
    ),
];

// A queue of two words of 4 bits; signals are clk, push, pop, d, o, the words, head and tail.
const QUEUE: &str = "module m(input clk, input push, input pop, input [3:0] d, output [3:0] o);
reg [3:0] r [0:1]; reg head, tail; assign o = r[head];
always @(posedge clk) begin if (push) begin r[tail] <= d; tail <= !tail; end if (pop) head <= !head; end endmodule";

const QUEUE_CYCLES: &[(&[u64], bool)] = &[
    (&[0, 0, 0, 0, 5, 5, 6, 0, 0], true),
    (&[0, 0, 0, 0, 6, 5, 6, 1, 0], true),
    (&[0, 0, 0, 0, 5, 5, 6, 1, 0], false),
];

const QUEUE_STEPS: &[(&[u64], &[u64], bool)] = &[
    (
        &[0, 1, 0, 9, 5, 5, 6, 0, 1],
        &[0, 0, 0, 0, 5, 5, 9, 0, 0],
        true,
    ),
    (
        &[0, 1, 1, 9, 5, 5, 6, 0, 0],
        &[0, 0, 0, 0, 6, 9, 6, 1, 1],
        true,
    ),
    (
        &[0, 1, 1, 9, 5, 5, 6, 0, 0],
        &[0, 0, 0, 0, 9, 5, 9, 1, 1],
        false,
    ),
];

// A signed index counts as unsigned, and the last part of a left side has the lowest bits. Signals are clk, i, d, o,
// and the words.
const PARTS: &str = "module m(input clk, input signed [1:0] i, input [7:0] d, output [3:0] o);
reg [3:0] r [0:3]; assign o = r[i]; always @(posedge clk) {r[i], r[0]} <= d; endmodule";

const PARTS_CYCLES: &[(&[u64], bool)] = &[
    (&[0, 3, 0, 4, 1, 2, 3, 4], true),
    (&[0, 3, 0, 0, 1, 2, 3, 4], false),
];

const PARTS_STEPS: &[(&[u64], &[u64], bool)] = &[
    (
        &[0, 3, 165, 4, 1, 2, 3, 4],
        &[0, 0, 0, 5, 5, 2, 3, 10],
        true,
    ),
    (
        &[0, 3, 165, 4, 1, 2, 3, 4],
        &[0, 0, 0, 10, 10, 2, 3, 5],
        false,
    ),
    (
        &[0, 3, 165, 4, 1, 2, 3, 4],
        &[0, 0, 0, 5, 5, 0, 3, 10],
        false,
    ),
];

// A word that nothing assigns keeps its value. Signals are clk, d, o, and the words.
const IDLE: &str = "module m(input clk, input [3:0] d, output [3:0] o);
reg [3:0] r [0:1]; assign o = r[1]; always @(posedge clk) r[0] <= d; endmodule";

const IDLE_CYCLES: &[(&[u64], bool)] = &[(&[0, 3, 7, 5, 7], true), (&[0, 3, 5, 5, 7], false)];

const IDLE_STEPS: &[(&[u64], &[u64], bool)] = &[
    (&[0, 3, 7, 5, 7], &[0, 0, 7, 3, 7], true),
    (&[0, 3, 7, 5, 7], &[0, 0, 0, 3, 0], false),
    (&[0, 3, 7, 5, 7], &[0, 0, 7, 5, 7], false),
];

// A module without a memory. A bit that nothing drives is 0, and one that nothing assigns keeps its value; signals are
// clk, a, y, w and q.
const WIRED: &str = "module m(input clk, input a, output y, output [1:0] w, output reg [1:0] q);
assign y = a; assign w[0] = a; always @(posedge clk) q[0] <= y; endmodule";

const WIRED_CYCLES: &[(&[u64], bool)] = &[
    (&[0, 1, 1, 1, 2], true),
    (&[0, 1, 0, 1, 2], false),
    (&[0, 0, 0, 0, 3], true),
    (&[0, 0, 1, 0, 3], false),
    (&[0, 1, 1, 0, 2], false),
    (&[0, 1, 1, 3, 2], false),
    (&[1, 1, 1, 1, 0], true),
];

const WIRED_STEPS: &[(&[u64], &[u64], bool)] = &[
    (&[0, 1, 1, 1, 2], &[0, 0, 0, 0, 3], true),
    (&[0, 1, 1, 1, 2], &[0, 0, 0, 0, 2], false),
    (&[0, 1, 1, 1, 2], &[0, 0, 0, 0, 1], false),
    (&[0, 0, 0, 0, 3], &[0, 1, 1, 1, 2], true),
    (&[0, 0, 0, 0, 3], &[0, 1, 1, 1, 3], false),
];

fn cycles(
    rt: &impl Abort,
    alloc: Global,
    flat: &Flat,
    rows: &[(&[u64], bool)],
) -> Result<(), AllocError>
    requires { CanElaborate flat.now }
{
    for (values, want) in rows {
        assert!(rt; are_values(flat, values));
        assert!(rt; is_cycle(alloc, flat, values)? == *want);
    }
    Ok(())
}

fn steps(
    rt: &impl Abort,
    alloc: Global,
    flat: &Flat,
    rows: &[(&[u64], &[u64], bool)],
) -> Result<(), AllocError>
    requires { CanElaborate flat.now }
{
    for (now, next, want) in rows {
        assert!(rt; are_values(flat, now));
        assert!(rt; are_values(flat, next));
        assert!(rt; follows(alloc, flat, now, next)? == *want);
    }
    Ok(())
}

fn judged(
    rt: &impl Abort,
    alloc: Global,
    text: &str,
    cycle_rows: &[(&[u64], bool)],
    step_rows: &[(&[u64], &[u64], bool)],
) -> Result<(), AllocError> {
    match flat(alloc, text) {
        Ok(flat) => {
            let told = cycles(rt, alloc, &flat, cycle_rows);
            let stepped = steps(rt, alloc, &flat, step_rows);
            drop(flat);
            told?;
            stepped
        }
        Err(fault) => {
            drop(fault);
            assert!(rt; false);
            Ok(())
        }
    }
}

#[test]
fn a_register_file(rt: HostRuntime) -> Result<(), Fail> {
    judged(&rt, rt.alloc(), FILE, FILE_CYCLES, FILE_STEPS)?;
    Ok(())
}

#[test]
fn a_queue(rt: HostRuntime) -> Result<(), Fail> {
    judged(&rt, rt.alloc(), QUEUE, QUEUE_CYCLES, QUEUE_STEPS)?;
    Ok(())
}

#[test]
fn a_signed_index_and_parts(rt: HostRuntime) -> Result<(), Fail> {
    judged(&rt, rt.alloc(), PARTS, PARTS_CYCLES, PARTS_STEPS)?;
    Ok(())
}

#[test]
fn a_word_that_nothing_assigns(rt: HostRuntime) -> Result<(), Fail> {
    judged(&rt, rt.alloc(), IDLE, IDLE_CYCLES, IDLE_STEPS)?;
    Ok(())
}

#[test]
fn a_module_without_a_memory(rt: HostRuntime) -> Result<(), Fail> {
    judged(&rt, rt.alloc(), WIRED, WIRED_CYCLES, WIRED_STEPS)?;
    Ok(())
}
