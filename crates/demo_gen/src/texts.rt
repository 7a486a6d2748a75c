// The two texts.
ghost use Rattle.std.specs.Prelude.{◌≡◌, ◌++◌, ◌≤◌, OnOk, IfOk};
ghost use Rattle.demo_gen.specs.Texts.{module_text as text_of_module, pass_text, reset_text, set_text as text_of_set};

use crate::parts::{add_covers, add_number, add_registers, add_silence, add_steps};
use outside::Text;
use std::alloc::{AllocError, Global};

/// The text of a module: a chain of 1 to 64 stages, each with a valid bit that reset clears and 8 data bits that it
/// leaves.
pub fn module_text(alloc: Global, stages: u32) -> Result<Text, AllocError>
    requires some { 1 ≤ stages }
    requires most { stages ≤ 64 }
    ensures { IfOk result (λ text. text ≡ text_of_module stages) }
{
    let mut out =
        b"module chain(input clk, input rst, input iv, input [7:0] d, output v, output [7:0] o);\n".to_vec(
            alloc,
        )?;
    add_registers(alloc, &mut out, stages)?;
    add_number(alloc, &mut out, b"assign v = v", stages)?;
    add_number(alloc, &mut out, b";\nassign o = d", stages)?;
    out.extend_from_slice(b";\n")?;
    add_steps(alloc, &mut out, stages)?;
    out.extend_from_slice(b"endmodule\n")?;
    Text::copy(alloc, &out)
}

fn add_reset(alloc: Global, out: &mut Vec<u8>, stages: u32) -> Result<(), AllocError>
    requires { 1 ≤ stages }
    ensures { OnOk result (out.new.items ≡ out.old.items ++ reset_text stages) }
{
    add_number(
        alloc,
        out,
        b"property reset { length 0; window ",
        stages - 1,
    )?;
    out.extend_from_slice(b";\n")?;
    add_silence(alloc, out, stages)?;
    add_covers(alloc, out, 0, stages)
}

fn add_pass(alloc: Global, out: &mut Vec<u8>, stages: u32) -> Result<(), AllocError>
    requires { stages ≤ 64 }
    ensures { OnOk result (out.new.items ≡ out.old.items ++ pass_text stages) }
{
    add_number(alloc, out, b"operation pass { length 1; window ", stages)?;
    add_number(alloc, out, b";\ncommit v@", stages)?;
    add_number(alloc, out, b" == iv@0; commit !iv@0 || o@", stages)?;
    out.extend_from_slice(b" == d@0;\n")?;
    add_covers(alloc, out, stages, stages + 1)?;
    Ok(())
}

/// The text of the set of properties of such a chain: after reset nothing valid comes out for so many cycles, and what
/// goes in comes out so many cycles later.
pub fn set_text(alloc: Global, stages: u32) -> Result<Text, AllocError>
    requires some { 1 ≤ stages }
    requires most { stages ≤ 64 }
    ensures { IfOk result (λ text. text ≡ text_of_set stages) }
{
    let mut out =
        b"block chain; clock clk; reset rst high 1;\ninput iv; input [7:0] d; output v; output [7:0] o when v;\n".to_vec(
            alloc,
        )?;
    add_reset(alloc, &mut out, stages)?;
    add_pass(alloc, &mut out, stages)?;
    Text::copy(alloc, &out)
}
