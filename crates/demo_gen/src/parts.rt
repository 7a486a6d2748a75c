// Numbers among words, and lines that are repeated.
ghost use Rattle.std.specs.Prelude.{◌≡◌, ◌++◌, ◌+◌, ◌<◌, ◌≤◌, OnOk};
ghost use Rattle.demo_gen.specs.Texts.{covers, each, numbered, registers, signal, silent, step};

use std::alloc::{AllocError, Global};

/// Adds a word and a number in decimal.
#[tactic(auto, unfolding(crate::specs::Texts::numbered))]
pub fn add_number(
    alloc: Global,
    out: &mut Vec<u8>,
    word: &[u8],
    number: u32,
) -> Result<(), AllocError>
    ensures { OnOk result (out.new.items ≡ out.old.items ++ numbered word.now number) }
{
    out.extend_from_slice(word)?;
    let digits = format!(in alloc; "{number}")?;
    out.extend_from_slice(digits.as_bytes())
}

// The signal of a stage, or the input that feeds the first one.
fn add_signal(
    alloc: Global,
    out: &mut Vec<u8>,
    input: &[u8],
    name: &[u8],
    stage: u32,
) -> Result<(), AllocError>
    ensures { OnOk result (out.new.items ≡ out.old.items ++ signal input.now name.now stage) }
{
    if stage == 0 {
        return out.extend_from_slice(input);
    }
    add_number(alloc, out, name, stage)
}

fn add_register(alloc: Global, out: &mut Vec<u8>, k: u32) -> Result<(), AllocError>
    requires { k < 64 }
    ensures { OnOk result (out.new.items ≡ out.old.items ++ registers k) }
{
    let number = k + 1;
    add_number(alloc, out, b"reg v", number)?;
    add_number(alloc, out, b"; reg [7:0] d", number)?;
    out.extend_from_slice(b";\n")?;
    Ok(())
}

fn add_step(alloc: Global, out: &mut Vec<u8>, k: u32) -> Result<(), AllocError>
    requires { k < 64 }
    ensures { OnOk result (out.new.items ≡ out.old.items ++ step k) }
{
    let number = k + 1;
    add_number(
        alloc,
        out,
        b"always @(posedge clk) begin if (rst) v",
        number,
    )?;
    add_number(alloc, out, b" <= 1'b0; else v", number)?;
    out.extend_from_slice(b" <= ")?;
    add_signal(alloc, out, b"iv", b"v", k)?;
    add_number(alloc, out, b"; d", number)?;
    out.extend_from_slice(b" <= ")?;
    add_signal(alloc, out, b"d", b"d", k)?;
    out.extend_from_slice(b"; end\n")?;
    Ok(())
}

/// Adds the registers of so many stages.
pub fn add_registers(alloc: Global, out: &mut Vec<u8>, stages: u32) -> Result<(), AllocError>
    requires { stages ≤ 64 }
    ensures { OnOk result (out.new.items ≡ out.old.items ++ each registers stages) }
{
    for k in 0..stages {
        add_register(alloc, out, k)?;
    }
    Ok(())
}

/// Adds what so many stages do at an edge of the clock.
pub fn add_steps(alloc: Global, out: &mut Vec<u8>, stages: u32) -> Result<(), AllocError>
    requires { stages ≤ 64 }
    ensures { OnOk result (out.new.items ≡ out.old.items ++ each step stages) }
{
    for k in 0..stages {
        add_step(alloc, out, k)?;
    }
    Ok(())
}

/// Adds that nothing valid comes out for so many cycles.
pub fn add_silence(alloc: Global, out: &mut Vec<u8>, cycles: u32) -> Result<(), AllocError>
    ensures { OnOk result (out.new.items ≡ out.old.items ++ each silent cycles) }
{
    for k in 0..cycles {
        add_number(alloc, out, b"commit !v@", k)?;
        out.extend_from_slice(b";\n")?;
    }
    Ok(())
}

/// Adds the covers of both outputs, and the successor.
pub fn add_covers(alloc: Global, out: &mut Vec<u8>, from: u32, to: u32) -> Result<(), AllocError>
    ensures { OnOk result (out.new.items ≡ out.old.items ++ covers from to) }
{
    add_number(alloc, out, b"cover v from ", from)?;
    add_number(alloc, out, b" to ", to)?;
    add_number(alloc, out, b"; cover o from ", from)?;
    add_number(alloc, out, b" to ", to)?;
    out.extend_from_slice(b"; next pass; }\n")
}
