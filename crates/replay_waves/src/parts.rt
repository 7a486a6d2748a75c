// Identifier codes, values and declarations.
ghost use Rattle.std.specs.Fmt.{decimal};
ghost use Rattle.std.specs.Prelude.{◌≡◌, ◌++◌, [], IfOk, OnOk};
ghost use Rattle.replay_waves.specs.Parts.{code, declared, ended, kind_word, last_part, name_text, next_part, opened, scalar, scope, scopes, time, type_text, upscopes, value_text, var_text, vector};

use crate::wave::{Kind, Variable};
use std::alloc::{AllocError, Global};

// The identifier code of a variable.
fn add_code(out: &mut Vec<u8>, number: u64) -> Result<(), AllocError>
    ensures { OnOk result (out.new.items ≡ out.old.items ++ code number) }
{
    let mut rest = number;
    while rest >= 94 {
        out.push(b'!' + (rest % 94) as u8)?;
        rest /= 94;
    }
    out.push(b'!' + rest as u8)?;
    Ok(())
}

/// Adds a value of one bit.
#[tactic(auto, unfolding(crate::specs::Parts::scalar))]
pub fn add_scalar(out: &mut Vec<u8>, number: u64, bit: bool) -> Result<(), AllocError>
    ensures { OnOk result (out.new.items ≡ out.old.items ++ scalar number bit) }
{
    out.push(if bit { b'1' } else { b'0' })?;
    add_code(out, number)?;
    out.push(b'\n')?;
    Ok(())
}

/// Adds a value of more bits.
#[tactic(auto, unfolding(crate::specs::Parts::vector))]
pub fn add_vector(
    alloc: Global,
    out: &mut Vec<u8>,
    number: u64,
    value: u64,
) -> Result<(), AllocError>
    ensures { OnOk result (out.new.items ≡ out.old.items ++ vector number value) }
{
    let bits = format!(in alloc; "{value:b}")?;
    out.push(b'b')?;
    out.extend_from_slice(bits.as_bytes())?;
    out.push(b' ')?;
    add_code(out, number)?;
    out.push(b'\n')?;
    Ok(())
}

/// Adds a value of so many bits.
#[tactic(auto, unfolding(crate::specs::Parts::value_text))]
pub fn add_value(
    alloc: Global,
    out: &mut Vec<u8>,
    width: u8,
    number: u64,
    value: u64,
) -> Result<(), AllocError>
    ensures { OnOk result (out.new.items ≡ out.old.items ++ value_text width number value) }
{
    if width == 1 {
        return add_scalar(out, number, value != 0);
    }
    add_vector(alloc, out, number, value)
}

// A number in decimal.
fn add_decimal(alloc: Global, out: &mut Vec<u8>, number: u64) -> Result<(), AllocError>
    ensures { OnOk result (out.new.items ≡ out.old.items ++ decimal number) }
{
    let digits = format!(in alloc; "{number}")?;
    out.extend_from_slice(digits.as_bytes())?;
    Ok(())
}

/// Adds a time.
#[tactic(auto, unfolding(crate::specs::Parts::time))]
pub fn add_time(alloc: Global, out: &mut Vec<u8>, at: u64) -> Result<(), AllocError>
    ensures { OnOk result (out.new.items ≡ out.old.items ++ time at) }
{
    out.push(b'#')?;
    add_decimal(alloc, out, at)?;
    out.push(b'\n')?;
    Ok(())
}

/// Adds the beginning of a scope.
pub fn add_scope(out: &mut Vec<u8>, name: &[u8]) -> Result<(), AllocError>
    ensures { OnOk result (out.new.items ≡ out.old.items ++ scope name.now) }
{
    out.extend_from_slice(b"$scope module ")?;
    out.extend_from_slice(name)?;
    out.extend_from_slice(b" $end\n")?;
    Ok(())
}

// The word for the type of a variable.
fn kind_word(kind: Kind) -> &'static [u8]
    ensures { result.now ≡ kind_word kind }
{
    match kind {
        Kind::Wire => b"wire",
        Kind::Reg => b"reg",
        Kind::Integer => b"integer",
    }
}

// The type of a variable and its length.
fn add_type(alloc: Global, out: &mut Vec<u8>, variable: &Variable) -> Result<(), AllocError>
    ensures { OnOk result (out.new.items ≡ out.old.items ++ type_text variable.now.kind variable.now.width) }
{
    out.extend_from_slice(b"$var ")?;
    out.extend_from_slice(kind_word(variable.kind))?;
    out.push(b' ')?;
    add_decimal(alloc, out, u64::from(variable.width))?;
    out.push(b' ')?;
    Ok(())
}

// The name of a variable, and the end of its declaration.
fn add_name(out: &mut Vec<u8>, name: &[u8]) -> Result<(), AllocError>
    ensures { OnOk result (out.new.items ≡ out.old.items ++ name_text name.now) }
{
    out.push(b' ')?;
    out.extend_from_slice(name)?;
    out.extend_from_slice(b" $end\n")?;
    Ok(())
}

// A variable under a name without dots.
#[tactic(auto, unfolding(crate::specs::Parts::var_text))]
fn add_variable(
    alloc: Global,
    out: &mut Vec<u8>,
    number: u64,
    variable: &Variable,
    name: &[u8],
) -> Result<(), AllocError>
    ensures { OnOk result (out.new.items ≡ out.old.items ++ var_text variable.now.kind variable.now.width number name.now) }
{
    add_type(alloc, out, variable)?;
    add_code(out, number)?;
    add_name(out, name)
}

// A byte of a path: a dot opens the scope that is named by the part before it.
fn add_byte(out: &mut Vec<u8>, part: &mut Vec<u8>, byte: u8) -> Result<(), AllocError>
    ensures part { OnOk result (part.new.items ≡ next_part part.old.items byte) }
    ensures out { OnOk result (out.new.items ≡ out.old.items ++ opened part.old.items byte) }
{
    if byte != b'.' {
        part.push(byte)?;
        return Ok(());
    }
    add_scope(out, part)?;
    part.clear();
    Ok(())
}

// The scopes that a path opens; its last part is left.
fn add_scopes(alloc: Global, out: &mut Vec<u8>, path: &[u8]) -> Result<Vec<u8>, AllocError>
    ensures last { IfOk result (λ part. part.items ≡ last_part [] path.now) }
    ensures out { OnOk result (out.new.items ≡ out.old.items ++ scopes [] path.now) }
{
    let mut part = Vec::new(alloc);
    for byte in path {
        add_byte(out, &mut part, *byte)?;
    }
    Ok(part)
}

// The end that a byte of a path stands for.
fn add_end(out: &mut Vec<u8>, byte: u8) -> Result<(), AllocError>
    ensures { OnOk result (out.new.items ≡ out.old.items ++ ended byte) }
{
    if byte == b'.' {
        out.extend_from_slice(b"$upscope $end\n")?;
    }
    Ok(())
}

// Their ends.
fn add_upscopes(out: &mut Vec<u8>, path: &[u8]) -> Result<(), AllocError>
    ensures { OnOk result (out.new.items ≡ out.old.items ++ upscopes path.now) }
{
    for byte in path {
        add_end(out, *byte)?;
    }
    Ok(())
}

/// Adds a variable in the scopes of its path.
#[tactic(auto, unfolding(crate::specs::Parts::declared))]
pub fn add_declared(
    alloc: Global,
    out: &mut Vec<u8>,
    number: u64,
    variable: &Variable,
) -> Result<(), AllocError>
    ensures { OnOk result (out.new.items ≡ out.old.items ++ declared variable.now.kind variable.now.width number variable.now.path.now) }
{
    let last = add_scopes(alloc, out, variable.path)?;
    add_variable(alloc, out, number, variable, &last)?;
    add_upscopes(out, variable.path)
}
