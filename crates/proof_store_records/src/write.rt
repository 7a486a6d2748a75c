ghost use Rattle.std.specs.Prelude.{◌≡◌, ◌<◌, ◌^◌, ◌++◌, All, IfOk, OnOk, length};
ghost use Rattle.std.specs.List.{flat_map};
ghost use Rattle.proof_store_records.specs.Layout.{mark, number_bytes, lit_value, lits_bytes, hints_bytes, step_bytes, count_limit, FitsStep};
ghost use Rattle.proof_store_records.specs.Records.{content, record_bytes, version_1, version_2, FitsVersion, FitsVersion1, Fits, HasClause, HasClauses, IsRecord};

use crate::hints::push_distances;
use crate::version::Version;
use clause_check::{Lit, Step};
use std::alloc::{AllocError, Global};

// The value of a literal.
fn value_of(lit: Lit) -> u64
    ensures value { result ≡ lit_value lit }
    ensures var { lit.var < 2 ^ 32 }
{
    let twice = 2 * u64::from(lit.var);
    if lit.negative { twice + 1 } else { twice }
}

// Appends the literals of a clause.
fn push_lits(out: &mut Vec<u8>, version: Version, lits: &[Lit]) -> Result<(), AllocError>
    requires { length lits.now < count_limit version }
    ensures bytes { OnOk result (out.new.items ≡ out.old.items ++ lits_bytes version lits.now) }
    ensures vars { OnOk result (All (λ l. l.var < 2 ^ 32) lits.now) }
{
    version.push_count(out, lits.len())?;
    for lit in lits {
        version.push_number(out, value_of(*lit))?;
    }
    Ok(())
}

// Appends numbers, in eight bytes each.
fn push_words(out: &mut Vec<u8>, numbers: &[u32]) -> Result<(), AllocError>
    ensures { OnOk result (out.new.items ≡ out.old.items ++ flat_map (number_bytes Version.First) numbers.now) }
{
    for number in numbers {
        Version::First.push_number(out, u64::from(*number))?;
    }
    Ok(())
}

// Appends the hints of a step.
fn push_hints(out: &mut Vec<u8>, version: Version, hints: &[u32]) -> Result<(), AllocError>
    requires { length hints.now < count_limit version }
    ensures bytes { OnOk result (out.new.items ≡ out.old.items ++ hints_bytes version hints.now) }
    ensures hints { OnOk result (All (λ h. h < 2 ^ 32) hints.now) }
{
    version.push_count(out, hints.len())?;
    match version {
        Version::First => push_words(out, hints),
        Version::Second => push_distances(out, hints),
    }
}

// Appends a step.
fn push_step(out: &mut Vec<u8>, version: Version, step: &Step) -> Result<(), AllocError>
    requires { FitsStep version (content step.now) }
    ensures bytes { OnOk result (out.new.items ≡ out.old.items ++ step_bytes version (content step.now)) }
    ensures clause { OnOk result (HasClause step.now) }
{
    push_lits(out, version, step.clause.lits())?;
    push_hints(out, version, step.hints.as_slice())
}

// Appends the two bytes that tell the version.
fn push_mark(out: &mut Vec<u8>, version: Version) -> Result<(), AllocError>
    ensures { OnOk result (out.new.items ≡ out.old.items ++ mark version) }
{
    let second = match version {
        Version::First => 0x31,
        Version::Second => 0x32,
    };
    out.push(0x44)?;
    out.push(second)?;
    Ok(())
}

// The record of the steps.
fn write_version(alloc: Global, version: Version, steps: &[Step]) -> Result<Vec<u8>, AllocError>
    requires { FitsVersion version steps.now }
    ensures bytes { IfOk result (λ bytes. bytes.items ≡ record_bytes version steps.now) }
    ensures clauses { OnOk result (HasClauses steps.now) }
{
    let mut out = Vec::new(alloc);
    push_mark(&mut out, version)?;
    version.push_count(&mut out, steps.len())?;
    for step in steps {
        push_step(&mut out, version, step)?;
    }
    Ok(out)
}

/// The record of the steps in version 2, which `read_steps` reads back. The steps are such that `record_fits` is true
/// of them.
pub fn write_steps(alloc: Global, steps: &[Step]) -> Result<Vec<u8>, AllocError>
    requires { Fits steps.now }
    ensures bytes { IfOk result (λ bytes. bytes.items ≡ version_2 steps.now) }
    ensures is_record { IfOk result (λ bytes. IsRecord bytes.items steps.now) }
{
    write_version(alloc, Version::Second, steps)
}

/// The record of the steps in version 1, which `read_steps` reads back. The steps are such that `fits_version_1` is
/// true of them.
pub fn write_steps_1(alloc: Global, steps: &[Step]) -> Result<Vec<u8>, AllocError>
    requires { FitsVersion1 steps.now }
    ensures bytes { IfOk result (λ bytes. bytes.items ≡ version_1 steps.now) }
    ensures is_record { IfOk result (λ bytes. IsRecord bytes.items steps.now) }
{
    write_version(alloc, Version::First, steps)
}
