ghost use Rattle.std.specs.Prelude.{◌≡◌, ◌<◌, ◌^◌, List, map, All, MatchOption, IfOk, IfSome, option_map};
ghost use Rattle.clause_check.specs.declared.literal.Lit.{Lit};
ghost use Rattle.clause_check.specs.declared.formula.Step.{Step};
ghost use Rattle.proof_store_records.specs.Front.{Lacks, Starts};
ghost use Rattle.proof_store_records.specs.Records.{content, contents, IsRecord};
ghost use Rattle.proof_store_records.specs.Layout.{mark, IsAny, lit_value, list_bytes, lits_bytes, hints_bytes, step_bytes, steps_bytes, FitsNumbers, FitsLits, FitsClause, FitsHints, CanStand, CanStandAll};

use crate::hints::hints_of;
use crate::version::Version;
use clause_check::{Clause, Lit, Step};
use std::alloc::{AllocError, Global};

// The list of numbers in front, and the bytes that follow it.
fn take_numbers(
    alloc: Global,
    version: Version,
    bytes: &[u8],
) -> Result<Option<(Vec<u64>, &[u8])>, AllocError>
    ensures { IfOk result (λ read. MatchOption read (Lacks (FitsNumbers version) (list_bytes version) bytes.now)
        (λ r. Starts (FitsNumbers version) (list_bytes version) bytes.now r.0.items r.1.now)) }
{
    let Some((count, mut rest)) = version.take_count(bytes) else {
        return Ok(None);
    };
    let mut numbers = Vec::new(alloc);
    for _ in 0..count {
        let Some((number, after)) = version.take_number(rest) else {
            return Ok(None);
        };
        numbers.push(number)?;
        rest = after;
    }
    Ok(Some((numbers, rest)))
}

// The literals of these values; none where a variable isn't below 2^32.
fn lits_of(alloc: Global, values: &[u64]) -> Result<Option<Vec<Lit>>, AllocError>
    ensures { IfOk result (λ read. MatchOption read ((ls : List Lit) → All (λ l. l.var < 2 ^ 32) ls →
        map lit_value ls ≡ values.now → ⊥)
        (λ lits. All (λ l. l.var < 2 ^ 32) lits.items × (map lit_value lits.items ≡ values.now))) }
{
    let mut lits = Vec::new(alloc);
    for value in values {
        let Ok(var) = u32::try_from(value / 2) else {
            return Ok(None);
        };
        lits.push(Lit {
            var,
            negative: value % 2 == 1,
        })?;
    }
    Ok(Some(lits))
}

// The literals in front, and the bytes that follow them.
fn take_lits(
    alloc: Global,
    version: Version,
    bytes: &[u8],
) -> Result<Option<(Vec<Lit>, &[u8])>, AllocError>
    ensures { IfOk result (λ read. MatchOption read (Lacks (FitsLits version) (lits_bytes version) bytes.now)
        (λ r. Starts (FitsLits version) (lits_bytes version) bytes.now r.0.items r.1.now)) }
{
    let Some((values, rest)) = take_numbers(alloc, version, bytes)? else {
        return Ok(None);
    };
    let Some(lits) = lits_of(alloc, values.as_slice())? else {
        return Ok(None);
    };
    Ok(Some((lits, rest)))
}

// The clause in front, and the bytes that follow it.
fn take_clause(
    alloc: Global,
    version: Version,
    bytes: &[u8],
) -> Result<Option<(Clause, &[u8])>, AllocError>
    ensures { IfOk result (λ read. MatchOption read (Lacks (FitsClause version) (lits_bytes version) bytes.now)
        (λ r. Starts (FitsClause version) (lits_bytes version) bytes.now r.0 r.1.now)) }
{
    let Some((lits, rest)) = take_lits(alloc, version, bytes)? else {
        return Ok(None);
    };
    let Some(clause) = Clause::of(alloc, lits)? else {
        return Ok(None);
    };
    Ok(Some((clause, rest)))
}

// The hints in front, and the bytes that follow them.
fn take_hints(
    alloc: Global,
    version: Version,
    bytes: &[u8],
) -> Result<Option<(Vec<u32>, &[u8])>, AllocError>
    ensures { IfOk result (λ read. MatchOption read (Lacks (FitsHints version) (hints_bytes version) bytes.now)
        (λ r. Starts (FitsHints version) (hints_bytes version) bytes.now r.0.items r.1.now)) }
{
    let Some((numbers, rest)) = take_numbers(alloc, version, bytes)? else {
        return Ok(None);
    };
    let Some(hints) = hints_of(alloc, version, numbers.as_slice())? else {
        return Ok(None);
    };
    Ok(Some((hints, rest)))
}

// The step in front, and the bytes that follow it.
fn take_step(
    alloc: Global,
    version: Version,
    bytes: &[u8],
) -> Result<Option<(Step, &[u8])>, AllocError>
    ensures { IfOk result (λ read. MatchOption read (Lacks (CanStand version) (step_bytes version) bytes.now)
        (λ r. Starts (CanStand version) (step_bytes version) bytes.now (content r.0) r.1.now)) }
{
    let Some((clause, rest)) = take_clause(alloc, version, bytes)? else {
        return Ok(None);
    };
    let Some((hints, rest)) = take_hints(alloc, version, rest)? else {
        return Ok(None);
    };
    Ok(Some((Step { clause, hints }, rest)))
}

// The steps in front, and the bytes that follow them.
fn take_steps(
    alloc: Global,
    version: Version,
    bytes: &[u8],
) -> Result<Option<(Vec<Step>, &[u8])>, AllocError>
    ensures { IfOk result (λ read. MatchOption read (Lacks (CanStandAll version) (steps_bytes version) bytes.now)
        (λ r. Starts (CanStandAll version) (steps_bytes version) bytes.now (contents r.0.items) r.1.now)) }
{
    let Some((count, mut rest)) = version.take_count(bytes) else {
        return Ok(None);
    };
    let mut steps = Vec::new(alloc);
    for _ in 0..count {
        let Some((step, after)) = take_step(alloc, version, rest)? else {
            return Ok(None);
        };
        steps.push(step)?;
        rest = after;
    }
    Ok(Some((steps, rest)))
}

// The version that the first two bytes tell, and the bytes that follow them.
fn take_mark(bytes: &[u8]) -> Option<(Version, &[u8])>
    ensures { MatchOption result (Lacks IsAny mark bytes.now) (λ r. Starts IsAny mark bytes.now r.0 r.1.now) }
{
    let (first, rest) = bytes.split_first()?;
    let (second, rest) = rest.split_first()?;
    if *first != 0x44 {
        return None;
    }
    match *second {
        0x31 => Some((Version::First, rest)),
        0x32 => Some((Version::Second, rest)),
        _ => None,
    }
}

/// The steps of which the bytes are a record, in either version; none exactly where they are no record, as where a
/// variable or a hint is 2^32 or more: there is no such step.
pub fn read_steps(alloc: Global, bytes: &[u8]) -> Result<Option<Vec<Step>>, AllocError>
    ensures some { IfOk result (λ read. IfSome read (λ steps. IsRecord bytes.now steps.items)) }
    ensures exact { IfOk result (λ read. (steps : List Step) → IsRecord bytes.now steps
        → option_map (λ s. contents s.items) read ≡ Some (contents steps)) }
{
    let Some((version, rest)) = take_mark(bytes) else {
        return Ok(None);
    };
    let Some((steps, rest)) = take_steps(alloc, version, rest)? else {
        return Ok(None);
    };
    if rest.is_empty() {
        Ok(Some(steps))
    } else {
        Ok(None)
    }
}
