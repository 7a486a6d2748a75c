// Rows that break a line of a design.
ghost use Rattle.std.specs.Prelude.{◌≡◌, ◌<◌, ◌≤◌, ◌↔◌, drop, length, IfOk, IsTrue};
ghost use Rattle.std.specs.List.{list_all};
ghost use Rattle.set_tree.specs.declared.line.Line.TheVariants.{Base, Step, Reset, Operation};
ghost use Rattle.set_tree.specs.declared.set.Rule.{Rule};
ghost use Rattle.set_tree.specs.Formulas.{meaning_of};
ghost use Rattle.set_tree.specs.Lines.{IsWindow};
ghost use Rattle.set_tree.specs.Meaning.{holds};
ghost use Rattle.set_tree.specs.Parts.{IsOperation, IsPosition, window_of};
ghost use Rattle.set_tree.specs.Traces.{IsTrace};
ghost use Rattle.test_judges.specs.Breaking.{AreBreaking, AreSegmentRows};

use replay_eval::{holds, is_assumed, is_committed, is_constrained};
use set_tree::{Line, Rows};
use set_tree_structure::Sound;
use std::alloc::{AllocError, Global};
use twin_tests::property_of;

// The number of the last row that a property reads which starts in the first one.
fn window(set: &Sound, at: u32) -> usize
    requires { IsPosition set.now at }
    ensures window { result ≡ window_of set.now at }
    ensures small { result ≤ 64 }
{
    usize::from(property_of(set.set(), at as usize).window)
}

// Whether rows are a window, with the row of number `end` as the last one.
fn is_window(alloc: Global, set: &Sound, end: usize, rows: &[Rows<u64>]) -> Result<bool, AllocError>
    requires { end ≤ 64 }
    ensures { IfOk result (λ b. IsTrue b ↔ IsWindow (meaning_of set.now) set.now end rows.now) }
{
    if rows.len() != end + 1 {
        return Ok(false);
    }
    let constrained = is_constrained(alloc, set, rows)?;
    Ok(constrained)
}

// Whether each invariant holds in the first row of a trace.
fn meets_invariants(alloc: Global, set: &Sound, rows: &[Rows<u64>]) -> Result<bool, AllocError>
    requires trace { IsTrace set.now rows.now }
    requires some { 0 < length rows.now }
    ensures { IfOk result (λ b. b ≡ list_all
        (λ (rule : Rule). holds (meaning_of set.now) rule.formula rows.now) set.now.invariants) }
{
    for rule in set.set().invariants.as_slice() {
        let met = holds(alloc, set, &rule.formula, rows)?;
        if !met {
            return Ok(false);
        }
    }
    Ok(true)
}

// Whether rows are a segment's, with the row of number `end` as the last one.
fn are_segment_rows(
    alloc: Global,
    set: &Sound,
    end: usize,
    rows: &[Rows<u64>],
) -> Result<bool, AllocError>
    requires { end ≤ 64 }
    ensures { IfOk result (λ b. IsTrue b ↔ AreSegmentRows (meaning_of set.now) set.now end rows.now) }
{
    let window = is_window(alloc, set, end, rows)?;
    if !window {
        return Ok(false);
    }
    let begun = meets_invariants(alloc, set, rows)?;
    Ok(begun)
}

// The rows after the first one.
fn after_first(rows: &[Rows<u64>]) -> &[Rows<u64>]
    requires { 0 < length rows.now }
    ensures { result.now ≡ drop 1 rows.now }
{
    &rows[1..]
}

// `base I`.
fn breaks_base(alloc: Global, set: &Sound, at: u32, rows: &[Rows<u64>]) -> Result<bool, AllocError>
    ensures { IfOk result (λ b. IsTrue b ↔ AreBreaking (meaning_of set.now) set.now (Base at) rows.now) }
{
    let Some(rule) = set.set().invariants.get(at as usize) else {
        return Ok(false);
    };
    let window = is_window(alloc, set, 0, rows)?;
    if !window {
        return Ok(false);
    }
    let held = holds(alloc, set, &rule.formula, rows)?;
    Ok(!held)
}

// `step I`.
fn breaks_step(alloc: Global, set: &Sound, at: u32, rows: &[Rows<u64>]) -> Result<bool, AllocError>
    ensures { IfOk result (λ b. IsTrue b ↔ AreBreaking (meaning_of set.now) set.now (Step at) rows.now) }
{
    let Some(rule) = set.set().invariants.get(at as usize) else {
        return Ok(false);
    };
    let segment = are_segment_rows(alloc, set, 1, rows)?;
    if !segment {
        return Ok(false);
    }
    let kept = holds(alloc, set, &rule.formula, after_first(rows))?;
    Ok(!kept)
}

// `reset`.
fn breaks_reset(alloc: Global, set: &Sound, rows: &[Rows<u64>]) -> Result<bool, AllocError>
    ensures { IfOk result (λ b. IsTrue b ↔ AreBreaking (meaning_of set.now) set.now Reset rows.now) }
{
    let end = window(set, 0);
    let window = is_window(alloc, set, end, rows)?;
    if !window {
        return Ok(false);
    }
    let committed = is_committed(alloc, set, 0, rows)?;
    Ok(!committed)
}

fn is_operation(set: &Sound, at: u32) -> bool
    ensures { IsTrue result ↔ IsOperation set.now at }
{
    0 < at && at as usize <= set.set().operations.len()
}

// `op P`.
fn breaks_operation(
    alloc: Global,
    set: &Sound,
    at: u32,
    rows: &[Rows<u64>],
) -> Result<bool, AllocError>
    ensures { IfOk result (λ b. IsTrue b ↔ AreBreaking (meaning_of set.now) set.now (Operation at) rows.now) }
{
    if !is_operation(set, at) {
        return Ok(false);
    }
    let end = window(set, at);
    let segment = are_segment_rows(alloc, set, end, rows)?;
    if !segment {
        return Ok(false);
    }
    let assumed = is_assumed(alloc, set, at, rows)?;
    if !assumed {
        return Ok(false);
    }
    let committed = is_committed(alloc, set, at, rows)?;
    Ok(!committed)
}

/// Whether rows break a line of a design: they are as many as the line asks, a trace of the set that meets its
/// constraints, and what they show of the invariants and of the property that the line names violates it. No rows break
/// a line on the set, nor one that names an invariant or an operation which isn't there.
pub fn is_broken(
    alloc: Global,
    set: &Sound,
    line: Line,
    rows: &[Rows<u64>],
) -> Result<bool, AllocError>
    ensures { IfOk result (λ b. IsTrue b ↔ AreBreaking (meaning_of set.now) set.now line rows.now) }
{
    match line {
        Line::Base(at) => breaks_base(alloc, set, at, rows),
        Line::Step(at) => breaks_step(alloc, set, at, rows),
        Line::Reset => breaks_reset(alloc, set, rows),
        Line::Operation(at) => breaks_operation(alloc, set, at, rows),
        Line::End(_)
        | Line::Split(_)
        | Line::SameEnd(_)
        | Line::Choose(..)
        | Line::Hand(..)
        | Line::Determine(_) => Ok(false),
    }
}
