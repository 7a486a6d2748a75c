// The parts of a property in rows.

ghost use Rattle.std.specs.Prelude.{◌≡◌, ◌-◌, ◌<◌, ◌≤◌, ◌&&◌, length, drop, IfOk, suc};
ghost use Rattle.std.specs.List.{All, list_all};
ghost use Rattle.set_tree_structure.specs.Condition.{IsFormula};
ghost use Rattle.set_tree.specs.Formulas.{largest_offset, meaning_of};
ghost use Rattle.set_tree.specs.Meaning.{holds};
ghost use Rattle.set_tree.specs.Parts.{property_at, IsPosition, window_of, assumed, committed, first_offset, end_of};
ghost use Rattle.set_tree.specs.Traces.{IsTrace};
ghost use Rattle.twin_tests_laws.specs.Tests.{all_below, meets_constraints, starts, same_hands};
ghost use Rattle.set_tree.specs.Structure.{IsLength};
ghost use Rattle.twin_tests.specs.Building.{IsReadable};
ghost use Rattle.twin_tests.specs.Reading.{HasStructure, ReadsWindow};

use crate::formula::{all_hold, formula_value, holds, rows_from};
use set_tree::{Length, Property, Rows};
use set_tree_structure::{Sound, largest};
use std::alloc::{AllocError, Global};
use vlog_tree::Expr;

/// The property at a position.
pub fn property_at(set: &Sound, at: u32) -> &Property
    requires { IsPosition set.now at }
    ensures same { result.now ≡ property_at set.now at }
    ensures reads { ReadsWindow set.now result.now }
    ensures length { IsLength result.now.length result.now.window }
    ensures small { result.now.window ≤ 64 }
    ensures structure { HasStructure set.now }
{
    let set = set.set();
    if at == 0 {
        &set.first
    } else {
        &set.operations.as_slice()[at as usize - 1]
    }
}

// Whether a formula holds in each row after which its largest offset fits.
fn holds_throughout(
    alloc: Global,
    set: &Sound,
    formula: &Expr,
    rows: &[Rows<u64>],
) -> Result<bool, AllocError>
    requires trace { IsTrace set.now rows.now }
    requires formed { IsFormula set.now formula.now }
    ensures { IfOk result (λ b. b ≡ all_below (length rows.now - largest_offset formula.now)
        (λ t. holds (meaning_of set.now) formula.now (drop t rows.now))) }
{
    let count = rows.len().saturating_sub(largest(formula) as usize);
    for t in 0..count {
        let later = rows_from(rows, t);
        let holds = holds(alloc, set, formula, later)?;
        if !holds {
            return Ok(false);
        }
    }
    Ok(true)
}

/// Whether each constraint holds in each row of a trace after which its largest offset fits.
pub fn meets_constraints(alloc: Global, set: &Sound, rows: &[Rows<u64>]) -> Result<bool, AllocError>
    requires { IsTrace set.now rows.now }
    ensures { IfOk result (λ b. b ≡ meets_constraints (meaning_of set.now) set.now rows.now) }
{
    for rule in set.set().constraints.as_slice() {
        let met = holds_throughout(alloc, set, &rule.formula, rows)?;
        if !met {
            return Ok(false);
        }
    }
    Ok(true)
}

/// Whether what the property at a position assumes holds in the first of some rows, which reach its window; the reset
/// property, position 0, assumes nothing.
pub fn is_assumed(
    alloc: Global,
    set: &Sound,
    at: u32,
    rows: &[Rows<u64>],
) -> Result<bool, AllocError>
    requires trace { IsTrace set.now rows.now }
    requires position { IsPosition set.now at }
    requires window { window_of set.now at < length rows.now }
    ensures { IfOk result (λ b. b ≡ assumed (meaning_of set.now) set.now at rows.now) }
{
    if at == 0 {
        return Ok(true);
    }
    let property = property_at(set, at);
    all_hold(alloc, set, property.assume.as_slice(), rows)
}

/// Whether what it commits holds there, in rows that reach its window.
pub fn is_committed(
    alloc: Global,
    set: &Sound,
    at: u32,
    rows: &[Rows<u64>],
) -> Result<bool, AllocError>
    requires trace { IsTrace set.now rows.now }
    requires position { IsPosition set.now at }
    requires window { window_of set.now at < length rows.now }
    ensures { IfOk result (λ b. b ≡ committed (meaning_of set.now) set.now at rows.now) }
{
    let property = property_at(set, at);
    all_hold(alloc, set, property.commit.as_slice(), rows)
}

/// Whether it is assumed and committed there.
pub fn starts(alloc: Global, set: &Sound, at: u32, rows: &[Rows<u64>]) -> Result<bool, AllocError>
    requires trace { IsTrace set.now rows.now }
    requires position { IsPosition set.now at }
    requires window { window_of set.now at < length rows.now }
    ensures { IfOk result (λ b. b ≡ starts (meaning_of set.now) set.now at rows.now) }
{
    let assumed = is_assumed(alloc, set, at, rows)?;
    let committed = is_committed(alloc, set, at, rows)?;
    Ok(assumed && committed)
}

// The first of the offsets that a length allows at which a formula holds.
fn first_offset(
    alloc: Global,
    set: &Sound,
    formula: &Expr,
    span: &Length,
    rows: &[Rows<u64>],
) -> Result<Option<u8>, AllocError>
    requires trace { IsTrace set.now rows.now }
    requires readable { IsReadable set.now 1 formula.now }
    requires within { span.now.high < length rows.now }
    requires most { span.now.high ≤ 64 }
    ensures { IfOk result (λ n. n ≡ first_offset (meaning_of set.now) formula.now rows.now span.now.low
        (suc span.now.high - span.now.low)) }
{
    for offset in span.low..span.high + 1 {
        let later = rows_from(rows, usize::from(offset));
        let holds = holds(alloc, set, formula, later)?;
        if holds {
            return Ok(Some(offset));
        }
    }
    Ok(None)
}

/// The offset at which the property at a position ends that starts in the first of some rows, where it has an end.
pub fn end_of(
    alloc: Global,
    set: &Sound,
    at: u32,
    rows: &[Rows<u64>],
) -> Result<Option<u8>, AllocError>
    requires trace { IsTrace set.now rows.now }
    requires position { IsPosition set.now at }
    requires window { window_of set.now at < length rows.now }
    ensures { IfOk result (λ n. n ≡ end_of (meaning_of set.now) set.now at rows.now) }
{
    let property = property_at(set, at);
    let length = &property.length;
    match &length.until {
        None => Ok(Some(length.low)),
        Some(formula) => first_offset(alloc, set, formula, length, rows),
    }
}

/// Whether the property at a position hands over the same in two traces.
pub fn same_hands(
    alloc: Global,
    set: &Sound,
    at: u32,
    one: &[Rows<u64>],
    other: &[Rows<u64>],
) -> Result<bool, AllocError>
    requires one { IsTrace set.now one.now }
    requires other { IsTrace set.now other.now }
    requires position { IsPosition set.now at }
    requires window { window_of set.now at < length one.now }
    requires other_window { window_of set.now at < length other.now }
    ensures { IfOk result (λ b. b ≡ same_hands (meaning_of set.now) set.now at one.now other.now) }
{
    let property = property_at(set, at);
    for formula in property.hand.as_slice() {
        let left = formula_value(alloc, set, formula, one)?;
        let right = formula_value(alloc, set, formula, other)?;
        if left != right {
            return Ok(false);
        }
    }
    Ok(true)
}
