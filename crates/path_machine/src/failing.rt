// Where a trace doesn't meet the constraints.
ghost use Rattle.std.specs.Prelude.{◌≡◌, length, IfOk};
ghost use Rattle.std.specs.List.{list_any};
ghost use Rattle.set_tree_structure.specs.Condition.{IsFormula};
ghost use Rattle.set_tree.specs.declared.set.Rule.{Rule};
ghost use Rattle.set_tree.specs.Formulas.{meaning_of};
ghost use Rattle.set_tree.specs.Traces.{IsTrace};
ghost use Rattle.path_machine.specs.Unmet.{IsUnmet, fails};

use replay::Trace;
use replay_eval::{holds, rows_from};
use set_tree::Rows;
use set_tree_structure::{Sound, largest};
use std::alloc::{AllocError, Global};
use vlog_tree::Expr;

// Whether a formula fails in the first of some rows, where they reach its largest offset.
fn fails(alloc: Global, set: &Sound, formula: &Expr, rows: &[Rows<u64>]) -> Result<bool, AllocError>
    requires trace { IsTrace set.now rows.now }
    requires formed { IsFormula set.now formula.now }
    ensures { IfOk result (λ b. b ≡ fails (meaning_of set.now) formula.now rows.now) }
{
    if largest(formula) as usize >= rows.len() {
        return Ok(false);
    }
    let holds = holds(alloc, set, formula, rows)?;
    Ok(!holds)
}

// Whether one of the constraints does.
fn any_fails(alloc: Global, set: &Sound, rows: &[Rows<u64>]) -> Result<bool, AllocError>
    requires { IsTrace set.now rows.now }
    ensures { IfOk result (λ b. b ≡ list_any
        (λ (rule : Rule). fails (meaning_of set.now) rule.formula rows.now) set.now.constraints) }
{
    for rule in set.set().constraints.as_slice() {
        let fails = fails(alloc, set, &rule.formula, rows)?;
        if fails {
            return Ok(true);
        }
    }
    Ok(false)
}

/// The first cycle of a trace at which a constraint whose largest offset still fits fails, where there is one.
pub fn unmet(alloc: Global, sound: &Sound, trace: &Trace) -> Result<Option<u64>, AllocError>
    requires { IsTrace sound.now trace.now.rows }
    ensures { IfOk result (IsUnmet (meaning_of sound.now) sound.now trace.now.rows) }
{
    let rows = trace.rows.as_slice();
    for t in 0..rows.len() {
        let fails = any_fails(alloc, sound, rows_from(rows, t))?;
        if fails {
            return Ok(Some(t as u64));
        }
    }
    Ok(None)
}
