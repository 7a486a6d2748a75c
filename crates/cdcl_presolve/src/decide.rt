// Deciding by way of a smaller formula. Nothing that the simplifying found is trusted: an answer counts where its
// evidence passes the check over the input formula, and where there is none the input formula is searched as it is.
ghost use Rattle.std.specs.Prelude.{◌≤◌, ◌^◌, IfOk, IfSome};
ghost use Rattle.cdcl.specs.Ends.{IsDecided, IsEnd};
ghost use Rattle.cdcl_presolve.specs.Decided.{Decides};

use crate::classes::Classes;
use crate::reduce::reduce;
use crate::smaller::{Smaller, kept_clauses, shrink};
use crate::sweep::swept;
use crate::trim::trimmed;
use cdcl::End;
use clause_check::{Cnf, Marks, Step, accept, holds};
use std::alloc::{AllocError, Global};

// The steps that the last one rests on as an end, if they are a refutation.
fn refuted(
    alloc: Global,
    cnf: &Cnf,
    budget: u64,
    steps: Vec<Step>,
) -> Result<Option<End>, AllocError>
    ensures { IfOk result (λ r. IfSome r (Decides cnf.now budget)) }
{
    let steps = trimmed(alloc, cnf.clauses.len(), steps)?;
    let mut marks = Marks::new(alloc, cnf.vars)?;
    if accept(cnf, steps.as_slice(), &mut marks) {
        Ok(Some(End::Unsat(steps)))
    } else {
        Ok(None)
    }
}

// The values as an end, if the formula holds.
fn satisfied(cnf: &Cnf, budget: u64, values: Vec<bool>) -> Option<End>
    ensures { IfSome result (Decides cnf.now budget) }
{
    if holds(cnf, values.as_slice()) {
        Some(End::Sat(values))
    } else {
        None
    }
}

// Refutes the formula where propagation, or a search with one learnt clause, does, which costs far less than to
// simplify it.
fn refuted_at_once(alloc: Global, cnf: &Cnf, budget: u64) -> Result<Option<End>, AllocError>
    ensures { IfOk result (λ r. IfSome r (Decides cnf.now budget)) }
{
    match cdcl::solve(alloc, cnf, 1)? {
        End::Unsat(steps) => Ok(Some(End::Unsat(steps))),
        End::Sat(_) | End::Spent(_) => Ok(None),
    }
}

// Whether so many clauses of these are few enough that they are searched in the place of all: a tenth is gone.
fn is_gain(left: usize, all: usize) -> bool {
    left <= all - all / 10
}

// Searches the smaller formula, and gives the end with its evidence over the input formula. It is none where the budget
// is spent.
fn by_smaller(
    alloc: Global,
    cnf: &Cnf,
    budget: u64,
    small: &Smaller,
    found: (Classes, Vec<Step>),
) -> Result<Option<End>, AllocError>
    requires { 1 ≤ budget }
    ensures { IfOk result (λ r. IfSome r (Decides cnf.now budget)) }
{
    let (classes, mut steps) = found;
    match cdcl::solve(alloc, &small.cnf, budget)? {
        End::Unsat(more) => {
            let inputs = cnf.clauses.len();
            if small.add_steps(alloc, inputs, &mut steps, more)? {
                refuted(alloc, cnf, budget, steps)
            } else {
                Ok(None)
            }
        }
        End::Sat(values) => {
            let values = small.values(alloc, &classes, cnf.vars, values.as_slice())?;
            Ok(satisfied(cnf, budget, values))
        }
        End::Spent(_) => Ok(None),
    }
}

// Simplifies the formula and decides what is left. It is none where that isn't worth it or the budget is spent.
fn simplified(alloc: Global, cnf: &Cnf, budget: u64) -> Result<Option<End>, AllocError>
    requires { 1 ≤ budget }
    ensures { IfOk result (λ r. IfSome r (Decides cnf.now budget)) }
{
    let (mut facts, open) = swept(alloc, cnf)?;
    if facts.is_refuted() {
        let (_, steps) = facts.into_parts();
        return refuted(alloc, cnf, budget, steps);
    }
    let Some(left) = kept_clauses(alloc, &mut facts, open.as_slice())? else {
        return Ok(None);
    };
    let (facts, reduced) = reduce(alloc, facts, left)?;
    if facts.is_refuted() {
        let (_, steps) = facts.into_parts();
        return refuted(alloc, cnf, budget, steps);
    }
    match shrink(alloc, cnf.vars, reduced)? {
        Some(small) if is_gain(small.cnf.clauses.len(), cnf.clauses.len()) => {
            by_smaller(alloc, cnf, budget, &small, facts.into_parts())
        }
        _ => Ok(None),
    }
}

/// Decides the formula, or learns as many clauses as the budget has, as `cdcl::solve` does, with the same evidence.
/// Where one learnt clause doesn't refute it, it is simplified: what single literals force, variables that are equal,
/// and gates that are the same function of the same inputs; then subsumption, and the elimination of variables by
/// resolution.
///
/// Where a tenth of the clauses goes, `cdcl::solve` decides what is left within the budget, and its answer is taken
/// back to the input formula and checked there, by `accept` or `holds`. If that budget is spent, the input formula is
/// searched with the same budget again: a formula that stays open is searched twice, since the chain of steps that
/// shows a spent budget has to be one over the input formula, in which steps of the simplifying would not be new to
/// unit propagation.
pub fn solve(alloc: Global, cnf: &Cnf, budget: u64) -> Result<End, AllocError>
    requires { 1 ≤ budget }
    ensures end { IfOk result (IsEnd cnf.now budget) }
    ensures decided { 3 ^ cnf.now.vars ≤ budget → IfOk result IsDecided }
{
    if let Some(end) = refuted_at_once(alloc, cnf, budget)? {
        return Ok(end);
    }
    match simplified(alloc, cnf, budget)? {
        Some(end) => Ok(end),
        None => cdcl::solve(alloc, cnf, budget),
    }
}
