// The lines that are asked for, decided.
ghost use Rattle.std.specs.Prelude.{◌≡◌, ℕ, Err, IfOk, IfErr};
ghost use Rattle.std.specs.List.{All, AllZip};
ghost use Rattle.proof_store.specs.Provers.{IsSame, Proceeds, asked_by, counts, kept_by};
ghost use Rattle.desk_core_goals.specs.Asked.{IsGoalDecided, RefusesLines};
ghost use Rattle.desk_core_goals.specs.Decided.{AreDecided, Tells};
ghost use Rattle.desk_core_goals.specs.Least.{HasLeast};
ghost use Rattle.desk_core_goals.specs.Settled.{AddsProofsOf, AreObsOf, AreSettled};

use crate::fault::LineFault;
use crate::goals::asked_goals;
use crate::lessen::{WithLeast, with_least};
use crate::trace::trace_of;
use desk_core_commands::Which;
use desk_core_reports::{Book, Line, verdict_of};
use helper_box::Helper;
use outside::{Gate, Keeper};
use proof_store::{Decided, Goal, Prover, Settled};
use std::alloc::{AllocError, Global};
use std::thread::Threads;
use twin_tests_laws::line_name;
use unroll_binding::Bound;

/// The line of the book that tells how a goal was decided.
pub(crate) fn line_of(
    alloc: Global,
    bound: &Bound,
    decided: Decided<set_tree::Line>,
) -> Result<Line, AllocError>
    requires { (budget : ℕ) × IsGoalDecided budget bound.now decided }
    ensures { IfOk result (Tells bound.now decided) }
{
    let Decided { goal, evidence, .. } = decided;
    let Goal { line, ob } = goal;
    let trace = trace_of(alloc, bound, line, &ob, &evidence)?;
    Ok(Line {
        name: line_name(alloc, bound.set().set(), line)?,
        verdict: verdict_of(&evidence),
        ob,
        evidence,
        trace,
    })
}

// Lines of the book.
fn lines_of(
    alloc: Global,
    bound: &Bound,
    decided: Vec<Decided<set_tree::Line>>,
) -> Result<Vec<Line>, AllocError>
    requires { (budget : ℕ) × All (IsGoalDecided budget bound.now) decided.items }
    ensures { IfOk result (λ lines. AllZip (Tells bound.now) decided.items lines.items) }
{
    let mut lines = Vec::with_capacity(alloc, decided.len())?;
    for one in decided {
        let line = line_of(alloc, bound, one)?;
        lines.push(line)?;
    }
    Ok(lines)
}

/// Decides the lines that are asked for: whether something on the design, or in windows, violates the line; a refuted
/// line has a counterexample, which is the least one where that is asked for and the budget lasts for each bit. Refused
/// where no line of the set's report has the name that was asked for, where the keeper failed in this call, or where
/// memory runs out. Then each proof of the keeper that differs from before is one of an obligation of these lines.
pub fn decide_lines<R: Threads + Sync, K: Keeper, H: Helper, G: Gate + Sync>(
    prover: &mut Prover<'_, '_, '_, R, K, H, G>,
    bound: &Bound,
    which: &Which,
) -> Result<Book, LineFault>
    ensures lines { IfOk result (λ book. AreDecided prover.old.settings.budget bound.now which.now book.lines.items) }
    ensures settled { IfOk result (λ book. AreSettled prover.old.settings.workers book
        (kept_by K.tables prover.old) (kept_by K.tables prover.new) (asked_by H.asked prover.old) (asked_by H.asked prover.new)) }
    ensures least { IfOk result (HasLeast which.now prover.old.settings.budget) }
    ensures err { IfErr result (RefusesLines bound.now.set which.now) }
    ensures left { AddsProofsOf (AreObsOf bound.now which.now) (kept_by K.tables prover.old)
        (kept_by K.tables prover.new) }
    ensures proceeds { Proceeds (result ≡ Err LineFault.Keeper) (counts K.faults H.asked prover.old)
        (counts K.faults H.asked prover.new) }
    ensures same { IsSame prover.old prover.new }
{
    let budget = prover.settings.budget;
    let goals = asked_goals(prover.alloc, bound, which)?;
    // a set has at most 8,643 lines
    if goals.len() >= 1 << 32 {
        return Err(LineFault::Memory);
    }
    let settled = prover.settle(goals)?;
    let Settled {
        decided,
        kept,
        helped,
        solved,
        draws,
    } = settled;
    let found = with_least(prover.alloc, which, budget, decided)?;
    let WithLeast { decided, least } = found;
    let lines = lines_of(prover.alloc, bound, decided)?;
    Ok(Book {
        lines,
        kept,
        helped,
        solved,
        draws,
        least,
    })
}
