// The lines that are asked for, decided.
ghost use Rattle.std.specs.Prelude.{◌≡◌, ℕ, Err, IfOk, IfErr, option_map};
ghost use Rattle.std.specs.List.{All, AllZip};
ghost use Rattle.desk_core_goals.specs.Settled.{AddsProofsOf, AreSettled};
ghost use Rattle.job_pool.specs.Shown.{IsShown};
ghost use Rattle.proof_store.specs.Provers.{IsSame, Proceeds, asked_by, counts, kept_by};
ghost use Rattle.proof_store.specs.declared.goal.Goal.{Goal as Goals};
ghost use Rattle.meet_lines.specs.Decided.{AreDecided, AreObsOf, IsGoalDecided, IsTraceOf, Tells};
ghost use Rattle.meet_lines.specs.Goals.{IsGoalOf, RefusesLines};

use crate::goals::asked_goals;
use crate::line::{MeetLine, meet_name};
use crate::trace::meet_trace;
use desk_core_goals::LineFault;
use desk_core_reports::{Book, Line, verdict_of};
use helper_box::Helper;
use job_pool::Evidence;
use outside::{Gate, Keeper, Text};
use proof_store::{Decided, Goal, Prover, Settled};
use replay::Shown;
use std::alloc::{AllocError, Global};
use std::thread::Threads;
use unroll_binding::Bound;

// What is shown of a goal: the segment that values name.
fn trace_of(
    alloc: Global,
    bound: &Bound,
    goal: &Goal<MeetLine>,
    evidence: &Evidence,
) -> Result<Option<Shown>, AllocError>
    requires of_line { IsGoalOf bound.now.design bound.now.set goal.now.line goal.now }
    requires shown { (budget : ℕ) × IsShown budget goal.now.ob evidence.now }
    ensures { IfOk result (IsTraceOf bound.now goal.now.line goal.now.ob evidence.now) }
{
    match evidence {
        Evidence::Values(values) => {
            let shown = meet_trace(alloc, bound, goal.line, &goal.ob, values.as_slice())?;
            Ok(Some(shown))
        }
        Evidence::Derivation(_) | Evidence::Chain(_) => Ok(None),
    }
}

// The line of the book that tells how a goal was decided.
fn line_of(alloc: Global, bound: &Bound, decided: Decided<MeetLine>) -> Result<Line, AllocError>
    requires { (budget : ℕ) × IsGoalDecided budget bound.now decided }
    ensures { IfOk result (Tells bound.now decided) }
{
    let Decided { goal, evidence, .. } = decided;
    let trace = trace_of(alloc, bound, &goal, &evidence)?;
    let Goal { line, ob } = goal;
    Ok(Line {
        name: meet_name(alloc, bound.set().set(), line)?,
        verdict: verdict_of(&evidence),
        ob,
        evidence,
        trace,
    })
}

// Lines of the book.
fn lines_of(
    alloc: Global,
    bound: &Bound,
    decided: Vec<Decided<MeetLine>>,
) -> Result<Vec<Line>, AllocError>
    requires { (budget : ℕ) × All (IsGoalDecided budget bound.now) decided.items }
    ensures { IfOk result (λ lines. AllZip (Tells bound.now) decided.items lines.items) }
{
    let mut lines = Vec::with_capacity(alloc, decided.len())?;
    for one in decided {
        let line = line_of(alloc, bound, one)?;
        lines.push(line)?;
    }
    Ok(lines)
}

/// Decides the lines that are asked for: whether a segment of the design meets the line; of a line that is met the
/// segment is shown.
pub(crate) fn decide_lines<R: Threads + Sync, K: Keeper, H: Helper, G: Gate + Sync>(
    prover: &mut Prover<'_, '_, '_, R, K, H, G>,
    bound: &Bound,
    name: Option<&Text>,
) -> Result<Book, LineFault>
    ensures lines { IfOk result (λ book. AreDecided prover.old.settings.budget bound.now
        (option_map (λ n. n.now) name.entry) book.lines.items) }
    ensures settled { IfOk result (λ book. AreSettled prover.old.settings.workers book
        (kept_by K.tables prover.old) (kept_by K.tables prover.new) (asked_by H.asked prover.old) (asked_by H.asked prover.new)) }
    ensures err { IfErr result (RefusesLines bound.now.set (option_map (λ n. n.now) name.entry)) }
    ensures left { AddsProofsOf (AreObsOf bound.now (option_map (λ n. n.now) name.entry)) (kept_by K.tables prover.old)
        (kept_by K.tables prover.new) }
    ensures proceeds { Proceeds (result ≡ Err LineFault.Keeper) (counts K.faults H.asked prover.old)
        (counts K.faults H.asked prover.new) }
    ensures same { IsSame prover.old prover.new }
{
    let goals = asked_goals(prover.alloc, bound, name)?;
    let settled = prover.settle(goals)?;
    let Settled {
        decided,
        kept,
        helped,
        solved,
        draws,
    } = settled;
    let lines = lines_of(prover.alloc, bound, decided)?;
    Ok(Book {
        lines,
        kept,
        helped,
        solved,
        draws,
        least: None,
    })
}
