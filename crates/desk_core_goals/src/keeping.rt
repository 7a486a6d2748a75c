// A derivation of another solver, kept for a line.
ghost use Rattle.std.specs.Prelude.{◌≡◌, ◌≢◌, ℕ, Err, IfErr, IfOk};
ghost use Rattle.desk_core_commands.specs.declared.which.Which.TheVariants as w;
ghost use Rattle.proof_store.specs.Provers.{Rises};
ghost use Rattle.desk_core_goals.specs.Asked.{IsGoalDecided};
ghost use Rattle.desk_core_goals.specs.Decided.{AreDecided};
ghost use Rattle.desk_core_goals.specs.Keeping.{IsProvedGoal, KeepsProof, RefusesGoal, RefusesProof, TellsAlone};
ghost use Rattle.desk_core_goals.specs.Settled.{AddsProofsOf, AreObsOf};
ghost use Rattle.desk_core_goals.specs.declared.keep_fault.KeepFault.TheVariants as k;

use crate::decide::line_of;
use crate::goal_named;
use crate::keep_fault::KeepFault;
use clause_check_texts::read_proof;
use cnf_build::build;
use desk_core_reports::Book;
use job_pool::Evidence;
use outside::{Keeper, Text};
use proof_store::{Decided, Goal, Source, keep};
use set_tree::Line;
use std::alloc::{AllocError, Global};
use unroll_binding::Bound;

// The goal of a line with the derivation that a text has of its clauses.
fn proved_goal(
    alloc: Global,
    bound: &Bound,
    name: &Text,
    proof: &Text,
) -> Result<Decided<Line>, KeepFault>
    ensures ok { IfOk result (IsProvedGoal bound.now name.now proof.now) }
    ensures decided { (budget : ℕ) → IfOk result (IsGoalDecided budget bound.now) }
    ensures err { IfErr result (RefusesGoal bound.now name.now proof.now) }
{
    let goal = goal_named(alloc, bound, name)?;
    let built = build(alloc, &goal.ob)?;
    let steps = read_proof(alloc, &built.cnf, proof.bytes())?;
    Ok(Decided {
        goal,
        evidence: Evidence::Derivation(steps),
        source: Source::Helped,
    })
}

// A book with the line of a decided goal alone.
fn book_of(alloc: Global, bound: &Bound, decided: Decided<Line>) -> Result<Book, AllocError>
    requires { (budget : ℕ) × IsGoalDecided budget bound.now decided }
    ensures { IfOk result (TellsAlone bound.now decided) }
{
    let line = line_of(alloc, bound, decided)?;
    let mut lines = Vec::new(alloc);
    lines.push(line)?;
    Ok(Book {
        lines,
        kept: 0,
        helped: 1,
        solved: 0,
        draws: Vec::new(alloc),
        least: None,
    })
}

/// Keeps the derivation that a text has of the clauses of the line of this name, which the checker accepts: it is put
/// under the text of the line's obligation, and the line is proved by it, as the book tells. Refused where the set's
/// report has no such line, where the text has no such derivation, where it is too long to be kept, where the keeper
/// failed in this call, or where memory runs out; then nothing is new at the keeper, unless memory runs out after the
/// derivation was put.
pub fn keep_proof<K: Keeper>(
    alloc: Global,
    keeper: &mut K,
    bound: &Bound,
    name: &Text,
    proof: &Text,
) -> Result<Book, KeepFault>
    ensures ok { IfOk result (KeepsProof bound.now name.now proof.now (K.tables keeper.old) (K.tables keeper.new)) }
    ensures lines { (budget : ℕ) → IfOk result (λ book. AreDecided budget bound.now (w.One name.now) book.lines.items) }
    ensures err { IfErr result (RefusesProof bound.now name.now proof.now) }
    ensures same { IfErr result (λ fault. fault ≢ k.Memory → K.tables keeper.new ≡ K.tables keeper.old) }
    ensures left { AddsProofsOf (AreObsOf bound.now (w.One name.now)) (K.tables keeper.old) (K.tables keeper.new) }
    ensures faults { Rises (result ≡ Err KeepFault.Keeper) (K.faults keeper.old) (K.faults keeper.new) }
{
    let proved = proved_goal(alloc, bound, name, proof)?;
    if keep(alloc, keeper, &proved)? {
        Ok(book_of(alloc, bound, proved)?)
    } else {
        Err(KeepFault::Large)
    }
}
