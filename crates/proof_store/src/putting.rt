// New proofs, put in order. Their rows are made by workers side by side.
ghost use Rattle.std.specs.Prelude.{◌≡◌, ◌^◌, ◌<◌, ◌↔◌, All, Err, IfOk, IfSome, IsTrue, OnErr, OnOk, length, map};
ghost use Rattle.std.specs.List.{AllZip};
ghost use Rattle.proof_store.specs.Goals.{ended, is_kept};
ghost use Rattle.proof_store.specs.Kept.{IsKept};
ghost use Rattle.proof_store.specs.Outcomes.{IsNewRow, IsOutcome, TellsOutcome, outcome_ended, put_one};
ghost use Rattle.proof_store.specs.Provers.{Rises};
ghost use Rattle.proof_store.specs.Rows.{HasProofs};
ghost use Rattle.proof_store.specs.Stored.{AddsProofs, StoresNew, Told, ended_ob};

use crate::crews::fewer;
use crate::fault::StoreFault;
use crate::goal::{Decided, Source};
use crate::keeping::{Row, row_of};
use crate::weight::{Weighs, few_at_a_time};
use job_pool::{Crew, Evidence, Task};
use outside::Keeper;
use std::alloc::{AllocError, Global};
use std::thread::Threads;
use word_dag::Ob;

/// An obligation, what shows how it ended, and whether its proof was kept before.
#[derive(Drop)]
pub struct Outcome<'a> {
    pub ob: &'a Ob,
    pub evidence: &'a Evidence,
    pub kept: bool,
}

impl Weighs for Outcome<'_> {
    fn weight(&self) -> u64 {
        match self.evidence {
            Evidence::Derivation(steps) if !self.kept => {
                (self.ob.nodes().len() as u64).saturating_add(steps.len() as u64)
            }
            _ => 0,
        }
    }
}

fn is_kept<L: Drop>(decided: &Decided<L>) -> bool
    ensures { result ≡ is_kept decided.now }
{
    matches!(decided.source, Source::Kept)
}

// How the obligations of goals ended.
fn outcomes_of<'a, L: Drop>(
    alloc: Global,
    decided: &'a [Decided<L>],
) -> Result<Vec<Outcome<'a>>, AllocError>
    ensures { IfOk result (λ all. AllZip IsOutcome decided.now all.items) }
{
    let mut all = Vec::new(alloc);
    for one in decided {
        let kept = is_kept(one);
        all.push(Outcome {
            ob: &one.goal.ob,
            evidence: &one.evidence,
            kept,
        })?;
    }
    Ok(all)
}

// The row of a proof that wasn't kept before.
fn new_row(alloc: Global, outcome: &Outcome<'_>) -> Result<Option<Row>, AllocError>
    ensures { IfOk result (IsNewRow outcome.now) }
{
    if outcome.kept {
        return Ok(None);
    }
    row_of(alloc, outcome.ob, outcome.evidence)
}

// Rows are made.
#[derive(Drop)]
struct Writing {
    alloc: Global,
}

impl<'a> Task<Outcome<'a>, Option<Row>> for Writing {
    ghost use Rattle.proof_store.specs.Outcomes.{IsNewRow};

    ghost ends = { λ _. IsNewRow };

    fn end(&self, _number: u64, outcome: &Outcome<'a>) -> Result<Option<Row>, AllocError> {
        new_row(self.alloc, outcome)
    }
}

// Makes rows side by side.
fn new_rows<R: Threads + Sync>(
    crew: &Crew<'_, R>,
    outcomes: &[Outcome<'_>],
) -> Result<Vec<Option<Row>>, AllocError>
    requires { length outcomes.now < 2 ^ 32 }
    ensures { IfOk result (λ rows. AllZip IsNewRow outcomes.now rows.items) }
{
    let jobs = outcomes.iter().filter(|one| !one.kept).count();
    let ran = fewer(crew, jobs).run(outcomes, &Writing { alloc: crew.alloc })?;
    Ok(ran.ends)
}

// Puts a row, where there is one.
fn put_row<K: Keeper>(alloc: Global, keeper: &mut K, row: Option<Row>) -> Result<(), StoreFault>
    ensures ok { OnOk result (K.tables keeper.new ≡ put_one row (K.tables keeper.old)) }
    ensures err { OnErr result (K.tables keeper.new ≡ K.tables keeper.old) }
    ensures faults { Rises (result ≡ Err StoreFault.Keeper) (K.faults keeper.old) (K.faults keeper.new) }
{
    match row {
        Some(row) => Ok(keeper.put_proof(alloc, row.key.as_slice(), row.bytes.as_slice())?),
        None => Ok(()),
    }
}

// Puts the proofs of the obligations that weren't kept.
fn put_each<R: Threads + Sync, K: Keeper>(
    crew: &Crew<'_, R>,
    keeper: &mut K,
    outcomes: &[Outcome<'_>],
) -> Result<(), StoreFault>
    requires jobs { length outcomes.now < 2 ^ 32 }
    requires kept { IfSome (K.tables keeper.old) (λ t. All (TellsOutcome t) outcomes.now) }
    requires proofs { HasProofs (map outcome_ended outcomes.now) }
    ensures ok { OnOk result (Told (StoresNew (map outcome_ended outcomes.now)) (K.tables keeper.old)
        (K.tables keeper.new)) }
    ensures left { Told (AddsProofs (map ended_ob (map outcome_ended outcomes.now))) (K.tables keeper.old)
        (K.tables keeper.new) }
    ensures faults { Rises (result ≡ Err StoreFault.Keeper) (K.faults keeper.old) (K.faults keeper.new) }
{
    for few in few_at_a_time(crew, outcomes)? {
        for row in new_rows(crew, few)? {
            put_row(crew.alloc, keeper, row)?;
        }
    }
    Ok(())
}

/// Puts the proofs of the goals that weren't kept.
pub(crate) fn put_new<R: Threads + Sync, K: Keeper, L: Drop>(
    crew: &Crew<'_, R>,
    keeper: &mut K,
    decided: &[Decided<L>],
) -> Result<(), StoreFault>
    requires jobs { length decided.now < 2 ^ 32 }
    requires kept { IfSome (K.tables keeper.old) (λ t. All (λ d. IsTrue (is_kept d) ↔ IsKept t d.goal.ob) decided.now) }
    requires proofs { HasProofs (map ended decided.now) }
    ensures ok { OnOk result (Told (StoresNew (map ended decided.now)) (K.tables keeper.old) (K.tables keeper.new)) }
    ensures left { Told (AddsProofs (map ended_ob (map ended decided.now))) (K.tables keeper.old)
        (K.tables keeper.new) }
    ensures faults { Rises (result ≡ Err StoreFault.Keeper) (K.faults keeper.old) (K.faults keeper.new) }
{
    let outcomes = outcomes_of(crew.alloc, decided)?;
    put_each(crew, keeper, outcomes.as_slice())
}
