// Goals settled by a prover.
ghost use Rattle.std.specs.Prelude.{◌≡◌, ◌+◌, ◌^◌, ◌<◌, Err, IfOk, IfSome, count_by, length, map};
ghost use Rattle.std.specs.List.{AllZip};
ghost use Rattle.job_pool.specs.Shown.{IsShown};
ghost use Rattle.proof_store.specs.Counts.{FirstRose, draws_of};
ghost use Rattle.proof_store.specs.Goals.{IsDecided, IsDecidedIfAmple, KeptDecides, ended, from_helper, from_keeper, from_worker, is_helped, is_kept, is_solved, ob_of};
ghost use Rattle.proof_store.specs.Kept.{CountsKept};
ghost use Rattle.proof_store.specs.Provers.{IsSame, Proceeds, asked_by, counts, kept_by};
ghost use Rattle.proof_store.specs.Stored.{AddsProofs, StoresNew, Told};
ghost use Rattle.proof_store.specs.declared.goal.Source.{Source as Sources};

use crate::fault::StoreFault;
use crate::goal::{Decided, Goal, Source};
use crate::placing::filled;
use crate::prover::Prover;
use crate::putting::put_new;
use helper_box::Helper;
use job_pool::{Crew, Evidence, Ran, run_jobs};
use outside::{Gate, Keeper};
use std::alloc::AllocError;
use std::thread::Threads;
use word_dag::Ob;

/// The goals in their order, each with what shows how it ended, and where that comes from.
#[derive(Drop)]
pub struct Settled<L> {
    pub decided: Vec<Decided<L>>,
    /// How many had a proof that was kept.
    pub kept: u64,
    /// How many were shown by a helper's claim.
    pub helped: u64,
    /// How many were handed to the workers.
    pub solved: u64,
    /// The numbers that the workers who solved drew, in ascending order.
    pub draws: Vec<u64>,
}

fn count_kept<L: Drop>(decided: &[Decided<L>]) -> u64
    ensures { result ≡ count_by is_kept decided.now }
{
    decided
        .iter()
        .filter(|one| one.source == Source::Kept)
        .count() as u64
}

fn count_helped<L: Drop>(decided: &[Decided<L>]) -> u64
    ensures { result ≡ count_by is_helped decided.now }
{
    decided
        .iter()
        .filter(|one| one.source == Source::Helped)
        .count() as u64
}

fn count_solved<L: Drop>(decided: &[Decided<L>]) -> u64
    ensures { result ≡ count_by is_solved decided.now }
{
    decided
        .iter()
        .filter(|one| one.source == Source::Solved)
        .count() as u64
}

impl<'a, 'k, 'h, R: Threads + Sync, K: Keeper, H: Helper, G: Gate + Sync> Prover<
    'a,
    'k,
    'h,
    R,
    K,
    H,
    G,
> {
    // The open obligations, decided by workers. Where there is none, no worker is started.
    fn decide_open(&self, rest: &[Ob]) -> Result<Ran<Evidence>, AllocError>
        requires { length rest.now < 2 ^ 32 }
        ensures ends { IfOk result (λ ran. AllZip (IsShown self.now.settings.budget) rest.now ran.ends.items) }
        ensures draws { IfOk result (λ ran. ran.draws.items ≡ draws_of (length rest.now) self.now.settings.workers) }
    {
        if rest.is_empty() {
            return Ok(Ran {
                ends: Vec::new(self.alloc),
                draws: Vec::new(self.alloc),
            });
        }
        let crew = Crew {
            rt: self.rt,
            alloc: self.alloc,
            workers: self.settings.workers,
        };
        run_jobs(&crew, rest, self.settings.budget, self.gate)
    }

    /// Settles goals: each with what shows how it ended, in their order.
    ///
    /// The keeper is asked for the row under each obligation's text, in order; then workers check the rows side by
    /// side. A row counts as kept where it is a record of a derivation of the empty clause from the obligation's
    /// clauses; a row that isn't one is no fault. What isn't kept is offered to the helpers, in order, and of their
    /// claims only those that pass count. The rest is decided by workers, each obligation within the budget of steps;
    /// where nothing is left, none is started. A budget of `3 ^ v` steps, v being the number of variables of an
    /// obligation's clauses, decides it. Then the new proofs are put under the obligations' texts, where a record can
    /// be made of them and neither it nor the text has more than 16,777,216 bytes.
    ///
    /// It is refused with `Keeper` only where the keeper's count of faults rose in this call, or stands at its last
    /// value, and with `Memory` where memory runs out. Then each row of the proofs that differs from before is a proof
    /// of one of these obligations under its text.
    pub fn settle<L: Drop>(&mut self, goals: Vec<Goal<L>>) -> Result<Settled<L>, StoreFault>
        requires jobs { length goals.items < 2 ^ 32 }
        ensures decided { IfOk result (λ s. AllZip (IsDecided self.old.settings.budget) goals.items s.decided.items) }
        ensures ample { IfOk result (λ s. AllZip
            (IsDecidedIfAmple self.old.settings.budget) goals.items s.decided.items) }

        // Where the evidence comes from.
        ensures counts { IfOk result (λ s. s.kept + s.helped + s.solved ≡ length goals.items) }
        ensures kept { IfOk result (λ s. IfSome (kept_by K.tables self.old)
            (λ t. CountsKept t (map ob_of goals.items) s.kept)) }
        ensures kept_decides { IfOk result (λ s. IfSome (kept_by K.tables self.old)
            (λ t. AllZip (KeptDecides t) goals.items s.decided.items)) }
        ensures draws { IfOk result (λ s. s.draws.items ≡ draws_of s.solved self.old.settings.workers) }

        // What the keeper holds afterwards.
        ensures stored { IfOk result (λ s. Told (StoresNew (map ended s.decided.items)) (kept_by K.tables self.old)
            (kept_by K.tables self.new)) }
        ensures left { Told (AddsProofs (map ob_of goals.items)) (kept_by K.tables self.old)
            (kept_by K.tables self.new) }

        // Counts of faults, and how often helpers are asked: the first one once for each obligation that isn't kept.
        ensures proceeds { Proceeds (result ≡ Err StoreFault.Keeper) (counts K.faults H.asked self.old)
            (counts K.faults H.asked self.new) }
        ensures first { IfOk result (λ s. FirstRose (s.helped + s.solved) (asked_by H.asked self.old)
            (asked_by H.asked self.new)) }
        ensures same { IsSame self.old self.new }
    {
        let placed = self.place_all(goals)?;
        let Ran { ends, draws } = self.decide_open(placed.rest.as_slice())?;
        let decided = filled(self.alloc, placed, ends)?;
        let all = decided.as_slice();
        put_new(&self.crew(), self.keeper, all)?;
        let kept = count_kept(all);
        let helped = count_helped(all);
        let solved = count_solved(all);
        Ok(Settled {
            decided,
            kept,
            helped,
            solved,
            draws,
        })
    }
}
