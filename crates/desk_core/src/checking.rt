// The check of two texts.
ghost use Rattle.std.specs.Prelude.{◌≡◌, [], None, Err, IfOk, IfErr};
ghost use Rattle.desk_core_goals.specs.Least.{HasLeast};
ghost use Rattle.desk_core_goals.specs.Decided.{AreDecided};
ghost use Rattle.desk_core_goals.specs.Settled.{AddsProofsOf, AreObsOf, AreSettled};
ghost use Rattle.proof_store.specs.Provers.{Proceeds, asked_by, counts, kept_by};
ghost use Rattle.desk_core.specs.Checkers.{IsSame};
ghost use Rattle.desk_core.specs.Checks.{AreObsOfTexts, IsReport, IsReportOf, Refuses, RefusesAsked, check_fault_of};

use crate::checker::Checker;
use desk_core_commands::Which;
use desk_core_faults::CheckFault;
use desk_core_goals::{LineFault, decide_lines};
use desk_core_reports::{Book, Report, report_of};
use desk_core_stages::bound_of;
use helper_box::Helper;
use outside::{Gate, Keeper};
use std::thread::Threads;
use unroll_binding::Bound;

/// Why no lines were decided, as the fault of a check.
pub fn check_fault_of(fault: LineFault) -> CheckFault
    ensures { result ≡ check_fault_of fault }
{
    match fault {
        LineFault::NoLine => CheckFault::NoLine,
        LineFault::Keeper => CheckFault::Keeper,
        LineFault::Memory => CheckFault::Memory,
    }
}

impl<'a, 'k, 'h, 'b, R: Threads + Sync, K: Keeper, H: Helper, G: Gate + Sync> Checker<
    'a,
    'k,
    'h,
    'b,
    R,
    K,
    H,
    G,
> {
    /// Checks a set that is bound to a design: empties the book, decides the lines that are asked for, puts them into
    /// the book, and gives their report. Refused where no line has the name that was asked for, where the keeper failed
    /// in this call, or where memory runs out; then the book is empty. Whatever is answered, each proof of the keeper
    /// that differs from before is one of an obligation of these lines, under its text.
    #[tactic(auto, using(crate::proofs::Checked::none_falls))]
    pub fn check_bound(&mut self, bound: &Bound, which: &Which) -> Result<Report, CheckFault>
        ensures lines { IfOk result (λ _. AreDecided self.old.prover.settings.budget bound.now which.now self.new.book.now.lines.items) }
        ensures report { IfOk result (IsReportOf which.now self.new.book.now.lines.items) }
        ensures settled { IfOk result (λ _. AreSettled self.old.prover.settings.workers self.new.book.now
            (kept_by K.tables self.old.prover)
            (kept_by K.tables self.new.prover) (asked_by H.asked self.old.prover) (asked_by H.asked self.new.prover)) }
        ensures least { IfOk result (λ _. HasLeast which.now self.old.prover.settings.budget self.new.book.now) }
        ensures refuses { IfErr result (RefusesAsked bound.now.set which.now) }
        ensures empty { IfErr result (λ _. self.new.book.now.lines.items ≡ []) }
        ensures no_least { IfErr result (λ _. self.new.book.now.least ≡ None) }
        ensures left { AddsProofsOf (AreObsOf bound.now which.now) (kept_by K.tables self.old.prover)
            (kept_by K.tables self.new.prover) }
        ensures proceeds { Proceeds (result ≡ Err CheckFault.Keeper) (counts K.faults H.asked self.old.prover)
            (counts K.faults H.asked self.new.prover) }
        ensures same { IsSame self.old self.new }
    {
        *self.book = Book::new(self.prover.alloc);
        match decide_lines(&mut self.prover, bound, which) {
            Ok(book) => {
                let report = report_of(self.prover.alloc, which, &book.lines)?;
                *self.book = book;
                Ok(report)
            }
            Err(fault) => Err(check_fault_of(fault)),
        }
    }

    /// Checks a module text with a set's text: empties the book, decides the lines that are asked for, puts them into
    /// the book, and gives their report. Where the least counterexample is asked for and the line is refuted, its
    /// values and its trace are the least ones, with what shows that none are smaller, or where the budget was spent on
    /// a bit. Where the report is complete, the block is signed off: every constrained run of the modules from reset
    /// satisfies the set and walks along its operations, and the set fixes its outputs wherever it claims them. A
    /// refusal names the first stage that refuses, or says that no line has the name that was asked for, that the
    /// keeper failed in this call, or that memory ran out; it leaves the book empty. Whatever is answered, each proof
    /// of the keeper that differs from before is one of an obligation of these lines, under its text.
    #[tactic(auto, using(crate::proofs::Checked::none_falls))]
    pub fn check(&mut self, module: &[u8], set: &[u8], which: &Which) -> Result<Report, CheckFault>
        ensures report { IfOk result (IsReport «module».now set.now which.now self.old.prover.settings.budget self.new.book.now.lines.items) }
        ensures settled { IfOk result (λ _. AreSettled self.old.prover.settings.workers self.new.book.now
            (kept_by K.tables self.old.prover)
            (kept_by K.tables self.new.prover) (asked_by H.asked self.old.prover) (asked_by H.asked self.new.prover)) }
        ensures least { IfOk result (λ _. HasLeast which.now self.old.prover.settings.budget self.new.book.now) }
        ensures refuses { IfErr result (Refuses «module».now set.now which.now) }
        ensures empty { IfErr result (λ _. self.new.book.now.lines.items ≡ []) }
        ensures no_least { IfErr result (λ _. self.new.book.now.least ≡ None) }
        ensures left { AddsProofsOf (AreObsOfTexts «module».now set.now which.now) (kept_by K.tables self.old.prover)
            (kept_by K.tables self.new.prover) }
        ensures proceeds { Proceeds (result ≡ Err CheckFault.Keeper) (counts K.faults H.asked self.old.prover)
            (counts K.faults H.asked self.new.prover) }
        ensures same { IsSame self.old self.new }
    {
        *self.book = Book::new(self.prover.alloc);
        let bound = bound_of(self.prover.alloc, module, set)?;
        let answer = self.check_bound(&bound, which);
        // a call, since a proof would write out the drop of all trees here
        drop(bound);
        answer
    }
}
