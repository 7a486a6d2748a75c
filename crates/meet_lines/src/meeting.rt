// What can be met in the modules of a text.
ghost use Rattle.std.specs.Prelude.{◌≡◌, [], Err, IfOk, IfErr, option_map};
ghost use Rattle.desk_core_goals.specs.Settled.{AddsProofsOf, AreSettled};
ghost use Rattle.proof_store.specs.Provers.{IsSame as IsSameProver, Proceeds, asked_by, counts, kept_by};
ghost use Rattle.desk_core.specs.Checkers.{IsSame};
ghost use Rattle.meet_lines.specs.Meetings.{AreDecidedOf, AreObsOfTexts, IsMeetReport, Refuses};

use crate::decide::decide_lines;
use crate::report::report_of;
use desk_core::{Checker, check_fault_of};
use desk_core_faults::CheckFault;
use desk_core_reports::{Book, Report};
use desk_core_stages::bound_of;
use helper_box::Helper;
use outside::{Gate, Keeper, Text};
use proof_store::Prover;
use std::thread::Threads;

// The lines of two texts that are asked for, decided.
#[tactic(auto, using(proof_store::proofs::Asking::none_falls_same))]
fn decide_texts<R: Threads + Sync, K: Keeper, H: Helper, G: Gate + Sync>(
    prover: &mut Prover<'_, '_, '_, R, K, H, G>,
    module: &[u8],
    set: &[u8],
    name: Option<&Text>,
) -> Result<Book, CheckFault>
    ensures lines { IfOk result (λ book. AreDecidedOf «module».now set.now
        (option_map (λ n. n.now) name.entry) prover.old.settings.budget book.lines.items) }
    ensures settled { IfOk result (λ book. AreSettled prover.old.settings.workers book
        (kept_by K.tables prover.old) (kept_by K.tables prover.new) (asked_by H.asked prover.old) (asked_by H.asked prover.new)) }
    ensures refuses { IfErr result (Refuses «module».now set.now (option_map (λ n. n.now) name.entry)) }
    ensures left { AddsProofsOf (AreObsOfTexts «module».now set.now (option_map (λ n. n.now) name.entry))
        (kept_by K.tables prover.old) (kept_by K.tables prover.new) }
    ensures proceeds { Proceeds (result ≡ Err CheckFault.Keeper) (counts K.faults H.asked prover.old)
        (counts K.faults H.asked prover.new) }
    ensures same { IsSameProver prover.old prover.new }
{
    let bound = bound_of(prover.alloc, module, set)?;
    let answer = decide_lines(prover, &bound, name);
    // a call, since a proof would write out the drop of all trees here
    drop(bound);
    match answer {
        Ok(book) => Ok(book),
        Err(fault) => Err(check_fault_of(fault)),
    }
}

/// Says what can be met in the modules of a text, from the block of a set's text as their top: empties the book,
/// decides `reset` and each operation, or the line of this name alone, puts the lines into the book, and gives their
/// report. A line whose verdict is `Refuted` is met, by the segment that is its trace: `reset` where a run from reset
/// goes on for the largest window, an operation where a segment of its window begins where it is assumed, the
/// constraints being kept in both. A line whose verdict is `Proved` is met by nothing. The report is complete where all
/// lines were asked for and are met.
///
/// A refusal names the first stage that refuses, or says that neither `reset` nor an operation has the name that was
/// asked for, that the keeper failed in this call, or that memory ran out; it leaves the book empty. Whatever is
/// answered, each proof of the keeper that differs from before is one of an obligation of these lines, under its text.
pub fn meet<R: Threads + Sync, K: Keeper, H: Helper, G: Gate + Sync>(
    checker: &mut Checker<'_, '_, '_, '_, R, K, H, G>,
    module: &[u8],
    set: &[u8],
    name: Option<&Text>,
) -> Result<Report, CheckFault>
    ensures report { IfOk result (IsMeetReport «module».now set.now (option_map (λ n. n.now) name.entry)
        checker.old.prover.settings.budget checker.new.book.now.lines.items) }
    ensures settled { IfOk result (λ _. AreSettled checker.old.prover.settings.workers checker.new.book.now
        (kept_by K.tables checker.old.prover)
        (kept_by K.tables checker.new.prover) (asked_by H.asked checker.old.prover) (asked_by H.asked checker.new.prover)) }
    ensures refuses { IfErr result (Refuses «module».now set.now (option_map (λ n. n.now) name.entry)) }
    ensures empty { IfErr result (λ _. checker.new.book.now.lines.items ≡ []) }
    ensures left { AddsProofsOf (AreObsOfTexts «module».now set.now (option_map (λ n. n.now) name.entry))
        (kept_by K.tables checker.old.prover) (kept_by K.tables checker.new.prover) }
    ensures proceeds { Proceeds (result ≡ Err CheckFault.Keeper) (counts K.faults H.asked checker.old.prover)
        (counts K.faults H.asked checker.new.prover) }
    ensures same { IsSame checker.old checker.new }
{
    *checker.book = Book::new(checker.prover.alloc);
    let decided = decide_texts(&mut checker.prover, module, set, name)?;
    let report = report_of(checker.prover.alloc, name, &decided.lines)?;
    *checker.book = decided;
    Ok(report)
}
