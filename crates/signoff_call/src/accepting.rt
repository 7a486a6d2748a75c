// A derivation of another solver, kept for a line, which is then decided.
ghost use Rattle.std.specs.Prelude.{◌≡◌, ◌++◌, [], Err, codes, IfOk};
ghost use Rattle.outside.specs.Faults.{Rose};
ghost use Rattle.desk_core_goals.specs.Settled.{AddsProofsOf, AreObsOf};
ghost use Rattle.desk_core.specs.Checks.{AreObsOfTexts};
ghost use Rattle.clause_check_texts.specs.Faults.{fault_text as proof_fault_text};
ghost use Rattle.desk_core_goals.specs.declared.keep_fault.KeepFault.{KeepFault as Faults};
ghost use Rattle.desk_core_goals.specs.declared.keep_fault.KeepFault.TheVariants as k;
ghost use Rattle.proof_store.specs.Provers.{kept_by};
ghost use Rattle.desk_core_commands.specs.declared.which.Which.TheVariants as w;
ghost use Rattle.signoff_call.specs.Answers.{refusal};
ghost use Rattle.signoff_call.specs.Bound.{AcceptsBound, IsRefusalOf, SaysAlone};
ghost use Rattle.signoff_call.specs.Run.{HasSame};
ghost use Rattle.signoff_call.specs.Tasks.{AnswersAccept, stores_between};

use crate::answer::{Answer, refusal, reported, turned_down};
use clause_check_texts::{ProofFault, fault_text};
use desk_core::Checker;
use desk_core_commands::Which;
use desk_core_faults::CheckFault;
use desk_core_goals::{KeepFault, keep_proof};
use desk_core_reports::{Book, report_of};
use desk_core_stages::bound_of;
use helper_box::Helper;
use outside::{Gate, Keeper, Text};
use signoff_words::Acceptance;
use std::alloc::{AllocError, Global};
use std::thread::Threads;
use unroll_binding::Bound;

// The refusal of a text that has no derivation of a line's clauses.
fn refused_proof(alloc: Global, fault: &ProofFault) -> Result<Answer, AllocError>
    ensures { IfOk result (λ a. a ≡ refusal 12 (codes "proof: " ++ proof_fault_text fault.now)) }
{
    let text = fault_text(alloc, fault)?;
    refusal(alloc, 12, b"proof: ", text.bytes())
}

// Why no derivation is kept.
fn not_kept(alloc: Global, fault: KeepFault) -> Result<Answer, AllocError>
    ensures { IfOk result (IsRefusalOf fault) }
{
    match fault {
        KeepFault::NoLine => turned_down(alloc, CheckFault::NoLine),
        KeepFault::Proof(fault) => refused_proof(alloc, &fault),
        KeepFault::Large => refusal(alloc, 12, b"proof: Large", b""),
        KeepFault::Keeper => turned_down(alloc, CheckFault::Keeper),
        KeepFault::Memory => Err(AllocError),
    }
}

// The report of the line of a name, which stands in a book alone.
fn line_reported(alloc: Global, name: &Text, book: &Book) -> Result<Answer, AllocError>
    ensures said { IfOk result (SaysAlone name.now book.now) }
    ensures no_keeper { IfOk result (λ a. a.status ≡ 8 → ⊥) }
{
    let which = Which::One(Text::copy(alloc, name.bytes())?);
    let report = report_of(alloc, &which, &book.lines)?;
    let bytes = Text::copy(alloc, report.text.bytes())?;
    Ok(reported(&report.verdicts, bytes))
}

// The derivation that a text has of the clauses of the line of a name, kept, and the line as it proves it.
fn accepted<R: Threads + Sync, K: Keeper, H: Helper, G: Gate + Sync>(
    checker: &mut Checker<'_, '_, '_, '_, R, K, H, G>,
    bound: &Bound,
    name: &Text,
    proof: &Text,
) -> Result<Answer, AllocError>
    requires empty { checker.old.book.now.lines.items ≡ [] }
    ensures answer { IfOk result (AcceptsBound bound.now name.now proof.now
        checker.old.prover.settings.budget checker.new.book.now
        (stores_between K.tables H.asked checker.old checker.new)) }
    ensures left { AddsProofsOf (AreObsOf bound.now (w.One name.now)) (kept_by K.tables checker.old.prover)
        (kept_by K.tables checker.new.prover) }
    ensures keeper { IfOk result (λ a. a.status ≡ 8 →
        Rose (K.faults checker.old.prover.keeper.now) (K.faults checker.new.prover.keeper.now)) }
    ensures same { HasSame checker.old checker.new }
{
    let alloc = checker.prover.alloc;
    match keep_proof(alloc, checker.prover.keeper, bound, name, proof) {
        Ok(book) => {
            let answer = line_reported(alloc, name, &book)?;
            *checker.book = book;
            Ok(answer)
        }
        Err(fault) => not_kept(alloc, fault),
    }
}

/// The derivation that a text has of the clauses of a line of two texts, kept where our own checker accepts it, and the
/// line as it proves it.
pub fn accepted_in<R: Threads + Sync, K: Keeper, H: Helper, G: Gate + Sync>(
    checker: &mut Checker<'_, '_, '_, '_, R, K, H, G>,
    module: &Text,
    set: &Text,
    given: &Acceptance,
    proof: &Text,
) -> Result<Answer, AllocError>
    requires empty { checker.old.book.now.lines.items ≡ [] }
    ensures answer { IfOk result (AnswersAccept «module».now set.now given.now.line proof.now
        checker.old.prover.settings.budget checker.new.book.now
        (stores_between K.tables H.asked checker.old checker.new)) }
    ensures left { AddsProofsOf (AreObsOfTexts «module».now set.now (w.One given.now.line))
        (kept_by K.tables checker.old.prover) (kept_by K.tables checker.new.prover) }
    ensures keeper { IfOk result (λ a. a.status ≡ 8 →
        Rose (K.faults checker.old.prover.keeper.now) (K.faults checker.new.prover.keeper.now)) }
    ensures same { HasSame checker.old checker.new }
{
    let alloc = checker.prover.alloc;
    match bound_of(alloc, module.bytes(), set.bytes()) {
        Ok(bound) => {
            let answer = accepted(checker, &bound, &given.line, proof);
            drop(bound);
            answer
        }
        Err(fault) => turned_down(alloc, fault),
    }
}
