// The operations of a set as a machine, and the path that a run takes through them.
ghost use Rattle.std.specs.Prelude.{◌≡◌, ◌++◌, [], codes, IfOk};
ghost use Rattle.std.specs.Fmt.{decimal};
ghost use Rattle.outside.specs.Faults.{Rose};
ghost use Rattle.set_tree.specs.Traces.{IsTrace};
ghost use Rattle.desk_core_goals.specs.Settled.{AddsProofsOf, AreObsOf};
ghost use Rattle.desk_core.specs.Checks.{AreObsOfTexts};
ghost use Rattle.path_machine.specs.Texts.{fault_text};
ghost use Rattle.proof_store.specs.Provers.{kept_by};
ghost use Rattle.desk_core_commands.specs.declared.which.Which.TheVariants as w;
ghost use Rattle.signoff_call.specs.Answers.{refusal};
ghost use Rattle.signoff_call.specs.Bound.{SaysBound, SaysMachine, SaysPath, WalksBound};
ghost use Rattle.signoff_call.specs.Run.{HasSame};
ghost use Rattle.signoff_call.specs.Tasks.{AnswersMachine, AnswersWalk, machine_shown, signed_text, stores_between, where_signed};

use crate::answer::{Answer, done, refusal, reported, turned_down};
use desk_core::Checker;
use desk_core_commands::Which;
use desk_core_reports::Report;
use desk_core_stages::bound_of;
use helper_box::Helper;
use outside::{Gate, Keeper, Text};
use path_machine::{
    RowFault, fault_text, machine_graph, machine_text, path_of, path_text, read_rows, run_trace,
    unmet,
};
use replay::Trace;
use set_tree_structure::Sound;
use signoff_words::Form;
use std::alloc::{AllocError, Global};
use std::thread::Threads;
use unroll_binding::Bound;

// These bytes, where the set is signed off, and else the report.
fn where_signed(alloc: Global, bytes: Text, report: &Report) -> Result<Answer, AllocError>
    ensures { IfOk result (λ a. a ≡ where_signed bytes report.now) }
{
    if report.complete {
        return Ok(done(bytes));
    }
    let lines = Text::copy(alloc, report.text.bytes())?;
    Ok(reported(&report.verdicts, lines))
}

// Lines of words, the last of which signs off.
fn signed_text(alloc: Global, text: &Text) -> Result<Text, AllocError>
    ensures { IfOk result (λ bytes. bytes ≡ signed_text text.now) }
{
    let mut bytes = text.bytes().to_vec(alloc)?;
    bytes.extend_from_slice(b"signed off\n")?;
    Ok(Text::new(bytes))
}

// A machine as lines of words, or as a graph.
fn machine_bytes(alloc: Global, set: &Sound, form: Form) -> Result<Text, AllocError>
    ensures { IfOk result (λ bytes. bytes ≡ machine_shown set.now form) }
{
    match form {
        Form::Words => signed_text(alloc, &machine_text(alloc, set)?),
        Form::Graph => machine_graph(alloc, set),
    }
}

// The machine of a set that is bound, where it is signed off.
fn machine_shown<R: Threads + Sync, K: Keeper, H: Helper, G: Gate + Sync>(
    checker: &mut Checker<'_, '_, '_, '_, R, K, H, G>,
    bound: &Bound,
    form: Form,
) -> Result<Answer, AllocError>
    ensures answer { IfOk result (SaysBound (SaysMachine bound.now.set form) bound.now w.All
        checker.old.prover.settings.budget checker.old.prover.settings.workers checker.new.book.now
        (stores_between K.tables H.asked checker.old checker.new)) }
    ensures left { AddsProofsOf (AreObsOf bound.now w.All) (kept_by K.tables checker.old.prover)
        (kept_by K.tables checker.new.prover) }
    ensures keeper { IfOk result (λ a. a.status ≡ 8 →
        Rose (K.faults checker.old.prover.keeper.now) (K.faults checker.new.prover.keeper.now)) }
    ensures same { HasSame checker.old checker.new }
{
    let alloc = checker.prover.alloc;
    match checker.check_bound(bound, &Which::All) {
        Ok(report) => {
            let bytes = machine_bytes(alloc, bound.set(), form)?;
            where_signed(alloc, bytes, &report)
        }
        Err(fault) => turned_down(alloc, fault),
    }
}

/// The machine of the set of two texts, where it is signed off, and else the report.
pub fn machine_of<R: Threads + Sync, K: Keeper, H: Helper, G: Gate + Sync>(
    checker: &mut Checker<'_, '_, '_, '_, R, K, H, G>,
    module: &Text,
    set: &Text,
    form: Form,
) -> Result<Answer, AllocError>
    requires empty { checker.old.book.now.lines.items ≡ [] }
    ensures answer { IfOk result (AnswersMachine «module».now set.now form
        checker.old.prover.settings.budget checker.old.prover.settings.workers checker.new.book.now
        (stores_between K.tables H.asked checker.old checker.new)) }
    ensures left { AddsProofsOf (AreObsOfTexts «module».now set.now w.All) (kept_by K.tables checker.old.prover)
        (kept_by K.tables checker.new.prover) }
    ensures keeper { IfOk result (λ a. a.status ≡ 8 →
        Rose (K.faults checker.old.prover.keeper.now) (K.faults checker.new.prover.keeper.now)) }
    ensures same { HasSame checker.old checker.new }
{
    let alloc = checker.prover.alloc;
    match bound_of(alloc, module.bytes(), set.bytes()) {
        Ok(bound) => {
            let answer = machine_shown(checker, &bound, form);
            // a call, since a proof would write out the drop of all trees here
            drop(bound);
            answer
        }
        Err(fault) => turned_down(alloc, fault),
    }
}

// The refusal of rows.
fn refused_rows(alloc: Global, fault: &RowFault) -> Result<Answer, AllocError>
    ensures { IfOk result (λ a. a ≡ refusal 11 (codes "rows: " ++ fault_text fault.now)) }
{
    let text = fault_text(alloc, fault)?;
    refusal(alloc, 11, b"rows: ", text.bytes())
}

// The refusal of rows whose run isn't constrained at a cycle.
fn unmet_at(alloc: Global, cycle: u64) -> Result<Answer, AllocError>
    ensures { IfOk result (λ a. a ≡ refusal 11 (codes "rows: Unmet " ++ decimal cycle)) }
{
    let number = cycle.to_string(alloc)?;
    refusal(alloc, 11, b"rows: Unmet ", number.as_bytes())
}

// The path of a trace, where the set is signed off.
fn path_shown<R: Threads + Sync, K: Keeper, H: Helper, G: Gate + Sync>(
    checker: &mut Checker<'_, '_, '_, '_, R, K, H, G>,
    bound: &Bound,
    trace: &Trace,
) -> Result<Answer, AllocError>
    requires { IsTrace bound.now.set trace.now.rows }
    ensures answer { IfOk result (SaysBound (SaysPath bound.now.set trace.now.rows) bound.now w.All
        checker.old.prover.settings.budget checker.old.prover.settings.workers checker.new.book.now
        (stores_between K.tables H.asked checker.old checker.new)) }
    ensures left { AddsProofsOf (AreObsOf bound.now w.All) (kept_by K.tables checker.old.prover)
        (kept_by K.tables checker.new.prover) }
    ensures keeper { IfOk result (λ a. a.status ≡ 8 →
        Rose (K.faults checker.old.prover.keeper.now) (K.faults checker.new.prover.keeper.now)) }
    ensures same { HasSame checker.old checker.new }
{
    let alloc = checker.prover.alloc;
    match checker.check_bound(bound, &Which::All) {
        Ok(report) => {
            let path = path_of(alloc, bound.set(), trace)?;
            let text = path_text(alloc, bound.set(), &path)?;
            let bytes = signed_text(alloc, &text)?;
            where_signed(alloc, bytes, &report)
        }
        Err(fault) => turned_down(alloc, fault),
    }
}

// The path of the run that rows give to a set that is bound.
fn walk_shown<R: Threads + Sync, K: Keeper, H: Helper, G: Gate + Sync>(
    checker: &mut Checker<'_, '_, '_, '_, R, K, H, G>,
    bound: &Bound,
    text: &Text,
) -> Result<Answer, AllocError>
    requires empty { checker.old.book.now.lines.items ≡ [] }
    ensures answer { IfOk result (WalksBound bound.now text.now checker.old.prover.settings.budget checker.old.prover.settings.workers checker.new.book.now
        (stores_between K.tables H.asked checker.old checker.new)) }
    ensures left { AddsProofsOf (AreObsOf bound.now w.All) (kept_by K.tables checker.old.prover)
        (kept_by K.tables checker.new.prover) }
    ensures keeper { IfOk result (λ a. a.status ≡ 8 →
        Rose (K.faults checker.old.prover.keeper.now) (K.faults checker.new.prover.keeper.now)) }
    ensures same { HasSame checker.old checker.new }
{
    let alloc = checker.prover.alloc;
    let rows = match read_rows(alloc, text.bytes(), bound) {
        Ok(rows) => rows,
        Err(RowFault::Memory) => return Err(AllocError),
        Err(fault) => return refused_rows(alloc, &fault),
    };
    let trace = run_trace(alloc, bound, &rows)?;
    match unmet(alloc, bound.set(), &trace)? {
        Some(cycle) => unmet_at(alloc, cycle),
        None => path_shown(checker, bound, &trace),
    }
}

/// The path that the run takes whose inputs are given by rows, through the operations of the set of two texts, where it
/// is signed off.
pub fn walk_of<R: Threads + Sync, K: Keeper, H: Helper, G: Gate + Sync>(
    checker: &mut Checker<'_, '_, '_, '_, R, K, H, G>,
    module: &Text,
    set: &Text,
    rows: &Text,
) -> Result<Answer, AllocError>
    requires empty { checker.old.book.now.lines.items ≡ [] }
    ensures answer { IfOk result (AnswersWalk «module».now set.now rows.now
        checker.old.prover.settings.budget checker.old.prover.settings.workers checker.new.book.now
        (stores_between K.tables H.asked checker.old checker.new)) }
    ensures left { AddsProofsOf (AreObsOfTexts «module».now set.now w.All) (kept_by K.tables checker.old.prover)
        (kept_by K.tables checker.new.prover) }
    ensures keeper { IfOk result (λ a. a.status ≡ 8 →
        Rose (K.faults checker.old.prover.keeper.now) (K.faults checker.new.prover.keeper.now)) }
    ensures same { HasSame checker.old checker.new }
{
    let alloc = checker.prover.alloc;
    match bound_of(alloc, module.bytes(), set.bytes()) {
        Ok(bound) => {
            let answer = walk_shown(checker, &bound, rows);
            drop(bound);
            answer
        }
        Err(fault) => turned_down(alloc, fault),
    }
}
