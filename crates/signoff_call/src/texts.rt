// What is answered to two texts.
ghost use Rattle.std.specs.Prelude.{◌≡◌, ◌≤◌, ◌++◌, [], IfOk, OnOk, option_map};
ghost use Rattle.std.specs.Fmt.{decimal};
ghost use Rattle.signoff_words.specs.Commands.{HasBounds};
ghost use Rattle.outside.specs.Faults.{Rose};
ghost use Rattle.signoff_call.specs.Answers.{counted, first_traced, least_line, report_bytes, summary, summary_line};
ghost use Rattle.signoff_call.specs.Run.{HasSame};
ghost use Rattle.signoff_call.specs.Tasks.{AnswersMeet, AnswersTask, AnswersTexts, LeavesTask, stores_between};
ghost use Rattle.desk_core_reports.specs.Reports.{last_line};
ghost use Rattle.desk_core_goals.specs.Settled.{AddsProofsOf};
ghost use Rattle.proof_store.specs.Provers.{kept_by};
ghost use Rattle.desk_core.specs.Checks.{AreObsOfTexts};
ghost use Rattle.meet_lines.specs.Meetings.{AreObsOfTexts as AreMeetObsOfTexts};
ghost use Rattle.demo_gen.specs.Texts.{module_text, set_text};
ghost use Rattle.desk_core_commands.specs.declared.which.Which.TheVariants as w;

use crate::accepting::accepted_in;
use crate::answer::{Answer, met, reported, turned_down};
use crate::files::Texts;
use crate::listing::{clauses_listed, lines_listed};
use crate::paths::{machine_of, walk_of};
use crate::waves::wave_of_texts;
use demo_gen::{module_text, set_text};
use desk_core::Checker;
use desk_core_commands::Which;
use desk_core_reports::{Book, Line, Report, Verdict};
use helper_box::Helper;
use least_trace::LeastEnd;
use meet_lines::meet;
use outside::{Gate, Keeper, Text};
use proof_store::Settings;
use replay::trace_text;
use signoff_words::{Job, Task};
use std::alloc::{AllocError, Global};
use std::thread::Threads;

// The counterexample of the first line, if it has one, for a report.
fn first_traced(alloc: Global, lines: &[Line], text: &Text) -> Result<Text, AllocError>
    ensures { IfOk result (λ bytes. bytes ≡ first_traced lines.now text.now) }
{
    match lines {
        [line, ..] => match &line.trace {
            Some(shown) => trace_text(alloc, line.name.bytes(), shown),
            None => Text::copy(alloc, text.bytes()),
        },
        [] => Text::copy(alloc, text.bytes()),
    }
}

// Whether what is shown is the least counterexample.
fn least_line(least: &Option<LeastEnd>) -> &'static [u8]
    ensures { result.now ≡ least_line least.now }
{
    match least {
        None => b"",
        Some(LeastEnd::Found { .. }) => b"least\n",
        Some(LeastEnd::Stopped { .. }) => b"not least\n",
    }
}

// The counterexample of the first line, and whether it is the least one.
fn least_traced(alloc: Global, book: &Book, text: &Text) -> Result<Text, AllocError>
    ensures { IfOk result (λ bytes. bytes ≡ first_traced book.now.lines.items text.now ++ least_line book.now.least) }
{
    let traced = first_traced(alloc, &book.lines, text)?;
    let mut bytes = traced.bytes().to_vec(alloc)?;
    bytes.extend_from_slice(least_line(&book.least))?;
    Ok(Text::new(bytes))
}

// What is put of a report.
fn report_bytes(
    alloc: Global,
    which: &Which,
    book: &Book,
    report: &Report,
) -> Result<Text, AllocError>
    ensures { IfOk result (λ bytes. bytes ≡ report_bytes which.now book.now report.now) }
{
    match which {
        Which::Ops | Which::All => Text::copy(alloc, report.text.bytes()),
        Which::One(_) => first_traced(alloc, &book.lines, &report.text),
        Which::Least(_) => least_traced(alloc, book, &report.text),
    }
}

// The answer to two texts whose lines are asked for.
fn decided<R: Threads + Sync, K: Keeper, H: Helper, G: Gate + Sync>(
    checker: &mut Checker<'_, '_, '_, '_, R, K, H, G>,
    which: &Which,
    module: &Text,
    set: &Text,
) -> Result<Answer, AllocError>
    requires empty { checker.old.book.now.lines.items ≡ [] }
    ensures answer { IfOk result (AnswersTexts «module».now set.now which.now checker.old.prover.settings.budget checker.old.prover.settings.workers
        (report_bytes which.now checker.new.book.now) checker.new.book.now
        (stores_between K.tables H.asked checker.old checker.new)) }
    ensures left { AddsProofsOf (AreObsOfTexts «module».now set.now which.now) (kept_by K.tables checker.old.prover)
        (kept_by K.tables checker.new.prover) }
    ensures keeper { IfOk result (λ a. a.status ≡ 8 →
        Rose (K.faults checker.old.prover.keeper.now) (K.faults checker.new.prover.keeper.now)) }
    ensures same { HasSame checker.old checker.new }
{
    let alloc = checker.prover.alloc;
    match checker.check(module.bytes(), set.bytes(), which) {
        Ok(report) => {
            let bytes = report_bytes(alloc, which, checker.book, &report)?;
            Ok(reported(&report.verdicts, bytes))
        }
        Err(fault) => turned_down(alloc, fault),
    }
}

// The answer to two texts of which it is asked what can be met.
fn met_in<R: Threads + Sync, K: Keeper, H: Helper, G: Gate + Sync>(
    checker: &mut Checker<'_, '_, '_, '_, R, K, H, G>,
    name: Option<&Text>,
    module: &Text,
    set: &Text,
) -> Result<Answer, AllocError>
    ensures answer { IfOk result (AnswersMeet «module».now set.now (option_map (λ n. n.now) name.entry)
        checker.old.prover.settings.budget checker.old.prover.settings.workers
        checker.new.book.now (stores_between K.tables H.asked checker.old checker.new)) }
    ensures left { AddsProofsOf (AreMeetObsOfTexts «module».now set.now (option_map (λ n. n.now) name.entry))
        (kept_by K.tables checker.old.prover) (kept_by K.tables checker.new.prover) }
    ensures keeper { IfOk result (λ a. a.status ≡ 8 →
        Rose (K.faults checker.old.prover.keeper.now) (K.faults checker.new.prover.keeper.now)) }
    ensures same { HasSame checker.old checker.new }
{
    let alloc = checker.prover.alloc;
    match meet(checker, module.bytes(), set.bytes(), name) {
        Ok(report) => Ok(met(report)),
        Err(fault) => turned_down(alloc, fault),
    }
}

/// The answer to two texts, and to a third file's where the command has one.
pub fn judged<R: Threads + Sync, K: Keeper, H: Helper, G: Gate + Sync>(
    checker: &mut Checker<'_, '_, '_, '_, R, K, H, G>,
    job: &Job,
    texts: &Texts,
) -> Result<Answer, AllocError>
    requires bounds { HasBounds job.now }
    requires empty { checker.old.book.now.lines.items ≡ [] }
    ensures answer { IfOk result (AnswersTask job.now.task texts.now.«module» texts.now.set texts.now.third job.now.budget job.now.workers checker.new.book.now
        (stores_between K.tables H.asked checker.old checker.new)) }
    ensures left { LeavesTask job.now.task texts.now.«module» texts.now.set (kept_by K.tables checker.old.prover)
        (kept_by K.tables checker.new.prover) }
    ensures keeper { IfOk result (λ a. a.status ≡ 8 →
        Rose (K.faults checker.old.prover.keeper.now) (K.faults checker.new.prover.keeper.now)) }
    ensures same { HasSame checker.old checker.new }
{
    checker.prover.settings = Settings {
        budget: job.budget,
        workers: job.workers,
    };
    let module = &texts.module;
    let set = &texts.set;
    match &job.task {
        Task::Decide(which) => decided(checker, which, module, set),
        Task::Meet(name) => met_in(checker, name.as_ref(), module, set),
        Task::Wave(name) => wave_of_texts(checker, module, set, name),
        Task::Machine(form) => machine_of(checker, module, set, *form),
        Task::Walk(_) => walk_of(checker, module, set, &texts.third),
        Task::Lines => lines_listed(checker.prover.alloc, module, set),
        Task::Clauses(name) => clauses_listed(checker.prover.alloc, module, set, name),
        Task::Accept(given) => accepted_in(checker, module, set, given, &texts.third),
    }
}

/// How many lines are proved, refuted and spent.
#[derive(Clone, Copy)]
pub struct Counts {
    pub proved: usize,
    pub refuted: usize,
    pub spent: usize,
}

// How many lines are proved, refuted and spent.
fn count_verdicts(verdicts: &[Verdict]) -> Counts
    ensures { result ≡ counted verdicts.now }
{
    let mut proved = 0;
    let mut refuted = 0;
    let mut spent = 0;
    for verdict in verdicts {
        match verdict {
            Verdict::Proved => proved += 1,
            Verdict::Refuted => refuted += 1,
            Verdict::Spent => spent += 1,
        }
    }
    Counts {
        proved,
        refuted,
        spent,
    }
}

// Adds a number and a word.
fn add_count(alloc: Global, text: &mut Vec<u8>, count: usize, word: &[u8]) -> Result<(), AllocError>
    ensures { OnOk result (text.new.items ≡ text.old.items ++ (decimal count ++ word.now)) }
{
    text.extend_from_slice(count.to_string(alloc)?.as_bytes())?;
    text.extend_from_slice(word)?;
    Ok(())
}

// The summary of a generated check, up to what it comes to.
fn summary_line(alloc: Global, stages: u32, verdicts: &[Verdict]) -> Result<Vec<u8>, AllocError>
    ensures { IfOk result (λ text. text.items ≡ summary_line stages verdicts.now) }
{
    let counts = count_verdicts(verdicts);
    let mut text = b"demo ".to_vec(alloc)?;
    add_count(alloc, &mut text, stages as usize, b": ")?;
    add_count(alloc, &mut text, verdicts.len(), b" lines, ")?;
    add_count(alloc, &mut text, counts.proved, b" proved, ")?;
    add_count(alloc, &mut text, counts.refuted, b" refuted, ")?;
    add_count(alloc, &mut text, counts.spent, b" spent\n")?;
    Ok(text)
}

fn last_line(complete: bool) -> &'static [u8]
    ensures { result.now ≡ last_line w.All complete }
{
    if complete {
        b"signed off\n"
    } else {
        b"not signed off\n"
    }
}

// The summary of a generated check.
fn summary(alloc: Global, stages: u32, report: &Report) -> Result<Text, AllocError>
    ensures { IfOk result (λ text. text ≡ summary stages report.now) }
{
    let mut text = summary_line(alloc, stages, &report.verdicts)?;
    text.extend_from_slice(last_line(report.complete))?;
    Ok(Text::new(text))
}

/// The answer to the generated texts of so many stages.
pub fn demonstrated<R: Threads + Sync, K: Keeper, H: Helper, G: Gate + Sync>(
    checker: &mut Checker<'_, '_, '_, '_, R, K, H, G>,
    stages: u32,
) -> Result<Answer, AllocError>
    requires stages { (1 ≤ stages) × (stages ≤ 64) }
    requires empty { checker.old.book.now.lines.items ≡ [] }
    ensures answer { IfOk result (AnswersTexts (module_text stages) (set_text stages) w.All 20000 4
        (summary stages) checker.new.book.now
        (stores_between K.tables H.asked checker.old checker.new)) }
    ensures left { AddsProofsOf (AreObsOfTexts (module_text stages) (set_text stages) w.All)
        (kept_by K.tables checker.old.prover) (kept_by K.tables checker.new.prover) }
    ensures keeper { IfOk result (λ a. a.status ≡ 8 →
        Rose (K.faults checker.old.prover.keeper.now) (K.faults checker.new.prover.keeper.now)) }
    ensures same { HasSame checker.old checker.new }
{
    let alloc = checker.prover.alloc;
    let module = module_text(alloc, stages)?;
    let set = set_text(alloc, stages)?;
    checker.prover.settings = Settings {
        budget: 20_000,
        workers: 4,
    };
    match checker.check(module.bytes(), set.bytes(), &Which::All) {
        Ok(report) => {
            let text = summary(alloc, stages, &report)?;
            Ok(reported(&report.verdicts, text))
        }
        Err(fault) => turned_down(alloc, fault),
    }
}
