// The counterexample of a line as a waveform.
ghost use Rattle.std.specs.Prelude.{◌≡◌, [], IfOk};
ghost use Rattle.outside.specs.Faults.{Rose};
ghost use Rattle.desk_core_goals.specs.Settled.{AddsProofsOf, AreObsOf};
ghost use Rattle.desk_core.specs.Checks.{AreObsOfTexts};
ghost use Rattle.proof_store.specs.Provers.{kept_by};
ghost use Rattle.desk_core_commands.specs.declared.which.Which.TheVariants as w;
ghost use Rattle.signoff_call.specs.Bound.{SaysBound, SaysWave};
ghost use Rattle.signoff_call.specs.Run.{HasSame};
ghost use Rattle.signoff_call.specs.Tasks.{AnswersWave, stores_between};
ghost use Rattle.signoff_call.specs.Waves.{first_waved};

use crate::answer::{Answer, reported, turned_down};
use desk_core::Checker;
use desk_core_commands::Which;
use desk_core_reports::Line;
use desk_core_stages::bound_of;
use helper_box::Helper;
use outside::{Gate, Keeper, Text};
use replay_waves::{wave_of, wave_text};
use std::alloc::{AllocError, Global};
use std::thread::Threads;
use unroll_binding::Bound;

// The waveform of the first line's counterexample, if it has one, for a report.
fn first_waved(
    alloc: Global,
    bound: &Bound,
    lines: &[Line],
    text: &Text,
) -> Result<Text, AllocError>
    ensures { IfOk result (λ bytes. bytes ≡ first_waved bound.now lines.now text.now) }
{
    match lines {
        [line, ..] => match &line.trace {
            Some(shown) => {
                let wave = wave_of(alloc, bound, shown)?;
                wave_text(alloc, &wave)
            }
            None => Text::copy(alloc, text.bytes()),
        },
        [] => Text::copy(alloc, text.bytes()),
    }
}

// The line of a name of a set that is bound, and its counterexample as a waveform.
fn wave_shown<R: Threads + Sync, K: Keeper, H: Helper, G: Gate + Sync>(
    checker: &mut Checker<'_, '_, '_, '_, R, K, H, G>,
    bound: &Bound,
    name: &Text,
) -> Result<Answer, AllocError>
    ensures answer { IfOk result (SaysBound (SaysWave bound.now checker.new.book.now.lines.items) bound.now
        (w.One name.now)
        checker.old.prover.settings.budget checker.old.prover.settings.workers
        checker.new.book.now (stores_between K.tables H.asked checker.old checker.new)) }
    ensures left { AddsProofsOf (AreObsOf bound.now (w.One name.now)) (kept_by K.tables checker.old.prover)
        (kept_by K.tables checker.new.prover) }
    ensures keeper { IfOk result (λ a. a.status ≡ 8 →
        Rose (K.faults checker.old.prover.keeper.now) (K.faults checker.new.prover.keeper.now)) }
    ensures same { HasSame checker.old checker.new }
{
    let alloc = checker.prover.alloc;
    let which = Which::One(Text::copy(alloc, name.bytes())?);
    match checker.check_bound(bound, &which) {
        Ok(report) => {
            let bytes = first_waved(alloc, bound, &checker.book.lines, &report.text)?;
            Ok(reported(&report.verdicts, bytes))
        }
        Err(fault) => turned_down(alloc, fault),
    }
}

/// The line of a name of two texts, decided: its counterexample as a waveform where it is refuted, and else the report.
pub fn wave_of_texts<R: Threads + Sync, K: Keeper, H: Helper, G: Gate + Sync>(
    checker: &mut Checker<'_, '_, '_, '_, R, K, H, G>,
    module: &Text,
    set: &Text,
    name: &Text,
) -> Result<Answer, AllocError>
    requires empty { checker.old.book.now.lines.items ≡ [] }
    ensures answer { IfOk result (AnswersWave «module».now set.now name.now
        checker.old.prover.settings.budget checker.old.prover.settings.workers checker.new.book.now
        (stores_between K.tables H.asked checker.old checker.new)) }
    ensures left { AddsProofsOf (AreObsOfTexts «module».now set.now (w.One name.now))
        (kept_by K.tables checker.old.prover) (kept_by K.tables checker.new.prover) }
    ensures keeper { IfOk result (λ a. a.status ≡ 8 →
        Rose (K.faults checker.old.prover.keeper.now) (K.faults checker.new.prover.keeper.now)) }
    ensures same { HasSame checker.old checker.new }
{
    let alloc = checker.prover.alloc;
    match bound_of(alloc, module.bytes(), set.bytes()) {
        Ok(bound) => {
            let answer = wave_shown(checker, &bound, name);
            // a call, since a proof would write out the drop of all trees here
            drop(bound);
            answer
        }
        Err(fault) => turned_down(alloc, fault),
    }
}
