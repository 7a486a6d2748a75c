// Reports put to their blocks.
ghost use Rattle.std.specs.Prelude.{◌≡◌, ◌++◌, [], Err, IfOk, OnErr, OnOk, option_map};
ghost use Rattle.proof_store.specs.Provers.{Proceeds, Rises, asked_by, counts, kept_by};
ghost use Rattle.outside.specs.Tables.{with_block};
ghost use Rattle.desk_core.specs.Blocks.{reported, trace_of, traces_from};
ghost use Rattle.desk_core.specs.Checkers.{IsSame};

use crate::checker::Checker;
use desk_core_commands::Answer;
use desk_core_reports::{Book, Line, Report};
use helper_box::Helper;
use outside::{Block, Gate, Keeper, Text, TraceText, Traces};
use proof_store::StoreFault;
use replay::trace_text;
use std::alloc::{AllocError, Global};
use std::thread::Threads;

// Adds the trace of a line, if it has one.
fn add_trace(
    alloc: Global,
    traces: &mut Vec<TraceText>,
    number: u32,
    line: &Line,
) -> Result<(), AllocError>
    ensures { OnOk result (traces.new.items ≡ traces.old.items ++ trace_of number line.now.name line.now.trace) }
{
    if let Some(shown) = &line.trace {
        let text = trace_text(alloc, line.name.bytes(), shown)?;
        traces.push(TraceText { line: number, text })?;
    }
    Ok(())
}

// The traces of lines, by their numbers from 1 on. A report has fewer than 2^32 lines.
fn traces_of(alloc: Global, lines: &[Line]) -> Result<Vec<TraceText>, AllocError>
    ensures { IfOk result (λ traces. traces.items ≡ traces_from 1 lines.now) }
{
    let mut traces = Vec::new(alloc);
    let mut number: u32 = 1;
    for line in lines {
        if number == u32::MAX {
            return Err(AllocError);
        }
        add_trace(alloc, &mut traces, number, line)?;
        number += 1;
    }
    Ok(traces)
}

// The block with a report and the traces of its lines.
fn reported(alloc: Global, block: Block, text: &[u8], lines: &[Line]) -> Result<Block, AllocError>
    ensures { IfOk result (λ b. b ≡ reported block text.now lines.now) }
{
    let traces = traces_of(alloc, lines)?;
    let report = Text::copy(alloc, text)?;
    Ok(Block {
        module: block.module,
        set: block.set,
        report: Some(report),
        traces: Traces::new(traces),
    })
}

// Puts a block with its report, and tells the report.
fn put_reported<K: Keeper>(
    alloc: Global,
    keeper: &mut K,
    name: &[u8],
    reported: &Block,
    report: &Report,
) -> Result<Answer, StoreFault>
    ensures answer { IfOk result (λ answer. answer ≡ Answer.Reported report.now.text) }
    ensures ok { OnOk result (K.tables keeper.new ≡ option_map (with_block name.now reported.now)
        (K.tables keeper.old)) }
    ensures err { OnErr result (K.tables keeper.new ≡ K.tables keeper.old) }
    ensures faults { Rises (result ≡ Err StoreFault.Keeper) (K.faults keeper.old) (K.faults keeper.new) }
{
    // The answer is made before anything is put.
    let text = Text::copy(alloc, report.text.bytes())?;
    keeper.put_block(alloc, name, reported)?;
    Ok(Answer::Reported(text))
}

impl<'a, 'k, 'h, 'b, R: Threads + Sync, K: Keeper, H: Helper, G: Gate + Sync> Checker<
    'a,
    'k,
    'h,
    'b,
    R,
    K,
    H,
    G,
> {
    // Puts the report of a check and the traces of the book's lines to the block.
    #[tactic(auto, using(crate::proofs::Checked::none_falls))]
    fn put_report(
        &mut self,
        name: &[u8],
        block: Block,
        report: &Report,
    ) -> Result<Answer, StoreFault>
        ensures answer { IfOk result (λ answer. answer ≡ Answer.Reported report.now.text) }
        ensures ok { OnOk result (kept_by K.tables self.new.prover
            ≡ option_map (with_block name.now (reported block report.now.text self.old.book.now.lines.items)) (kept_by K.tables self.old.prover)) }
        ensures err { OnErr result (kept_by K.tables self.new.prover ≡ kept_by K.tables self.old.prover) }
        ensures book { self.new.book.now ≡ self.old.book.now }
        ensures asked { asked_by H.asked self.new.prover ≡ asked_by H.asked self.old.prover }
        ensures proceeds { Proceeds (result ≡ Err StoreFault.Keeper) (counts K.faults H.asked self.old.prover)
            (counts K.faults H.asked self.new.prover) }
        ensures same { IsSame self.old self.new }
    {
        let alloc = self.prover.alloc;
        let reported = reported(alloc, block, report.text.bytes(), &self.book.lines)?;
        let answer = put_reported(alloc, self.prover.keeper, name, &reported, report);
        drop(reported);
        answer
    }

    /// Puts the report of a check and the traces of the book's lines to the block; where that fails, the book is
    /// emptied.
    pub(crate) fn put_checked(
        &mut self,
        name: &[u8],
        block: Block,
        report: &Report,
    ) -> Result<Answer, StoreFault>
        ensures answer { IfOk result (λ answer. answer ≡ Answer.Reported report.now.text) }
        ensures ok { OnOk result (kept_by K.tables self.new.prover
            ≡ option_map (with_block name.now (reported block report.now.text self.old.book.now.lines.items)) (kept_by K.tables self.old.prover)) }
        ensures book { OnOk result (self.new.book.now ≡ self.old.book.now) }
        ensures empty { OnErr result (self.new.book.now.lines.items ≡ []) }
        ensures asked { asked_by H.asked self.new.prover ≡ asked_by H.asked self.old.prover }
        ensures err { OnErr result (kept_by K.tables self.new.prover ≡ kept_by K.tables self.old.prover) }
        ensures proceeds { Proceeds (result ≡ Err StoreFault.Keeper) (counts K.faults H.asked self.old.prover)
            (counts K.faults H.asked self.new.prover) }
        ensures same { IsSame self.old self.new }
    {
        match self.put_report(name, block, report) {
            Ok(answer) => Ok(answer),
            Err(fault) => {
                *self.book = Book::new(self.prover.alloc);
                Err(fault)
            }
        }
    }
}
