// Blocks: their texts, and what was reported of them.
ghost use Rattle.std.specs.Prelude.{◌≡◌, ◌≢◌, Err, IfOk, IfSome, OnErr, OnOk, None, Some, option_map};
ghost use Rattle.proof_store.specs.Provers.{Rises};
ghost use Rattle.desk_core.specs.Blocks.{block_at, is_text, trace_at, unreported, with_module, with_set};
ghost use Rattle.desk_core.specs.Quiet.{IsRefusal, IsTraced, Reads, StepsQuietly};
ghost use Rattle.desk_core.specs.Steps.{GetsReport, GetsTrace, PutsModule, PutsSet};

use desk_core_commands::Answer;
use desk_core_faults::{CheckFault, fault_line};
use desk_core_stages::{try_modules, try_set};
use outside::{Block, Keeper, Text, TraceText, Traces};
use proof_store::StoreFault;
use std::alloc::{AllocError, Global};

// The answer where a text is refused.
fn refused(alloc: Global, fault: &CheckFault) -> Result<Answer, StoreFault>
    requires { fault.now ≢ CheckFault.NoLine }
    ensures line { IfOk result (IsRefusal fault.now) }
    ensures keeper { result ≡ Err StoreFault.Keeper → fault.now ≡ CheckFault.Keeper }
{
    match fault {
        CheckFault::Module(_) => Ok(Answer::Refused(fault_line(alloc, fault)?)),
        CheckFault::Set(_) => Ok(Answer::Refused(fault_line(alloc, fault)?)),
        CheckFault::Bind(_) => Ok(Answer::Refused(fault_line(alloc, fault)?)),
        CheckFault::NoLine => unreachable!(),
        CheckFault::Keeper => Err(StoreFault::Keeper),
        CheckFault::Memory => Err(StoreFault::Memory),
    }
}

/// The answer where a text is refused. Refused itself where the keeper failed or memory ran out. The fault is dropped
/// by a call, since a proof would write out the drop of a set's trees at each exit.
pub fn refused_by(alloc: Global, fault: CheckFault) -> Result<Answer, StoreFault>
    requires { fault ≢ CheckFault.NoLine }
    ensures line { IfOk result (IsRefusal fault) }
    ensures keeper { result ≡ Err StoreFault.Keeper → fault ≡ CheckFault.Keeper }
{
    let answer = refused(alloc, &fault);
    drop(fault);
    answer
}

// A block with these texts, of which nothing is reported.
fn unreported(alloc: Global, module: Option<Text>, set: Option<Text>) -> Block
    ensures { result ≡ unreported «module» set }
{
    Block {
        module,
        set,
        report: None,
        traces: Traces::new(Vec::new(alloc)),
    }
}

// The block of a name; where there is none, one without texts.
fn block_at<K: Keeper>(alloc: Global, keeper: &mut K, name: &[u8]) -> Result<Block, StoreFault>
    ensures block { IfOk result (λ block. IfSome (K.tables keeper.old) (λ t. block ≡ block_at name.now t)) }
    ensures same { K.tables keeper.new ≡ K.tables keeper.old }
    ensures faults { Rises (result ≡ Err StoreFault.Keeper) (K.faults keeper.old) (K.faults keeper.new) }
{
    match keeper.block(alloc, name)? {
        Some(block) => Ok(block),
        None => Ok(unreported(alloc, None, None)),
    }
}

fn is_text(text: &[u8], held: &Option<Text>) -> bool
    ensures { result ≡ is_text text.now held.now }
{
    match held {
        Some(held) => held.bytes() == text,
        None => false,
    }
}

// Puts a module's text to its block.
fn store_module<K: Keeper>(
    alloc: Global,
    keeper: &mut K,
    name: &[u8],
    text: &[u8],
) -> Result<(), StoreFault>
    ensures ok { OnOk result (K.tables keeper.new ≡ option_map (with_module name.now text.now) (K.tables keeper.old)) }
    ensures err { OnErr result (K.tables keeper.new ≡ K.tables keeper.old) }
    ensures faults { Rises (result ≡ Err StoreFault.Keeper) (K.faults keeper.old) (K.faults keeper.new) }
{
    let held = block_at(alloc, keeper, name)?;
    if is_text(text, &held.module) {
        return Ok(());
    }
    let own = Text::copy(alloc, text)?;
    let block = unreported(alloc, Some(own), held.set);
    keeper.put_block(alloc, name, &block)?;
    Ok(())
}

// Puts a set's text to its block.
fn store_set<K: Keeper>(
    alloc: Global,
    keeper: &mut K,
    name: &[u8],
    text: &[u8],
) -> Result<(), StoreFault>
    ensures ok { OnOk result (K.tables keeper.new ≡ option_map (with_set name.now text.now) (K.tables keeper.old)) }
    ensures err { OnErr result (K.tables keeper.new ≡ K.tables keeper.old) }
    ensures faults { Rises (result ≡ Err StoreFault.Keeper) (K.faults keeper.old) (K.faults keeper.new) }
{
    let held = block_at(alloc, keeper, name)?;
    if is_text(text, &held.set) {
        return Ok(());
    }
    let own = Text::copy(alloc, text)?;
    let block = unreported(alloc, held.module, Some(own));
    keeper.put_block(alloc, name, &block)?;
    Ok(())
}

/// Puts the Verilog text of a block, if it is read.
pub fn put_module<K: Keeper>(
    alloc: Global,
    keeper: &mut K,
    name: &[u8],
    text: &[u8],
) -> Result<Answer, StoreFault>
    ensures step { StepsQuietly (PutsModule name.now text.now) result (K.tables keeper.old) (K.tables keeper.new) }
    ensures err { OnErr result (K.tables keeper.new ≡ K.tables keeper.old) }
    ensures faults { Rises (result ≡ Err StoreFault.Keeper) (K.faults keeper.old) (K.faults keeper.new) }
{
    match try_modules(alloc, text) {
        Ok(()) => {
            store_module(alloc, keeper, name, text)?;
            Ok(Answer::Stored)
        }
        Err(fault) => refused_by(alloc, fault),
    }
}

/// Puts the text of a block's set, if it is read and its structure is sound.
pub fn put_set<K: Keeper>(
    alloc: Global,
    keeper: &mut K,
    name: &[u8],
    text: &[u8],
) -> Result<Answer, StoreFault>
    ensures step { StepsQuietly (PutsSet name.now text.now) result (K.tables keeper.old) (K.tables keeper.new) }
    ensures err { OnErr result (K.tables keeper.new ≡ K.tables keeper.old) }
    ensures faults { Rises (result ≡ Err StoreFault.Keeper) (K.faults keeper.old) (K.faults keeper.new) }
{
    match try_set(alloc, text) {
        Ok(()) => {
            store_set(alloc, keeper, name, text)?;
            Ok(Answer::Stored)
        }
        Err(fault) => refused_by(alloc, fault),
    }
}

/// The report of a block's last check.
pub fn report_of_block<K: Keeper>(
    alloc: Global,
    keeper: &mut K,
    name: &[u8],
) -> Result<Answer, StoreFault>
    ensures step { StepsQuietly (Reads (GetsReport name.now)) result (K.tables keeper.old) (K.tables keeper.new) }
    ensures same { K.tables keeper.new ≡ K.tables keeper.old }
    ensures faults { Rises (result ≡ Err StoreFault.Keeper) (K.faults keeper.old) (K.faults keeper.new) }
{
    match keeper.block(alloc, name)? {
        None => Ok(Answer::NoBlock),
        Some(block) => {
            let Block { report, .. } = block;
            match report {
                None => Ok(Answer::NoReport),
                Some(report) => Ok(Answer::Reported(report)),
            }
        }
    }
}

// The trace of the line of this number.
fn trace_at(traces: &[TraceText], line: u32) -> Option<&TraceText>
    ensures { option_map (λ t. t.now.text) result ≡ trace_at line traces.now }
{
    traces.iter().find(|trace| trace.line == line)
}

// What is answered to the line of this number of a report.
fn traced(alloc: Global, block: &Block, line: u32) -> Result<Answer, AllocError>
    ensures { IfOk result (IsTraced block.now line) }
{
    let Some(_) = &block.report else {
        return Ok(Answer::NoReport);
    };
    match trace_at(block.traces.as_slice(), line) {
        None => Ok(Answer::NoTrace),
        Some(trace) => Ok(Answer::Traced(Text::copy(alloc, trace.text.bytes())?)),
    }
}

/// The trace of a line of a block's report.
pub fn trace_of_block<K: Keeper>(
    alloc: Global,
    keeper: &mut K,
    name: &[u8],
    line: u32,
) -> Result<Answer, StoreFault>
    ensures step { StepsQuietly (Reads (GetsTrace name.now line)) result (K.tables keeper.old) (K.tables keeper.new) }
    ensures same { K.tables keeper.new ≡ K.tables keeper.old }
    ensures faults { Rises (result ≡ Err StoreFault.Keeper) (K.faults keeper.old) (K.faults keeper.new) }
{
    match keeper.block(alloc, name)? {
        None => Ok(Answer::NoBlock),
        Some(block) => Ok(traced(alloc, &block, line)?),
    }
}
