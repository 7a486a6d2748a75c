// Sign-offs.
ghost use Rattle.std.specs.Prelude.{◌≡◌, Err, IfOk, OnErr};
ghost use Rattle.proof_store.specs.Provers.{Rises};
ghost use Rattle.proof_store.specs.Stored.{Told};
ghost use Rattle.desk_core.specs.Blocks.{is_signed_off};
ghost use Rattle.desk_core.specs.Quiet.{IsNumbered, OfBlock, StepsQuietly};
ghost use Rattle.desk_core.specs.Steps.{SignsBlock};

use desk_core_commands::Answer;
use outside::{Block, Keeper};
use proof_store::StoreFault;
use std::alloc::Global;

// Whether the last line of a report, which has lines before it, is `signed off`.
fn is_signed_off(report: &[u8]) -> bool
    ensures { result ≡ is_signed_off report.now }
{
    report.ends_with(b"\nsigned off\n")
}

// What is signed: a block's two texts, and their report.
#[derive(Clone, Copy)]
struct Signed<'a> {
    module: &'a [u8],
    set: &'a [u8],
    report: &'a [u8],
}

// The number of the sign-off of a block with these texts, which is made where there is none.
fn number_of<K: Keeper>(
    alloc: Global,
    keeper: &mut K,
    name: &[u8],
    signed: &Signed<'_>,
) -> Result<u64, StoreFault>
    ensures ok { IfOk result (λ number. Told
        (IsNumbered name.now signed.now.module.now signed.now.set.now signed.now.report.now number)
        (K.tables keeper.old) (K.tables keeper.new)) }
    ensures err { OnErr result (K.tables keeper.new ≡ K.tables keeper.old) }
    ensures faults { Rises (result ≡ Err StoreFault.Keeper) (K.faults keeper.old) (K.faults keeper.new) }
{
    let Signed {
        module,
        set,
        report,
    } = *signed;
    match keeper.find_sign(alloc, name, module, set)? {
        Some(number) => Ok(number),
        None => Ok(keeper.put_sign(alloc, name, module, set, report)?),
    }
}

// Signs off a block, if its report does.
fn sign_block<K: Keeper>(
    alloc: Global,
    keeper: &mut K,
    name: &[u8],
    block: &Block,
) -> Result<Answer, StoreFault>
    ensures step { StepsQuietly (OfBlock name.now block.now (SignsBlock name.now)) result (K.tables keeper.old)
        (K.tables keeper.new) }
    ensures err { OnErr result (K.tables keeper.new ≡ K.tables keeper.old) }
    ensures faults { Rises (result ≡ Err StoreFault.Keeper) (K.faults keeper.old) (K.faults keeper.new) }
{
    let Some(module) = &block.module else {
        return Ok(Answer::NotSigned);
    };
    let Some(set) = &block.set else {
        return Ok(Answer::NotSigned);
    };
    let Some(report) = &block.report else {
        return Ok(Answer::NotSigned);
    };
    if !is_signed_off(report.bytes()) {
        return Ok(Answer::NotSigned);
    }
    let signed = Signed {
        module: module.bytes(),
        set: set.bytes(),
        report: report.bytes(),
    };
    let number = number_of(alloc, keeper, name, &signed)?;
    Ok(Answer::Signed(number))
}

/// Signs off a block with its two texts, where its report's last line is `signed off`.
pub fn sign_off<K: Keeper>(alloc: Global, keeper: &mut K, name: &[u8]) -> Result<Answer, StoreFault>
    ensures step { StepsQuietly (SignsBlock name.now) result (K.tables keeper.old) (K.tables keeper.new) }
    ensures err { OnErr result (K.tables keeper.new ≡ K.tables keeper.old) }
    ensures faults { Rises (result ≡ Err StoreFault.Keeper) (K.faults keeper.old) (K.faults keeper.new) }
{
    match keeper.block(alloc, name)? {
        None => Ok(Answer::NoBlock),
        Some(block) => sign_block(alloc, keeper, name, &block),
    }
}
