// What a declaration declares over the parameters of its scope (IEEE 1364-2005, sections 3.2, 4.3.1 and 4.9).

ghost use Rattle.std.specs.Prelude.{◌≡◌, Some, IfOk, IfErr};
ghost use Rattle.std.specs.Option.{option_copied};
ghost use Rattle.vlog_tree.specs.declared.item.Range.{Range as Words};
ghost use Rattle.vlog_tree_runs.specs.Scopes.{signal_of};
ghost use Rattle.elab_flat_scopes.specs.Borrowed.{decl_meant};
ghost use Rattle.elab_flat_params.specs.Values.{width_with, low_with};
ghost use Rattle.elab_flat_params.specs.Signals.{HasWords, IsBadWords, IsDeclared, IsBadSignal};

use crate::range::Vector;
use crate::unfit::{BadSignal, BadWords};
use crate::value::{bits_of, is_signed, range_of};
use crate::words::words_of;
use elab_flat_scopes::Decl;
use outside::Text;
use std::alloc::{AllocError, Global};
use vlog_tree::{Range, Valuation};
use vlog_tree_runs::Signal;

// The number of words of a memory, and 0 of any other name.
fn depth_of(
    alloc: Global,
    range: Option<&Range>,
    params: &Valuation,
) -> Result<Result<u8, BadWords>, AllocError>
    ensures ok { IfOk result (λ r. IfOk r (HasWords params.now (option_copied range.entry))) }
    ensures err { IfOk result (λ r. IfErr r (λ cause. (x : Words) × (option_copied range.entry ≡ Some x) ×
        IsBadWords params.now x cause)) }
{
    match range {
        Some(range) => {
            let found = words_of(alloc, range, params)?;
            match found {
                Ok(words) => Ok(Ok(words)),
                Err(cause) => Ok(Err(cause)),
            }
        }
        None => Ok(Ok(0)),
    }
}

fn width_of(vector: Option<Vector>) -> u8
    ensures { result ≡ width_with vector 1 }
{
    match vector {
        Some(vector) => vector.width,
        None => 1,
    }
}

fn low_of(vector: Option<Vector>) -> u64
    ensures { result ≡ low_with vector }
{
    match vector {
        Some(vector) => vector.low,
        None => 0,
    }
}

/// The signal of a declaration, its ranges read over parameters. Each refusal has its cause, the bits first.
pub fn signal_of(alloc: Global, decl: &Decl<'_>, params: &Valuation) -> Result<Signal, BadSignal>
    ensures ok { IfOk result (λ g. g ≡ signal_of params.now (decl_meant decl.now)) }
    ensures declared { IfOk result (λ g. IsDeclared params.now (decl_meant decl.now)) }
    ensures err { IfErr result (IsBadSignal params.now (decl_meant decl.now)) }
{
    let bits = bits_of(alloc, range_of(decl.shape), params)?;
    let vector = match bits {
        Ok(vector) => vector,
        Err(cause) => return Err(BadSignal::Bits(cause)),
    };
    let words = depth_of(alloc, decl.words, params)?;
    let depth = match words {
        Ok(depth) => depth,
        Err(cause) => return Err(BadSignal::Words(cause)),
    };
    let name = Text::copy(alloc, decl.name.bytes())?;
    Ok(Signal {
        name,
        width: width_of(vector),
        low: low_of(vector),
        signed: is_signed(decl.shape),
        reg: decl.reg,
        depth,
    })
}
