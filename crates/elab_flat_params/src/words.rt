// Ranges of words (IEEE 1364-2005, section 4.9).

ghost use Rattle.std.specs.Prelude.{◌^◌, pos, negsuc, ◌≤ℤ◌, ◌<ℤ◌, IfOk, IfErr};
ghost use Rattle.elab_flat_params.specs.Signals.{Counts, Miscounts, IsWords, IsBadWords};

use crate::bound::bound;
use crate::unfit::BadWords;
use std::alloc::{AllocError, Global};
use vlog_tree::{Range, Valuation};

// How many words there are from a first to a last one.
fn counted(first: i128, last: i128) -> Result<u8, BadWords>
    requires bottom { negsuc (2 ^ 64) ≤ℤ last }
    requires top { last <ℤ pos (2 ^ 64) }
    ensures ok { IfOk result (Counts first last) }
    ensures err { IfErr result (Miscounts first last) }
{
    if first != 0 || last < 0 {
        return Err(BadWords::Order);
    }
    if last >= 64 {
        return Err(BadWords::Many);
    }
    Ok(last as u8 + 1)
}

/// How many words a range `[0:n]` over parameters declares, from 1 to 64. Each refusal has its cause, the first bound
/// first.
pub fn words_of(
    alloc: Global,
    range: &Range,
    params: &Valuation,
) -> Result<Result<u8, BadWords>, AllocError>
    ensures ok { IfOk result (λ r. IfOk r (IsWords params.now range.now)) }
    ensures err { IfOk result (λ r. IfErr r (IsBadWords params.now range.now)) }
{
    let first = match bound(alloc, &range.high, params)? {
        Ok(first) => first,
        Err(unfit) => return Ok(Err(BadWords::First(unfit))),
    };
    let last = match bound(alloc, &range.low, params)? {
        Ok(last) => last,
        Err(unfit) => return Ok(Err(BadWords::Last(unfit))),
    };
    Ok(counted(first, last))
}
