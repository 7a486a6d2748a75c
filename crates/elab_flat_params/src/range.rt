// Ranges of bits (IEEE 1364-2005, section 4.3.1).

ghost use Rattle.std.specs.Prelude.{◌^◌, pos, negsuc, ◌≤ℤ◌, ◌<ℤ◌, IfOk, IfErr};
ghost use Rattle.elab_flat_params.specs.Constants.{IsVector, IsBadRange, Spans, Misspans};

use crate::bound::bound;
use crate::unfit::BadRange;
use std::alloc::{AllocError, Global};
use vlog_tree::{Range, Valuation};

/// The bits that a range declares.
#[derive(Clone, Copy, PartialEq, Eq)]
pub struct Vector {
    /// How many bits it has, from 1 to 64.
    pub width: u8,
    /// The number of its lowest bit.
    pub low: u64,
}

// The bits from a lowest to a highest number.
fn spanned(high: i128, low: i128) -> Result<Vector, BadRange>
    requires bottom { negsuc (2 ^ 64) ≤ℤ low }
    requires least { negsuc (2 ^ 64) ≤ℤ high }
    requires top { high <ℤ pos (2 ^ 64) }
    ensures ok { IfOk result (Spans high low) }
    ensures err { IfErr result (Misspans high low) }
{
    if low < 0 || high < low {
        return Err(BadRange::Order);
    }
    let width = high - low + 1;
    if width > 64 {
        return Err(BadRange::Long);
    }
    Ok(Vector {
        width: width as u8,
        low: low as u64,
    })
}

/// The bits that a range over parameters declares. Each refusal has its cause, the higher bound first.
pub fn vector_of(
    alloc: Global,
    range: &Range,
    params: &Valuation,
) -> Result<Result<Vector, BadRange>, AllocError>
    ensures ok { IfOk result (λ r. IfOk r (IsVector params.now range.now)) }
    ensures err { IfOk result (λ r. IfErr r (IsBadRange params.now range.now)) }
{
    let high = match bound(alloc, &range.high, params)? {
        Ok(high) => high,
        Err(unfit) => return Ok(Err(BadRange::High(unfit))),
    };
    let low = match bound(alloc, &range.low, params)? {
        Ok(low) => low,
        Err(unfit) => return Ok(Err(BadRange::Low(unfit))),
    };
    Ok(spanned(high, low))
}
