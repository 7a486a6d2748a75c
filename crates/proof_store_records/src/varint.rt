ghost use Rattle.std.specs.Prelude.{◌≡◌, ◌<◌, ◌^◌, ◌++◌, ℕ, MatchOption, OnOk};
ghost use Rattle.proof_store_records.specs.Front.{Lacks, Starts};
ghost use Rattle.proof_store_records.specs.Varint.{low_first, varint, HasDigits};

use std::alloc::AllocError;

// The number whose digits the bytes begin with, the lowest first, with at most so many after the first; and the bytes
// that follow it. None where no number below 2^64 stands there.
fn take_digits(bytes: &[u8], more: u8) -> Option<(u64, &[u8])>
    ensures { MatchOption result (Lacks (HasDigits more) (low_first more) bytes.now)
        (λ r. Starts (HasDigits more) (low_first more) bytes.now r.0 r.1.now) }
{
    let (byte, rest) = bytes.split_first()?;
    let digit = u64::from(*byte);
    if digit < 128 {
        return Some((digit, rest));
    }
    if more == 0 {
        return None;
    }
    let (high, rest) = take_digits(rest, more - 1)?;
    if high == 0 || high >= 1 << 57 {
        return None;
    }
    Some((128 * high + (digit - 128), rest))
}

/// The number whose varint the bytes begin with, and the bytes that follow it.
pub fn take_varint(bytes: &[u8]) -> Option<(u64, &[u8])>
    ensures { MatchOption result (Lacks (λ n. n < 2 ^ 64) varint bytes.now)
        (λ r. Starts (λ n. n < 2 ^ 64) varint bytes.now r.0 r.1.now) }
{
    take_digits(bytes, 9)
}

/// Appends the varint of the number.
pub fn push_varint(out: &mut Vec<u8>, number: u64) -> Result<(), AllocError>
    ensures { OnOk result (out.new.items ≡ out.old.items ++ varint number) }
{
    let mut left = number;
    while left >= 128 {
        out.push((128 + left % 128) as u8)?;
        left /= 128;
    }
    out.push(left as u8)?;
    Ok(())
}
