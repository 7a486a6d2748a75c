// Tables of bits, a word for each signal.

ghost use Rattle.std.specs.Prelude.{◌≡◌, ◌<◌, ℕ, length, replicate, IfOk, IfSome, IfNone};
ghost use Rattle.std.specs.Int.{bit_at};
ghost use Rattle.elab_flat_drivers.specs.Claims.{IsClaimed};
ghost use Rattle.elab_flat_drivers.specs.Masks.{IsSet, marked, AreWithin};

use crate::claims::Claim;
use std::alloc::{AllocError, Global};

/// A bit of the signal at a place, counted from its lowest one.
#[derive(Clone, Copy)]
pub struct Bit {
    pub place: usize,
    pub number: u32,
}

/// A table of so many words without bits.
pub fn no_bits(alloc: Global, count: usize) -> Result<Vec<u64>, AllocError>
    ensures { IfOk result (λ r. r.items ≡ replicate count 0) }
{
    vec![in alloc; 0; count]
}

/// Sets the bits that are claimed.
pub fn mark(table: &mut [u64], claims: &[Claim])
    requires { AreWithin (length table.old) claims.now }
    ensures { table.new ≡ marked table.old claims.now }
{
    for claim in claims {
        table[claim.place] |= claim.bits;
    }
}

/// The lowest bit that is 1.
pub fn lowest(bits: u64) -> u32
    requires { 0 < bits }
    ensures set { bit_at bits result ≡ 1 }
    ensures within { result < 64 }
{
    bits.trailing_zeros()
}

/// The first bit that is claimed and set.
pub fn clash(table: &[u64], claims: &[Claim]) -> Option<Bit>
    requires { AreWithin (length table.now) claims.now }
    ensures some { IfSome result (λ r. IsClaimed claims.now r.place r.number) }
    ensures set { IfSome result (λ r. IsSet table.now r.place r.number) }
    ensures none { IfNone result ((i b : ℕ) → IsClaimed claims.now i b → IsSet table.now i b → ⊥) }
{
    for claim in claims {
        let common = table[claim.place] & claim.bits;
        if common != 0 {
            return Some(Bit {
                place: claim.place,
                number: lowest(common),
            });
        }
    }
    None
}
