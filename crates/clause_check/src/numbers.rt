ghost use Rattle.std.specs.Prelude.{◌≡◌, ◌≤◌, ◌^◌, IfOk, OnErr};

use std::alloc::AllocError;

/// The number in 32 bits. One that doesn't fit counts as no memory: so many variables or clauses take more than
/// 100 GB.
pub fn in_32_bits(number: usize) -> Result<u32, AllocError>
    ensures ok { IfOk result (λ n. n ≡ number) }
    ensures err { OnErr result (2 ^ 32 ≤ number) }
{
    u32::try_from(number).map_err(|_| AllocError)
}
