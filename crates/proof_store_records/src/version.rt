ghost use Rattle.std.specs.Prelude.{◌≡◌, ◌<◌, ◌≤◌, ◌^◌, ◌++◌, ◌↔◌, ℕ, MatchOption, OnOk, IsTrue};
ghost use Rattle.proof_store_records.specs.Front.{Lacks, Starts};
ghost use Rattle.proof_store_records.specs.Layout.{count_bytes, number_bytes, count_limit};

use crate::varint::{push_varint, take_varint};
use std::alloc::AllocError;

/// How a record is laid out.
#[derive(Clone, Copy, Debug)]
pub enum Version {
    /// Numbers of fixed width.
    First,
    /// Varints, and hints by their distances.
    Second,
}

// The number in the first four bytes, the highest byte first.
fn take_four(bytes: &[u8]) -> Option<(u64, &[u8])>
    ensures { MatchOption result (Lacks (λ n. n < 2 ^ 32) (count_bytes Version.First) bytes.now)
        (λ r. Starts (λ n. n < 2 ^ 32) (count_bytes Version.First) bytes.now r.0 r.1.now) }
{
    let (head, rest) = bytes.split_first_chunk::<4>()?;
    Some((u64::from(u32::from_be_bytes(*head)), rest))
}

// The number in the first eight bytes, the highest byte first.
fn take_eight(bytes: &[u8]) -> Option<(u64, &[u8])>
    ensures { MatchOption result (Lacks (λ n. n < 2 ^ 64) (number_bytes Version.First) bytes.now)
        (λ r. Starts (λ n. n < 2 ^ 64) (number_bytes Version.First) bytes.now r.0 r.1.now) }
{
    let (head, rest) = bytes.split_first_chunk::<8>()?;
    Some((u64::from_be_bytes(*head), rest))
}

impl Version {
    /// The number of steps, literals or hints in front, and the bytes that follow it.
    pub fn take_count(self, bytes: &[u8]) -> Option<(u64, &[u8])>
        ensures { MatchOption result (Lacks (λ n. n < count_limit self) (count_bytes self) bytes.now)
            (λ r. Starts (λ n. n < count_limit self) (count_bytes self) bytes.now r.0 r.1.now) }
    {
        match self {
            Version::First => take_four(bytes),
            Version::Second => take_varint(bytes),
        }
    }

    /// The number of a literal or a hint in front, and the bytes that follow it.
    pub fn take_number(self, bytes: &[u8]) -> Option<(u64, &[u8])>
        ensures { MatchOption result (Lacks (λ n. n < 2 ^ 64) (number_bytes self) bytes.now)
            (λ r. Starts (λ n. n < 2 ^ 64) (number_bytes self) bytes.now r.0 r.1.now) }
    {
        match self {
            Version::First => take_eight(bytes),
            Version::Second => take_varint(bytes),
        }
    }

    /// Appends a number of steps, literals or hints.
    pub fn push_count(self, out: &mut Vec<u8>, count: usize) -> Result<(), AllocError>
        requires { count < count_limit self }
        ensures { OnOk result (out.new.items ≡ out.old.items ++ count_bytes self count) }
    {
        match self {
            Version::First => out.extend_from_slice(&(count as u32).to_be_bytes()),
            Version::Second => push_varint(out, count as u64),
        }
    }

    /// Appends the number of a literal or a hint.
    pub fn push_number(self, out: &mut Vec<u8>, number: u64) -> Result<(), AllocError>
        ensures { OnOk result (out.new.items ≡ out.old.items ++ number_bytes self number) }
    {
        match self {
            Version::First => out.extend_from_slice(&number.to_be_bytes()),
            Version::Second => push_varint(out, number),
        }
    }
}

impl Version {
    /// Whether so many steps, literals or hints can be written.
    pub fn is_count(self, count: usize) -> bool
        ensures { IsTrue result ↔ (count < count_limit self) }
    {
        match self {
            Version::First => count < 1 << 32,
            Version::Second => true,
        }
    }
}
