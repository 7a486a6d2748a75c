ghost use Rattle.std.specs.Prelude.{◌≡◌, ◌<◌, ◌^◌, ◌++◌, ℕ, List, All, MatchOption, IfOk, OnOk};
ghost use Rattle.std.specs.List.{flat_map};
ghost use Rattle.proof_store_records.specs.Varint.{varint};
ghost use Rattle.proof_store_records.specs.Layout.{distance as distance_from, distances, hint_numbers};

use crate::varint::push_varint;
use crate::version::Version;
use std::alloc::{AllocError, Global};

// The hint after one, by what is written of it; none where it isn't below 2^32.
fn hint_after(before: u32, number: u64) -> Option<u32>
    ensures { MatchOption result ((h : ℕ) → h < 2 ^ 32 → distance_from before h ≡ number → ⊥)
        (λ h. (h < 2 ^ 32) × (distance_from before h ≡ number)) }
{
    let far = number / 2;
    let hint = if number % 2 == 0 {
        u64::from(before) + far
    } else if far == 0 {
        return None;
    } else {
        u64::from(before).checked_sub(far)?
    };
    u32::try_from(hint).ok()
}

// The numbers in 32 bits; none where one is 2^32 or more.
fn words_of(alloc: Global, numbers: &[u64]) -> Result<Option<Vec<u32>>, AllocError>
    ensures { IfOk result (λ read. MatchOption read ((ns : List ℕ) → All (λ n. n < 2 ^ 32) ns → ns ≡ numbers.now → ⊥)
        (λ words. All (λ n. n < 2 ^ 32) words.items × (words.items ≡ numbers.now))) }
{
    let mut words = Vec::new(alloc);
    for number in numbers {
        let Ok(word) = u32::try_from(*number) else {
            return Ok(None);
        };
        words.push(word)?;
    }
    Ok(Some(words))
}

// The hints whose distances these are; none where there are no such hints below 2^32.
fn told_hints(alloc: Global, numbers: &[u64]) -> Result<Option<Vec<u32>>, AllocError>
    ensures { IfOk result (λ read. MatchOption read ((hs : List ℕ) → All (λ h. h < 2 ^ 32) hs →
        distances hs ≡ numbers.now → ⊥)
        (λ hints. All (λ h. h < 2 ^ 32) hints.items × (distances hints.items ≡ numbers.now))) }
{
    let mut hints = Vec::new(alloc);
    let Some((first, later)) = numbers.split_first() else {
        return Ok(Some(hints));
    };
    let Ok(first) = u32::try_from(*first) else {
        return Ok(None);
    };
    let mut before = first;
    hints.push(before)?;
    for number in later {
        let Some(hint) = hint_after(before, *number) else {
            return Ok(None);
        };
        hints.push(hint)?;
        before = hint;
    }
    Ok(Some(hints))
}

/// The hints that are written so in the version; none where there are no such hints below 2^32.
pub fn hints_of(
    alloc: Global,
    version: Version,
    numbers: &[u64],
) -> Result<Option<Vec<u32>>, AllocError>
    ensures { IfOk result (λ read. MatchOption read ((hs : List ℕ) → All (λ h. h < 2 ^ 32) hs →
        hint_numbers version hs ≡ numbers.now → ⊥)
        (λ hints. All (λ h. h < 2 ^ 32) hints.items × (hint_numbers version hints.items ≡ numbers.now))) }
{
    match version {
        Version::First => words_of(alloc, numbers),
        Version::Second => told_hints(alloc, numbers),
    }
}

// What is written of a hint after one.
fn distance(before: u32, hint: u32) -> u64
    ensures { result ≡ distance_from before hint }
{
    if hint < before {
        2 * u64::from(before - hint) + 1
    } else {
        2 * u64::from(hint - before)
    }
}

/// Appends the varints of the first hint and of the distances of the others.
pub fn push_distances(out: &mut Vec<u8>, hints: &[u32]) -> Result<(), AllocError>
    ensures { OnOk result (out.new.items ≡ out.old.items ++ flat_map varint (distances hints.now)) }
{
    let Some((first, later)) = hints.split_first() else {
        return Ok(());
    };
    push_varint(out, u64::from(*first))?;
    let mut before = *first;
    for hint in later {
        push_varint(out, distance(before, *hint))?;
        before = *hint;
    }
    Ok(())
}
