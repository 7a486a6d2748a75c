// The numbers of the clauses that hints name.
ghost use Rattle.std.specs.Prelude.{◌≡◌, ◌<◌, ◌+◌, ◌^◌, AllPairs, IfOk, length, map};
ghost use Rattle.std.specs.List.{position_or_len};
ghost use Rattle.clause_check_texts.specs.Steps.{clause_number, place_of};

use crate::words::Number;
use clause_check::in_32_bits;
use std::alloc::{AllocError, Global};

// The place of an ID among those of the steps, or else how many there are.
fn place_of(ids: &[u64], id: u64) -> usize
    requires { AllPairs (λ a b. a < b) ids.now }
    ensures { result ≡ place_of ids.now id }
{
    match ids.binary_search(&id) {
        Ok(place) => place,
        Err(_) => ids.len(),
    }
}

// The number of the clause that a hint names, or else how many there are.
fn clause_number(inputs: usize, ids: &[u64], hint: Number) -> usize
    requires rising { AllPairs (λ a b. a < b) ids.now }
    requires room { inputs + length ids.now < 2 ^ 64 }
    ensures { result ≡ clause_number inputs ids.now hint }
{
    if hint.negative {
        inputs + ids.len()
    } else if hint.size as usize <= inputs {
        (hint.size as usize).saturating_sub(1)
    } else {
        inputs + place_of(ids, hint.size)
    }
}

/// The numbers of the clauses that hints name.
pub fn clause_numbers(
    alloc: Global,
    inputs: usize,
    ids: &[u64],
    hints: &[Number],
) -> Result<Vec<u32>, AllocError>
    requires rising { AllPairs (λ a b. a < b) ids.now }
    requires room { inputs + length ids.now < 2 ^ 64 }
    ensures { IfOk result (λ numbers. numbers.items ≡ map (clause_number inputs ids.now) hints.now) }
{
    let mut numbers = Vec::new(alloc);
    for hint in hints {
        numbers.push(in_32_bits(clause_number(inputs, ids, *hint))?)?;
    }
    Ok(numbers)
}
