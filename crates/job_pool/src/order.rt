// The ends in the order of the jobs.
ghost use Rattle.std.specs.Prelude.{◌≡◌, ℕ, IfOk, IsPermutation, List, map};
ghost use Rattle.std.specs.List.{range_with_len};
ghost use Rattle.job_pool.specs.Jobs.{IsOrdered, end_of};

use crate::work::Done;
use std::alloc::{AllocError, Global};

// The ends, in the order of their numbers.
pub(crate) fn ordered<X: Drop>(alloc: Global, mut done: Vec<Done<X>>) -> Result<Vec<X>, AllocError>
    ensures { IfOk result (λ ends. IsOrdered done.items ends.items) }
{
    done.sort_unstable_by_key(|d| d.number);
    ends_of(alloc, done)
}

fn ends_of<X: Drop>(alloc: Global, done: Vec<Done<X>>) -> Result<Vec<X>, AllocError>
    ensures { IfOk result (λ ends. ends.items ≡ map end_of done.items) }
{
    done.into_iter().map(|d| d.end).collect(alloc)
}

// The numbers below n.
pub(crate) fn below(alloc: Global, n: u64) -> Result<Vec<u64>, AllocError>
    ensures { IfOk result (λ v. v.items ≡ range_with_len 0 n) }
{
    let mut numbers = Vec::new(alloc);
    for i in 0..n {
        numbers.push(i)?;
    }
    Ok(numbers)
}
