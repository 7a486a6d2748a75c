// The least values.
ghost use Rattle.std.specs.Prelude.{◌≡◌, ◌≤◌, ◌^◌, length, IfOk};
ghost use Rattle.word_dag.specs.Given.{AllFit};
ghost use Rattle.cnf_build.specs.Lower.{netlist};
ghost use Rattle.cnf_build.specs.Meaning.{RootIs1};
ghost use Rattle.least_trace.specs.Least.{IsLeastEnd, IsFoundEnd};
ghost use Rattle.least_trace.specs.Walks.{padded};

use crate::bits::bits_in_order;
use crate::ends::LeastEnd;
use crate::walk::Walk;
use cnf_build::build;
use std::alloc::{AllocError, Global};
use word_dag::Ob;

// So many values, those that are missing being 0.
fn padded(alloc: Global, values: &[u64], count: usize) -> Result<Vec<u64>, AllocError>
    ensures { IfOk result (λ us. us.items ≡ padded count values.now) }
{
    let mut all = Vec::with_capacity(alloc, count)?;
    for place in 0..count {
        all.push(values.get(place).copied().unwrap_or(0))?;
    }
    Ok(all)
}

/// The least values at which the root of the obligation is 1, from values at which it is 1.
///
/// The bits of the free nodes stand in this order: by cycle, then side, then name in byte order, then node number, and
/// within a node the highest bit first. Values come before others where at the first bit in which they differ they have
/// 0. Values are one for each free node in number order; of those that are given, missing ones count as 0 and further
/// ones aren't read.
///
/// Each bit in turn is tried at 0, the bits before it being as they were found, and for each bit that is 1 in the end
/// there are steps that `accept` accepts. A bit that is 0 in the values at hand takes no solving. Where a bit takes
/// more than `budget` steps, the search stops there with an honest chain of just so many; with `3 ^ v` of them, v being
/// the number of variables of the clauses, none does.
pub fn least(alloc: Global, ob: &Ob, values: &[u64], budget: u64) -> Result<LeastEnd, AllocError>
    requires fit { AllFit values.now ob.now.nodes }
    requires root { RootIs1 ob.now.nodes ob.now.root values.now }
    requires budget { 1 ≤ budget }
    ensures end { IfOk result (IsLeastEnd budget ob.now) }
    ensures ample { 3 ^ length (netlist ob.now.nodes) ≤ budget → IfOk result IsFoundEnd }
{
    let bits = bits_in_order(alloc, ob.nodes())?;
    let built = build(alloc, ob)?;
    let values = padded(alloc, values, built.bits.len())?;
    let mut walk = Walk {
        built,
        values,
        excluded: Vec::new(alloc),
    };
    for number in 0..bits.len() {
        if let Some(chain) = walk.decide(alloc, &bits, number, budget)? {
            return Ok(LeastEnd::Stopped {
                values: walk.values,
                bit: number as u64,
                chain,
            });
        }
    }
    Ok(LeastEnd::Found {
        values: walk.values,
        excluded: walk.excluded,
    })
}
