// Sets of places: as tables of truth values, and as lists.

ghost use Rattle.std.specs.Prelude.{◌≡◌, ℕ, ◌<◌, ◌⊎◌, ◌↔◌, [], length, replicate, false, IfOk, OnOk, MatchBool};
ghost use Rattle.std.specs.Int.{bit_at};
ghost use Rattle.std.specs.List.Sorted.{IsPermutation, IsSorted, IsStrictlyIncreasing};
ghost use Rattle.std.specs.Ordering.{nat_cmp};
ghost use Rattle.vlog_tree_runs.specs.Places.{Among};
ghost use Rattle.elab_flat_graphs.specs.Graphs.{graph_of};

use std::alloc::{AllocError, Global};

/// A set of so many places that has none.
pub fn none(alloc: Global, count: usize) -> Result<Vec<bool>, AllocError>
    ensures size { IfOk result (λ r. length r.items ≡ count) }
    ensures items { IfOk result (λ r. r.items ≡ replicate count false) }
{
    vec![in alloc; false; count]
}

/// So many lists of places that have none.
pub fn empty_rows(alloc: Global, count: usize) -> Result<Vec<Vec<usize>>, AllocError>
    ensures { IfOk result (λ r. graph_of r.items ≡ replicate count []) }
{
    let mut rows = Vec::new(alloc);
    for _ in 0..count {
        rows.push(Vec::new(alloc))?;
    }
    Ok(rows)
}

// Sorts places, in linear time where they are a few rising lists, one after another.
fn sort(places: &mut Vec<usize>)
    ensures permutation { IsPermutation places.old.items places.new.items }
    ensures sorted { IsSorted nat_cmp places.new.items }
{
    match places.sort() {
        Ok(()) => (),
        // the other sort needs memory, and this one none
        Err(_) => places.sort_unstable(),
    }
}

/// Puts places in their order, each once.
pub fn put_in_order(places: &mut Vec<usize>)
    ensures rises { IsStrictlyIncreasing places.new.items }
    ensures same { (i : ℕ) → Among places.new.items i ↔ Among places.old.items i }
{
    sort(places);
    places.dedup();
}

// Adds a place to a list of places in their order, if it doesn't stand there.
fn add_place(all: &mut Vec<usize>, place: usize) -> Result<(), AllocError>
    ensures { OnOk result ((i : ℕ) → Among all.new.items i ↔ (Among all.old.items i ⊎ (place ≡ i))) }
{
    match all.binary_search(&place) {
        Ok(_) => Ok(()),
        Err(at) => {
            all.insert(at, place)?;
            Ok(())
        }
    }
}

// Adds places, one by one.
fn add_each(all: &mut Vec<usize>, places: &[usize]) -> Result<(), AllocError>
    ensures { OnOk result ((i : ℕ) → Among all.new.items i ↔ (Among all.old.items i ⊎ Among places.now i)) }
{
    for place in places {
        add_place(all, *place)?;
    }
    Ok(())
}

// So many places are added one by one, which only moves those above them. For more, a pass over the whole list takes
// less time.
const FEW: usize = 16;

/// Adds places to a list of places, in which each stands once.
pub fn add_places(all: &mut Vec<usize>, places: &[usize]) -> Result<(), AllocError>
    ensures { OnOk result ((i : ℕ) → Among all.new.items i ↔ (Among all.old.items i ⊎ Among places.now i)) }
{
    if places.len() <= FEW {
        return add_each(all, places);
    }
    all.extend_from_slice(places)?;
    put_in_order(all);
    Ok(())
}

// Whether a place stands in a list.
fn has(rising: &[usize], place: usize) -> bool
    requires { IsStrictlyIncreasing rising.now }
    ensures { MatchBool result (Among rising.now place) (Among rising.now place → ⊥) }
{
    rising.binary_search(&place).is_ok()
}

/// Those of some places that stand in a list, too.
pub fn both(alloc: Global, places: &[usize], rising: &[usize]) -> Result<Vec<usize>, AllocError>
    requires { IsStrictlyIncreasing rising.now }
    ensures { IfOk result (λ r. (i : ℕ) → Among r.items i ↔ (Among places.now i × Among rising.now i)) }
{
    let mut all = Vec::new(alloc);
    for place in places {
        if has(rising, *place) {
            all.push(*place)?;
        }
    }
    Ok(all)
}

/// A word without the bits of another.
pub fn without(word: u64, bits: u64) -> u64
    ensures cleared { (b : ℕ) → b < 64 → (bit_at result b ≡ 1) ↔ ((bit_at word b ≡ 1) × (bit_at bits b ≡ 1 → ⊥)) }
    ensures kept { (b : ℕ) → bit_at result b ≡ 1 → bit_at word b ≡ 1 }
{
    word & !bits
}
