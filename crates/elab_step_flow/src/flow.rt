// What the paths up to a place in a block do, by the places of signals.

ghost use Rattle.std.specs.Prelude.{◌≡◌, ℕ, ◌++◌, ◌∷◌, [], ◌<◌, ◌⊎◌, ◌↔◌, length, List, map, true, slice_index, IfOk, OnOk};
ghost use Rattle.std.specs.Int.{bit_at};
ghost use Rattle.vlog_tree_runs.specs.Places.{Among};
ghost use Rattle.elab_step_flow.specs.Sets.{CountsIn, HasBit, is_open, tables, IsSized};
ghost use Rattle.elab_step_flow.specs.Passes.{ReadsTo, CountTo, IsStart};
ghost use Rattle.elab_step_flow.specs.Shows.{AreDistinct};
ghost use Rattle.elab_step_flow.specs.Words.{AreNarrow, all_ones};

use crate::sets::{add_places, empty_rows, put_in_order, without};
use elab_flat_drivers::ones;
use std::alloc::{AllocError, Global};
use vlog_tree_runs::Signal;

/// What some path up to a place in a block does. Signals go by their places in a list.
#[derive(Drop)]
pub struct BlockFlow {
    /// For each signal a 1 for each bit that some path leaves unset.
    pub unset: Vec<u64>,
    /// For each signal the places of those that an assignment to it depends on.
    pub through: Vec<Vec<usize>>,
    /// The places of signals that are read before all of them is set, in the order of these reads.
    pub outside: Vec<usize>,
}

// For each signal a 1 for each of its bits.
fn all_bits(alloc: Global, signals: &[Signal]) -> Result<Vec<u64>, AllocError>
    requires { AreNarrow signals.now }
    ensures { IfOk result (λ r. r.items ≡ map all_ones signals.now) }
{
    let mut words = Vec::new(alloc);
    for signal in signals {
        words.push(ones(0, signal.width))?;
    }
    Ok(words)
}

// Whether the word at a place has a bit.
fn is_open(words: &[u64], place: usize) -> bool
    requires { place < length words.now }
    ensures { result ≡ is_open (slice_index words.now place) }
{
    words[place] != 0
}

// Adds what the signal at a place, read here, counts as.
fn add_count(all: &mut Vec<usize>, flow: &BlockFlow, place: usize) -> Result<(), AllocError>
    requires sized { IsSized (length flow.now.unset.items) flow.now }
    requires within { place < length flow.now.unset.items }
    ensures { OnOk result ((z : ℕ) → Among all.new.items z ↔
        (Among all.old.items z ⊎ CountsIn (place ∷ []) (tables flow.now) z)) }
{
    all.extend_from_slice(&flow.through[place])?;
    if is_open(&flow.unset, place) {
        all.push(place)?;
    }
    Ok(())
}

// Adds what the signals at some places, read here, count as.
fn add_counts(all: &mut Vec<usize>, flow: &BlockFlow, read: &[usize]) -> Result<(), AllocError>
    requires sized { IsSized (length flow.now.unset.items) flow.now }
    requires within { (i : ℕ) → Among read.now i → i < length flow.now.unset.items }
    ensures { OnOk result ((z : ℕ) → Among all.new.items z ↔
        (Among all.old.items z ⊎ CountsIn read.now (tables flow.now) z)) }
{
    for place in read {
        add_count(all, flow, *place)?;
    }
    Ok(())
}

// Adds those of some places whose words have a bit.
fn add_open(all: &mut Vec<usize>, words: &[u64], places: &[usize]) -> Result<(), AllocError>
    requires { (i : ℕ) → Among places.now i → i < length words.now }
    ensures opens { OnOk result ((i : ℕ) → Among all.new.items i ↔
        (Among all.old.items i ⊎ (Among places.now i × (is_open (slice_index words.now i) ≡ true)))) }
    ensures grows { OnOk result ((more : List ℕ) × (all.new.items ≡ all.old.items ++ more)) }
{
    for place in places {
        if is_open(words, *place) {
            all.push(*place)?;
        }
    }
    Ok(())
}

impl BlockFlow {
    /// What is so before the first statement of a block.
    pub fn start(alloc: Global, signals: &[Signal]) -> Result<BlockFlow, AllocError>
        requires distinct { AreDistinct signals.now }
        requires narrow { AreNarrow signals.now }
        ensures start { IfOk result (λ r. IsStart signals.now (tables r)) }
        ensures sized { IfOk result (λ r. IsSized (length signals.now) r) }
    {
        Ok(BlockFlow {
            unset: all_bits(alloc, signals)?,
            through: empty_rows(alloc, signals.len())?,
            outside: Vec::new(alloc),
        })
    }

    /// Where memory for the lists of places is taken from.
    pub(crate) fn allocator(&self) -> Global {
        *self.outside.allocator()
    }

    /// Reads places; what they count as, with the places that the conditions around count as.
    pub fn enter(
        &mut self,
        alloc: Global,
        read: &[usize],
        around: &[usize],
    ) -> Result<Vec<usize>, AllocError>
        requires sized { IsSized (length self.old.unset.items) self.old }
        requires within { (i : ℕ) → Among read.now i → i < length self.old.unset.items }
        ensures reads { OnOk result (ReadsTo read.now (tables self.old) (tables self.new)) }
        ensures counts { IfOk result (λ inner. CountTo around.now read.now (tables self.old) inner.items) }
        ensures words { self.new.unset ≡ self.old.unset }
        ensures rows { self.new.through ≡ self.old.through }
        ensures grows { OnOk result ((more : List ℕ) × (self.new.outside.items ≡ self.old.outside.items ++ more)) }
    {
        let mut inner = around.to_vec(alloc)?;
        add_counts(&mut inner, self, read)?;
        put_in_order(&mut inner);
        add_open(&mut self.outside, &self.unset, read)?;
        Ok(inner)
    }

    /// Sets the bits of a word at a place, which depend on the places of a set.
    pub fn set(&mut self, place: usize, word: u64, sources: &[usize]) -> Result<(), AllocError>
        requires sized { IsSized (length self.old.unset.items) self.old }
        requires within { place < length self.old.unset.items }
        ensures cleared { OnOk result ((b : ℕ) → b < 64 → HasBit (tables self.new).unset place b ↔
            (HasBit (tables self.old).unset place b × (bit_at word b ≡ 1 → ⊥))) }
        ensures kept { OnOk result ((b : ℕ) → HasBit (tables self.new).unset place b →
            HasBit (tables self.old).unset place b) }
        ensures row { OnOk result ((j : ℕ) → Among ((tables self.new).through place) j ↔
            (Among ((tables self.old).through place) j ⊎ Among sources.now j)) }
        ensures words { OnOk result ((i : ℕ) → (place ≡ i → ⊥) →
            (tables self.new).unset i ≡ (tables self.old).unset i) }
        ensures rows { OnOk result ((i : ℕ) → (place ≡ i → ⊥) →
            (tables self.new).through i ≡ (tables self.old).through i) }
        ensures outside { self.new.outside ≡ self.old.outside }
        ensures sized { IsSized (length self.old.unset.items) self.new }
    {
        self.unset[place] = without(self.unset[place], word);
        add_places(&mut self.through[place], sources)?;
        Ok(())
    }
}
