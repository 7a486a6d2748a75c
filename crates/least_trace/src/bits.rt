// The bits of an obligation in their order.
ghost use Rattle.std.specs.Prelude.{◌≡◌, ◌<◌, ◌≤◌, ◌++◌, ◌↔◌, [], length, slice_index, slice_index_or, IfOk, OnOk, IsTrue};
ghost use Rattle.std.specs.List.{flat_map};
ghost use Rattle.least_trace.specs.Bits.{bits_down, bits_of, InOrder, bit_in};

use crate::words::{Word, sorted_words};
use cnf_build::Vars;
use std::alloc::{AllocError, Global};
use word_dag::Node;

/// A bit of a free word.
#[derive(Clone, Copy)]
pub struct Bit {
    /// The place of its word among the values.
    pub place: u64,
    /// How many bits of the word are below it.
    pub height: u8,
}

// Adds the bits of a word, from the highest.
fn add_bits(bits: &mut Vec<Bit>, place: u64, width: u8) -> Result<(), AllocError>
    ensures { OnOk result (bits.new.items ≡ bits.old.items ++ bits_down place width) }
{
    for above in 0..width {
        let height = width - 1 - above;
        bits.push(Bit { place, height })?;
    }
    Ok(())
}

fn bits_of(alloc: Global, words: &[Word]) -> Result<Vec<Bit>, AllocError>
    ensures { IfOk result (λ bits. bits.items ≡ flat_map bits_of words.now) }
{
    let mut bits = Vec::new(alloc);
    for word in words {
        add_bits(&mut bits, word.place, word.width)?;
    }
    Ok(bits)
}

/// The bits of the free words in their order.
pub fn bits_in_order(alloc: Global, nodes: &[Node]) -> Result<Vec<Bit>, AllocError>
    ensures { IfOk result (λ bits. InOrder nodes.now bits.items) }
{
    let words = sorted_words(alloc, nodes)?;
    bits_of(alloc, words.as_slice())
}

impl Bit {
    /// Whether it is 1 in the values.
    pub fn is_one(self, values: &[u64]) -> bool
        requires place { self.place < length values.now }
        requires height { self.height < 64 }
        ensures { IsTrue result ↔ (bit_in values.now self ≡ 1) }
    {
        (values[self.place as usize] >> self.height) & 1 == 1
    }

    /// Its variable, where these are the variables of the free words.
    pub fn var(self, vars: &[Vars]) -> u32
        requires place { self.place < length vars.now }
        requires height { self.height < length (slice_index_or vars.now self.place []) }
        ensures { result ≡ slice_index (slice_index_or vars.now self.place []) self.height }
    {
        vars[self.place as usize].list()[self.height as usize]
    }
}
