// What the names of a module stand for.

ghost use Rattle.std.specs.Prelude.{◌≡◌, ◌≤◌};
ghost use Rattle.vlog_tree.specs.Valuation.{named, depth_of};

use std::alloc::Global;
use vlog_tree::Valuation;

/// What the names of a module stand for where each is 0: this tells which are memories.
#[derive(Drop)]
pub struct Spreader<'a> {
    pub alloc: Global,
    pub rest: &'a Valuation,
}

impl Spreader<'_> {
    /// How many bits a name stands for; of a memory, a word's.
    pub fn width(&self, name: &[u8], offset: u32) -> u8
        ensures width { result ≡ (named self.now.rest.now (record { text = name.now; offset = offset })).width }
        ensures some { 1 ≤ result }
        ensures most { result ≤ 64 }
    {
        match self.rest.find(name, offset) {
            Some(entry) => entry.width,
            None => 1,
        }
    }

    /// How many words a memory has; 0 of any other name.
    pub fn depth(&self, name: &[u8], offset: u32) -> u8
        ensures { result ≡ depth_of self.now.rest.now (record { text = name.now; offset = offset }) }
    {
        match self.rest.find(name, offset) {
            Some(entry) => entry.depth,
            None => 0,
        }
    }
}
