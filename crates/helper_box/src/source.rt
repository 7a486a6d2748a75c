// Where values to try come from.
use std::alloc::{AllocError, Global};
use word_dag::Node;

/// Numbers of given widths, one after another.
pub trait Source {
    /// The next number of so many bits.
    fn next(&mut self, width: u8) -> u64;
}

// All ones at this width; at least one bit and at most 64.
fn ones(width: u8) -> u64 {
    u64::MAX >> (64 - width.clamp(1, 64))
}

/// Numbers that follow from a first one and look like random ones (G. L. Steele, D. Lea and C. H. Flood, Fast
/// splittable pseudorandom number generators, 2014).
#[derive(Debug, Drop)]
pub struct Random {
    pub state: u64,
}

impl Source for Random {
    fn next(&mut self, width: u8) -> u64 {
        self.state = self.state.wrapping_add(0x9e37_79b9_7f4a_7c15);
        let first = (self.state ^ (self.state >> 30)).wrapping_mul(0xbf58_476d_1ce4_e5b9);
        let second = (first ^ (first >> 27)).wrapping_mul(0x94d0_49bb_1331_11eb);
        (second ^ (second >> 31)) & ones(width)
    }
}

/// The digits of a number, from the lowest.
#[derive(Drop)]
pub struct Digits {
    pub rest: u64,
}

impl Source for Digits {
    fn next(&mut self, width: u8) -> u64 {
        let digit = self.rest & ones(width);
        self.rest = if width < 64 { self.rest >> width } else { 0 };
        digit
    }
}

/// A value for each free node, in the order of the nodes.
pub fn drawn<S: Source>(
    alloc: Global,
    nodes: &[Node],
    source: &mut S,
) -> Result<Vec<u64>, AllocError> {
    let mut values = Vec::new(alloc);
    for node in nodes {
        if let Node::Free { width, .. } = node {
            values.push(source.next(*width))?;
        }
    }
    Ok(values)
}
