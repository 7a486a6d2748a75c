// The helper that tries all values.
ghost use Rattle.std.specs.Prelude.{◌≡◌, ◌≤◌, IfSome};

use crate::claim::{Claim, Claims, Helper};
use crate::passing::makes_root_1;
use crate::source::{Digits, drawn};
use clause_check::Cnf;
use std::alloc::{AllocError, Global};
use word_dag::{Node, Ob, Table as Words};

// How many bits the free words of an obligation may have in all.
const MOST: u64 = 12;

/// Tries all values of the free words, where these have at most 12 bits in all.
#[derive(Debug, Drop)]
pub struct Table {
    offers: u64,
}

impl Table {
    /// One that hasn't been asked.
    pub fn new() -> Table
        ensures { result.offers ≡ 0 }
    {
        Table { offers: 0 }
    }
}

// How many bits the free nodes have, where these are at most 12.
fn few_bits(nodes: &[Node]) -> Option<u64>
    ensures { IfSome result (λ n. n ≤ 12) }
{
    let mut bits: u64 = 0;
    for node in nodes {
        if let Node::Free { width, .. } = node {
            bits = bits.saturating_add(u64::from(*width));
        }
    }
    if bits <= MOST { Some(bits) } else { None }
}

fn try_all(alloc: Global, ob: &Ob, bits: u64) -> Result<Claim, AllocError>
    requires { bits ≤ 12 }
{
    let mut table = Words::new(alloc, ob.nodes().len())?;
    for number in 0..1u64 << bits {
        let values = drawn(alloc, ob.nodes(), &mut Digits { rest: number })?;
        if makes_root_1(ob, &values, &mut table) {
            return Ok(Claim::Values(values));
        }
    }
    Ok(Claim::Nothing)
}

impl Claims for Table {}

impl Helper for Table {
    ghost asked = { λ s. s.offers };

    fn offer(&mut self, alloc: Global, ob: &Ob, _cnf: &Cnf) -> Result<Claim, AllocError> {
        self.offers = self.offers.saturating_add(1);
        match few_bits(ob.nodes()) {
            Some(bits) => try_all(alloc, ob, bits),
            None => Ok(Claim::Nothing),
        }
    }

    fn count(&mut self) -> bool {
        false
    }

    fn offers(&self) -> u64 {
        self.offers
    }
}
