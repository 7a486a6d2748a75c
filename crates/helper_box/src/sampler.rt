// The helper that tries some values.
ghost use Rattle.std.specs.Prelude.{◌≡◌};

use crate::claim::{Claim, Claims, Helper};
use crate::passing::makes_root_1;
use crate::source::{Random, drawn};
use clause_check::Cnf;
use std::alloc::{AllocError, Global};
use word_dag::{Ob, Table};

// How many values are tried for one obligation at most.
const TRIES: u64 = 64;

/// Tries values that are drawn from a start number, some for each obligation, until its credit of tries is spent.
#[derive(Debug, Drop)]
pub struct Sampler {
    numbers: Random,
    credit: u64,
    offers: u64,
}

impl Sampler {
    /// One that hasn't been asked, with this start number and so many tries in all.
    pub fn new(start: u64, credit: u64) -> Sampler
        ensures { result.offers ≡ 0 }
    {
        Sampler {
            numbers: Random { state: start },
            credit,
            offers: 0,
        }
    }
}

fn sample(
    alloc: Global,
    ob: &Ob,
    numbers: &mut Random,
    credit: &mut u64,
) -> Result<Claim, AllocError> {
    let mut table = Table::new(alloc, ob.nodes().len())?;
    for _ in 0..TRIES.min(*credit) {
        *credit = credit.saturating_sub(1);
        let values = drawn(alloc, ob.nodes(), numbers)?;
        if makes_root_1(ob, &values, &mut table) {
            return Ok(Claim::Values(values));
        }
    }
    Ok(Claim::Nothing)
}

impl Claims for Sampler {}

impl Helper for Sampler {
    ghost asked = { λ s. s.offers };

    fn offer(&mut self, alloc: Global, ob: &Ob, _cnf: &Cnf) -> Result<Claim, AllocError> {
        self.offers = self.offers.saturating_add(1);
        sample(alloc, ob, &mut self.numbers, &mut self.credit)
    }

    fn count(&mut self) -> bool {
        false
    }

    fn offers(&self) -> u64 {
        self.offers
    }
}
