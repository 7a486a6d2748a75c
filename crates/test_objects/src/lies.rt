// Helpers whose claims are false.
ghost use Rattle.std.specs.Prelude.{◌≡◌};

use clause_check::{Clause, Cnf, Step};
use helper_box::{Claim, Claims, Helper};
use std::alloc::{AllocError, Global};
use word_dag::{Node, Ob};

/// What is claimed of each obligation.
#[derive(Clone, Copy)]
pub enum Lie {
    /// An empty clause without hints.
    NoHints,
    /// An empty clause with a hint past all clauses.
    FarHint,
    /// No values.
    NoValues,
    /// Zeros, one more than free words.
    OneTooMany,
    /// Zeros, but for the first free word the power of two that its length has no room for.
    TooGreat,
}

/// Claims a lie of each obligation.
#[derive(Drop)]
pub struct Liar {
    pub lie: Lie,
    pub offers: u64,
}

fn refutation(alloc: Global, hints: Vec<u32>) -> Result<Claim, AllocError> {
    let mut steps: Vec<Step> = Vec::new(alloc);
    if let Some(clause) = Clause::of(alloc, Vec::new(alloc))? {
        steps.push(Step { clause, hints })?;
    }
    Ok(Claim::Unsat(steps))
}

// Zeros for the free words, and this many more.
fn zeros(alloc: Global, ob: &Ob, more: usize) -> Result<Vec<u64>, AllocError> {
    let mut values = Vec::new(alloc);
    for node in ob.nodes() {
        if let Node::Free { .. } = node {
            values.push(0)?;
        }
    }
    for _ in 0..more {
        values.push(0)?;
    }
    Ok(values)
}

// The power of two that the first free word's length has no room for, or 2^63 where it has 64 bits.
fn too_great(ob: &Ob) -> u64 {
    for node in ob.nodes() {
        if let Node::Free { width, .. } = node {
            return 1u64.checked_shl(u32::from(*width)).unwrap_or(1 << 63);
        }
    }
    1
}

fn great_values(alloc: Global, ob: &Ob) -> Result<Vec<u64>, AllocError> {
    let mut values = zeros(alloc, ob, 0)?;
    if let Some(first) = values.first_mut() {
        *first = too_great(ob);
    }
    Ok(values)
}

fn claim(alloc: Global, lie: Lie, ob: &Ob) -> Result<Claim, AllocError> {
    match lie {
        Lie::NoHints => refutation(alloc, Vec::new(alloc)),
        Lie::FarHint => {
            let mut hints = Vec::new(alloc);
            hints.push(u32::MAX)?;
            refutation(alloc, hints)
        }
        Lie::NoValues => Ok(Claim::Values(Vec::new(alloc))),
        Lie::OneTooMany => Ok(Claim::Values(zeros(alloc, ob, 1)?)),
        Lie::TooGreat => Ok(Claim::Values(great_values(alloc, ob)?)),
    }
}

impl Claims for Liar {}

impl Helper for Liar {
    ghost asked = { λ s. s.offers };

    fn offer(&mut self, alloc: Global, ob: &Ob, _cnf: &Cnf) -> Result<Claim, AllocError> {
        self.offers = self.offers.saturating_add(1);
        claim(alloc, self.lie, ob)
    }

    fn count(&mut self) -> bool {
        false
    }

    fn offers(&self) -> u64 {
        self.offers
    }
}
