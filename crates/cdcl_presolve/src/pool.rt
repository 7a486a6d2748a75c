// Clauses that come and go, each found by its literals (occurrence lists). A clause is compared with others by a
// signature first, as in SatELite (Eén and Biere, 2005).

use crate::resolve::resolvent_len;
use clause_check::Lit;
use std::alloc::{AllocError, Global};

/// How many literals of clauses are looked at in all.
pub const LOOKS: u64 = 40_000_000;

/// A clause, and its number among the input clauses and the steps.
#[derive(Drop)]
pub struct Kept {
    pub lits: Vec<Lit>,
    pub number: u32,
}

// A clause whose variables rise, with a bit for each of its variables: the variable modulo 64.
#[derive(Drop)]
struct Held {
    kept: Kept,
    signature: u64,
}

/// How a clause stands to another one.
#[derive(Clone, Copy)]
pub enum Fit {
    /// It has a variable that the other one hasn't, or two that stand there with the other sign.
    Apart,
    /// All its literals stand in the other one.
    Within,
    /// All its literals stand in the other one, but this one's negation, which is there: so the other one holds without
    /// this one.
    Turned(Lit),
}

/// Clauses, each at a place of its own. A place stays empty once its clause is gone.
#[derive(Drop)]
pub struct Pool {
    held: Vec<Option<Held>>,
    // for each literal the places of the clauses that have it; places that are empty may stand there too
    places: Vec<Vec<usize>>,
    // how many literals may still be looked at
    looks: u64,
}

// Where the literal's list stands.
fn code(lit: Lit) -> usize {
    let even = 2 * lit.var as usize;
    if lit.negative { even + 1 } else { even }
}

// A bit for each variable of the clause.
fn signature(lits: &[Lit]) -> u64 {
    let mut bits = 0;
    for lit in lits {
        bits |= 1u64 << (lit.var % 64);
    }
    bits
}

// How a clause stands to another one, where the variables of both rise.
fn compare(short: &[Lit], long: &[Lit]) -> Fit {
    let mut rest = long.iter();
    let mut turned: Option<Lit> = None;
    for lit in short {
        match rest.find(|l| l.var == lit.var) {
            None => return Fit::Apart,
            Some(same) => {
                if same.negative != lit.negative {
                    if turned.is_some() {
                        return Fit::Apart;
                    }
                    turned = Some(*same);
                }
            }
        }
    }
    match turned {
        None => Fit::Within,
        Some(lit) => Fit::Turned(lit),
    }
}

impl Pool {
    /// No clauses, over so many variables.
    pub fn new(alloc: Global, vars: u32) -> Result<Pool, AllocError> {
        let mut places = Vec::new(alloc);
        for _ in 0..vars {
            places.push(Vec::new(alloc))?;
            places.push(Vec::new(alloc))?;
        }
        Ok(Pool {
            held: Vec::new(alloc),
            places,
            looks: LOOKS,
        })
    }

    /// Looks at so many literals. The answer is whether so many may still be looked at.
    pub fn spend(&mut self, looks: usize) -> bool {
        let looks = looks as u64;
        let is_enough = looks <= self.looks;
        self.looks = self.looks.saturating_sub(looks);
        is_enough
    }

    /// Adds a clause, and gives its place.
    pub fn add(&mut self, kept: Kept) -> Result<usize, AllocError> {
        let Kept { mut lits, number } = kept;
        lits.sort_by_key(|l| l.var)?;
        let place = self.held.len();
        for lit in &lits {
            if let Some(list) = self.places.get_mut(code(*lit)) {
                list.push(place)?;
            }
        }
        let signature = signature(lits.as_slice());
        let kept = Kept { lits, number };
        self.held.push(Some(Held { kept, signature }))?;
        Ok(place)
    }

    /// Takes the clause at a place away.
    pub fn take(&mut self, place: usize) -> Option<Kept> {
        let held = self.held.get_mut(place)?.take()?;
        let Held { kept, signature: _ } = held;
        Some(kept)
    }

    /// The clause at a place.
    pub fn get(&self, place: usize) -> Option<&Kept> {
        match self.held.get(place) {
            Some(Some(held)) => Some(&held.kept),
            _ => None,
        }
    }

    /// How many literals the clause at a place has.
    pub fn length(&self, place: usize) -> usize {
        match self.get(place) {
            Some(kept) => kept.lits.len(),
            None => 0,
        }
    }

    /// The places of the clauses that have the literal.
    pub fn places(&mut self, alloc: Global, lit: Lit) -> Result<Vec<usize>, AllocError> {
        let held = self.held.as_slice();
        match self.places.get_mut(code(lit)) {
            Some(list) => {
                list.retain(|p| matches!(held.get(*p), Some(Some(_))));
                list.to_vec(alloc)
            }
            None => Ok(Vec::new(alloc)),
        }
    }

    // At most how many clauses have the literal.
    fn uses(&self, lit: Lit) -> usize {
        match self.places.get(code(lit)) {
            Some(list) => list.len(),
            None => 0,
        }
    }

    /// Of the variables of the clause at a place the one that the fewest clauses have.
    pub fn rarest(&self, place: usize) -> Option<u32> {
        let mut found: Option<(usize, u32)> = None;
        for lit in &self.get(place)?.lits {
            let uses = self.uses(*lit).saturating_add(self.uses(lit.negated()));
            match found {
                Some((least, _)) if least <= uses => {}
                _ => found = Some((uses, lit.var)),
            }
        }
        Some(found?.1)
    }

    /// How the clause at the first place stands to the one at the second place.
    pub fn fit(&mut self, short: usize, long: usize) -> Fit {
        if !self.spend(1) {
            return Fit::Apart;
        }
        let (Some(Some(short)), Some(Some(long))) = (self.held.get(short), self.held.get(long))
        else {
            return Fit::Apart;
        };
        let length = long.kept.lits.len();
        if short.signature & !long.signature != 0 || length < short.kept.lits.len() {
            return Fit::Apart;
        }
        let found = compare(short.kept.lits.as_slice(), long.kept.lits.as_slice());
        self.spend(length);
        found
    }

    /// At most how many pairs of clauses have a resolvent on the variable.
    pub fn pairs(&self, var: u32) -> usize {
        let with = self.uses(Lit {
            var,
            negative: false,
        });
        let against = self.uses(Lit {
            var,
            negative: true,
        });
        with.saturating_mul(against)
    }

    /// How many literals the resolvent of the clauses at two places has; none where it has a literal and its negation.
    pub fn resolvent_len(&mut self, first: usize, last: usize, var: u32) -> Option<usize> {
        let first = self.get(first)?.lits.as_slice();
        let last = self.get(last)?.lits.as_slice();
        let looks = first.len().saturating_add(last.len());
        let len = resolvent_len(first, last, var);
        self.spend(looks);
        len
    }

    /// The clauses that are left.
    pub fn into_kept(self, alloc: Global) -> Result<Vec<Kept>, AllocError> {
        let mut left: Vec<Kept> = Vec::new(alloc);
        let Pool {
            held,
            places: _,
            looks: _,
        } = self;
        for place in held {
            if let Some(held) = place {
                let Held { kept, signature: _ } = held;
                left.push(kept)?;
            }
        }
        Ok(left)
    }
}
