// Fewer clauses and variables. A clause that has all literals of another one goes (subsumption), a literal goes from a
// clause that another one says without it (self-subsuming resolution), and a variable goes where the resolvents on it
// are no more than the clauses that have it (bounded variable elimination): the techniques of SatELite (Eén and Biere,
// 2005). Nor may the resolvents have more literals, as in NiVER (Subbarayan and Pradhan, 2004): else the partial
// products of multipliers go, which are what two of them have in common.

use crate::aside::Aside;
use crate::facts::Facts;
use crate::pool::{Fit, Kept, LOOKS, Pool};
use crate::resolve::{resolvent, without};
use clause_check::Lit;
use std::alloc::{AllocError, Global};

// How often all variables are tried at most.
const ROUNDS: u64 = 8;

// The most pairs of clauses that are resolved on a variable.
const PAIRS: usize = 160;

// The most literals of a clause that is resolved, and of a resolvent.
const LENGTH: usize = 20;

// A formula that is being made smaller.
#[derive(Drop)]
struct Reduction<'a> {
    facts: Facts<'a>,
    pool: Pool,
    // the places of clauses that weren't compared with others yet
    fresh: Vec<usize>,
    // what the variables that are gone get their values from, in the order in which they went
    asides: Vec<Aside>,
}

/// What is left of a formula.
#[derive(Drop)]
pub struct Reduced {
    pub clauses: Vec<Kept>,
    pub asides: Vec<Aside>,
}

impl<'a> Reduction<'a> {
    // These clauses, which are input clauses or steps.
    fn new(
        alloc: Global,
        facts: Facts<'a>,
        clauses: Vec<Kept>,
    ) -> Result<Reduction<'a>, AllocError> {
        let mut pool = Pool::new(alloc, facts.cnf().vars)?;
        let mut fresh: Vec<usize> = Vec::new(alloc);
        for clause in clauses {
            fresh.push(pool.add(clause)?)?;
        }
        Ok(Reduction {
            facts,
            pool,
            fresh,
            asides: Vec::new(alloc),
        })
    }

    // Adds a clause that these two imply, the first by forcing a literal. The answer is whether it is added.
    fn add(&mut self, alloc: Global, lits: Vec<Lit>, hints: [u32; 2]) -> Result<bool, AllocError> {
        match self.facts.add_step(alloc, lits.as_slice(), hints)? {
            Some(number) => {
                let place = self.pool.add(Kept { lits, number })?;
                self.fresh.push(place)?;
                Ok(true)
            }
            None => Ok(false),
        }
    }

    // Takes the literal of this variable from a clause, where the other one says the rest without it.
    fn strengthen(
        &mut self,
        alloc: Global,
        by: usize,
        place: usize,
        var: u32,
    ) -> Result<(), AllocError> {
        let (Some(first), Some(last)) = (self.pool.get(by), self.pool.get(place)) else {
            return Ok(());
        };
        let hints = [first.number, last.number];
        let lits = without(alloc, last.lits.as_slice(), var)?;
        if self.add(alloc, lits, hints)? {
            self.pool.take(place);
        }
        Ok(())
    }

    // Makes those clauses fewer and shorter that have all variables of the clause at this place.
    fn use_clause(&mut self, alloc: Global, place: usize) -> Result<(), AllocError> {
        let Some(var) = self.pool.rarest(place) else {
            return Ok(());
        };
        for negative in [false, true] {
            for other in self.pool.places(alloc, Lit { var, negative })? {
                if other == place {
                    continue;
                }
                match self.pool.fit(place, other) {
                    Fit::Apart => {}
                    Fit::Within => {
                        self.pool.take(other);
                    }
                    Fit::Turned(lit) => self.strengthen(alloc, place, other, lit.var)?,
                }
            }
        }
        Ok(())
    }

    // Compares each fresh clause with others, until none is left or enough literals have been looked at.
    fn use_fresh(&mut self, alloc: Global) -> Result<(), AllocError> {
        for _ in 0..LOOKS {
            let Some(place) = self.fresh.pop() else {
                return Ok(());
            };
            if self.facts.is_refuted() || !self.pool.spend(1) {
                return Ok(());
            }
            self.use_clause(alloc, place)?;
        }
        Ok(())
    }

    // How many literals the clauses at these places have.
    fn literals(&self, places: &[usize]) -> usize {
        let mut count = 0usize;
        for place in places {
            count = count.saturating_add(self.pool.length(*place));
        }
        count
    }

    // The pairs of these clauses that have a resolvent on the variable; none where a clause or a resolvent is too long,
    // or the resolvents are more than the clauses or have more literals.
    fn pairs(
        &mut self,
        alloc: Global,
        var: u32,
        firsts: &[usize],
        lasts: &[usize],
    ) -> Result<Option<Vec<(usize, usize)>>, AllocError> {
        let most = firsts.len().saturating_add(lasts.len());
        let mut literals = self.literals(firsts).saturating_add(self.literals(lasts));
        let mut pairs: Vec<(usize, usize)> = Vec::new(alloc);
        for first in firsts {
            for last in lasts {
                if LENGTH < self.pool.length(*first) || LENGTH < self.pool.length(*last) {
                    return Ok(None);
                }
                let Some(len) = self.pool.resolvent_len(*first, *last, var) else {
                    continue;
                };
                if LENGTH < len || literals < len || most <= pairs.len() {
                    return Ok(None);
                }
                literals = literals.saturating_sub(len);
                pairs.push((*first, *last))?;
            }
        }
        Ok(Some(pairs))
    }

    // Adds the resolvent of two clauses on the variable. The answer is whether it is added.
    fn resolve(
        &mut self,
        alloc: Global,
        first: usize,
        last: usize,
        var: u32,
    ) -> Result<bool, AllocError> {
        let (Some(first), Some(last)) = (self.pool.get(first), self.pool.get(last)) else {
            return Ok(false);
        };
        let hints = [first.number, last.number];
        let lits = resolvent(alloc, first.lits.as_slice(), last.lits.as_slice(), var)?;
        self.add(alloc, lits, hints)
    }

    // Takes the clauses of a literal and of its negation away, and sets those aside that are fewer.
    fn set_aside(
        &mut self,
        alloc: Global,
        lit: Lit,
        with: &[usize],
        against: &[usize],
    ) -> Result<(), AllocError> {
        let (lit, fewer, more) = if with.len() <= against.len() {
            (lit, with, against)
        } else {
            (lit.negated(), against, with)
        };
        let mut clauses: Vec<Vec<Lit>> = Vec::new(alloc);
        for place in fewer {
            if let Some(kept) = self.pool.take(*place) {
                let Kept { lits, number: _ } = kept;
                clauses.push(lits)?;
            }
        }
        for place in more {
            self.pool.take(*place);
        }
        self.asides.push(Aside { lit, clauses })?;
        Ok(())
    }

    // Puts the resolvents on the variable in the place of the clauses that have it, where they are no more. The answer
    // is whether they are.
    fn eliminate(&mut self, alloc: Global, var: u32) -> Result<bool, AllocError> {
        let lit = Lit {
            var,
            negative: false,
        };
        let with = self.pool.places(alloc, lit)?;
        let against = self.pool.places(alloc, lit.negated())?;
        let is_few = with.len().saturating_mul(against.len()) <= PAIRS;
        if !is_few || with.is_empty() && against.is_empty() {
            return Ok(false);
        }
        let Some(pairs) = self.pairs(alloc, var, with.as_slice(), against.as_slice())? else {
            return Ok(false);
        };
        for (first, last) in pairs {
            if !self.resolve(alloc, first, last, var)? {
                return Ok(false);
            }
        }
        self.set_aside(alloc, lit, with.as_slice(), against.as_slice())?;
        Ok(true)
    }

    // Eliminates variables, those first that the fewest pairs of clauses have. The answer is whether one was.
    fn eliminate_all(&mut self, alloc: Global) -> Result<bool, AllocError> {
        let mut order: Vec<(usize, u32)> = Vec::new(alloc);
        for var in 0..self.facts.cnf().vars {
            order.push((self.pool.pairs(var), var))?;
        }
        order.sort()?;
        let mut is_any = false;
        for (_, var) in &order {
            if self.facts.is_refuted() || !self.pool.spend(1) {
                return Ok(false);
            }
            if self.eliminate(alloc, *var)? {
                is_any = true;
                self.use_fresh(alloc)?;
            }
        }
        Ok(is_any)
    }

    // Compares clauses and eliminates variables, until nothing more is found or it has been repeated often enough.
    fn run(&mut self, alloc: Global) -> Result<(), AllocError> {
        self.use_fresh(alloc)?;
        for _ in 0..ROUNDS {
            if !self.eliminate_all(alloc)? {
                return Ok(());
            }
        }
        Ok(())
    }
}

/// Fewer clauses over fewer variables, which can be satisfied where these can, and what is known with the steps for
/// them.
pub fn reduce<'a>(
    alloc: Global,
    facts: Facts<'a>,
    clauses: Vec<Kept>,
) -> Result<(Facts<'a>, Reduced), AllocError> {
    let mut reduction = Reduction::new(alloc, facts, clauses)?;
    reduction.run(alloc)?;
    let Reduction {
        facts,
        pool,
        fresh: _,
        asides,
    } = reduction;
    let clauses = pool.into_kept(alloc)?;
    Ok((facts, Reduced { clauses, asides }))
}
