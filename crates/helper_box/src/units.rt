// The helper that propagates units.
ghost use Rattle.std.specs.Prelude.{◌≡◌, true, OnOk, length};

use crate::claim::{Claim, Claims, Helper};
use clause_check::{Clause, Cnf, Lit, Look, Step, in_32_bits, look_at};
use std::alloc::{AllocError, Global};
use word_dag::Ob;

/// Claims that the clauses can't be met where unit propagation alone leads to a clause that is false: one step suffices
/// then.
#[derive(Debug, Drop)]
pub struct Units {
    offers: u64,
}

impl Units {
    /// One that hasn't been asked.
    pub fn new() -> Units
        ensures { result.offers ≡ 0 }
    {
        Units { offers: 0 }
    }
}

// What propagation has come to.
#[derive(Drop)]
struct Trail {
    // The values of the variables.
    values: Vec<Option<bool>>,
    // The literals that were made true, in their order.
    forced: Vec<Lit>,
    // The clauses that forced them, and the one that is false.
    hints: Vec<u32>,
}

// The place of a literal in a table.
fn index_of(lit: Lit) -> usize {
    (lit.var as usize)
        .saturating_mul(2)
        .saturating_add(usize::from(lit.negative))
}

// For each literal the numbers of the clauses that have it, the list of one literal behind that of another.
#[derive(Drop)]
struct Occurrences {
    // Where each literal's list begins, and where the last one ends.
    bounds: Vec<u32>,
    numbers: Vec<u32>,
}

// For each literal the numbers of the clauses that have it.
fn occurrences_in(alloc: Global, cnf: &Cnf) -> Result<Occurrences, AllocError> {
    let literals = (cnf.vars as usize).saturating_mul(2);
    let mut bounds = vec![in alloc; 0_u32; literals.saturating_add(2)]?;
    for number in 0..cnf.clauses.len() {
        for lit in cnf.clauses.clause(number) {
            raise(&mut bounds, index_of(*lit).saturating_add(2));
        }
    }
    let mut all = 0_u32;
    for bound in bounds.iter_mut() {
        all = all.saturating_add(*bound);
        *bound = all;
    }
    // (each list is filled from its beginning on, which so becomes its end and the beginning of the next one)
    let mut numbers = vec![in alloc; 0_u32; all as usize]?;
    for number in 0..in_32_bits(cnf.clauses.len())? {
        for lit in cnf.clauses.clause(number as usize) {
            let place = raise(&mut bounds, index_of(*lit).saturating_add(1));
            if let Some(found) = numbers.get_mut(place as usize) {
                *found = number;
            }
        }
    }
    Ok(Occurrences { bounds, numbers })
}

// Makes the number at a place greater by 1, and gives what it was.
fn raise(numbers: &mut [u32], place: usize) -> u32 {
    match numbers.get_mut(place) {
        Some(number) => {
            let before = *number;
            *number = before.saturating_add(1);
            before
        }
        None => 0,
    }
}

impl Occurrences {
    // The numbers of the clauses that have the literal.
    fn of(&self, lit: Lit) -> &[u32] {
        let at = index_of(lit);
        let (Some(start), Some(end)) = (self.bounds.get(at), self.bounds.get(at.saturating_add(1)))
        else {
            return &[];
        };
        self.numbers
            .get(*start as usize..*end as usize)
            .unwrap_or(&[])
    }
}

// Looks at a clause, and makes true what it forces. Whether the clause is false.
fn is_false(cnf: &Cnf, trail: &mut Trail, number: u32) -> Result<bool, AllocError>
    requires room { length trail.old.values.items ≡ cnf.now.vars }
    ensures room { OnOk result (length trail.new.values.items ≡ cnf.now.vars) }
{
    let place = number as usize;
    if place >= cnf.clauses.len() {
        return Ok(false);
    }
    match look_at(cnf.clauses.clause(place), &trail.values) {
        Look::Open => Ok(false),
        Look::False => {
            trail.hints.push(number)?;
            Ok(true)
        }
        Look::Unit(lit) => {
            trail.hints.push(number)?;
            trail.forced.push(lit)?;
            trail.values[lit.var as usize] = Some(!lit.negative);
            Ok(false)
        }
    }
}

// Looks at the clauses of these numbers in turn, until one is false. Whether one is.
fn is_one_false(cnf: &Cnf, trail: &mut Trail, numbers: &[u32]) -> Result<bool, AllocError>
    requires room { length trail.old.values.items ≡ cnf.now.vars }
    ensures room { OnOk result (length trail.new.values.items ≡ cnf.now.vars) }
{
    for number in numbers {
        if is_false(cnf, trail, *number)? {
            return Ok(true);
        }
    }
    Ok(false)
}

// Looks at each clause once, and then at the clauses of each literal that became false. Whether one is false at last.
fn propagates(alloc: Global, cnf: &Cnf, trail: &mut Trail) -> Result<bool, AllocError>
    requires room { length trail.old.values.items ≡ cnf.now.vars }
{
    let clauses: Vec<u32> = (0..in_32_bits(cnf.clauses.len())?).collect(alloc)?;
    if is_one_false(cnf, trail, &clauses)? {
        return Ok(true);
    }
    let table = occurrences_in(alloc, cnf)?;
    // (each literal that is forced gives one more variable its value)
    for at in 0..cnf.vars as usize {
        let Some(lit) = trail.forced.get(at).copied() else {
            return Ok(false);
        };
        if is_one_false(cnf, trail, table.of(lit.negated()))? {
            return Ok(true);
        }
    }
    Ok(false)
}

// The derivation of the empty clause in one step along these clauses.
fn one_step(alloc: Global, hints: Vec<u32>) -> Result<Vec<Step>, AllocError> {
    let clause = Clause::new(Vec::new(alloc));
    let mut steps = Vec::new(alloc);
    steps.push(Step { clause, hints })?;
    Ok(steps)
}

// What propagation alone shows.
fn refuted(alloc: Global, cnf: &Cnf) -> Result<Claim, AllocError> {
    let mut trail = Trail {
        values: vec![in alloc; None; cnf.vars as usize]?,
        forced: Vec::new(alloc),
        hints: Vec::new(alloc),
    };
    if propagates(alloc, cnf, &mut trail)? {
        Ok(Claim::Unsat(one_step(alloc, trail.hints)?))
    } else {
        Ok(Claim::Nothing)
    }
}

impl Claims for Units {
    fn claim(&self, alloc: Global, _ob: &Ob, cnf: &Cnf) -> Result<Option<Claim>, AllocError> {
        Ok(Some(refuted(alloc, cnf)?))
    }
}

impl Helper for Units {
    ghost asked = { λ s. s.offers };

    ghost ahead = { λ _. true };

    fn offer(&mut self, alloc: Global, _ob: &Ob, cnf: &Cnf) -> Result<Claim, AllocError> {
        self.offers = self.offers.saturating_add(1);
        refuted(alloc, cnf)
    }

    fn count(&mut self) -> bool {
        self.offers = self.offers.saturating_add(1);
        true
    }

    fn offers(&self) -> u64 {
        self.offers
    }
}
