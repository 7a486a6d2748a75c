// The formula that the facts leave, over the variables that still stand in it. Each of its clauses is an input clause
// or a step over the input clauses, so a derivation from it goes on where the steps end.

use crate::aside::Aside;
use crate::classes::{Class, Classes};
use crate::facts::{Facts, Rest};
use crate::pool::Kept;
use crate::reduce::Reduced;
use clause_check::{Clause, Clauses, Cnf, Lit, Step, in_32_bits};
use std::alloc::{AllocError, Global};
use std::collections::HashSet;

/// A formula that can be satisfied where the input formula can.
#[derive(Drop)]
pub struct Smaller {
    pub cnf: Cnf,
    // for each of its variables the input formula's
    vars: Vec<u32>,
    // for each of its clauses the number of the same clause among the input clauses and the steps
    numbers: Vec<u32>,
    // what other variables get their values from, the last one first
    asides: Vec<Aside>,
}

// The variables and signs of a clause, in rising order.
fn sorted(alloc: Global, lits: &[Lit]) -> Result<Vec<(u32, bool)>, AllocError> {
    let mut pairs: Vec<(u32, bool)> = lits.iter().map(|l| (l.var, l.negative)).collect(alloc)?;
    pairs.sort()?;
    Ok(pairs)
}

// The number of what is left of the input clause of this number.
fn number_of(
    alloc: Global,
    facts: &mut Facts,
    number: u32,
    lits: &[Lit],
) -> Result<Option<u32>, AllocError> {
    let clause = facts.lits(number);
    if clause == lits {
        Ok(Some(number))
    } else {
        facts.derive(alloc, lits, number)
    }
}

/// What is left of these input clauses, each once; none where no steps are found for one.
pub fn kept_clauses(
    alloc: Global,
    facts: &mut Facts,
    open: &[u32],
) -> Result<Option<Vec<Kept>>, AllocError> {
    let mut seen: HashSet<Vec<(u32, bool)>> = HashSet::new(alloc);
    let mut found: Vec<Kept> = Vec::new(alloc);
    for number in open {
        if let Rest::Lits(lits) = facts.rest(alloc, *number)? {
            if seen.insert(sorted(alloc, lits.as_slice())?)? {
                match number_of(alloc, facts, *number, lits.as_slice())? {
                    Some(number) => found.push(Kept { lits, number })?,
                    None => return Ok(None),
                }
            }
        }
    }
    Ok(Some(found))
}

// The variables of these clauses in rising order.
fn vars_of(alloc: Global, left: &[Kept], vars: u32) -> Result<Vec<u32>, AllocError> {
    let mut used = vec![in alloc; false; vars as usize]?;
    for clause in left {
        for lit in &clause.lits {
            if let Some(mark) = used.get_mut(lit.var as usize) {
                *mark = true;
            }
        }
    }
    let mut found: Vec<u32> = Vec::new(alloc);
    for var in 0..vars {
        if used.get(var as usize).copied().unwrap_or(false) {
            found.push(var)?;
        }
    }
    Ok(found)
}

// For each of so many variables its place among these, or 0.
fn places_of(alloc: Global, found: &[u32], vars: u32) -> Result<Vec<u32>, AllocError> {
    let mut places = vec![in alloc; 0; vars as usize]?;
    for (place, var) in found.iter().enumerate() {
        if let Some(slot) = places.get_mut(*var as usize) {
            *slot = in_32_bits(place)?;
        }
    }
    Ok(places)
}

// The clause with each variable replaced by the one at its place.
fn renamed(alloc: Global, lits: &[Lit], names: &[u32]) -> Result<Option<Clause>, AllocError> {
    let mut clause: Vec<Lit> = Vec::with_capacity(alloc, lits.len())?;
    for lit in lits {
        let Some(var) = names.get(lit.var as usize) else {
            return Ok(None);
        };
        clause.push(Lit {
            var: *var,
            negative: lit.negative,
        })?;
    }
    Clause::of(alloc, clause)
}

/// The formula of the clauses that are left, where the input formula has so many variables.
pub fn shrink(alloc: Global, vars: u32, reduced: Reduced) -> Result<Option<Smaller>, AllocError> {
    let Reduced {
        clauses: left,
        asides,
    } = reduced;
    let found = vars_of(alloc, left.as_slice(), vars)?;
    let places = places_of(alloc, found.as_slice(), vars)?;
    let mut clauses = Clauses::new(alloc)?;
    let mut numbers: Vec<u32> = Vec::new(alloc);
    for clause in &left {
        let Some(short) = renamed(alloc, clause.lits.as_slice(), places.as_slice())? else {
            return Ok(None);
        };
        clauses.push(short.lits())?;
        numbers.push(clause.number)?;
    }
    match Cnf::of(in_32_bits(found.len())?, clauses) {
        Some(cnf) => Ok(Some(Smaller {
            cnf,
            vars: found,
            numbers,
            asides,
        })),
        None => Ok(None),
    }
}

impl Smaller {
    // The number of the smaller formula's clause or step of this number, where its steps come after so many clauses.
    fn number(&self, number: u32, clauses: usize) -> Result<u32, AllocError> {
        let number = number as usize;
        match self.numbers.get(number) {
            Some(same) => Ok(*same),
            None => {
                let place = number.saturating_sub(self.numbers.len());
                in_32_bits(clauses.saturating_add(place))
            }
        }
    }

    /// Adds steps over the smaller formula behind the steps over so many input clauses.
    pub fn add_steps(
        &self,
        alloc: Global,
        inputs: usize,
        steps: &mut Vec<Step>,
        more: Vec<Step>,
    ) -> Result<bool, AllocError> {
        let clauses = inputs.saturating_add(steps.len());
        for mut step in more {
            let Some(clause) = renamed(alloc, step.clause.lits(), self.vars.as_slice())? else {
                return Ok(false);
            };
            step.clause = clause;
            for hint in step.hints.iter_mut() {
                *hint = self.number(*hint, clauses)?;
            }
            steps.push(step)?;
        }
        Ok(true)
    }

    /// The values of the input formula's variables, where the smaller one's have these.
    pub fn values(
        &self,
        alloc: Global,
        classes: &Classes,
        vars: u32,
        values: &[bool],
    ) -> Result<Vec<bool>, AllocError> {
        let mut roots = vec![in alloc; false; vars as usize]?;
        for (var, value) in self.vars.iter().zip(values) {
            if let Some(slot) = roots.get_mut(*var as usize) {
                *slot = *value;
            }
        }
        for aside in self.asides.iter().rev() {
            aside.restore(roots.as_mut_slice());
        }
        let mut all: Vec<bool> = Vec::new(alloc);
        for var in 0..vars {
            let value = match classes.of(var) {
                Class::Root => roots.get(var as usize).copied().unwrap_or(false),
                Class::Fixed { value, .. } => value,
                Class::Equal { to, .. } => {
                    all.get(to.var as usize).copied().unwrap_or(false) != to.negative
                }
            };
            all.push(value)?;
        }
        Ok(all)
    }
}
