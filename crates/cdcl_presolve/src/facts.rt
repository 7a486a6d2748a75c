// The facts found so far, and what they leave of a clause. A clause is read through the classes of its variables, so
// nothing is rewritten until the end.

use crate::classes::{Class, Classes, Meaning};
use crate::derivation::Derivation;
use clause_check::{Cnf, Lit, Step};
use std::alloc::{AllocError, Global};

/// What the facts leave of a clause.
#[derive(Drop)]
pub enum Rest {
    /// It holds.
    True,
    /// The literals that are left, each once; their variables are roots.
    Lits(Vec<Lit>),
}

/// A variable, and the literal of a variable before it that it is equal to.
#[derive(Clone, Copy, Debug)]
pub struct Equality {
    pub var: u32,
    pub to: Lit,
}

/// What is known of the variables of a formula, and the steps that say so.
#[derive(Drop)]
pub struct Facts<'a> {
    derivation: Derivation<'a>,
    classes: Classes,
    // the signs of the literals that are kept of a clause; blank between calls
    signs: Vec<Option<bool>>,
    // whether anything was found since this was asked last
    changed: bool,
}

// Keeps a literal of a clause, unless it is there. The answer is whether the clause isn't true in any case.
fn keep(signs: &mut [Option<bool>], lits: &mut Vec<Lit>, lit: Lit) -> Result<bool, AllocError> {
    let Some(sign) = signs.get_mut(lit.var as usize) else {
        return Ok(true);
    };
    match *sign {
        Some(negative) => Ok(negative == lit.negative),
        None => {
            *sign = Some(lit.negative);
            lits.push(lit)?;
            Ok(true)
        }
    }
}

impl<'a> Facts<'a> {
    /// Nothing is known.
    pub fn new(alloc: Global, cnf: &'a Cnf) -> Result<Facts<'a>, AllocError> {
        Ok(Facts {
            derivation: Derivation::new(alloc, cnf)?,
            classes: Classes::new(alloc, cnf.vars)?,
            signs: vec![in alloc; None; cnf.vars as usize]?,
            changed: false,
        })
    }

    /// The formula.
    pub fn cnf(&self) -> &'a Cnf {
        self.derivation.cnf()
    }

    /// Whether the empty clause is derived.
    pub fn is_refuted(&self) -> bool {
        self.derivation.is_refuted()
    }

    /// Whether anything was found since this was asked last.
    pub fn take_changed(&mut self) -> bool {
        std::mem::replace(&mut self.changed, false)
    }

    /// What is known of the variables, and the steps.
    pub fn into_parts(self) -> (Classes, Vec<Step>) {
        let Facts {
            derivation,
            classes,
            signs: _,
            changed: _,
        } = self;
        (classes, derivation.into_steps())
    }

    /// Whether nothing is known of the variable.
    pub fn is_root(&self, var: u32) -> bool {
        self.classes.is_root(var)
    }

    /// The literals of the input clause of this number.
    pub fn lits(&self, number: u32) -> &'a [Lit] {
        self.cnf().clauses.get(number as usize).unwrap_or(&[])
    }

    // These numbers of input clauses, each behind those of the clauses that say what is known of its variables.
    fn with_links(&self, alloc: Global, sources: &[u32]) -> Result<Vec<u32>, AllocError> {
        let mut numbers: Vec<u32> = Vec::new(alloc);
        for source in sources {
            for lit in self.lits(*source) {
                self.classes.add_links(lit.var, &mut numbers)?;
            }
            numbers.push(*source)?;
        }
        Ok(numbers)
    }

    /// Derives the clause from the input clause of this number and what is known of its variables. The answer is the
    /// number of the step; none where no hints are found.
    pub fn derive(
        &mut self,
        alloc: Global,
        clause: &[Lit],
        number: u32,
    ) -> Result<Option<u32>, AllocError> {
        let numbers = self.with_links(alloc, &[number])?;
        self.derivation
            .derive(alloc, clause, &[], numbers.as_slice())
    }

    /// Adds a step for a clause that two clauses imply. The answer is its number; none where a variable stands twice,
    /// or the empty clause is derived.
    pub fn add_step(
        &mut self,
        alloc: Global,
        lits: &[Lit],
        hints: [u32; 2],
    ) -> Result<Option<u32>, AllocError> {
        let hints = hints.to_vec(alloc)?;
        self.derivation.add(alloc, lits.to_vec(alloc)?, hints)
    }

    // Makes it known that the literal is true, if the clauses of these numbers imply it. The answer is whether they do.
    fn set_true(
        &mut self,
        alloc: Global,
        lit: Lit,
        splits: &[u32],
        numbers: &[u32],
    ) -> Result<bool, AllocError> {
        let Some(unit) = self.derivation.derive(alloc, &[lit], splits, numbers)? else {
            return Ok(false);
        };
        let value = !lit.negative;
        self.classes.set(lit.var, Class::Fixed { value, unit });
        Ok(true)
    }

    // Makes the equality known, if the clauses of these numbers imply it. The answer is whether they do.
    fn set_equal(
        &mut self,
        alloc: Global,
        equality: Equality,
        splits: &[u32],
        numbers: &[u32],
    ) -> Result<bool, AllocError> {
        let Equality { var, to } = equality;
        let on = Lit {
            var,
            negative: false,
        };
        let if_on = [on.negated(), to];
        let Some(there) = self.derivation.derive(alloc, &if_on, splits, numbers)? else {
            return Ok(false);
        };
        let if_off = [on, to.negated()];
        let Some(back) = self.derivation.derive(alloc, &if_off, splits, numbers)? else {
            return Ok(false);
        };
        self.classes.set(var, Class::Equal { to, there, back });
        Ok(true)
    }

    /// Makes it known that the literal is true, if steps for it are found.
    pub fn fix(
        &mut self,
        alloc: Global,
        lit: Lit,
        splits: &[u32],
        sources: &[u32],
    ) -> Result<(), AllocError> {
        let numbers = self.with_links(alloc, sources)?;
        if self.set_true(alloc, lit, splits, numbers.as_slice())? {
            self.changed = true;
        }
        Ok(())
    }

    /// Makes the equality known, if steps for it are found.
    pub fn merge(
        &mut self,
        alloc: Global,
        equality: Equality,
        splits: &[u32],
        sources: &[u32],
    ) -> Result<(), AllocError> {
        let numbers = self.with_links(alloc, sources)?;
        if self.set_equal(alloc, equality, splits, numbers.as_slice())? {
            self.changed = true;
        }
        Ok(())
    }

    // Says of the variable what is known of the variable that it is equal to. The answer is whether there may be more
    // to say.
    fn follow(&mut self, alloc: Global, var: u32) -> Result<bool, AllocError> {
        let Class::Equal { to, .. } = self.classes.of(var) else {
            return Ok(false);
        };
        if self.classes.is_root(to.var) {
            return Ok(false);
        }
        let mut numbers: Vec<u32> = Vec::new(alloc);
        self.classes.add_links(var, &mut numbers)?;
        self.classes.add_links(to.var, &mut numbers)?;
        let numbers = numbers.as_slice();
        match self.classes.meaning(to) {
            Meaning::Known(value) => {
                let negative = !value;
                self.set_true(alloc, Lit { var, negative }, &[], numbers)?;
                Ok(false)
            }
            Meaning::Open(next) => {
                let equality = Equality { var, to: next };
                self.set_equal(alloc, equality, &[], numbers)
            }
        }
    }

    /// Makes what is known of the variable a value, or the literal of a root.
    pub fn settle(&mut self, alloc: Global, var: u32) -> Result<(), AllocError> {
        for _ in 0..var {
            if !self.follow(alloc, var)? {
                return Ok(());
            }
        }
        Ok(())
    }

    // What the facts leave of these literals, where `signs` is not blank for those that are kept.
    fn keep_rest(
        &mut self,
        alloc: Global,
        clause: &[Lit],
        lits: &mut Vec<Lit>,
    ) -> Result<bool, AllocError> {
        for lit in clause {
            self.settle(alloc, lit.var)?;
            match self.classes.meaning(*lit) {
                Meaning::Known(true) => return Ok(false),
                Meaning::Known(false) => {}
                Meaning::Open(lit) => {
                    if !keep(self.signs.as_mut_slice(), lits, lit)? {
                        return Ok(false);
                    }
                }
            }
        }
        Ok(true)
    }

    /// What the facts leave of the input clause of this number.
    pub fn rest(&mut self, alloc: Global, number: u32) -> Result<Rest, AllocError> {
        let clause = self.lits(number);
        let mut lits: Vec<Lit> = Vec::new(alloc);
        let is_open = self.keep_rest(alloc, clause, &mut lits)?;
        for lit in &lits {
            if let Some(sign) = self.signs.get_mut(lit.var as usize) {
                *sign = None;
            }
        }
        if is_open {
            Ok(Rest::Lits(lits))
        } else {
            Ok(Rest::True)
        }
    }

    /// What the facts leave of the input clause of this number, once they have what it says by itself: a clause with
    /// one literal is a fact, and one with none ends the search.
    pub fn rest_of(&mut self, alloc: Global, number: u32) -> Result<Rest, AllocError> {
        if self.is_refuted() {
            return Ok(Rest::True);
        }
        let rest = self.rest(alloc, number)?;
        let Rest::Lits(lits) = &rest else {
            return Ok(rest);
        };
        match lits.as_slice() {
            [] => {
                self.derive(alloc, &[], number)?;
                Ok(Rest::True)
            }
            [lit] => {
                self.fix(alloc, *lit, &[], &[number])?;
                Ok(Rest::True)
            }
            _ => Ok(rest),
        }
    }
}
