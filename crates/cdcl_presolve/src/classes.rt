// What is known of each variable: a value, or another variable's value. Each fact keeps the clauses that say so, which
// later steps have as hints. A variable is made equal to one before it, so going over the variables in order settles
// each at once.

use clause_check::Lit;
use std::alloc::{AllocError, Global};

/// What is known of a variable.
#[derive(Clone, Copy)]
pub enum Class {
    /// Nothing.
    Root,
    /// It has this value. The clause `unit` says so.
    Fixed { value: bool, unit: u32 },
    /// It is equal to a literal of a variable before it. The clause `there` says that it implies the literal, `back`
    /// that the literal implies it.
    Equal { to: Lit, there: u32, back: u32 },
}

/// What a literal comes to.
#[derive(Clone, Copy)]
pub enum Meaning {
    Known(bool),
    Open(Lit),
}

/// What is known of all variables.
#[derive(Drop)]
pub struct Classes {
    all: Vec<Class>,
}

/// The literal, or its negation.
pub fn turned(lit: Lit, negated: bool) -> Lit {
    Lit {
        var: lit.var,
        negative: lit.negative != negated,
    }
}

impl Classes {
    /// Nothing is known of so many variables.
    pub fn new(alloc: Global, vars: u32) -> Result<Classes, AllocError> {
        Ok(Classes {
            all: vec![in alloc; Class::Root; vars as usize]?,
        })
    }

    /// What is known of a variable.
    pub fn of(&self, var: u32) -> Class {
        self.all.get(var as usize).copied().unwrap_or(Class::Root)
    }

    /// Whether nothing is known of a variable.
    pub fn is_root(&self, var: u32) -> bool {
        matches!(self.of(var), Class::Root)
    }

    /// Makes this known of a variable.
    pub fn set(&mut self, var: u32, class: Class) {
        if let Some(place) = self.all.get_mut(var as usize) {
            *place = class;
        }
    }

    /// What a literal comes to, by what is known of its own variable.
    pub fn meaning(&self, lit: Lit) -> Meaning {
        match self.of(lit.var) {
            Class::Root => Meaning::Open(lit),
            Class::Fixed { value, .. } => Meaning::Known(value != lit.negative),
            Class::Equal { to, .. } => Meaning::Open(turned(to, lit.negative)),
        }
    }

    /// Adds the numbers of the clauses that say what is known of a variable.
    pub fn add_links(&self, var: u32, numbers: &mut Vec<u32>) -> Result<(), AllocError> {
        match self.of(var) {
            Class::Root => {}
            Class::Fixed { unit, .. } => numbers.push(unit)?,
            Class::Equal { there, back, .. } => {
                numbers.push(there)?;
                numbers.push(back)?;
            }
        }
        Ok(())
    }
}
