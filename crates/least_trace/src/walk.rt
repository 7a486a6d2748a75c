// One bit after another is decided, over one list of clauses that grows by unit clauses.
ghost use Rattle.std.specs.Prelude.{◌≡◌, ◌<◌, ◌≤◌, ◌+◌, ◌-◌, ◌^◌, ◌++◌, ◌∷◌, [], length, take, None, IfOk, OnOk};
ghost use Rattle.word_dag.specs.Nodes.{Parts};
ghost use Rattle.least_trace.specs.Walks.{IsWalk, IsNext};
ghost use Rattle.cnf_build.specs.Literals.{plus};

use crate::bits::Bit;
use crate::ends::Excluded;
use cdcl::{End, solve};
use clause_check::{Cnf, Lit, Step};
use cnf_build::{Built, negative, positive};
use std::alloc::{AllocError, Global};

/// Values at which the root is 1, of which the first bits are decided.
#[derive(Drop)]
pub struct Walk {
    /// The clauses of the obligation, then a unit clause for each bit that is decided.
    pub built: Built,
    pub values: Vec<u64>,
    pub excluded: Vec<Excluded>,
}

// Adds the unit clause of a literal.
fn add_unit(alloc: Global, cnf: &mut Cnf, lit: Lit) -> Result<(), AllocError>
    requires { lit.var < cnf.old.vars }
    ensures clauses { OnOk result (cnf.new.clauses ≡ cnf.old.clauses ++ (lit ∷ []) ∷ []) }
    ensures vars { cnf.new.vars ≡ cnf.old.vars }
{
    cnf.clauses.push(&[lit])
}

// Turns the last unit clause, which says that a bit is 0.
fn turn_last(alloc: Global, cnf: &mut Cnf, var: u32) -> Result<(), AllocError>
    requires { var < cnf.old.vars }
    ensures clauses { OnOk result (cnf.new.clauses ≡ take (length cnf.old.clauses - 1) cnf.old.clauses ++
        (plus var ∷ []) ∷ []) }
    ensures vars { cnf.new.vars ≡ cnf.old.vars }
{
    cnf.clauses.pop();
    add_unit(alloc, cnf, positive(var))
}

impl Walk {
    /// Decides the next bit: 0 where it is 0 in the values at hand or can be, else 1. Gives a chain where the budget is
    /// spent.
    pub fn decide(
        &mut self,
        alloc: Global,
        bits: &[Bit],
        number: usize,
        budget: u64,
    ) -> Result<Option<Vec<Step>>, AllocError>
        requires budget { 1 ≤ budget }
        requires number { number < length bits.now }
        requires walk { (ob : Parts) × IsWalk ob bits.now number self.old }
        ensures next { (ob : Parts) → IsWalk ob bits.now number self.old →
            IfOk result (IsNext budget ob bits.now number self.new) }
        ensures ample { 3 ^ self.old.built.cnf.vars ≤ budget → IfOk result (λ chain. chain ≡ None) }
    {
        let bit = bits[number];
        let var = bit.var(&self.built.bits);
        add_unit(alloc, &mut self.built.cnf, negative(var))?;
        if !bit.is_one(&self.values) {
            return Ok(None);
        }
        match solve(alloc, &self.built.cnf, budget)? {
            End::Sat(assignment) => {
                self.values = self.built.values(alloc, &assignment)?;
                Ok(None)
            }
            End::Unsat(steps) => {
                turn_last(alloc, &mut self.built.cnf, var)?;
                let bit = number as u64;
                self.excluded.push(Excluded { bit, steps })?;
                Ok(None)
            }
            End::Spent(chain) => Ok(Some(chain)),
        }
    }
}
