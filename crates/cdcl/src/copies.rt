ghost use Rattle.std.specs.Prelude.{◌≡◌, ◌<◌, ◌≤◌, ◌+◌, List, [], ◌∷◌, ◌++◌, IfOk, OnOk, length, slice_index_or};
ghost use Rattle.cdcl.specs.Copying.{part_at};

use clause_check::Lit;
use std::alloc::{AllocError, Global};
use std::marker::Model;

// The first variable whose literals don't fit 32 bits.
const TOO_MANY: u32 = 1 << 31;

/// A literal in 32 bits: twice its variable, and one more for the negation. Contracts see the literal.
#[derive(Drop)]
pub struct Packed {
    code: u32,
}

impl Model for Packed {
    ghost use Rattle.clause_check.specs.declared.literal.Lit.{Lit};
    ghost use Rattle.cdcl.specs.Packing.{lit_of};

    ghost Value = { Lit };

    ghost view = { λ p. lit_of p.code };
}

impl Packed {
    /// The literal in 32 bits. A variable that doesn't fit counts as no memory: so many take more than 200 GB.
    pub fn of(lit: Lit) -> Result<Packed, AllocError>
        ensures { IfOk result (λ p. p ≡ lit) }
    {
        if lit.var >= TOO_MANY {
            return Err(AllocError);
        }
        let even = 2 * lit.var;
        let code = if lit.negative { even + 1 } else { even };
        Ok(Packed { code })
    }

    /// The literal.
    pub fn lit(&self) -> Lit
        ensures { result ≡ self.now }
    {
        Lit {
            var: self.code / 2,
            negative: self.code % 2 == 1,
        }
    }
}

/// The literals of the watched clauses, packed one clause after another: what propagation reads.
#[derive(Drop)]
pub struct Copies {
    pub lits: Vec<Packed>,
    /// Where each clause begins, and at last where the next one will.
    pub bounds: Vec<usize>,
}

impl Copies {
    /// No clause.
    pub fn new(alloc: Global) -> Result<Copies, AllocError>
        ensures lits { IfOk result (λ c. c.lits.items ≡ []) }
        ensures bounds { IfOk result (λ c. c.bounds.items ≡ 0 ∷ []) }
    {
        let mut bounds = Vec::new(alloc);
        bounds.push(0)?;
        Ok(Copies {
            lits: Vec::new(alloc),
            bounds,
        })
    }

    /// The next clause.
    pub fn push(&mut self, clause: &[Lit]) -> Result<(), AllocError>
        ensures lits { OnOk result (self.new.lits.items ≡ self.old.lits.items ++ clause.now) }
        ensures bounds { OnOk result (self.new.bounds.items ≡ self.old.bounds.items ++ length self.new.lits.items ∷ []) }
    {
        for lit in clause {
            self.lits.push(Packed::of(*lit)?)?;
        }
        self.bounds.push(self.lits.len())?;
        Ok(())
    }

    /// The clause of this number.
    pub fn clause(&self, number: u32) -> &[Packed]
        requires known { number + 1 < length self.now.bounds.items }
        requires ordered { slice_index_or self.now.bounds.items number 0 ≤ slice_index_or self.now.bounds.items
            (number + 1) 0 }
        requires within { slice_index_or self.now.bounds.items (number + 1) 0 ≤ length self.now.lits.items }
        ensures { result.now ≡ part_at self.now.lits.items self.now.bounds.items number }
    {
        let number = number as usize;
        &self.lits[self.bounds[number]..self.bounds[number + 1]]
    }
}
