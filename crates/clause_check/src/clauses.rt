ghost use Rattle.std.specs.Prelude.{◌≡◌, ◌<◌, ◌≤◌, [], ◌∷◌, ◌++◌, length, IfOk, OnOk, OnErr, MatchOption, ◌+◌, ◌-◌, ◌^◌, take, slice_index_or, slice_range};
ghost use Rattle.clause_check.specs.Clauses.{IsClause};
ghost use Rattle.clause_check.specs.Parts.{IsPopped};

use crate::literal::Lit;
use crate::numbers::in_32_bits;
use std::alloc::{AllocError, Global};
use std::marker::Model;

/// Clauses one after another in one list of literals, so that a formula takes two pieces of memory and not one for each
/// clause. Contracts see the list of the clauses.
#[derive(Debug, Drop)]
pub struct Clauses {
    lits: Vec<Lit>,
    // Where each clause begins, and at last where the next one will.
    bounds: Vec<u32>,
}

impl Model for Clauses {
    ghost use Rattle.std.specs.Prelude.{List};
    ghost use Rattle.clause_check.specs.declared.literal.Lit.{Lit};
    ghost use Rattle.clause_check.specs.Parts.{parts, IsCut};

    ghost Value = { List (List Lit) };

    ghost view = { λ c. parts c.lits.items c.bounds.items };

    ghost invariant = { λ c. IsCut c.lits.items c.bounds.items };
}

// Puts literals behind the others, and the bound at which they end behind the others.
fn add_part(lits: &mut Vec<Lit>, bounds: &mut Vec<u32>, part: &[Lit]) -> Result<(), AllocError>
    ensures lits { OnOk result (lits.new.items ≡ lits.old.items ++ part.now) }
    ensures bounds { OnOk result (bounds.new.items ≡ bounds.old.items ++ length lits.new.items ∷ []) }
    ensures same_lits { OnErr result (lits.new.items ≡ lits.old.items) }
    ensures same_bounds { OnErr result (bounds.new.items ≡ bounds.old.items) }
{
    let all = lits.len().checked_add(part.len()).ok_or(AllocError)?;
    let end = in_32_bits(all)?;
    bounds.push(end)?;
    if let Err(refused) = lits.extend_from_slice(part) {
        bounds.pop();
        return Err(refused);
    }
    Ok(())
}

// Takes the last bound away, and the literals up to it from the one before on, where there are two.
fn drop_part(lits: &mut Vec<Lit>, bounds: &mut Vec<u32>)
    ensures { IsPopped lits.old.items bounds.old.items lits.new.items bounds.new.items }
{
    if bounds.len() > 1 {
        bounds.pop();
        let end = bounds[bounds.len() - 1];
        lits.truncate(end as usize);
    }
}

// The literals from the bound of this number to the next.
fn part<'a>(lits: &'a [Lit], bounds: &[u32], number: usize) -> &'a [Lit]
    requires known { number + 1 < length bounds.now }
    requires ordered { slice_index_or bounds.now number 0 ≤ slice_index_or bounds.now (number + 1) 0 }
    requires within { slice_index_or bounds.now (number + 1) 0 ≤ length lits.now }
    ensures { result.now ≡ slice_range lits.now (slice_index_or bounds.now number 0)
        (slice_index_or bounds.now (number + 1) 0) }
{
    &lits[bounds[number] as usize..bounds[number + 1] as usize]
}

impl Clauses {
    /// No clause.
    pub fn new(alloc: Global) -> Result<Clauses, AllocError>
        ensures { IfOk result (λ c. c ≡ []) }
    {
        let mut bounds = Vec::new(alloc);
        bounds.push(0)?;
        Ok(Clauses {
            lits: Vec::new(alloc),
            bounds,
        })
    }

    /// How many clauses there are.
    #[tactic(auto, using(crate::proofs::PartLemmas::bounds_len))]
    pub fn len(&self) -> usize
        ensures len { result ≡ length self.now }
        ensures few { result < 2 ^ 63 }
    {
        self.bounds.len() - 1
    }

    /// The literals of the clause of this number, in the order in which they were given.
    pub fn clause(&self, number: usize) -> &[Lit]
        requires { number < length self.now }
        ensures lits { result.now ≡ slice_index_or self.now number [] }
        ensures distinct { IsClause result.now }
    {
        part(&self.lits, &self.bounds, number)
    }

    /// The literals of the clause of this number, where there is one.
    pub fn get(&self, number: usize) -> Option<&[Lit]>
        ensures { MatchOption result (length self.now ≤ number) (λ c. (number < length self.now) ×
            (c.now ≡ slice_index_or self.now number [])) }
    {
        if number < self.len() {
            Some(self.clause(number))
        } else {
            None
        }
    }

    /// One more clause. Literals past the first 4,294,967,295 count as no memory.
    #[tactic(auto, using(crate::proofs::PartLemmas::cut_push, crate::proofs::PartLemmas::parts_push))]
    pub fn push(&mut self, clause: &[Lit]) -> Result<(), AllocError>
        requires { IsClause clause.now }
        ensures pushed { OnOk result (self.new ≡ self.old ++ clause.now ∷ []) }
        ensures same { OnErr result (self.new ≡ self.old) }
    {
        add_part(&mut self.lits, &mut self.bounds, clause)
    }

    /// Takes the last clause away, where there is one.
    pub fn pop(&mut self)
        ensures { self.new ≡ take (length self.old - 1) self.old }
    {
        drop_part(&mut self.lits, &mut self.bounds);
    }
}
