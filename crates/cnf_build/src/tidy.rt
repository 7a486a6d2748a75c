// Clauses with each literal once.
ghost use Rattle.std.specs.Prelude.{◌≡◌, ◌≢◌, ◌↔◌, true, All, IfOk, IsTrue, Some};
ghost use Rattle.clause_check.specs.Clauses.{IsClause};
ghost use Rattle.cnf_build.specs.Literals.{plus, minus, same_lit, has_lit, tidy};

use clause_check::{Clause, Lit};
use std::alloc::{AllocError, Global};

/// The literal that is true where the variable is.
pub fn positive(var: u32) -> Lit
    ensures { result ≡ plus var }
{
    Lit {
        var,
        negative: false,
    }
}

/// The literal that is true where the variable is false.
pub fn negative(var: u32) -> Lit
    ensures { result ≡ minus var }
{
    Lit {
        var,
        negative: true,
    }
}

fn is_same(a: Lit, b: Lit) -> bool
    ensures { result ≡ same_lit a b }
{
    a.var == b.var && a.negative == b.negative
}

fn has(lits: &[Lit], lit: Lit) -> bool
    ensures { result ≡ has_lit lits.now lit }
{
    for l in lits {
        if is_same(*l, lit) {
            return true;
        }
    }
    false
}

// Whether none of these literals is of this variable.
fn lacks(lits: &[Lit], var: u32) -> bool
    ensures { IsTrue result ↔ All (λ l. var ≢ l.var) lits.now }
{
    lits.iter().all(|l| l.var != var)
}

/// Whether these literals are a clause as they stand, since no variable stands twice. They should be few: the rest is
/// gone through for each.
#[tactic(auto, using(crate::proofs::Whole::tidy_whole))]
pub fn is_tidy(lits: &[Lit]) -> bool
    ensures clause { IsTrue result ↔ IsClause lits.now }
    ensures tidy { result ≡ true → tidy lits.now ≡ Some lits.now }
{
    match lits {
        [] => true,
        [first, rest @ ..] => lacks(rest, first.var) && is_tidy(rest),
    }
}

/// The clause of these literals, each once and in the order of their first places, or none where a literal stands
/// beside its negation, so that the clause holds in any case.
pub fn tidy_clause(alloc: Global, lits: &[Lit]) -> Result<Option<Clause>, AllocError>
    ensures { IfOk result (λ o. o ≡ tidy lits.now) }
{
    let mut kept = Vec::new(alloc);
    for i in 0..lits.len() {
        let lit = lits[i];
        if has(&kept, lit.negated()) {
            return Ok(None);
        }
        if !has(&kept, lit) {
            kept.push(lit)?;
        }
    }
    Ok(Some(Clause::new(kept)))
}
