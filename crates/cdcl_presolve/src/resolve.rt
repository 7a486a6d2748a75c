// Resolution: of two clauses, one with a variable and one with its negation, all literals but these two.

use clause_check::Lit;
use std::alloc::{AllocError, Global};

/// The literals but those of this variable.
pub fn without(alloc: Global, lits: &[Lit], var: u32) -> Result<Vec<Lit>, AllocError> {
    lits.iter().copied().filter(|l| l.var != var).collect(alloc)
}

/// How many literals the resolvent of two clauses on a variable has; none where it has a literal and its negation.
pub fn resolvent_len(first: &[Lit], last: &[Lit], var: u32) -> Option<usize> {
    let mut len = first.len().saturating_sub(1);
    for lit in last {
        if lit.var == var {
            continue;
        }
        match first.iter().find(|l| l.var == lit.var) {
            Some(same) => {
                if same.negative != lit.negative {
                    return None;
                }
            }
            None => len = len.saturating_add(1),
        }
    }
    Some(len)
}

/// The resolvent of two clauses on a variable.
pub fn resolvent(
    alloc: Global,
    first: &[Lit],
    last: &[Lit],
    var: u32,
) -> Result<Vec<Lit>, AllocError> {
    let mut lits = without(alloc, first, var)?;
    for lit in last {
        if lit.var != var && !first.contains(lit) {
            lits.push(*lit)?;
        }
    }
    Ok(lits)
}
