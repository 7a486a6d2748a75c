// Formulas of texts: a clause is the numbers of its literals, its variables counted from 1, negated ones below 0, and
// clauses have a comma between them.
use clause_check::{Clause, Clauses, Cnf, Lit};
use std::alloc::{AllocError, Global};

fn literal(number: i8) -> Lit {
    Lit {
        var: number.unsigned_abs().saturating_sub(1).into(),
        negative: number < 0,
    }
}

fn clause(alloc: Global, text: &str) -> Result<Option<Clause>, AllocError> {
    let mut lits = Vec::new(alloc);
    for word in text.split_ascii_whitespace() {
        lits.push(literal(word.parse().unwrap_or(0)))?;
    }
    Clause::of(alloc, lits)
}

fn add_clauses(alloc: Global, clauses: &mut Clauses, text: &str) -> Result<(), AllocError> {
    for part in text.split(',') {
        if let Some(clause) = clause(alloc, part)? {
            clauses.push(clause.lits())?;
        }
    }
    Ok(())
}

/// The formula over so many variables that has the clauses of all texts; a clause that has a variable twice is left
/// out.
pub fn formula(alloc: Global, vars: u8, texts: &[&str]) -> Result<Option<Cnf>, AllocError> {
    let mut clauses = Clauses::new(alloc)?;
    for text in texts {
        add_clauses(alloc, &mut clauses, text)?;
    }
    Ok(Cnf::of(vars.into(), clauses))
}
