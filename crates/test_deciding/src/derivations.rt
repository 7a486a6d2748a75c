use clause_check::{Clause, Clauses, Cnf, Lit, Marks, Step, accept};
use std::alloc::{AllocError, Global};
use std::test::Fail;

// The literal of a number that isn't 0: variable 0 is 1, and its negation -1.
fn literal(number: i32) -> Lit {
    Lit {
        var: number.unsigned_abs().saturating_sub(1),
        negative: number < 0,
    }
}

fn clause(alloc: Global, numbers: &[i32]) -> Result<Option<Clause>, AllocError> {
    Clause::of(alloc, numbers.iter().map(|n| literal(*n)).collect(alloc)?)
}

fn push(alloc: Global, clauses: &mut Clauses, numbers: &[i32]) -> Result<(), AllocError> {
    if let Some(clause) = clause(alloc, numbers)? {
        clauses.push(clause.lits())?;
    }
    Ok(())
}

// That a bit and its negation are both 1.
fn contradiction(alloc: Global) -> Result<Option<Cnf>, AllocError> {
    let mut clauses = Clauses::new(alloc)?;
    push(alloc, &mut clauses, &[1])?;
    push(alloc, &mut clauses, &[-3, 2])?;
    push(alloc, &mut clauses, &[-3, -2])?;
    push(alloc, &mut clauses, &[3])?;
    Ok(Cnf::of(3, clauses))
}

// Whether a step with the empty clause and these hints refutes the formula.
fn accepts(alloc: Global, cnf: &Cnf, hints: &[u32]) -> Result<bool, AllocError> {
    let mut marks = Marks::new(alloc, cnf.vars)?;
    let mut steps = Vec::new(alloc);
    if let Some(clause) = clause(alloc, &[])? {
        let hints = hints.to_vec(alloc)?;
        steps.push(Step { clause, hints })?;
    }
    Ok(accept(cnf, steps.as_slice(), &mut marks))
}

#[test]
fn accepts_hints_in_the_order_of_propagation(rt: HostRuntime) -> Result<(), Fail> {
    let alloc = rt.alloc();
    let cnf = contradiction(alloc)?.expect(&rt, "a formula");
    assert!(rt; accepts(alloc, &cnf, &[3, 1, 2])?);
    assert!(rt; !accepts(alloc, &cnf, &[1, 3, 2])?);
    assert!(rt; !accepts(alloc, &cnf, &[])?);
    Ok(())
}
