use cdcl::{End, solve};
use clause_check::{Clause, Clauses, Cnf, Lit, Marks, accept, holds};
use std::alloc::{AllocError, Global};
use std::test::Fail;

// Adds the clause of these literals, each a variable and whether it is negated.
fn push(alloc: Global, clauses: &mut Clauses, lits: &[(u32, bool)]) -> Result<(), AllocError> {
    let lits = lits
        .iter()
        .map(|(var, negative)| Lit {
            var: *var,
            negative: *negative,
        })
        .collect(alloc)?;
    if let Some(clause) = Clause::of(alloc, lits)? {
        clauses.push(clause.lits())?;
    }
    Ok(())
}

// Five pigeons in four holes: each has a hole, and no two have one.
fn pigeons(alloc: Global) -> Result<Option<Cnf>, AllocError> {
    let mut clauses = Clauses::new(alloc)?;
    for pigeon in 0..5_u32 {
        let first = 4 * pigeon;
        push(
            alloc,
            &mut clauses,
            &[
                (first, false),
                (first + 1, false),
                (first + 2, false),
                (first + 3, false),
            ],
        )?;
        for other in 0..pigeon {
            for hole in 0..4 {
                push(
                    alloc,
                    &mut clauses,
                    &[(first + hole, true), (4 * other + hole, true)],
                )?;
            }
        }
    }
    Ok(Cnf::of(20, clauses))
}

// Two chains of 300,000 variables each, the first with its links from the end.
fn chains(alloc: Global) -> Result<Option<Cnf>, AllocError> {
    let mut clauses = Clauses::new(alloc)?;
    push(alloc, &mut clauses, &[(0, false)])?;
    push(alloc, &mut clauses, &[(300_000, false)])?;
    for var in (0..299_999_u32).rev() {
        push(alloc, &mut clauses, &[(var, true), (var + 1, false)])?;
    }
    for var in 300_000..599_999_u32 {
        push(alloc, &mut clauses, &[(var, true), (var + 1, false)])?;
    }
    Ok(Cnf::of(600_000, clauses))
}

#[test]
fn refutes_five_pigeons_in_four_holes(rt: HostRuntime) -> Result<(), Fail> {
    let alloc = rt.alloc();
    let cnf = pigeons(alloc)?.expect(&rt, "a formula");
    let mut marks = Marks::new(alloc, cnf.vars)?;
    if let End::Unsat(steps) = solve(alloc, &cnf, 100_000)? {
        assert!(rt; accept(&cnf, steps.as_slice(), &mut marks));
    } else {
        assert!(rt; false);
    }
    if let End::Spent(steps) = solve(alloc, &cnf, 1)? {
        assert_eq!(rt; steps.len(), 1);
    } else {
        assert!(rt; false);
    }
    Ok(())
}

#[test]
fn follows_long_chains_in_both_directions(rt: HostRuntime) -> Result<(), Fail> {
    let alloc = rt.alloc();
    let cnf = chains(alloc)?.expect(&rt, "a formula");
    if let End::Sat(values) = solve(alloc, &cnf, 1)? {
        assert!(rt; holds(&cnf, values.as_slice()));
        assert!(rt; values.iter().all(|v| *v));
    } else {
        assert!(rt; false);
    }
    Ok(())
}
