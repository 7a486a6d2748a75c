// Formulas that are decided by way of a smaller one.
use crate::formulas::formula;
use cdcl::End;
use cdcl_presolve::solve;
use std::alloc::{AllocError, Global};
use std::test::Fail;

// 3 and 4 are 1 and 2; 5 and 6 are their exclusive disjunctions with 1; 5 and 6 differ
const CHAINS: &str = "-3 1, -3 2, 3 -1 -2, -4 2, -4 1, 4 -2 -1,
    -5 3 1, -5 -3 -1, 5 -3 1, 5 3 -1, -6 4 1, -6 -4 -1, 6 -4 1, 6 4 -1, 5 6, -5 -6";

// 1 is true; 5, 6 and 7 are a conjunction, an exclusive disjunction and a multiplexer of 2, 3 and 4; 8 is 2 by way of
// 1; 9, 10 and 11 are 5, 6 and 7 with their inputs in another order, 9 over 8
const GATES: &str = "1, -5 2, -5 3, 5 -2 -3, -6 2 3, -6 -2 -3, 6 -2 3, 6 2 -3,
    -4 -7 2, -4 7 -2, 4 -7 3, 4 7 -3, -8 1, -8 2, 8 -1 -2, -9 3, -9 8, 9 -3 -8,
    -10 3 2, -10 -3 -2, 10 -3 2, 10 3 -2, 4 -11 3, 4 11 -3, -4 -11 2, -4 11 -2";

// three pigeons, each in one of two holes, no two in one
const THREE_PIGEONS: &str = "1 2, 3 4, 5 6, -1 -3, -1 -5, -3 -5, -2 -4, -2 -6, -4 -6";

// four pigeons, each in one of three holes, no two in one
const FOUR_PIGEONS: &str = "1 2 3, 4 5 6, 7 8 9, 10 11 12,
    -1 -4, -1 -7, -1 -10, -4 -7, -4 -10, -7 -10, -2 -5, -2 -8, -2 -11, -5 -8, -5 -11, -8 -11,
    -3 -6, -3 -9, -3 -12, -6 -9, -6 -12, -9 -12";

// some variables of these are eliminated; a search that may learn one clause doesn't decide them
const FEW: &str =
    "6 -1, -2 5 4, 6 3, 4 6, -5 2 1, -4 -2 3, 4 1, -5 6 2, -4 1, -1 6, -3 -4, -6 4 -2, 2 3 -6";

// Formulas over 12 variables, and whether they can be satisfied; none where one learnt clause isn't enough to decide
// it.
static ROWS: [(&[&str], Option<bool>); 8] = [
    // variables that are equal
    (&[CHAINS], Some(false)),
    // each two gates that are equal, and may not be
    (&[GATES, "5 9, -5 -9"], Some(false)),
    (&[GATES, "6 10, -6 -10"], Some(false)),
    (&[GATES, "7 11, -7 -11"], Some(false)),
    // two that are, and must be
    (&[GATES, "5 -9, -5 9"], Some(true)),
    // resolvents alone
    (&[THREE_PIGEONS], Some(false)),
    // variables that are eliminated, and get values again
    (&[FEW], Some(true)),
    // nothing that goes, so the budget is spent
    (&[FOUR_PIGEONS], None),
];

fn decided(alloc: Global, texts: &[&str]) -> Result<Option<bool>, AllocError> {
    let Some(cnf) = formula(alloc, 12, texts)? else {
        return Ok(None);
    };
    match solve(alloc, &cnf, 1)? {
        End::Unsat(_) => Ok(Some(false)),
        End::Sat(_) => Ok(Some(true)),
        End::Spent(_) => Ok(None),
    }
}

#[test]
fn simplifying_decides(rt: HostRuntime) -> Result<(), Fail> {
    for (texts, answer) in &ROWS {
        assert_eq!(rt; decided(rt.alloc(), texts)?, *answer, "{texts:?}");
    }
    Ok(())
}
