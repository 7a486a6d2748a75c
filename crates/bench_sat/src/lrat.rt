use clause_check::{Cnf, Step};
use std::io;

/// Writes each step on a line: its number, its clause and its hints.
pub fn write_steps<R: Print + AllocGlobal>(rt: &R, cnf: &Cnf, steps: &[Step]) -> io::Result<()> {
    let inputs = cnf.clauses.len() as u64;
    for (i, step) in steps.iter().enumerate() {
        let number = inputs.saturating_add(i as u64).saturating_add(1);
        print!(rt; "{number} ")?;
        for lit in step.clause.lits() {
            let var = u64::from(lit.var).saturating_add(1);
            if lit.negative {
                print!(rt; "-{var} ")?;
            } else {
                print!(rt; "{var} ")?;
            }
        }
        print!(rt; "0 ")?;
        for hint in &step.hints {
            let hint = u64::from(*hint).saturating_add(1);
            print!(rt; "{hint} ")?;
        }
        println!(rt; "0")?;
    }
    Ok(())
}

/// Writes the true literals on a line `v`.
pub fn write_values<R: Print + AllocGlobal>(rt: &R, values: &[bool]) -> io::Result<()> {
    print!(rt; "v ")?;
    for (i, value) in values.iter().enumerate() {
        let var = (i as u64).saturating_add(1);
        if *value {
            print!(rt; "{var} ")?;
        } else {
            print!(rt; "-{var} ")?;
        }
    }
    println!(rt; "0")
}
