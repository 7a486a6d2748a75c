// A formula as a text, derivations that are read, and each fault with its line.
use crate::formulas::formula;
use clause_check::{Cnf, Marks, Step, accept};
use clause_check_texts::{ProofFault, dimacs, fault_text, read_proof};
use std::alloc::{AllocError, Global};
use std::test::Fail;

// Each sign of the first variable with each sign of the second.
fn square(alloc: Global) -> Result<Option<Cnf>, AllocError> {
    formula(alloc, 2, &["1 2, 1 -2, -1 2, -1 -2"])
}

#[test]
fn a_formula_is_written(rt: HostRuntime) -> Result<(), Fail> {
    let cnf = square(rt.alloc())?.ok_or("no formula")?;
    let text = dimacs(rt.alloc(), &cnf)?;
    assert!(rt; text.bytes() == b"p cnf 2 4\n1 2 0\n1 -2 0\n-1 2 0\n-1 -2 0\n".as_slice());
    Ok(())
}

// Texts, and how many steps are read of each, which the checker accepts, or what stands against it.
static ROWS: [(&str, &str); 8] = [
    (
        "c two steps\n\n7 1 1 0 1 2 0\r\n7 d 1 2 0\n 9 0\t7 3 4 1 0\n",
        "2 steps",
    ),
    ("5 1 0 1 2 0\n6 0 5 3 4 0", "2 steps"),
    ("5 1 0 1 2 0\n6 0 5 3 4\n", "Syntax 2"),
    ("4 1 0 1 2 0\n", "Syntax 1"),
    ("\n5 1 0 1 3 0\n", "Unimplied 2"),
    ("5 1 -1 0 1 0\n", "Unimplied 1"),
    ("5 1 0 -1 2 0\n", "Unimplied 1"),
    ("5 1 0 1 2 0\n", "Open"),
];

fn accepted(alloc: Global, cnf: &Cnf, steps: &[Step]) -> Result<String, AllocError> {
    let mut marks = Marks::new(alloc, cnf.vars)?;
    let count = steps.len();
    if accept(cnf, steps, &mut marks) {
        format!(in alloc; "{count} steps")
    } else {
        format!(in alloc; "{count} steps that aren't accepted")
    }
}

fn read(alloc: Global, cnf: &Cnf, text: &str) -> Result<String, AllocError> {
    match read_proof(alloc, cnf, text.as_bytes()) {
        Ok(steps) => accepted(alloc, cnf, steps.as_slice()),
        Err(fault) => fault.to_string(alloc),
    }
}

#[test]
fn derivations_are_read(rt: HostRuntime) -> Result<(), Fail> {
    let cnf = square(rt.alloc())?.ok_or("no formula")?;
    for (text, want) in &ROWS {
        assert_eq!(rt; read(rt.alloc(), &cnf, text)?.as_str(), *want, "{text:?}");
    }
    Ok(())
}

#[test]
fn faults_are_shown_as_their_texts(rt: HostRuntime) -> Result<(), Fail> {
    for (fault, shown) in &[
        (ProofFault::Long, "Long"),
        (ProofFault::Syntax(2), "Syntax 2"),
        (ProofFault::Unimplied(17), "Unimplied 17"),
        (ProofFault::Open, "Open"),
        (ProofFault::Memory, "Memory"),
    ] {
        assert_eq!(rt; fault.to_string(rt.alloc())?.as_str(), *shown);
        assert_eq!(rt; fault_text(rt.alloc(), fault)?.bytes(), shown.as_bytes());
    }
    Ok(())
}
