//! Decides a formula in DIMACS form, which it reads from standard input. It writes the line `s SATISFIABLE`, `s
//! UNSATISFIABLE` or `s UNKNOWN`, the last where the budget of learnt clauses was spent. The evidence is checked before
//! it says so. `--budget N` is how many clauses it may learn. `--evidence` adds the values as a line `v`, or the
//! derivation as LRAT text.
#![tactic(auto)]

mod dimacs;
mod lrat;
mod request;

use cdcl::End;
use cdcl_presolve::solve;
use clause_check::{Cnf, Marks, accept, holds};
use dimacs::read_formula;
use lrat::{write_steps, write_values};
use request::Request;
use std::{env, io};

// Solves the formula, and says how it ended.
fn show<R: Print + AllocGlobal>(rt: &R, cnf: &Cnf, request: &Request) -> io::Result<()> {
    match solve(rt.alloc(), cnf, request.budget.max(1))? {
        End::Unsat(steps) => {
            let mut marks = Marks::new(rt.alloc(), cnf.vars)?;
            if !accept(cnf, steps.as_slice(), &mut marks) {
                return rt.println("c not accepted");
            }
            rt.println("s UNSATISFIABLE")?;
            if request.evidence {
                write_steps(rt, cnf, steps.as_slice())?;
            }
            Ok(())
        }
        End::Sat(values) => {
            if !holds(cnf, values.as_slice()) {
                return rt.println("c no model");
            }
            rt.println("s SATISFIABLE")?;
            if request.evidence {
                write_values(rt, values.as_slice())?;
            }
            Ok(())
        }
        End::Spent(_) => rt.println("s UNKNOWN"),
    }
}

fn main(rt: HostRuntime) -> io::Result<()> {
    let words: Vec<String> = env::args(&rt)?.collect(rt.alloc())?;
    let Some(request) = Request::of(words.as_slice()) else {
        return rt.println("c usage: bench_sat [--budget N] [--evidence] < FILE");
    };
    let text = io::read_to_string(rt.alloc(), rt.reader())?;
    match read_formula(rt.alloc(), text.as_str())? {
        Some(cnf) => show(&rt, &cnf, &request),
        None => rt.println("c no formula"),
    }
}
