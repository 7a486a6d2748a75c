use clause_check::{Clause, Clauses, Cnf, Lit};
use std::alloc::{AllocError, Global};

// What was read so far.
#[derive(Drop)]
struct Reading {
    vars: u32,
    clauses: Clauses,
    lits: Vec<Lit>,
}

// The literal of this number, which isn't 0.
fn literal(number: i32) -> Lit {
    Lit {
        var: number.unsigned_abs().saturating_sub(1),
        negative: number < 0,
    }
}

impl Reading {
    // Reads a line. The answer is whether it could be read.
    fn line(&mut self, alloc: Global, line: &str) -> Result<bool, AllocError> {
        if line.starts_with('c') {
            return Ok(true);
        }
        if line.starts_with('p') {
            let Some(word) = line.split_ascii_whitespace().nth(2) else {
                return Ok(false);
            };
            let Ok(vars) = word.parse::<u32>() else {
                return Ok(false);
            };
            self.vars = vars;
            return Ok(true);
        }
        for word in line.split_ascii_whitespace() {
            let Ok(number) = word.parse::<i32>() else {
                return Ok(false);
            };
            if number == 0 {
                let lits = std::mem::replace(&mut self.lits, Vec::new(alloc));
                let Some(clause) = Clause::of(alloc, lits)? else {
                    return Ok(false);
                };
                self.clauses.push(clause.lits())?;
            } else {
                self.lits.push(literal(number))?;
            }
        }
        Ok(true)
    }
}

/// The formula of the text, where it is one and no clause has a variable twice.
pub fn read_formula(alloc: Global, text: &str) -> Result<Option<Cnf>, AllocError> {
    let mut reading = Reading {
        vars: 0,
        clauses: Clauses::new(alloc)?,
        lits: Vec::new(alloc),
    };
    for line in text.lines() {
        if !reading.line(alloc, line)? {
            return Ok(None);
        }
    }
    let Reading {
        vars,
        clauses,
        lits: _,
    } = reading;
    Ok(Cnf::of(vars, clauses))
}
