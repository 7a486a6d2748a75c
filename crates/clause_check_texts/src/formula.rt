// Formulas in DIMACS.
ghost use Rattle.std.specs.Prelude.{◌≡◌, ◌++◌, IfOk, OnOk};
ghost use Rattle.std.specs.Fmt.{decimal};
ghost use Rattle.clause_check_texts.specs.Dimacs.{clause_line, dimacs, head_line, lit_word};

use clause_check::{Cnf, Lit};
use outside::Text;
use std::alloc::{AllocError, Global};

/// Adds the number in decimal.
pub(crate) fn push_number(alloc: Global, out: &mut Vec<u8>, number: u64) -> Result<(), AllocError>
    ensures { OnOk result (out.new.items ≡ out.old.items ++ decimal number) }
{
    let text = format!(in alloc; "{number}")?;
    out.extend_from_slice(text.as_bytes())
}

// Adds the literal and a blank.
fn push_lit(alloc: Global, out: &mut Vec<u8>, lit: Lit) -> Result<(), AllocError>
    ensures { OnOk result (out.new.items ≡ out.old.items ++ lit_word lit) }
{
    if lit.negative {
        out.push(b'-')?;
    }
    push_number(alloc, out, u64::from(lit.var) + 1)?;
    out.extend_from_slice(b" ")
}

// Adds the line of a clause.
fn push_clause(alloc: Global, out: &mut Vec<u8>, lits: &[Lit]) -> Result<(), AllocError>
    ensures { OnOk result (out.new.items ≡ out.old.items ++ clause_line lits.now) }
{
    for lit in lits {
        push_lit(alloc, out, *lit)?;
    }
    out.extend_from_slice(b"0\n")
}

// Adds the line in front.
fn push_head(alloc: Global, out: &mut Vec<u8>, cnf: &Cnf) -> Result<(), AllocError>
    ensures { OnOk result (out.new.items ≡ out.old.items ++ head_line cnf.now) }
{
    out.extend_from_slice(b"p cnf ")?;
    push_number(alloc, out, u64::from(cnf.vars))?;
    out.extend_from_slice(b" ")?;
    push_number(alloc, out, cnf.clauses.len() as u64)?;
    out.extend_from_slice(b"\n")
}

/// The formula in DIMACS, as the solvers of the SAT competitions read it: the line `p cnf V C` with the numbers of
/// variables and of clauses, and a line for each clause with its literals and a 0, with one blank between words.
/// Variable v is written as v + 1, with a minus in front where it is negative. Each line ends in a line feed.
pub fn dimacs(alloc: Global, cnf: &Cnf) -> Result<Text, AllocError>
    ensures { IfOk result (λ text. text ≡ dimacs cnf.now) }
{
    let mut out = Vec::new(alloc);
    push_head(alloc, &mut out, cnf)?;
    for number in 0..cnf.clauses.len() {
        push_clause(alloc, &mut out, cnf.clauses.clause(number))?;
    }
    Ok(Text::new(out))
}
