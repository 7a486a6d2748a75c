// Unit propagation along hints, from where a step's clause is assumed to be false.
ghost use Rattle.std.specs.Prelude.{◌≡◌, ◌<◌, ◌≤◌, ◌↔◌, ℕ, List, [], All, Contains, IfOk, IsTrue, MatchBool, MatchOption, OnOk, length, map, take};
ghost use Rattle.clause_check.specs.declared.literal.Lit.{Lit};
ghost use Rattle.clause_check.specs.Clauses.{IsInRange, negated};
ghost use Rattle.clause_check.specs.Looks.{IsBlank, Shows};
ghost use Rattle.clause_check.specs.Derivations.{IsClauseAt, Refutes, clauses_of};
ghost use Rattle.clause_check_texts.specs.Steps.{IsClauseOf, lit_of};

use crate::words::Number;
use clause_check::{Cnf, Lit, Look, Step, clause_at, look_at};
use std::alloc::{AllocError, Global};

// The literal of a number, which isn't 0, where it is of one of so many variables.
fn lit_of(vars: u32, number: Number) -> Option<Lit>
    ensures { MatchOption result (vars ≤ (lit_of number).var) (λ l. (l ≡ lit_of number) × (l.var < vars)) }
{
    let var = u32::try_from(number.size.saturating_sub(1)).ok()?;
    if var < vars {
        Some(Lit {
            var,
            negative: number.negative,
        })
    } else {
        None
    }
}

/// Makes the literals false, each once, and lists what is true then. False where no clause with these literals stands
/// among so many variables: one is of no variable, or a variable stands there with both signs.
pub fn assume(
    vars: u32,
    numbers: &[Number],
    values: &mut [Option<bool>],
    known: &mut Vec<Lit>,
) -> Result<bool, AllocError>
    requires room { vars ≤ length values.old }
    requires blank { IsBlank values.old }
    requires none { known.old.items ≡ [] }
    ensures shows { OnOk result (Shows values.new known.new.items) }
    ensures in_range { OnOk result (IsInRange vars known.new.items) }
    ensures answer { IfOk result (λ b. MatchBool b (IsClauseOf numbers.now (map negated known.new.items))
        ((c : List Lit) → IsClauseOf numbers.now c → IsInRange vars c → ⊥)) }
{
    for number in numbers {
        let Some(lit) = lit_of(vars, *number) else {
            return Ok(false);
        };
        match values[lit.var as usize] {
            None => {
                values[lit.var as usize] = Some(lit.negative);
                known.push(lit.negated())?;
            }
            Some(value) => {
                if value != lit.negative {
                    return Ok(false);
                }
            }
        }
    }
    Ok(true)
}

/// Takes the values of these literals away.
pub fn forget(known: &[Lit], values: &mut [Option<bool>])
    requires in_range { IsInRange (length values.old) known.now }
    requires shows { Shows values.old known.now }
    ensures { IsBlank values.new }
{
    for lit in known {
        values[lit.var as usize] = None;
    }
}

// Whether an input clause or a step has this number.
fn is_number(cnf: &Cnf, steps: &[Step], number: u32) -> bool
    ensures { IsTrue result ↔ (number < length (clauses_of cnf.now.clauses steps.now)) }
{
    let number = number as usize;
    let inputs = cnf.clauses.len();
    number < inputs || number - inputs < steps.len()
}

// The clause of this number, where there is one.
fn find_clause<'a>(cnf: &'a Cnf, steps: &'a [Step], number: u32) -> Option<&'a [Lit]>
    requires { All (λ s. IsInRange cnf.now.vars s.clause) steps.now }
    ensures { MatchOption result (length (clauses_of cnf.now.clauses steps.now) ≤ number)
        (λ c. IsClauseAt cnf.now.vars (clauses_of cnf.now.clauses steps.now) number c.now) }
{
    if is_number(cnf, steps, number) {
        Some(clause_at(cnf, steps, number))
    } else {
        None
    }
}

/// How many of the hints refute the known literals, where the first so many do; it adds each literal that is forced.
pub fn follow(
    cnf: &Cnf,
    steps: &[Step],
    hints: &[u32],
    values: &mut [Option<bool>],
    known: &mut Vec<Lit>,
) -> Result<Option<usize>, AllocError>
    requires in_range { All (λ s. IsInRange cnf.now.vars s.clause) steps.now }
    requires room { cnf.now.vars ≤ length values.old }
    requires known_in_range { IsInRange cnf.now.vars known.old.items }
    requires shows { Shows values.old known.old.items }
    ensures shows { OnOk result (Shows values.new known.new.items) }
    ensures in_range { OnOk result (IsInRange cnf.now.vars known.new.items) }
    ensures answer { IfOk result (λ r. MatchOption r
        ((k : ℕ) → Refutes (clauses_of cnf.now.clauses steps.now) known.old.items (take k hints.now) → ⊥)
        (λ k. Refutes (clauses_of cnf.now.clauses steps.now) known.old.items (take k hints.now))) }
{
    for (i, hint) in hints.iter().enumerate() {
        let Some(clause) = find_clause(cnf, steps, *hint) else {
            return Ok(None);
        };
        match look_at(clause, values) {
            Look::False => return Ok(Some(i + 1)),
            Look::Unit(lit) => {
                values[lit.var as usize] = Some(!lit.negative);
                known.push(lit)?;
            }
            Look::Open => return Ok(None),
        }
    }
    Ok(None)
}
