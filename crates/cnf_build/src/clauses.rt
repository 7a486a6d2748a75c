// The clauses of a netlist.
ghost use Rattle.std.specs.Prelude.{◌≡◌, ◌++◌, IfOk, OnOk};
ghost use Rattle.std.specs.Option.{option_to_list};
ghost use Rattle.cnf_build.specs.Literals.{tidy, tidied};
ghost use Rattle.cnf_build.specs.Gates.{raw_clauses, clauses_from};

use crate::{Gate, is_tidy, negative, positive, tidy_clause};
use clause_check::{Clauses, Lit, in_32_bits};
use std::alloc::{AllocError, Global};

/// Adds the clause of these literals, unless it holds in any case. Most are a clause as they stand, which is added
/// without a copy.
pub fn add_clause(alloc: Global, clauses: &mut Clauses, lits: &[Lit]) -> Result<(), AllocError>
    ensures { OnOk result (clauses.new ≡ clauses.old ++ option_to_list (tidy lits.now)) }
{
    if is_tidy(lits) {
        return clauses.push(lits);
    }
    match tidy_clause(alloc, lits)? {
        Some(clause) => clauses.push(clause.lits()),
        None => Ok(()),
    }
}

// The clauses that say what the gate of a variable computes.
#[tactic(auto, using(crate::proofs::Joined::joined))]
fn add_gate_clauses(
    alloc: Global,
    clauses: &mut Clauses,
    var: u32,
    gate: Gate,
) -> Result<(), AllocError>
    ensures { OnOk result (clauses.new ≡ clauses.old ++ tidied (raw_clauses var gate)) }
{
    let on = positive(var);
    let off = negative(var);
    match gate {
        Gate::True => add_clause(alloc, clauses, &[on]),
        Gate::Free => Ok(()),
        Gate::And(a, b) => {
            add_clause(alloc, clauses, &[off, a])?;
            add_clause(alloc, clauses, &[off, b])?;
            add_clause(alloc, clauses, &[on, a.negated(), b.negated()])
        }
        Gate::Xor(a, b) => {
            add_clause(alloc, clauses, &[off, a, b])?;
            add_clause(alloc, clauses, &[off, a.negated(), b.negated()])?;
            add_clause(alloc, clauses, &[on, a.negated(), b])?;
            add_clause(alloc, clauses, &[on, a, b.negated()])
        }
        Gate::Mux(c, a, b) => {
            add_clause(alloc, clauses, &[c.negated(), off, a])?;
            add_clause(alloc, clauses, &[c.negated(), on, a.negated()])?;
            add_clause(alloc, clauses, &[c, off, b])?;
            add_clause(alloc, clauses, &[c, on, b.negated()])
        }
    }
}

/// The clauses of a netlist, in the order of its gates.
pub fn netlist_clauses(alloc: Global, gates: &[Gate]) -> Result<Clauses, AllocError>
    ensures { IfOk result (λ cs. cs ≡ clauses_from 0 gates.now) }
{
    let mut clauses = Clauses::new(alloc)?;
    for i in 0..gates.len() {
        add_gate_clauses(alloc, &mut clauses, in_32_bits(i)?, gates[i])?;
    }
    Ok(clauses)
}
