// A netlist: each gate defines the variable of its position.
ghost use Rattle.std.specs.Prelude.{◌≡◌, [], ◌∷◌, ◌++◌, length, OnOk, IfOk};
ghost use Rattle.cnf_build.specs.Literals.{plus};

use crate::tidy::positive;
use clause_check::{Lit, in_32_bits};
use std::alloc::AllocError;

/// What defines a variable: nothing, or its value as a function of earlier literals. `Mux(c, a, b)` is `a` where `c` is
/// true, else `b`.
#[derive(Clone, Copy, Debug)]
pub enum Gate {
    True,
    Free,
    And(Lit, Lit),
    Xor(Lit, Lit),
    Mux(Lit, Lit, Lit),
}

/// Adds a gate, and gives the literal of its variable.
pub fn add_gate(gates: &mut Vec<Gate>, gate: Gate) -> Result<Lit, AllocError>
    ensures gate { OnOk result (gates.new.items ≡ gates.old.items ++ gate ∷ []) }
    ensures lit { IfOk result (λ l. l ≡ plus (length gates.old.items)) }
{
    let var = in_32_bits(gates.len())?;
    gates.push(gate)?;
    Ok(positive(var))
}
