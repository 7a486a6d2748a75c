// Gates, read back from clauses. The clauses of a variable say what it is at each value of the others in them, or leave
// it open. Where they leave nothing open, the variable is a gate: a table over at most three inputs. So conjunctions,
// exclusive disjunctions, multiplexers and all that becomes of them when inputs are known or equal are one case, and so
// are gates whose inputs come in another order.

use clause_check::Lit;
use std::alloc::{AllocError, Global};

/// The most inputs that a gate has.
pub const INPUTS: usize = 3;

/// A clause over variables of which nothing is known, and the number of the clause of which this is left.
#[derive(Drop)]
pub struct Part {
    pub number: u32,
    pub lits: Vec<Lit>,
}

/// A function of at most three variables, which stand in rising order. Row `r` has the value where input `i` is bit `i`
/// of `r`; rows that differ only in inputs that aren't there are equal.
#[derive(PartialEq, Eq, Hash, Drop)]
pub struct Gate {
    pub inputs: Vec<u32>,
    pub rows: [bool; 8],
}

// The value of the input at this place in a row.
fn bit(row: usize, place: usize) -> bool {
    match place {
        0 => row % 2 == 1,
        1 => row / 2 % 2 == 1,
        _ => row / 4 % 2 == 1,
    }
}

// The row that differs from this one in the input at this place alone.
fn other_row(row: usize, place: usize) -> usize {
    let step = match place {
        0 => 1,
        1 => 2,
        _ => 4,
    };
    if bit(row, place) {
        row.saturating_sub(step)
    } else {
        row.saturating_add(step)
    }
}

/// Adds the clause's variables but this one to the inputs, in rising order and each once. The answer is whether they
/// are few enough for a gate.
pub fn add_inputs(inputs: &mut Vec<u32>, lits: &[Lit], out: u32) -> Result<bool, AllocError> {
    for lit in lits {
        if lit.var == out || inputs.contains(&lit.var) {
            continue;
        }
        if INPUTS <= inputs.len() {
            return Ok(false);
        }
        inputs.push(lit.var)?;
        inputs.sort()?;
    }
    Ok(true)
}

impl Part {
    // The value that the clause gives to the variable in a row of these inputs, where it gives one.
    fn forces(&self, out: u32, inputs: &[u32], row: usize) -> Option<bool> {
        let mut value = None;
        for lit in &self.lits {
            if lit.var == out {
                value = Some(!lit.negative);
                continue;
            }
            let place = inputs.iter().position(|v| *v == lit.var)?;
            if bit(row, place) != lit.negative {
                return None;
            }
        }
        value
    }

    /// Whether each variable of the clause but this one is an input.
    pub fn is_within(&self, out: u32, inputs: &[u32]) -> bool {
        self.lits
            .iter()
            .all(|l| l.var == out || inputs.contains(&l.var))
    }
}

// The value that the clauses give to the variable in a row of these inputs, where they give one.
fn forced(parts: &[Part], out: u32, inputs: &[u32], row: usize) -> Option<bool> {
    for part in parts {
        if let Some(value) = part.forces(out, inputs, row) {
            return Some(value);
        }
    }
    None
}

/// The gate that the clauses make of the variable over these inputs, where they make one.
pub fn gate_of(
    alloc: Global,
    parts: &[Part],
    out: u32,
    inputs: &[u32],
) -> Result<Option<Gate>, AllocError> {
    let mut rows = [false; 8];
    for (row, value) in rows.iter_mut().enumerate() {
        match forced(parts, out, inputs, row) {
            Some(forced) => *value = forced,
            None => return Ok(None),
        }
    }
    let gate = Gate {
        inputs: inputs.to_vec(alloc)?,
        rows,
    };
    Ok(Some(gate.lean(alloc)?))
}

impl Gate {
    /// The value in a row.
    pub fn value(&self, row: usize) -> bool {
        self.rows.get(row).copied().unwrap_or(false)
    }

    // Whether the value depends on the input at this place.
    fn depends(&self, place: usize) -> bool {
        (0..8).any(|row| self.value(row) != self.value(other_row(row, place)))
    }

    // The same function, with no input on which it doesn't depend.
    fn lean(self, alloc: Global) -> Result<Gate, AllocError> {
        let mut inputs = Vec::new(alloc);
        let mut places: Vec<usize> = Vec::new(alloc);
        for (place, var) in self.inputs.iter().enumerate() {
            if self.depends(place) {
                inputs.push(*var)?;
                places.push(place)?;
            }
        }
        let mut rows = [false; 8];
        for (row, value) in rows.iter_mut().enumerate() {
            let mut source = 0;
            for (place, old) in places.iter().enumerate() {
                if bit(row, place) {
                    source = other_row(source, *old);
                }
            }
            *value = self.value(source);
        }
        Ok(Gate { inputs, rows })
    }

    /// The negation.
    pub fn negated(self) -> Gate {
        let Gate { inputs, mut rows } = self;
        for value in rows.iter_mut() {
            *value = !*value;
        }
        Gate { inputs, rows }
    }
}
