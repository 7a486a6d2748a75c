// Sweeps over the variables. In rising order each variable is read as a gate over variables before it, which are
// settled by then; a gate that was seen before is the same variable (structural hashing, as in AIGER and fraig
// packages). In falling order what outputs are known to be goes back to inputs. Both are repeated while they find
// something.

use crate::classes::turned;
use crate::facts::{Equality, Facts, Rest};
use crate::gates::{Gate, INPUTS, Part, add_inputs, gate_of};
use clause_check::{Cnf, Lit, in_32_bits};
use std::alloc::{AllocError, Global};
use std::collections::HashMap;

// How often the sweeps are repeated at most.
const ROUNDS: u64 = 16;

// How many clauses of a variable are read as its gates at most.
const PARTS: usize = 16;

// An open clause: the last of its variables, and its number.
type Place = (u32, u32);

// A variable that is a gate: the literal that is equal to the table, and the clauses that say so.
#[derive(Drop)]
struct Output {
    lit: Lit,
    sources: Vec<u32>,
}

// Sweeps over a formula.
#[derive(Drop)]
struct Sweep<'a> {
    facts: Facts<'a>,
    // the clauses that aren't known to hold, in the order of their last variables
    open: Vec<Place>,
    gates: HashMap<Gate, Output>,
}

// The inputs of these parts together, where they are few enough for a gate.
fn inputs_of(alloc: Global, parts: &[Part], out: u32) -> Result<Option<Vec<u32>>, AllocError> {
    let mut inputs = Vec::new(alloc);
    for part in parts {
        if !add_inputs(&mut inputs, part.lits.as_slice(), out)? {
            return Ok(None);
        }
    }
    Ok(Some(inputs))
}

// The sets of inputs over which the variable may be a gate: those of each two clauses that stand side by side, and then
// of each one. So what defines a variable, which comes first, is read before what says that it is equal to another one
// or its negation: if it is a gate that was seen before, a clause becomes false where the two don't fit.
fn choices(alloc: Global, parts: &[Part], out: u32) -> Result<Vec<Vec<u32>>, AllocError> {
    let mut found: Vec<Vec<u32>> = Vec::new(alloc);
    for size in [2, 1] {
        for group in parts.windows(size) {
            if let Some(inputs) = inputs_of(alloc, group, out)? {
                if !found.contains(&inputs) {
                    found.push(inputs)?;
                }
            }
        }
    }
    Ok(found)
}

// The last variable of a clause.
fn last_var(lits: &[Lit]) -> u32 {
    lits.iter().map(|l| l.var).max().unwrap_or(0)
}

// The numbers of the parts whose variables but this one are inputs.
fn sources_of(
    alloc: Global,
    parts: &[Part],
    out: u32,
    inputs: &[u32],
) -> Result<Vec<u32>, AllocError> {
    let mut sources = Vec::new(alloc);
    for part in parts {
        if part.is_within(out, inputs) {
            sources.push(part.number)?;
        }
    }
    Ok(sources)
}

impl<'a> Sweep<'a> {
    // Nothing is known, and each clause is open.
    fn new(alloc: Global, cnf: &'a Cnf) -> Result<Sweep<'a>, AllocError> {
        let mut open: Vec<Place> = Vec::new(alloc);
        for number in 0..in_32_bits(cnf.clauses.len())? {
            open.push((0, number))?;
        }
        Ok(Sweep {
            facts: Facts::new(alloc, cnf)?,
            open,
            gates: HashMap::new(alloc),
        })
    }

    // Reads each open clause: those that are left are sorted by their last variables.
    fn read(&mut self, alloc: Global) -> Result<(), AllocError> {
        for var in 0..self.facts.cnf().vars {
            self.facts.settle(alloc, var)?;
        }
        let mut left: Vec<Place> = Vec::new(alloc);
        for (_, number) in &self.open {
            if let Rest::Lits(lits) = self.facts.rest_of(alloc, *number)? {
                left.push((last_var(lits.as_slice()), *number))?;
            }
        }
        left.sort()?;
        self.open = left;
        Ok(())
    }

    // The clauses of this variable that are short enough for a gate, of the open ones from this place on.
    fn parts(&mut self, alloc: Global, out: u32, group: &[Place]) -> Result<Vec<Part>, AllocError> {
        let mut parts: Vec<Part> = Vec::new(alloc);
        for (_, number) in group {
            if let Rest::Lits(lits) = self.facts.rest_of(alloc, *number)? {
                let number = *number;
                if parts.len() < PARTS
                    && lits.len() <= INPUTS + 1
                    && last_var(lits.as_slice()) == out
                {
                    parts.push(Part { number, lits })?;
                }
            }
        }
        Ok(parts)
    }

    // Merges the variable with an earlier one that is the same gate, or else notes it.
    fn share(
        &mut self,
        alloc: Global,
        out: u32,
        gate: Gate,
        sources: Vec<u32>,
    ) -> Result<(), AllocError> {
        let negative = gate.value(0);
        let gate = if negative { gate.negated() } else { gate };
        match self.gates.get(&gate) {
            Some(output) => {
                let to = turned(output.lit, negative);
                let mut both = output.sources.to_vec(alloc)?;
                both.extend_from_slice(sources.as_slice())?;
                if to.var != out {
                    let equality = Equality { var: out, to };
                    self.facts
                        .merge(alloc, equality, gate.inputs.as_slice(), both.as_slice())?;
                }
            }
            None => {
                let lit = Lit { var: out, negative };
                self.gates.insert(gate, Output { lit, sources })?;
            }
        }
        Ok(())
    }

    // Makes known what the gate over these inputs says of the variable.
    fn use_gate(
        &mut self,
        alloc: Global,
        out: u32,
        inputs: &[u32],
        parts: &[Part],
    ) -> Result<(), AllocError> {
        let Some(gate) = gate_of(alloc, parts, out, inputs)? else {
            return Ok(());
        };
        let sources = sources_of(alloc, parts, out, inputs)?;
        match gate.inputs.as_slice() {
            [] => {
                let lit = Lit {
                    var: out,
                    negative: !gate.value(0),
                };
                self.facts.fix(alloc, lit, inputs, sources.as_slice())
            }
            [var] => {
                let to = Lit {
                    var: *var,
                    negative: gate.value(0),
                };
                let equality = Equality { var: out, to };
                self.facts
                    .merge(alloc, equality, inputs, sources.as_slice())
            }
            _ => self.share(alloc, out, gate, sources),
        }
    }

    // Reads the open clauses whose last variable is this one.
    fn visit(&mut self, alloc: Global, out: u32, group: &[Place]) -> Result<(), AllocError> {
        let parts = self.parts(alloc, out, group)?;
        for inputs in choices(alloc, parts.as_slice(), out)? {
            if self.facts.is_root(out) {
                self.use_gate(alloc, out, inputs.as_slice(), parts.as_slice())?;
            }
        }
        Ok(())
    }

    // Goes over the variables in rising order.
    fn rise(&mut self, alloc: Global) -> Result<(), AllocError> {
        self.gates = HashMap::new(alloc);
        let open = std::mem::replace(&mut self.open, Vec::new(alloc));
        for group in open.as_slice().chunk_by(|a, b| a.0 == b.0) {
            if self.facts.is_refuted() {
                break;
            }
            if let Some((out, _)) = group.first() {
                self.visit(alloc, *out, group)?;
            }
        }
        self.open = open;
        Ok(())
    }

    // Goes over the clauses in the falling order of their last variables.
    fn fall(&mut self, alloc: Global) -> Result<(), AllocError> {
        let open = std::mem::replace(&mut self.open, Vec::new(alloc));
        for (_, number) in open.iter().rev() {
            self.facts.rest_of(alloc, *number)?;
        }
        self.open = open;
        Ok(())
    }

    // Reads the clauses and sweeps, until nothing more is found or the sweeps have been repeated often enough.
    fn run(&mut self, alloc: Global) -> Result<(), AllocError> {
        for _ in 0..ROUNDS {
            self.read(alloc)?;
            self.rise(alloc)?;
            self.fall(alloc)?;
            if self.facts.is_refuted() || !self.facts.take_changed() {
                return Ok(());
            }
        }
        self.read(alloc)
    }
}

/// What sweeps over the formula find, and the numbers of the clauses that are left open.
pub fn swept<'a>(alloc: Global, cnf: &'a Cnf) -> Result<(Facts<'a>, Vec<u32>), AllocError> {
    let mut sweep = Sweep::new(alloc, cnf)?;
    sweep.run(alloc)?;
    let Sweep {
        facts,
        open,
        gates: _,
    } = sweep;
    let numbers = open.iter().map(|p| p.1).collect(alloc)?;
    Ok((facts, numbers))
}
