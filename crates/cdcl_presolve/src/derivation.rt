// Steps over the input clauses. A technique hands over what it found as a clause, with the clauses from which that may
// follow; the hints are found here, by unit propagation. So no technique writes hints, and a wrong one costs its own
// work alone.

use clause_check::{Clause, Cnf, Lit, Look, Step, in_32_bits};
use std::alloc::{AllocError, Global};

// A clause that unit propagation used: what it forced, or none where it is false.
#[derive(Clone, Copy)]
struct Used {
    number: u32,
    forced: Option<Lit>,
}

/// Steps, each of which follows from the input clauses and the steps before it.
#[derive(Drop)]
pub struct Derivation<'a> {
    cnf: &'a Cnf,
    steps: Vec<Step>,
    // the literals that are assumed or forced; blank between calls
    values: Vec<Option<bool>>,
    // the variables whose values a conflict needs; none between calls
    needed: Vec<bool>,
}

// What the values make of the clause.
fn look(clause: &[Lit], values: &[Option<bool>]) -> Look {
    let mut unit: Option<Lit> = None;
    for lit in clause {
        match values.get(lit.var as usize) {
            Some(Some(value)) => {
                if *value != lit.negative {
                    return Look::Open;
                }
            }
            _ => {
                if unit.is_some() {
                    return Look::Open;
                }
                unit = Some(*lit);
            }
        }
    }
    match unit {
        None => Look::False,
        Some(lit) => Look::Unit(lit),
    }
}

// Gives the variable this value, or none.
fn set(values: &mut [Option<bool>], var: u32, value: Option<bool>) {
    if let Some(place) = values.get_mut(var as usize) {
        *place = value;
    }
}

// The clause of this number: input clauses come first, and after them those of the steps.
fn find_clause<'a>(cnf: &'a Cnf, steps: &'a [Step], number: u32) -> Option<&'a [Lit]> {
    let number = number as usize;
    match number.checked_sub(cnf.clauses.len()) {
        None => cnf.clauses.get(number),
        Some(place) => match steps.get(place) {
            Some(step) => Some(step.clause.lits()),
            None => None,
        },
    }
}

// Says of each variable of the clause whether it is needed.
fn mark_all(needed: &mut [bool], clause: &[Lit], is_needed: bool) {
    for lit in clause {
        if let Some(mark) = needed.get_mut(lit.var as usize) {
            *mark = is_needed;
        }
    }
}

// The literals, and one more.
fn with(alloc: Global, lits: &[Lit], lit: Lit) -> Result<Vec<Lit>, AllocError> {
    let mut longer = lits.to_vec(alloc)?;
    longer.push(lit)?;
    Ok(longer)
}

// The clause with each choice of signs for these variables, those that differ in the last sign alone side by side.
fn cases_of(alloc: Global, clause: &[Lit], splits: &[u32]) -> Result<Vec<Vec<Lit>>, AllocError> {
    let mut cases = vec![in alloc; clause.to_vec(alloc)?]?;
    for var in splits {
        let mut longer = Vec::new(alloc);
        for case in &cases {
            for negative in [false, true] {
                let lit = Lit {
                    var: *var,
                    negative,
                };
                longer.push(with(alloc, case, lit)?)?;
            }
        }
        cases = longer;
    }
    Ok(cases)
}

impl<'a> Derivation<'a> {
    /// No steps over this formula.
    pub fn new(alloc: Global, cnf: &'a Cnf) -> Result<Derivation<'a>, AllocError> {
        Ok(Derivation {
            cnf,
            steps: Vec::new(alloc),
            values: vec![in alloc; None; cnf.vars as usize]?,
            needed: vec![in alloc; false; cnf.vars as usize]?,
        })
    }

    /// The formula.
    pub fn cnf(&self) -> &'a Cnf {
        self.cnf
    }

    /// Whether the empty clause is derived.
    pub fn is_refuted(&self) -> bool {
        match self.steps.last() {
            Some(step) => step.clause.lits().is_empty(),
            None => false,
        }
    }

    /// The steps.
    pub fn into_steps(self) -> Vec<Step> {
        let Derivation {
            cnf: _,
            steps,
            values: _,
            needed: _,
        } = self;
        steps
    }

    // What the values make of the clause of this number.
    fn look_at(&self, number: u32) -> Look {
        match find_clause(self.cnf, self.steps.as_slice(), number) {
            Some(clause) => look(clause, self.values.as_slice()),
            None => Look::Open,
        }
    }

    // Makes true what these clauses force, until one of them is false. The answer is whether one is.
    fn propagate(&mut self, numbers: &[u32], trail: &mut Vec<Used>) -> Result<bool, AllocError> {
        for _ in numbers {
            let before = trail.len();
            for number in numbers {
                let number = *number;
                match self.look_at(number) {
                    Look::False => {
                        trail.push(Used {
                            number,
                            forced: None,
                        })?;
                        return Ok(true);
                    }
                    Look::Unit(lit) => {
                        set(self.values.as_mut_slice(), lit.var, Some(!lit.negative));
                        trail.push(Used {
                            number,
                            forced: Some(lit),
                        })?;
                    }
                    Look::Open => {}
                }
            }
            if trail.len() == before {
                return Ok(false);
            }
        }
        Ok(false)
    }

    // Says of each variable of the clause of this number whether it is needed.
    fn mark(&mut self, number: u32, is_needed: bool) {
        if let Some(clause) = find_clause(self.cnf, self.steps.as_slice(), number) {
            mark_all(self.needed.as_mut_slice(), clause, is_needed);
        }
    }

    // The clauses on the trail without which the last one would not be false.
    fn needed_of(&mut self, alloc: Global, trail: &[Used]) -> Result<Vec<u32>, AllocError> {
        let mut hints: Vec<u32> = Vec::new(alloc);
        for used in trail.iter().rev() {
            let needed = match used.forced {
                None => true,
                Some(lit) => self.needed.get(lit.var as usize).copied().unwrap_or(false),
            };
            if needed {
                self.mark(used.number, true);
                hints.push(used.number)?;
            }
        }
        for number in &hints {
            self.mark(*number, false);
        }
        hints.reverse();
        Ok(hints)
    }

    // Hints by which these clauses imply the clause, where unit propagation finds them.
    fn hints(
        &mut self,
        alloc: Global,
        clause: &[Lit],
        numbers: &[u32],
    ) -> Result<Option<Vec<u32>>, AllocError> {
        for lit in clause {
            set(self.values.as_mut_slice(), lit.var, Some(lit.negative));
        }
        let mut trail: Vec<Used> = Vec::new(alloc);
        let refuted = self.propagate(numbers, &mut trail)?;
        for lit in clause {
            set(self.values.as_mut_slice(), lit.var, None);
        }
        for used in &trail {
            if let Some(lit) = used.forced {
                set(self.values.as_mut_slice(), lit.var, None);
            }
        }
        if refuted {
            Ok(Some(self.needed_of(alloc, &trail)?))
        } else {
            Ok(None)
        }
    }

    /// Adds a step. The answer is the number of its clause; none where a variable stands twice, or the empty clause is
    /// derived: a refutation ends with it.
    pub fn add(
        &mut self,
        alloc: Global,
        lits: Vec<Lit>,
        hints: Vec<u32>,
    ) -> Result<Option<u32>, AllocError> {
        if self.is_refuted() {
            return Ok(None);
        }
        let inputs = self.cnf.clauses.len();
        let number = in_32_bits(inputs.saturating_add(self.steps.len()))?;
        match Clause::of(alloc, lits)? {
            Some(clause) => {
                self.steps.push(Step { clause, hints })?;
                Ok(Some(number))
            }
            None => Ok(None),
        }
    }

    // Joins the steps of all cases, two and two, to the step of the clause.
    fn join(
        &mut self,
        alloc: Global,
        clause: &[Lit],
        splits: &[u32],
        cases: Vec<u32>,
    ) -> Result<Option<u32>, AllocError> {
        let mut numbers = cases;
        for level in (0..splits.len()).rev() {
            let mut joined = Vec::new(alloc);
            let shorter = cases_of(alloc, clause, &splits[..level])?;
            for (lits, pair) in shorter.into_iter().zip(numbers.chunks(2)) {
                match self.add(alloc, lits, pair.to_vec(alloc)?)? {
                    Some(number) => joined.push(number)?,
                    None => return Ok(None),
                }
            }
            numbers = joined;
        }
        Ok(numbers.first().copied())
    }

    // Adds steps for the clause, one for each choice of values for the variables and those that join them, where unit
    // propagation finds hints in each case.
    fn derive_by_cases(
        &mut self,
        alloc: Global,
        clause: &[Lit],
        splits: &[u32],
        numbers: &[u32],
    ) -> Result<Option<u32>, AllocError> {
        let mut found = Vec::new(alloc);
        for lits in cases_of(alloc, clause, splits)? {
            match self.hints(alloc, lits.as_slice(), numbers)? {
                Some(hints) => found.push((lits, hints))?,
                None => return Ok(None),
            }
        }
        let mut cases: Vec<u32> = Vec::new(alloc);
        for (lits, hints) in found {
            match self.add(alloc, lits, hints)? {
                Some(number) => cases.push(number)?,
                None => return Ok(None),
            }
        }
        self.join(alloc, clause, splits, cases)
    }

    /// Adds steps by which the clauses of these numbers imply the clause, and gives its number; none where no hints are
    /// found. It looks at both values of each of the variables `splits`, which are few, where propagation alone isn't
    /// enough.
    pub fn derive(
        &mut self,
        alloc: Global,
        clause: &[Lit],
        splits: &[u32],
        numbers: &[u32],
    ) -> Result<Option<u32>, AllocError> {
        for depth in 0..splits.len() + 1 {
            if let Some(number) = self.derive_by_cases(alloc, clause, &splits[..depth], numbers)? {
                return Ok(Some(number));
            }
        }
        Ok(None)
    }
}
