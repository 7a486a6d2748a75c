// The clauses of a variable that was eliminated, from which it gets a value again.

use clause_check::Lit;

/// A literal of an eliminated variable, and the clauses that had it. Clauses that had its negation hold where it is
/// false; where one of these needs it to be true, the resolvents make all others hold too.
#[derive(Drop)]
pub struct Aside {
    pub lit: Lit,
    pub clauses: Vec<Vec<Lit>>,
}

// Whether each literal of the clause but those of this variable is false.
fn needs(clause: &[Lit], var: u32, values: &[bool]) -> bool {
    for lit in clause {
        let value = values.get(lit.var as usize).copied().unwrap_or(false);
        if lit.var != var && value != lit.negative {
            return false;
        }
    }
    true
}

impl Aside {
    /// Gives the variable the value with which the clauses hold, where all later ones have theirs.
    pub fn restore(&self, values: &mut [bool]) {
        let mut is_needed = false;
        for clause in &self.clauses {
            if needs(clause.as_slice(), self.lit.var, values) {
                is_needed = true;
            }
        }
        if let Some(value) = values.get_mut(self.lit.var as usize) {
            *value = is_needed != self.lit.negative;
        }
    }
}
