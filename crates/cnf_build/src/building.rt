// The clauses of an obligation.
ghost use Rattle.std.specs.Prelude.{◌≡◌, [], length, IfOk};
ghost use Rattle.std.specs.List.{All};
ghost use Rattle.word_dag.specs.Nodes.{FitFrom};
ghost use Rattle.cnf_build.specs.Lower.{netlist, lowered, ob_clauses, ob_bits};
ghost use Rattle.cnf_build.specs.Meaning.{read_words};
ghost use Rattle.cnf_build.specs.Built.{IsBits, Carries, at};
ghost use Rattle.clause_check.specs.Derivations.{Holds};

use crate::bits::{Vars, add_bits, read};
use crate::clauses::{add_clause, netlist_clauses};
use crate::lowering::{Wires, low_bit, node_lits, operand};
use crate::{Gate, add_gate};
use clause_check::{Cnf, in_32_bits};
use std::alloc::{AllocError, Global};
use word_dag::{Node, Ob};

// The gates of the nodes, the table of their literals, and the variables of the free ones.
#[derive(Drop)]
struct Lowered {
    gates: Vec<Gate>,
    table: Vec<Wires>,
    bits: Vec<Vars>,
}

fn lower(alloc: Global, nodes: &[Node]) -> Result<Lowered, AllocError>
    requires { FitFrom [] nodes.now }
    ensures gates { IfOk result (λ r. r.gates.items ≡ netlist nodes.now) }
    ensures table { IfOk result (λ r. r.table.items ≡ (lowered nodes.now).table) }
    ensures bits { IfOk result (λ r. r.bits.items ≡ ob_bits nodes.now) }
{
    let mut gates = Vec::new(alloc);
    add_gate(&mut gates, Gate::True)?;
    let mut table = Vec::new(alloc);
    let mut bits = Vec::new(alloc);
    for i in 0..nodes.len() {
        let node = &nodes[i];
        add_bits(alloc, &mut bits, node, gates.len())?;
        let lits = node_lits(alloc, &mut gates, &table, node)?;
        table.push(Wires::new(lits))?;
    }
    Ok(Lowered { gates, table, bits })
}

/// The clauses of an obligation, and for each free node in number order the variables of its bits, from the lowest.
#[derive(Drop)]
pub struct Built {
    pub cnf: Cnf,
    pub bits: Vec<Vars>,
    ghost in_range: { All (IsBits cnf.vars) bits.items },
}

/// The clauses of an obligation, which are satisfiable exactly where values of its free nodes make its root 1.
///
/// They depend on the nodes and the root alone. Variable 0 is true by the first clause; then come the nodes in number
/// order, the bits of each from the lowest. A bit of a free word is a new variable and a bit of a constant is variable
/// 0 or its negation; the other nodes rearrange literals or add gates. A gate takes a new variable and the clauses that
/// define it (G. S. Tseitin, On the complexity of derivation in propositional calculus, 1968). The last clause is the
/// root's bit. A literal stands once in a clause, and a clause with a literal and its negation is left out.
pub fn build(alloc: Global, ob: &Ob) -> Result<Built, AllocError>
    ensures clauses { IfOk result (λ b. b.cnf.clauses ≡ ob_clauses ob.now.nodes ob.now.root) }
    ensures vars { IfOk result (λ b. b.cnf.vars ≡ length (netlist ob.now.nodes)) }
    ensures bits { IfOk result (λ b. b.bits.items ≡ ob_bits ob.now.nodes) }
    ensures carries { IfOk result (λ b. Carries ob.now.nodes ob.now.root b.cnf b.bits.items) }
{
    let number = ob.root();
    let Lowered { gates, table, bits } = lower(alloc, ob.nodes())?;
    let mut clauses = netlist_clauses(alloc, &gates)?;
    let root = low_bit(operand(&table, number));
    add_clause(alloc, &mut clauses, &[root])?;
    let vars = in_32_bits(gates.len())?;
    Ok(Built {
        cnf: Cnf { vars, clauses },
        bits,
    })
}

impl Built {
    /// The number that an assignment that holds has in each list of bits. For the answer of `build` these are values of
    /// the free nodes at which the root is 1.
    pub fn values(&self, alloc: Global, assignment: &[bool]) -> Result<Vec<u64>, AllocError>
        requires { Holds self.now.cnf assignment.now }
        ensures { IfOk result (λ us. us.items ≡ read_words (at assignment.now) self.now.bits.items) }
    {
        let mut values = Vec::new(alloc);
        for vars in &self.bits {
            values.push(read(assignment, vars.list()))?;
        }
        Ok(values)
    }
}
