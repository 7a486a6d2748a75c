// Whether a claim holds, by a check of our own.
ghost use Rattle.std.specs.Prelude.{◌≡◌, ◌≤◌, ◌↔◌, IfOk, IsTrue, count_by, length};
ghost use Rattle.clause_check.specs.Derivations.{IsRefutation};
ghost use Rattle.word_dag.specs.Given.{is_free};
ghost use Rattle.helper_box.specs.Asked.{MakesRoot1, Passes};

use crate::claim::Claim;
use clause_check::{Cnf, Marks, Step, accept};
use std::alloc::{AllocError, Global};
use word_dag::{Node, Ob, Table, fits, value_at};

// How many nodes are free.
fn free_count(nodes: &[Node]) -> usize
    ensures { result ≡ count_by is_free nodes.now }
{
    let mut count = 0;
    for node in nodes {
        if is_free(node) {
            count += 1;
        }
    }
    count
}

fn is_free(node: &Node) -> bool
    ensures { result ≡ is_free node.now }
{
    matches!(node, Node::Free { .. })
}

/// Whether these are the values of the free words, one each, at which the root is 1.
pub fn makes_root_1(ob: &Ob, values: &[u64], table: &mut Table) -> bool
    requires room { length ob.now.nodes ≤ table.old }
    ensures root { IsTrue result ↔ MakesRoot1 ob.now values.now }
    ensures table { table.new ≡ table.old }
{
    values.len() == free_count(ob.nodes())
        && fits(ob.nodes(), values)
        && value_at(ob, values, table).value() == 1
}

fn refutes(alloc: Global, cnf: &Cnf, steps: &[Step]) -> Result<bool, AllocError>
    ensures { IfOk result (λ b. IsTrue b ↔ IsRefutation cnf.now steps.now) }
{
    let mut marks = Marks::new(alloc, cnf.vars)?;
    Ok(accept(cnf, steps, &mut marks))
}

/// Whether a claim passes.
pub fn passes(alloc: Global, ob: &Ob, cnf: &Cnf, claim: &Claim) -> Result<bool, AllocError>
    ensures { IfOk result (λ b. IsTrue b ↔ Passes ob.now cnf.now claim.now) }
{
    match claim {
        Claim::Nothing => Ok(true),
        Claim::Unsat(steps) => refutes(alloc, cnf, steps),
        Claim::Values(values) => {
            let mut table = Table::new(alloc, ob.nodes().len())?;
            Ok(makes_root_1(ob, values, &mut table))
        }
    }
}
