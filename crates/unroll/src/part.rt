// Invariants and commitments in rows of nodes.
ghost use Rattle.std.specs.Prelude.{◌≡◌, ◌<◌, not, List, length, slice_get, IfOk};
ghost use Rattle.unroll_laws.specs.Tests.{fails, meets_invariants};
ghost use Rattle.set_tree.specs.Formulas.{meaning_of};
ghost use Rattle.set_tree.specs.Meaning.{Row};
ghost use Rattle.set_tree.specs.Parts.{committed};
ghost use Rattle.twin_tests.specs.Building.{AreLeaves, HasWidth, Shows, Tests};
ghost use Rattle.twin_tests.specs.Reading.{FollowsWithin, HasStructure};
ghost use Rattle.word_dag.specs.Adding.{Keeps};
ghost use Rattle.word_dag.specs.Nodes.{Naming};

use set_tree::Set;
use std::alloc::{AllocError, Global};
use twin_tests::{NodeRow, all_node, both, constant, negated, property_of, test_node};
use word_dag::Dag;

/// Whether each invariant holds in the first row.
pub fn invariants_node(
    alloc: Global,
    dag: &mut Dag,
    set: &Set,
    rows: &[NodeRow],
) -> Result<u64, AllocError>
    requires structure { HasStructure set.now }
    requires some { 0 < length rows.now }
    requires leaves { AreLeaves set.now.names dag.old rows.now }
    ensures keeps { IfOk result (λ _. Keeps dag.old dag.new) }
    ensures width { IfOk result (λ i. HasWidth dag.new i 1) }
    ensures node { IfOk result (λ i. (f : Naming → List Row) → Shows set.now.names dag.old rows.now f →
        Tests dag.new i (λ e. meets_invariants (meaning_of set.now) set.now (f e))) }
{
    let mut all = constant(dag, true)?;
    for rule in set.invariants.as_slice() {
        let one = test_node(alloc, dag, set, rows, &rule.formula)?;
        all = both(dag, all, one)?;
    }
    Ok(all)
}

/// Whether the invariant at a position doesn't hold in the first row.
#[tactic(auto, using(elab_step_expr::proofs::Kept::keeps_then))]
pub fn fails_node(
    alloc: Global,
    dag: &mut Dag,
    set: &Set,
    at: u32,
    rows: &[NodeRow],
) -> Result<u64, AllocError>
    requires structure { HasStructure set.now }
    requires some { 0 < length rows.now }
    requires leaves { AreLeaves set.now.names dag.old rows.now }
    ensures keeps { IfOk result (λ _. Keeps dag.old dag.new) }
    ensures width { IfOk result (λ i. HasWidth dag.new i 1) }
    ensures node { IfOk result (λ i. (f : Naming → List Row) → Shows set.now.names dag.old rows.now f →
        Tests dag.new i (λ e. fails (meaning_of set.now) (slice_get set.now.invariants at) (f e))) }
{
    match set.invariants.as_slice().get(at as usize) {
        Some(rule) => {
            let holds = test_node(alloc, dag, set, rows, &rule.formula)?;
            negated(dag, holds)
        }
        None => constant(dag, false),
    }
}

/// Whether a property that starts in the first row doesn't commit.
#[tactic(auto, using(elab_step_expr::proofs::Kept::keeps_then))]
pub fn broken_node(
    alloc: Global,
    dag: &mut Dag,
    set: &Set,
    at: usize,
    rows: &[NodeRow],
) -> Result<u64, AllocError>
    requires structure { HasStructure set.now }
    requires follows { FollowsWithin set.now (length rows.now) at }
    requires leaves { AreLeaves set.now.names dag.old rows.now }
    ensures keeps { IfOk result (λ _. Keeps dag.old dag.new) }
    ensures width { IfOk result (λ i. HasWidth dag.new i 1) }
    ensures node { IfOk result (λ i. (f : Naming → List Row) → Shows set.now.names dag.old rows.now f →
        Tests dag.new i (λ e. not (committed (meaning_of set.now) set.now at (f e)))) }
{
    let formulas = property_of(set, at).commit.as_slice();
    let holds = all_node(alloc, dag, set, rows, formulas)?;
    negated(dag, holds)
}
