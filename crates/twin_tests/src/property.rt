// Where properties start in rows of nodes.
ghost use Rattle.std.specs.Prelude.{◌≡◌, ◌<◌, List, length, IfOk};
ghost use Rattle.twin_tests_laws.specs.Tests.{starts};
ghost use Rattle.set_tree.specs.Formulas.{meaning_of};
ghost use Rattle.set_tree.specs.Meaning.{Row};
ghost use Rattle.set_tree.specs.Parts.{IsPosition, assumed, property_at};
ghost use Rattle.twin_tests.specs.Building.{AreLeaves, HasWidth, Shows, Tests};
ghost use Rattle.twin_tests.specs.Reading.{FollowsWithin, HasStructure};
ghost use Rattle.word_dag.specs.Adding.{Keeps};
ghost use Rattle.word_dag.specs.Nodes.{Naming};

use crate::formula::all_node;
use crate::window::NodeRow;
use crate::words::{both, constant};
use set_tree::{Property, Set};
use std::alloc::{AllocError, Global};
use word_dag::Dag;

/// The property at a position: 0 is that of reset.
pub fn property_of(set: &Set, at: usize) -> &Property
    requires { IsPosition set.now at }
    ensures { result.now ≡ property_at set.now at }
{
    if at == 0 {
        return &set.first;
    }
    let operations = set.operations.as_slice();
    &operations[at - 1]
}

/// Whether a property that starts in the first row is assumed to.
pub fn assumed_node(
    alloc: Global,
    dag: &mut Dag,
    set: &Set,
    at: usize,
    rows: &[NodeRow],
) -> Result<u64, AllocError>
    requires structure { HasStructure set.now }
    requires follows { FollowsWithin set.now (length rows.now) at }
    requires leaves { AreLeaves set.now.names dag.old rows.now }
    ensures keeps { IfOk result (λ _. Keeps dag.old dag.new) }
    ensures width { IfOk result (λ i. HasWidth dag.new i 1) }
    ensures node { IfOk result (λ i. (f : Naming → List Row) → Shows set.now.names dag.old rows.now f →
        Tests dag.new i (λ e. assumed (meaning_of set.now) set.now at (f e))) }
{
    if at == 0 {
        return constant(dag, true);
    }
    let formulas = property_of(set, at).assume.as_slice();
    all_node(alloc, dag, set, rows, formulas)
}

/// Whether a property starts in the first row: its assumptions and its commitments hold.
pub fn starts_node(
    alloc: Global,
    dag: &mut Dag,
    set: &Set,
    at: usize,
    rows: &[NodeRow],
) -> Result<u64, AllocError>
    requires structure { HasStructure set.now }
    requires follows { FollowsWithin set.now (length rows.now) at }
    requires leaves { AreLeaves set.now.names dag.old rows.now }
    ensures keeps { IfOk result (λ _. Keeps dag.old dag.new) }
    ensures width { IfOk result (λ i. HasWidth dag.new i 1) }
    ensures node { IfOk result (λ i. (f : Naming → List Row) → Shows set.now.names dag.old rows.now f →
        Tests dag.new i (λ e. starts (meaning_of set.now) set.now at (f e))) }
{
    let assumed = assumed_node(alloc, dag, set, at, rows)?;
    let formulas = property_of(set, at).commit.as_slice();
    let committed = all_node(alloc, dag, set, rows, formulas)?;
    both(dag, assumed, committed)
}
