// The lines of a design as nodes.
ghost use Rattle.std.specs.Prelude.{◌≡◌, ◌<◌, ◌&&◌, List, length, IfOk};
ghost use Rattle.twin_tests_laws.specs.Tests.{meets_constraints};
ghost use Rattle.unroll_laws.specs.Tests.{meets_invariants, violates_base, violates_operation, violates_reset, violates_step};
ghost use Rattle.set_tree.specs.Formulas.{meaning_of};
ghost use Rattle.set_tree.specs.Meaning.{Row};
ghost use Rattle.twin_tests.specs.Building.{AreLeaves, HasWidth, Shows, Tests};
ghost use Rattle.twin_tests.specs.Reading.{FollowsWithin, HasStructure};
ghost use Rattle.word_dag.specs.Adding.{Keeps};
ghost use Rattle.word_dag.specs.Nodes.{Naming};

use crate::part::{broken_node, fails_node, invariants_node};
use set_tree::Set;
use std::alloc::{AllocError, Global};
use twin_tests::{NodeRow, assumed_node, both, constraints_node, rows_after};
use word_dag::Dag;

/// `base i`: in the row after reset the constraints that fit hold, and the invariant doesn't.
#[tactic(auto, using(crate::proofs::Joining::joins))]
pub fn base_node(
    alloc: Global,
    dag: &mut Dag,
    set: &Set,
    at: u32,
    rows: &[NodeRow],
) -> Result<u64, AllocError>
    requires structure { HasStructure set.now }
    requires some { 0 < length rows.now }
    requires leaves { AreLeaves set.now.names dag.old rows.now }
    ensures keeps { IfOk result (λ _. Keeps dag.old dag.new) }
    ensures width { IfOk result (λ i. HasWidth dag.new i 1) }
    ensures node { IfOk result (λ i. (f : Naming → List Row) → Shows set.now.names dag.old rows.now f →
        Tests dag.new i (λ e. violates_base (meaning_of set.now) set.now at (f e))) }
{
    let met = constraints_node(alloc, dag, set, rows)?;
    let fails = fails_node(alloc, dag, set, at, rows)?;
    both(dag, met, fails)
}

/// Whether the constraints that fit hold, and the invariants in the first row.
#[tactic(auto, using(crate::proofs::Joining::joins))]
pub fn begins_node(
    alloc: Global,
    dag: &mut Dag,
    set: &Set,
    rows: &[NodeRow],
) -> Result<u64, AllocError>
    requires structure { HasStructure set.now }
    requires some { 0 < length rows.now }
    requires leaves { AreLeaves set.now.names dag.old rows.now }
    ensures keeps { IfOk result (λ _. Keeps dag.old dag.new) }
    ensures width { IfOk result (λ i. HasWidth dag.new i 1) }
    ensures node { IfOk result (λ i. (f : Naming → List Row) → Shows set.now.names dag.old rows.now f →
        Tests dag.new i (λ e. meets_constraints (meaning_of set.now) set.now (f e) &&
        meets_invariants (meaning_of set.now) set.now (f e))) }
{
    let met = constraints_node(alloc, dag, set, rows)?;
    let invariants = invariants_node(alloc, dag, set, rows)?;
    both(dag, met, invariants)
}

/// `step i`: the constraints that fit hold, the invariants in the first row, and the invariant not in the second.
#[tactic(auto, using(crate::proofs::Joining::joins))]
pub fn step_node(
    alloc: Global,
    dag: &mut Dag,
    set: &Set,
    at: u32,
    rows: &[NodeRow],
) -> Result<u64, AllocError>
    requires structure { HasStructure set.now }
    requires two { 1 < length rows.now }
    requires leaves { AreLeaves set.now.names dag.old rows.now }
    ensures keeps { IfOk result (λ _. Keeps dag.old dag.new) }
    ensures width { IfOk result (λ i. HasWidth dag.new i 1) }
    ensures node { IfOk result (λ i. (f : Naming → List Row) → Shows set.now.names dag.old rows.now f →
        Tests dag.new i (λ e. violates_step (meaning_of set.now) set.now at (f e))) }
{
    let begins = begins_node(alloc, dag, set, rows)?;
    let fails = fails_node(alloc, dag, set, at, rows_after(rows, 1))?;
    both(dag, begins, fails)
}

/// `reset`: the constraints that fit hold, and the reset property doesn't commit.
#[tactic(auto, using(crate::proofs::Joining::joins))]
pub fn reset_node(
    alloc: Global,
    dag: &mut Dag,
    set: &Set,
    rows: &[NodeRow],
) -> Result<u64, AllocError>
    requires structure { HasStructure set.now }
    requires follows { FollowsWithin set.now (length rows.now) 0 }
    requires leaves { AreLeaves set.now.names dag.old rows.now }
    ensures keeps { IfOk result (λ _. Keeps dag.old dag.new) }
    ensures width { IfOk result (λ i. HasWidth dag.new i 1) }
    ensures node { IfOk result (λ i. (f : Naming → List Row) → Shows set.now.names dag.old rows.now f →
        Tests dag.new i (λ e. violates_reset (meaning_of set.now) set.now (f e))) }
{
    let met = constraints_node(alloc, dag, set, rows)?;
    let broken = broken_node(alloc, dag, set, 0, rows)?;
    both(dag, met, broken)
}

/// `op P`: the constraints that fit hold, the invariants in the first row, and P is assumed there and doesn't commit.
#[tactic(auto, using(crate::proofs::Joining::joins))]
pub fn operation_node(
    alloc: Global,
    dag: &mut Dag,
    set: &Set,
    at: usize,
    rows: &[NodeRow],
) -> Result<u64, AllocError>
    requires structure { HasStructure set.now }
    requires follows { FollowsWithin set.now (length rows.now) at }
    requires leaves { AreLeaves set.now.names dag.old rows.now }
    ensures keeps { IfOk result (λ _. Keeps dag.old dag.new) }
    ensures width { IfOk result (λ i. HasWidth dag.new i 1) }
    ensures node { IfOk result (λ i. (f : Naming → List Row) → Shows set.now.names dag.old rows.now f →
        Tests dag.new i (λ e. violates_operation (meaning_of set.now) set.now at (f e))) }
{
    let begins = begins_node(alloc, dag, set, rows)?;
    let assumed = assumed_node(alloc, dag, set, at, rows)?;
    let starts = both(dag, begins, assumed)?;
    let broken = broken_node(alloc, dag, set, at, rows)?;
    both(dag, starts, broken)
}
