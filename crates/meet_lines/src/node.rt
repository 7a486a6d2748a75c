// The lines of what can be met as nodes.
ghost use Rattle.std.specs.Prelude.{List, length, IfOk};
ghost use Rattle.meet_lines.specs.Lines.{SpeaksOf};
ghost use Rattle.meet_lines.specs.Segments.{AreSegments};
ghost use Rattle.meet_lines.specs.Tests.{meet_test, meets_operation};
ghost use Rattle.set_tree.specs.Formulas.{meaning_of};
ghost use Rattle.set_tree.specs.Meaning.{Row};
ghost use Rattle.twin_tests.specs.Building.{AreLeaves, HasWidth, Shows, Tests};
ghost use Rattle.twin_tests.specs.Reading.{FollowsWithin, HasStructure};
ghost use Rattle.word_dag.specs.Adding.{Keeps};
ghost use Rattle.word_dag.specs.Nodes.{Naming};
ghost use Rattle.elab_step_design.specs.Designs.{Parts};

use crate::line::MeetLine;
use crate::segments::Segments;
use set_tree::Set;
use std::alloc::{AllocError, Global};
use twin_tests::{NodeRow, assumed_node, both, constraints_node, property_of, rows_before};
use unroll::begins_node;
use word_dag::Dag;

// The constraints that fit hold, the invariants in the first row, and the operation is assumed there.
#[tactic(auto, using(unroll::proofs::Joining::joins))]
fn operation_node(
    alloc: Global,
    dag: &mut Dag,
    set: &Set,
    at: usize,
    rows: &[NodeRow],
) -> Result<u64, AllocError>
    requires structure { HasStructure set.now }
    requires follows { FollowsWithin set.now (length rows.now) at }
    requires leaves { AreLeaves set.now.names dag.old rows.now }
    ensures keeps { IfOk result (λ _. Keeps dag.old dag.new) }
    ensures width { IfOk result (λ i. HasWidth dag.new i 1) }
    ensures node { IfOk result (λ i. (f : Naming → List Row) → Shows set.now.names dag.old rows.now f
        → Tests dag.new i (λ e. meets_operation (meaning_of set.now) set.now at (f e))) }
{
    let begins = begins_node(alloc, dag, set, rows)?;
    let assumed = assumed_node(alloc, dag, set, at, rows)?;
    both(dag, begins, assumed)
}

/// A line as a node: 1 exactly at values whose segment meets it.
pub fn line_node(
    alloc: Global,
    dag: &mut Dag,
    set: &Set,
    line: MeetLine,
    segments: &Segments,
) -> Result<u64, AllocError>
    requires structure { HasStructure set.now }
    requires line { SpeaksOf set.now line }
    requires segments { (d : Parts) × AreSegments d set.now dag.old segments.now }
    ensures keeps { IfOk result (λ _. Keeps dag.old dag.new) }
    ensures width { IfOk result (λ i. HasWidth dag.new i 1) }
    ensures node { IfOk result (λ i. (d : Parts) → AreSegments d set.now dag.old segments.now
        → Tests dag.new i (meet_test d (meaning_of set.now) set.now line)) }
{
    match line {
        MeetLine::Reset => {
            let rows = segments.after_reset.as_slice();
            constraints_node(alloc, dag, set, rows)
        }
        MeetLine::Operation(p) => {
            let end = property_of(set, p as usize).window as usize;
            let rows = rows_before(segments.plain.as_slice(), end + 1);
            operation_node(alloc, dag, set, p as usize, rows)
        }
    }
}
