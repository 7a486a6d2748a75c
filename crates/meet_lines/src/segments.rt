// The segments of a design as nodes, as far as the largest window.
ghost use Rattle.std.specs.Prelude.{◌≡◌, ◌≤◌, IfOk};
ghost use Rattle.elab_step_expr.specs.Nodes.{AddsFrees};
ghost use Rattle.meet_lines.specs.Segments.{AreSegments};
ghost use Rattle.set_tree.specs.Parts.{largest_window};
ghost use Rattle.twin_tests.specs.Reading.{HasStructure};
ghost use Rattle.unroll.specs.Unrolled.{IsSourceWord};
ghost use Rattle.word_dag.specs.Adding.{Grows};

use set_tree::Set;
use std::alloc::{AllocError, Global};
use twin_tests::NodeRow;
use unroll::{places_of, segment_nodes};
use unroll_binding::Bound;
use word_dag::Dag;

/// The rows of a design's segments from cycle 0 on: behind reset cycles, and without them.
#[derive(Drop)]
pub struct Segments {
    pub after_reset: Vec<NodeRow>,
    pub plain: Vec<NodeRow>,
}

/// The largest window of the properties.
pub fn largest_window(set: &Set) -> u8
    requires { HasStructure set.now }
    ensures largest { result ≡ largest_window set.now }
    ensures small { result ≤ 64 }
{
    let mut largest = set.first.window;
    for property in set.operations.as_slice() {
        largest = largest.max(property.window);
    }
    largest
}

/// The rows of both kinds of segments up to the largest window.
pub fn segments_of(alloc: Global, dag: &mut Dag, bound: &Bound) -> Result<Segments, AllocError>
    requires { HasStructure bound.now.set }
    ensures grows { IfOk result (λ _. Grows dag.old dag.new) }
    ensures frees { IfOk result (λ _. AddsFrees (IsSourceWord bound.now.design) dag.old dag.new) }
    ensures segments { IfOk result (λ segments. AreSegments bound.now.design bound.now.set dag.new segments) }
{
    let places = places_of(alloc, bound)?;
    let set = bound.set().set();
    let count = largest_window(set) + 1;
    let after_reset = segment_nodes(alloc, dag, bound, places.as_slice(), set.cycles, count)?;
    let plain = segment_nodes(alloc, dag, bound, places.as_slice(), 0, count)?;
    Ok(Segments { after_reset, plain })
}
