// The segments of a design as nodes.
ghost use Rattle.std.specs.Prelude.{◌≡◌, IfOk};
ghost use Rattle.std.specs.List.{AllZip};
ghost use Rattle.elab_step_expr.specs.Nodes.{AddsFrees};
ghost use Rattle.twin_tests.specs.Reading.{HasStructure};
ghost use Rattle.unroll.specs.Copies.{IsPlaceOf};
ghost use Rattle.unroll.specs.Unrolled.{AreSegments, IsSourceWord};
ghost use Rattle.word_dag.specs.Adding.{Grows};

use crate::rows::{place_of, segment_nodes};
use std::alloc::{AllocError, Global};
use twin_tests::{NodeRow, largest_window};
use unroll_binding::Bound;
use word_dag::Dag;

/// The rows of a design's segments from cycle 0 on: behind reset cycles, and without them.
#[derive(Drop)]
pub struct Segments {
    pub after_reset: Vec<NodeRow>,
    pub plain: Vec<NodeRow>,
}

/// The places of the declared names' signals among the nodes of the design.
pub fn places_of(alloc: Global, bound: &Bound) -> Result<Vec<u64>, AllocError>
    ensures { IfOk result (λ places. AllZip (IsPlaceOf bound.now.design) bound.now.set.names places.items) }
{
    let design = bound.design();
    let nets = design.nets();
    let mut places = Vec::new(alloc);
    for name in bound.set().set().names.as_slice() {
        let place = place_of(nets, name.name.bytes()).unwrap();
        places.push(place)?;
    }
    Ok(places)
}

/// The rows of both kinds of segments, so far that each line of the design fits.
pub fn segments_of(alloc: Global, dag: &mut Dag, bound: &Bound) -> Result<Segments, AllocError>
    requires { HasStructure bound.now.set }
    ensures grows { IfOk result (λ _. Grows dag.old dag.new) }
    ensures frees { IfOk result (λ _. AddsFrees (IsSourceWord bound.now.design) dag.old dag.new) }
    ensures segments { IfOk result (λ segments. AreSegments bound.now.design bound.now.set dag.new segments) }
{
    let places = places_of(alloc, bound)?;
    let set = bound.set().set();
    let window = set.first.window;
    let after_reset = segment_nodes(alloc, dag, bound, places.as_slice(), set.cycles, window + 1)?;
    let count = largest_window(set).max(1) + 1;
    let plain = segment_nodes(alloc, dag, bound, places.as_slice(), 0, count)?;
    Ok(Segments { after_reset, plain })
}
