// Faults of the structure of a set, whose positions are written as the names that they stand for.
ghost use Rattle.std.specs.Prelude.{◌≡◌, ◌++◌, IfOk};
ghost use Rattle.twin_tests_laws.specs.Names.{invariant_name, property_name};
ghost use Rattle.desk_core_faults.specs.Texts.{graph_text, output_name, place_name, stop_text};

use crate::SetStop;
use crate::put::with_word;
use crate::reading::set_text;
use outside::Text;
use set_tree::Set;
use set_tree_structure::{GraphFault, Place};
use std::alloc::{AllocError, Global};

// The name of the property at a position: that of the reset property is `reset`.
fn property_name(set: &Set, at: u32) -> &[u8]
    ensures { result.now ≡ property_name set.now at }
{
    if at == 0 {
        return b"reset";
    }
    match set.operations.as_slice().get(at as usize - 1) {
        Some(operation) => operation.name.bytes(),
        None => set.first.name.bytes(),
    }
}

// The name of the invariant at a position.
fn invariant_name(set: &Set, at: u32) -> &[u8]
    ensures { result.now ≡ invariant_name set.now at }
{
    match set.invariants.as_slice().get(at as usize) {
        Some(rule) => rule.name.bytes(),
        None => b"",
    }
}

// The declared name at a position.
fn output_name(set: &Set, at: u32) -> &[u8]
    ensures { result.now ≡ output_name set.now at }
{
    match set.names.as_slice().get(at as usize) {
        Some(name) => name.name.bytes(),
        None => b"",
    }
}

fn place_name(set: &Set, place: Place) -> &[u8]
    ensures { result.now ≡ place_name set.now place }
{
    match place {
        Place::Property(at) => property_name(set, at),
        Place::Invariant(at) => invariant_name(set, at),
        Place::Output(at) => output_name(set, at),
    }
}

/// A fault of the structure of a set.
pub fn graph_text(alloc: Global, set: &Set, fault: GraphFault) -> Result<Text, AllocError>
    ensures { IfOk result (λ text. text ≡ graph_text set.now fault) }
{
    match fault {
        GraphFault::Tile(from, to, output) => {
            let text = with_word(alloc, b"Tile", property_name(set, from))?;
            let text = with_word(alloc, text.bytes(), property_name(set, to))?;
            with_word(alloc, text.bytes(), output_name(set, output))
        }
        GraphFault::Cover(at, output) => {
            let text = with_word(alloc, b"Cover", property_name(set, at))?;
            with_word(alloc, text.bytes(), output_name(set, output))
        }
        GraphFault::Offset(place) => with_word(alloc, b"Offset", place_name(set, place)),
        GraphFault::IntoReset(at) => with_word(alloc, b"IntoReset", property_name(set, at)),
        GraphFault::HandAtReset => Text::copy(alloc, b"HandAtReset"),
    }
}

/// What stops a set's text.
pub fn stop_text(alloc: Global, stop: &SetStop) -> Result<Text, AllocError>
    ensures { IfOk result (λ text. text ≡ stop_text stop.now) }
{
    match stop {
        SetStop::TooLong => with_word(alloc, b"Limit", b"long"),
        SetStop::Read(fault) => set_text(alloc, fault),
        SetStop::Graph(unsound) => graph_text(alloc, &unsound.set, unsound.fault),
    }
}
