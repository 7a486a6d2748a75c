// Two windows as nodes.
ghost use Rattle.std.specs.Prelude.{◌≡◌, ℕ, ◌+◌, ◌<◌, ◌≤◌, ◌⊎◌, List, length, take, get_or, IfOk};
ghost use Rattle.set_tree.specs.Formulas.{meaning_of};
ghost use Rattle.set_tree.specs.Parts.{IsPosition, window_of};
ghost use Rattle.twin_tests_laws.specs.Tests.{meets_constraints};
ghost use Rattle.twin_tests_laws.specs.Windows.{named_rows, rows_from};
ghost use Rattle.twin_tests.specs.Building.{AreLeaves, HasWidth, Shows, Tests};
ghost use Rattle.twin_tests.specs.Framing.{AreFrames, IsFrame, IsWindowWord};
ghost use Rattle.twin_tests.specs.Reading.{HasStructure};
ghost use Rattle.word_dag.specs.Adding.{Grows, Keeps};
ghost use Rattle.elab_step_expr.specs.Nodes.{AddsFrees};

use crate::formula::constraints_node;
use crate::window::{NodeRow, rows_before, window_nodes};
use set_tree::Set;
use std::alloc::{AllocError, Global};
use word_dag::Dag;

/// The first cycles of one side as nodes, and for each cycle the node that tells whether the constraints hold in the
/// window that ends there.
#[derive(Drop)]
pub struct Frame {
    pub side: u8,
    pub rows: Vec<NodeRow>,
    pub met: Vec<u64>,
}

/// Both sides.
#[derive(Drop)]
pub struct Frames {
    pub first: Frame,
    pub second: Frame,
}

// For each cycle whether the constraints hold in the window that ends there.
fn met_nodes(
    alloc: Global,
    dag: &mut Dag,
    set: &Set,
    side: u8,
    rows: &[NodeRow],
) -> Result<Vec<u64>, AllocError>
    requires structure { HasStructure set.now }
    requires shows { Shows set.now.names dag.old rows.now (λ e. rows_from set.now.names e side 0 (length rows.now)) }
    ensures keeps { IfOk result (λ _. Keeps dag.old dag.new) }
    ensures count { IfOk result (λ met. length met.items ≡ length rows.now) }
    ensures met { IfOk result (λ met. (end d : ℕ) → end < length met.items →
        Tests dag.new (get_or met.items end d) (λ e. meets_constraints (meaning_of set.now) set.now
        (named_rows set.now e side end))) }
{
    let mut met = Vec::new(alloc);
    for end in 0..rows.len() {
        let node = constraints_node(alloc, dag, set, rows_before(rows, end + 1))?;
        met.push(node)?;
    }
    Ok(met)
}

// One side, of so many cycles.
fn frame_of(
    alloc: Global,
    dag: &mut Dag,
    set: &Set,
    side: u8,
    count: u8,
) -> Result<Frame, AllocError>
    requires { HasStructure set.now }
    ensures grows { IfOk result (λ _. Grows dag.old dag.new) }
    ensures frees { IfOk result (λ _. AddsFrees (IsWindowWord set.now.names side) dag.old dag.new) }
    ensures frame { IfOk result (λ frame. IsFrame set.now dag.new frame) }
    ensures side { IfOk result (λ frame. frame.side ≡ side) }
    ensures count { IfOk result (λ frame. length frame.rows.items ≡ count) }
{
    let rows = window_nodes(alloc, dag, set.names.as_slice(), side, count)?;
    let met = met_nodes(alloc, dag, set, side, rows.as_slice())?;
    Ok(Frame { side, rows, met })
}

/// The largest window of the properties.
pub fn largest_window(set: &Set) -> u8
    requires { HasStructure set.now }
    ensures most { result ≤ 64 }
    ensures largest { (p : ℕ) → IsPosition set.now p → window_of set.now p ≤ result }
{
    let mut largest = set.first.window;
    for property in set.operations.as_slice() {
        largest = largest.max(property.window);
    }
    largest
}

/// Both sides, so far that the windows of each line of the set fit.
pub fn frames_of(alloc: Global, dag: &mut Dag, set: &Set) -> Result<Frames, AllocError>
    requires { HasStructure set.now }
    ensures grows { IfOk result (λ _. Grows dag.old dag.new) }
    ensures frees { IfOk result (λ _. AddsFrees (λ n. IsWindowWord set.now.names 0 n ⊎
        IsWindowWord set.now.names 1 n) dag.old dag.new) }
    ensures frames { IfOk result (λ frames. AreFrames set.now dag.new frames) }
{
    let window = largest_window(set);
    let count = window + window + 1;
    let first = frame_of(alloc, dag, set, 0, count)?;
    let second = frame_of(alloc, dag, set, 1, count)?;
    Ok(Frames { first, second })
}

/// The rows up to this cycle.
pub fn rows_to(frame: &Frame, end: usize) -> &[NodeRow]
    requires { end < length frame.now.rows.items }
    ensures { result.now ≡ take (end + 1) frame.now.rows.items }
{
    rows_before(frame.rows.as_slice(), end + 1)
}
