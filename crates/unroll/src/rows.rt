// The rows of segments as nodes.
ghost use Rattle.std.specs.Prelude.{◌≡◌, ◌+◌, ◌<◌, ◌≤◌, ◌^◌, suc, true, is_some, length, map, slice_index, IfOk};
ghost use Rattle.std.specs.List.{All, AllZip};
ghost use Rattle.unroll_binding.specs.Binding.{Fits, net_at};
ghost use Rattle.elab_step_expr.specs.Nodes.{AddsFrees};
ghost use Rattle.unroll_laws.specs.Tests.{rows_from};
ghost use Rattle.twin_tests.specs.Building.{Shows};
ghost use Rattle.unroll.specs.Copies.{CopiedBefore, IsPlaceOf, place_at};
ghost use Rattle.unroll.specs.Unrolled.{IsSourceWord};
ghost use Rattle.word_dag.specs.Adding.{Grows};
ghost use Rattle.elab_step_design.specs.Designs.{IsDesign};

use crate::copies::copy_nodes;
use crate::leaves::{Moment, leaves_of};
use elab_step_design::Net;
use std::alloc::{AllocError, Global};
use twin_tests::NodeRow;
use unroll_binding::Bound;
use word_dag::Dag;

/// The place of the node of a signal of this name, if there is one.
pub fn place_of(nets: &[Net], name: &[u8]) -> Option<u64>
    ensures { result ≡ place_at (net_at nets.now name.now) }
{
    for net in nets {
        if net.name.bytes() == name {
            return Some(net.node);
        }
    }
    None
}

// The nodes of a design in one cycle of a segment, from those of the cycle before, where there is one.
fn cycle_nodes(
    alloc: Global,
    dag: &mut Dag,
    bound: &Bound,
    moment: Moment,
    before: &[u64],
) -> Result<Vec<u64>, AllocError>
    requires { CopiedBefore bound.now.design bound.now.set moment.resets moment.position dag.old before.now }
    ensures grows { IfOk result (λ _. Grows dag.old dag.new) }
    ensures frees { IfOk result (λ _. AddsFrees (IsSourceWord bound.now.design) dag.old dag.new) }
    ensures copied { IfOk result (λ copies. CopiedBefore bound.now.design bound.now.set moment.resets
        (suc moment.position) dag.new copies.items) }
{
    let leaves = leaves_of(alloc, dag, bound, moment, before)?;
    copy_nodes(alloc, dag, bound.design(), leaves.as_slice())
}

// The nodes of the last reset cycle, none where there is none.
fn reset_nodes(
    alloc: Global,
    dag: &mut Dag,
    bound: &Bound,
    resets: u8,
) -> Result<Vec<u64>, AllocError>
    ensures grows { IfOk result (λ _. Grows dag.old dag.new) }
    ensures frees { IfOk result (λ _. AddsFrees (IsSourceWord bound.now.design) dag.old dag.new) }
    ensures copied { IfOk result (λ copies. CopiedBefore bound.now.design bound.now.set resets resets dag.new copies.items) }
{
    let mut copies = Vec::new(alloc);
    for position in 0..resets {
        copies = cycle_nodes(
            alloc,
            dag,
            bound,
            Moment { position, resets },
            copies.as_slice(),
        )?;
    }
    Ok(copies)
}

// The declared names' nodes among the nodes of a cycle.
fn row_of(alloc: Global, copies: &[u64], places: &[u64]) -> Result<NodeRow, AllocError>
    requires { All (λ place. place < length copies.now) places.now }
    ensures { IfOk result (λ row. row ≡ map (slice_index copies.now) places.now) }
{
    let mut nodes = Vec::with_capacity(alloc, places.len())?;
    for place in places {
        nodes.push(copies[*place as usize])?;
    }
    Ok(NodeRow::new(nodes))
}

/// The rows of a segment, so many of them from cycle 0 on, behind so many reset cycles. The places are those of the
/// declared names' signals.
pub fn segment_nodes(
    alloc: Global,
    dag: &mut Dag,
    bound: &Bound,
    places: &[u64],
    resets: u8,
    count: u8,
) -> Result<Vec<NodeRow>, AllocError>
    requires places { AllZip (IsPlaceOf bound.now.design) bound.now.set.names places.now }
    requires small { resets + count < 2 ^ 8 }
    ensures grows { IfOk result (λ _. Grows dag.old dag.new) }
    ensures frees { IfOk result (λ _. AddsFrees (IsSourceWord bound.now.design) dag.old dag.new) }
    ensures rows { IfOk result (λ rows. Shows bound.now.set.names dag.new rows.items
        (λ e. rows_from bound.now.design bound.now.set resets e resets count)) }
{
    // the nodes of a design fit
    let _fit = bound.design().dag();
    let mut copies = reset_nodes(alloc, dag, bound, resets)?;
    let mut rows = Vec::new(alloc);
    for end in 0..count {
        let moment = Moment {
            position: resets + end,
            resets,
        };
        copies = cycle_nodes(alloc, dag, bound, moment, copies.as_slice())?;
        let row = row_of(alloc, copies.as_slice(), places)?;
        rows.push(row)?;
    }
    Ok(rows)
}
