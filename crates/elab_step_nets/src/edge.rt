// What the clocked blocks leave.
ghost use Rattle.std.specs.Prelude.{◌≡◌, Some, IfOk, [], ◌∷◌, ◌++◌};
ghost use Rattle.word_dag.specs.Adding.{Keeps};
ghost use Rattle.elab_step_expr.specs.Leaves.{declared};
ghost use Rattle.elab_step_blocks.specs.Runs.{AreSet};
ghost use Rattle.elab_step_nets.specs.Asked.{CanElaborate};
ghost use Rattle.elab_step_nets.specs.Boards.{IsBoard, ShowsEdge};

use elab_step_blocks::run;
use elab_step_expr::{Leaf, Leaves};
use outside::Text;
use std::alloc::{AllocError, Global};
use vlog_tree_runs::Flat;
use word_dag::Dag;

// A copy of a leaf.
fn copied(alloc: Global, leaf: &Leaf) -> Result<Leaf, AllocError>
    ensures { IfOk result (λ l. l ≡ leaf.now) }
{
    Ok(Leaf {
        name: Text::copy(alloc, leaf.name.bytes())?,
        offset: leaf.offset,
        width: leaf.width,
        low: leaf.low,
        signed: leaf.signed,
        node: leaf.node,
    })
}

/// A copy of leaves.
pub fn copy_of(alloc: Global, leaves: &Leaves) -> Result<Leaves, AllocError>
    ensures { IfOk result (λ r. r ≡ leaves.now) }
{
    // each leaf has from 1 to 64 bits
    let _wide = leaves.declared();
    let mut copy = Leaves::new(alloc);
    for i in 0..leaves.len() {
        let next = copied(alloc, leaves.leaf(i))?;
        copy.push(alloc, next)?;
    }
    Ok(copy)
}

/// Runs the clocked blocks one after another, which all read the leaves of the cycle before the edge. On an error the
/// leaves are half changed.
pub fn run_clocked(
    alloc: Global,
    dag: &mut Dag,
    flat: &Flat,
    now: &Leaves,
    next: &mut Leaves,
) -> Result<(), AllocError>
    requires can { CanElaborate flat.now }
    requires board { IsBoard flat.now.signals now.now dag.old }
    requires same { next.old ≡ now.now }
    ensures keeps { Keeps dag.old dag.new }
    ensures set { IfOk result (λ u. AreSet (Some now.now) next.new dag.new) }
    ensures shows { IfOk result (λ u. ShowsEdge flat.now now.now dag.old next.new dag.new) }
{
    for block in flat.blocks.as_slice() {
        if block.clocked {
            run(alloc, dag, &block.body, Some(now), next)?;
        }
    }
    Ok(())
}
