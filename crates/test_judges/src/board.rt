// A cycle as leaves of constants.

ghost use Rattle.std.specs.Prelude.{◌≡◌, ◌<◌, ◌^◌, None, length, IfOk};
ghost use Rattle.std.specs.List.{All};
ghost use Rattle.vlog_tree.specs.Valuation.{IsLength};
ghost use Rattle.word_dag.specs.Adding.{Keeps};
ghost use Rattle.elab_step_expr.specs.Leaves.{declared};
ghost use Rattle.elab_step_blocks.specs.Runs.{AreSet};
ghost use Rattle.elab_step_nets.specs.Asked.{CanElaborate, at_rest};
ghost use Rattle.test_judges.specs.Values.{AreValues};
ghost use Rattle.test_judges.specs.Showing.{IsHeld, AreHeld};

use crate::numbers::constant;
use elab_step_expr::{Leaf, Leaves};
use outside::Text;
use std::alloc::{AllocError, Global};
use vlog_tree_runs::{Flat, Signal};
use word_dag::Dag;

// A leaf of a signal, with the constant of its value.
fn leaf(alloc: Global, dag: &mut Dag, signal: &Signal, value: u64) -> Result<Leaf, AllocError>
    requires long { IsLength signal.now.width }
    requires plain { signal.now.depth ≡ 0 }
    requires fits { value < 2 ^ signal.now.width }
    ensures keeps { Keeps dag.old dag.new }
    ensures long { IfOk result (λ l. IsLength l.width) }
    ensures held { IfOk result (λ l. IsHeld dag.new signal.now l value) }
{
    let node = constant(dag, signal.width, value)?;
    Ok(Leaf {
        name: Text::copy(alloc, signal.name.bytes())?,
        offset: 0,
        width: signal.width,
        low: signal.low,
        signed: signal.signed,
        node,
    })
}

// A leaf for each signal.
fn leaves(
    alloc: Global,
    dag: &mut Dag,
    signals: &[Signal],
    values: &[u64],
) -> Result<Leaves, AllocError>
    requires long { All (λ g. IsLength g.width) signals.now }
    requires plain { All (λ g. g.depth ≡ 0) signals.now }
    requires values { AreValues signals.now values.now }
    requires each { length values.now ≡ length signals.now }
    ensures keeps { Keeps dag.old dag.new }
    ensures held { IfOk result (λ ls. AreHeld dag.new signals.now ls values.now) }
{
    let mut leaves = Leaves::new(alloc);
    for i in 0..signals.len() {
        let next = leaf(alloc, dag, &signals[i], values[i])?;
        leaves.push(alloc, next)?;
    }
    Ok(leaves)
}

/// A leaf for each signal of a module, with the constant of its value.
pub fn board(
    alloc: Global,
    dag: &mut Dag,
    flat: &Flat,
    values: &[u64],
) -> Result<Leaves, AllocError>
    requires can { CanElaborate flat.now }
    requires values { AreValues flat.now.signals values.now }
    ensures keeps { Keeps dag.old dag.new }
    ensures held { IfOk result (λ ls. AreHeld dag.new flat.now.signals ls values.now) }
    ensures set { IfOk result (λ ls. AreSet None ls dag.new) }
    ensures rest { IfOk result (λ ls. declared ls ≡ at_rest flat.now) }
{
    let leaves = leaves(alloc, dag, flat.signals.as_slice(), values)?;
    Ok(leaves)
}
