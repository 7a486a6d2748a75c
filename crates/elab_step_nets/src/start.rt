// The leaves with which the nets of a module are begun.
ghost use Rattle.std.specs.Prelude.{◌≡◌, ◌≤◌, ◌<◌, length, map, IfOk, [], ◌∷◌, ℕ, Bool};
ghost use Rattle.word_dag.specs.Adding.{Grows};
ghost use Rattle.vlog_tree.specs.Valuation.{IsLength};
ghost use Rattle.vlog_tree_runs.specs.Places.{Among};
ghost use Rattle.elab_step_expr.specs.Nodes.{AddsFrees, IsNode};
ghost use Rattle.elab_step_expr.specs.Leaves.{AreReady};
ghost use Rattle.elab_step_blocks.specs.Standing.{IsLeafOf};
ghost use Rattle.elab_step_nets.specs.Solving.{AreDistinct, ArePlain};
ghost use Rattle.elab_step_nets.specs.Boards.{IsBoard, IsBegun, AreBegun, IsFreeOf};
ghost use Rattle.vlog_tree_runs.specs.declared.flat.Signal.{Signal as OneSignal};

use crate::nodes::{free, zero};
use elab_step_expr::{Leaf, Leaves};
use outside::Text;
use std::alloc::{AllocError, Global};
use vlog_tree_runs::Signal;
use word_dag::Dag;

// The leaf of a signal.
#[tactic(auto, using(elab_step_expr::proofs::Kept::made_node, elab_step_expr::proofs::Kept::made_number))]
fn leaf(alloc: Global, dag: &mut Dag, signal: &Signal, is_net: bool) -> Result<Leaf, AllocError>
    requires long { IsLength signal.now.width }
    requires plain { signal.now.depth ≡ 0 }
    ensures grows { Grows dag.old dag.new }
    ensures frees { IfOk result (λ l. AddsFrees (IsFreeOf (signal.now ∷ []) (is_net ∷ [])) dag.old dag.new) }
    ensures leaf { IfOk result (λ l. IsLeafOf signal.now l) }
    ensures long { IfOk result (λ l. IsLength l.width) }
    ensures node { IfOk result (λ l. IsNode dag.new l.node l.width) }
    ensures begun { IfOk result (λ l. IsBegun dag.new signal.now is_net l) }
{
    let name = signal.name.bytes();
    let node = if is_net {
        zero(dag, signal.width)?
    } else {
        free(alloc, dag, name, signal.width)?
    };
    Ok(Leaf {
        name: Text::copy(alloc, name)?,
        offset: 0,
        width: signal.width,
        low: signal.low,
        signed: signal.signed,
        node,
    })
}

/// A leaf for each signal: 0 for a net, else a free word.
pub fn begun(
    alloc: Global,
    dag: &mut Dag,
    signals: &[Signal],
    nets: &[bool],
) -> Result<Leaves, AllocError>
    requires distinct { AreDistinct (map (λ (g : OneSignal). g.name) signals.now) }
    requires plain { ArePlain signals.now }
    requires long { (g : OneSignal) → Among signals.now g → IsLength g.width }
    requires nets { length nets.now ≡ length signals.now }
    ensures grows { Grows dag.old dag.new }
    ensures frees { IfOk result (λ ls. AddsFrees (IsFreeOf signals.now nets.now) dag.old dag.new) }
    ensures board { IfOk result (λ ls. IsBoard signals.now ls dag.new) }
    ensures begun { IfOk result (λ ls. AreBegun dag.new signals.now nets.now ls) }
{
    let mut leaves = Leaves::new(alloc);
    for i in 0..signals.len() {
        let next = leaf(alloc, dag, &signals[i], nets[i])?;
        leaves.push(alloc, next)?;
    }
    Ok(leaves)
}
