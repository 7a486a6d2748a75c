// Concatenations as nodes.
ghost use Rattle.std.specs.Prelude.{◌≡◌, ◌+◌, ◌*◌, ◌^◌, ◌≤◌, IfOk};
ghost use Rattle.word_dag.specs.Adding.{Keeps};
ghost use Rattle.vlog_tree_values.specs.Shapes.{copy_number};
ghost use Rattle.elab_step_expr.specs.Nodes.{Makes, IsWire, number_at};
ghost use Rattle.elab_step_expr.specs.Terms.{so_far};

use crate::nodes::{Wire, two};
use crate::operators::length_of;
use std::alloc::AllocError;
use word_dag::{Dag, Op};

/// The bits of one word above those of another.
pub fn above(dag: &mut Dag, high: Wire, low: Wire) -> Result<Wire, AllocError>
    requires high { IsWire dag.old high }
    requires low { IsWire dag.old low }
    requires most { high.width + low.width ≤ 64 }
    ensures keeps { Keeps dag.old dag.new }
    ensures width { IfOk result (λ w. w.width ≡ high.width + low.width) }
    ensures makes { IfOk result (λ w. Makes dag.new w.node w.width
        (λ e. number_at e dag.old high.node * 2 ^ low.width + number_at e dag.old low.node)) }
{
    let width = high.width + low.width;
    let node = two(dag, Op::Concat, width, high, low)?;
    Ok(Wire { node, width })
}

/// The first parts of a concatenation, where none has no bits, and a further part below them.
pub fn appended(dag: &mut Dag, row: Wire, low: Wire) -> Result<Wire, AllocError>
    requires row { 1 ≤ row.width → IsWire dag.old row }
    requires low { IsWire dag.old low }
    requires most { row.width + low.width ≤ 64 }
    ensures keeps { Keeps dag.old dag.new }
    ensures width { IfOk result (λ w. w.width ≡ row.width + low.width) }
    ensures some { IfOk result (λ w. 1 ≤ w.width) }
    ensures makes { IfOk result (λ w. Makes dag.new w.node w.width
        (λ e. so_far e dag.old row * 2 ^ low.width + number_at e dag.old low.node)) }
{
    // a node has at least one bit
    let _width = length_of(dag, low);
    if row.width == 0 {
        return Ok(low);
    }
    let all = above(dag, row, low)?;
    Ok(all)
}

/// So many copies of a word, one after another.
#[tactic(auto, using(crate::proofs::Kept::keeps_then, crate::proofs::Kept::made_node, crate::proofs::Kept::node_kept))]
pub fn copies(dag: &mut Dag, row: Wire, count: u8) -> Result<Wire, AllocError>
    requires row { IsWire dag.old row }
    requires some { 1 ≤ count }
    requires most { count * row.width ≤ 64 }
    ensures keeps { Keeps dag.old dag.new }
    ensures width { IfOk result (λ w. w.width ≡ count * row.width) }
    ensures makes { IfOk result (λ w. Makes dag.new w.node w.width
        (λ e. copy_number count row.width (number_at e dag.old row.node))) }
{
    // the nodes of a dag fit
    let _width = length_of(dag, row);
    let mut all = row;
    for copy in 1..count {
        all = above(dag, row, all)?;
    }
    Ok(all)
}
