// Bits of vectors as nodes.
ghost use Rattle.std.specs.Prelude.{◌≡◌, ℕ, ◌+◌, ◌*◌, ◌/◌, ◌%◌, ◌^◌, ◌≤◌, ◌<◌, IfOk, ℤ, pos, negsuc, ◌≤ℤ◌, ◌<ℤ◌};
ghost use Rattle.word_dag.specs.Adding.{Keeps};
ghost use Rattle.vlog_tree.specs.Value.{moved_down};
ghost use Rattle.elab_step_expr.specs.Nodes.{Makes, IsNode, IsWire, number_at};

use crate::nodes::{Wire, constant, extended, slice, two};
use crate::operators::length_of;
use std::alloc::AllocError;
use word_dag::{Dag, Op};

// The bits of a word from the one with the number `lo` upwards, at a length.
#[tactic(auto, using(crate::proofs::Kept::keeps_then, crate::proofs::Kept::made_node))]
fn lowered(dag: &mut Dag, a: Wire, lo: u8, width: u8) -> Result<u64, AllocError>
    requires node { IsWire dag.old a }
    requires within { lo < a.width }
    requires some { 1 ≤ width }
    requires most { width ≤ 64 }
    ensures keeps { Keeps dag.old dag.new }
    ensures makes { IfOk result (λ r. Makes dag.new r width (λ e. number_at e dag.old a.node / 2 ^ lo % 2 ^ width)) }
{
    let length = length_of(dag, a);
    let kept = width.min(length - lo);
    let part = slice(dag, a, lo, kept)?;
    let number = extended(
        dag,
        Wire {
            node: part,
            width: kept,
        },
        width,
        false,
    )?;
    Ok(number)
}

// A word above so many bits of 0.
#[tactic(auto, using(crate::proofs::Kept::keeps_then, crate::proofs::Kept::made_node, crate::proofs::Kept::node_kept))]
fn above(dag: &mut Dag, a: Wire, zeros: u8) -> Result<u64, AllocError>
    requires node { IsWire dag.old a }
    requires some { 1 ≤ zeros }
    requires most { a.width + zeros ≤ 64 }
    ensures keeps { Keeps dag.old dag.new }
    ensures makes { IfOk result (λ r. Makes dag.new r (a.width + zeros)
        (λ e. number_at e dag.old a.node * 2 ^ zeros + 0)) }
{
    let zero = constant(dag, zeros, 0)?;
    let number = two(
        dag,
        Op::Concat,
        a.width + zeros,
        a,
        Wire {
            node: zero,
            width: zeros,
        },
    )?;
    Ok(number)
}

// The bits of a word moved up, at a length.
#[tactic(auto, using(crate::proofs::Kept::keeps_then, crate::proofs::Kept::made_node))]
fn raised(dag: &mut Dag, a: Wire, up: u8, width: u8) -> Result<u64, AllocError>
    requires node { IsWire dag.old a }
    requires some { 1 ≤ up }
    requires within { up < width }
    requires most { width ≤ 64 }
    ensures keeps { Keeps dag.old dag.new }
    ensures makes { IfOk result (λ r. Makes dag.new r width (λ e. number_at e dag.old a.node * 2 ^ up % 2 ^ width)) }
{
    let length = length_of(dag, a);
    let kept = length.min(width - up);
    let part = slice(dag, a, 0, kept)?;
    let moved = above(
        dag,
        Wire {
            node: part,
            width: kept,
        },
        up,
    )?;
    let number = extended(
        dag,
        Wire {
            node: moved,
            width: kept + up,
        },
        width,
        false,
    )?;
    Ok(number)
}

/// The bits of a word moved down, or up where the distance is negative, at a length.
pub fn moved(dag: &mut Dag, a: Wire, distance: i128, width: u8) -> Result<u64, AllocError>
    requires node { IsWire dag.old a }
    requires some { 1 ≤ width }
    requires most { width ≤ 64 }
    requires low { negsuc (2 ^ 100) ≤ℤ distance }
    ensures keeps { Keeps dag.old dag.new }
    ensures makes { IfOk result (λ r. Makes dag.new r width
        (λ e. moved_down distance (number_at e dag.old a.node) % 2 ^ width)) }
{
    let length = length_of(dag, a);
    let top = i128::from(length);
    if top <= distance {
        let number = constant(dag, width, 0)?;
        return Ok(number);
    }
    let end = i128::from(width);
    if distance + end <= 0 {
        let number = constant(dag, width, 0)?;
        return Ok(number);
    }
    if distance < 0 {
        let number = raised(dag, a, (-distance) as u8, width)?;
        return Ok(number);
    }
    let number = lowered(dag, a, distance as u8, width)?;
    Ok(number)
}
