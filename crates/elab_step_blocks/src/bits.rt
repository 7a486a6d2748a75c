// Bits of a word that are written.
ghost use Rattle.std.specs.Prelude.{◌≡◌, ℕ, ◌+◌, ◌-◌, ◌*◌, ◌/◌, ◌%◌, ◌^◌, ◌≤◌, ◌<◌, IfOk, ℤ, pos, negsuc, ◌≤ℤ◌, ◌<ℤ◌};
ghost use Rattle.word_dag.specs.Adding.{Keeps};
ghost use Rattle.vlog_tree_runs.specs.Places.{write_bits};
ghost use Rattle.elab_step_expr.specs.Nodes.{Makes, number_at, IsWire};

use elab_step_expr::{Wire, length_of, slice, two};
use std::alloc::AllocError;
use vlog_tree_runs::bits_are_written;
use word_dag::{Dag, Op};

// Bits above the lowest ones of a word.
#[tactic(auto, using(elab_step_expr::proofs::Kept::keeps_then, elab_step_expr::proofs::Kept::made_node, elab_step_expr::proofs::Kept::node_kept))]
fn above_low(dag: &mut Dag, old: Wire, bits: Wire, lo: u8) -> Result<u64, AllocError>
    requires old { IsWire dag.old old }
    requires bits { IsWire dag.old bits }
    requires within { lo + bits.width ≤ old.width }
    ensures keeps { Keeps dag.old dag.new }
    ensures makes { IfOk result (λ r. Makes dag.new r (bits.width + lo)
        (λ e. number_at e dag.old bits.node * 2 ^ lo + number_at e dag.old old.node % 2 ^ lo)) }
{
    // a node has from 1 to 64 bits
    let _lengths = (length_of(dag, old), length_of(dag, bits));
    if lo == 0 {
        return Ok(bits.node);
    }
    let low = slice(dag, old, 0, lo)?;
    let number = two(
        dag,
        Op::Concat,
        bits.width + lo,
        bits,
        Wire {
            node: low,
            width: lo,
        },
    )?;
    Ok(number)
}

// Bits below the highest ones of a word.
#[tactic(auto, using(elab_step_expr::proofs::Kept::keeps_then, elab_step_expr::proofs::Kept::made_node, elab_step_expr::proofs::Kept::node_kept))]
fn below_high(dag: &mut Dag, old: Wire, bits: Wire) -> Result<u64, AllocError>
    requires old { IsWire dag.old old }
    requires bits { IsWire dag.old bits }
    requires within { bits.width ≤ old.width }
    ensures keeps { Keeps dag.old dag.new }
    ensures makes { IfOk result (λ r. Makes dag.new r old.width
        (λ e. number_at e dag.old old.node / 2 ^ bits.width * 2 ^ bits.width + number_at e dag.old bits.node)) }
{
    // a node has from 1 to 64 bits
    let _lengths = (length_of(dag, old), length_of(dag, bits));
    if bits.width == old.width {
        return Ok(bits.node);
    }
    let high = slice(dag, old, bits.width, old.width - bits.width)?;
    let number = two(
        dag,
        Op::Concat,
        old.width,
        Wire {
            node: high,
            width: old.width - bits.width,
        },
        bits,
    )?;
    Ok(number)
}

// A word with bits that it has in the place of its own.
#[tactic(auto, using(elab_step_expr::proofs::Kept::keeps_then, elab_step_expr::proofs::Kept::made_node, elab_step_expr::proofs::Kept::node_kept))]
fn overlaid(dag: &mut Dag, old: Wire, bits: Wire, lo: u8) -> Result<u64, AllocError>
    requires old { IsWire dag.old old }
    requires bits { IsWire dag.old bits }
    requires within { lo + bits.width ≤ old.width }
    ensures keeps { Keeps dag.old dag.new }
    ensures makes { IfOk result (λ r. Makes dag.new r old.width
        (λ e. write_bits old.width (pos lo) bits.width (number_at e dag.old bits.node)
        (number_at e dag.old old.node))) }
{
    bits_are_written();
    // a node has from 1 to 64 bits
    let _lengths = (length_of(dag, old), length_of(dag, bits));
    let low = above_low(dag, old, bits, lo)?;
    let number = below_high(
        dag,
        old,
        Wire {
            node: low,
            width: bits.width + lo,
        },
    )?;
    Ok(number)
}

// A word with bits from one of its own upwards, as far as it has them.
#[tactic(auto, using(elab_step_expr::proofs::Kept::keeps_then, elab_step_expr::proofs::Kept::made_node, elab_step_expr::proofs::Kept::node_kept))]
fn clipped(dag: &mut Dag, old: Wire, bits: Wire, lo: u8) -> Result<u64, AllocError>
    requires old { IsWire dag.old old }
    requires bits { IsWire dag.old bits }
    requires within { lo < old.width }
    ensures keeps { Keeps dag.old dag.new }
    ensures makes { IfOk result (λ r. Makes dag.new r old.width
        (λ e. write_bits old.width (pos lo) bits.width (number_at e dag.old bits.node)
        (number_at e dag.old old.node))) }
{
    bits_are_written();
    // a node has from 1 to 64 bits
    let _lengths = (length_of(dag, old), length_of(dag, bits));
    let kept = bits.width.min(old.width - lo);
    let part = slice(dag, bits, 0, kept)?;
    let number = overlaid(
        dag,
        old,
        Wire {
            node: part,
            width: kept,
        },
        lo,
    )?;
    Ok(number)
}

// A word with bits of which so many stand below its lowest one.
#[tactic(auto, using(elab_step_expr::proofs::Kept::keeps_then, elab_step_expr::proofs::Kept::made_node, elab_step_expr::proofs::Kept::node_kept))]
fn from_below(dag: &mut Dag, old: Wire, bits: Wire, skipped: u8) -> Result<u64, AllocError>
    requires old { IsWire dag.old old }
    requires bits { IsWire dag.old bits }
    requires some { 1 ≤ skipped }
    requires within { skipped < bits.width }
    ensures keeps { Keeps dag.old dag.new }
    ensures makes { IfOk result (λ r. Makes dag.new r old.width
        (λ e. write_bits old.width (negsuc (skipped - 1)) bits.width (number_at e dag.old bits.node)
        (number_at e dag.old old.node))) }
{
    bits_are_written();
    // a node has from 1 to 64 bits
    let _lengths = (length_of(dag, old), length_of(dag, bits));
    let width = bits.width - skipped;
    let part = slice(dag, bits, skipped, width)?;
    let number = clipped(dag, old, Wire { node: part, width }, 0)?;
    Ok(number)
}

/// A word with bits from the one with a number upwards, counted from its lowest one; bits that it hasn't aren't
/// written.
pub fn written(dag: &mut Dag, old: Wire, bits: Wire, at: i128) -> Result<u64, AllocError>
    requires old { IsWire dag.old old }
    requires bits { IsWire dag.old bits }
    requires low { negsuc (2 ^ 100) ≤ℤ at }
    requires high { at <ℤ pos (2 ^ 100) }
    ensures keeps { Keeps dag.old dag.new }
    ensures makes { IfOk result (λ r. Makes dag.new r old.width
        (λ e. write_bits old.width at bits.width (number_at e dag.old bits.node) (number_at e dag.old old.node))) }
{
    bits_are_written();
    let size = i128::from(length_of(dag, old));
    let count = i128::from(length_of(dag, bits));
    if size <= at {
        return Ok(old.node);
    }
    if at + count <= 0 {
        return Ok(old.node);
    }
    if at < 0 {
        let number = from_below(dag, old, bits, (-at) as u8)?;
        return Ok(number);
    }
    let number = clipped(dag, old, bits, at as u8)?;
    Ok(number)
}
