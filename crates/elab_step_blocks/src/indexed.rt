// Bits of a word that are written where a variable index says.
ghost use Rattle.std.specs.Prelude.{◌≡◌, ℕ, ◌-◌, ◌^◌, ◌≤◌, ◌<◌, IfOk, ℤ, pos, negsuc, ◌≤ℤ◌, ◌<ℤ◌, ◌+ℤ◌, ◌-ℤ◌, nat_eq, if◌then◌else◌};
ghost use Rattle.word_dag.specs.Adding.{Keeps};
ghost use Rattle.vlog_tree.specs.Value.{integer};
ghost use Rattle.vlog_tree_runs.specs.Places.{write_bits};
ghost use Rattle.elab_step_expr.specs.Indexed.{is_same};
ghost use Rattle.elab_step_expr.specs.Nodes.{Makes, number_at, IsWire};

use crate::bits::written;
use elab_step_expr::{Own, Wire, choice, code_of, hit, length_of};
use std::alloc::AllocError;
use vlog_tree_runs::bits_are_written;
use word_dag::Dag;

/// A word, and bits that are written in it.
#[derive(Clone, Copy)]
pub struct Change {
    pub old: Wire,
    pub bits: Wire,
}

/// A change, and the index that says at which bits.
#[derive(Clone, Copy)]
pub struct Write {
    pub change: Change,
    pub index: Own,
}

// The word with its change at this place where the index's word has this number, and another word where it hasn't.
#[tactic(auto, using(elab_step_expr::proofs::Kept::keeps_then, elab_step_expr::proofs::Kept::made_node, elab_step_expr::proofs::Kept::node_kept))]
fn with_code(
    dag: &mut Dag,
    write: Write,
    code: u64,
    at: i128,
    other: u64,
) -> Result<u64, AllocError>
    requires old { IsWire dag.old write.change.old }
    requires bits { IsWire dag.old write.change.bits }
    requires index { IsWire dag.old write.index.wire }
    requires other { IsWire dag.old (record { node = other; width = write.change.old.width }) }
    requires fits { code < 2 ^ write.index.wire.width }
    requires low { negsuc (2 ^ 100) ≤ℤ at }
    requires high { at <ℤ pos (2 ^ 100) }
    ensures keeps { Keeps dag.old dag.new }
    ensures makes { IfOk result (λ r. Makes dag.new r write.change.old.width
        (λ e. if nat_eq (number_at e dag.old write.index.wire.node) code then write_bits write.change.old.width at write.change.bits.width (number_at e dag.old write.change.bits.node) (number_at e dag.old write.change.old.node) else number_at e dag.old other)) }
{
    let change = write.change;
    let width = change.old.width;
    let hit = hit(dag, write.index.wire, code)?;
    let node = written(dag, change.old, change.bits, at)?;
    let number = choice(dag, hit, Wire { node, width }, Wire { node: other, width })?;
    Ok(number)
}

// The same where an index stands for an integer: the one that is `step` above the lowest that writes any bits.
fn with_position(
    dag: &mut Dag,
    write: Write,
    from: i128,
    step: u8,
    other: u64,
) -> Result<u64, AllocError>
    requires old { IsWire dag.old write.change.old }
    requires bits { IsWire dag.old write.change.bits }
    requires index { IsWire dag.old write.index.wire }
    requires other { IsWire dag.old (record { node = other; width = write.change.old.width }) }
    requires low { negsuc (2 ^ 80) ≤ℤ from }
    requires high { from <ℤ pos (2 ^ 80) }
    ensures keeps { Keeps dag.old dag.new }
    ensures makes { IfOk result (λ r. Makes dag.new r write.change.old.width
        (λ e. if is_same (integer write.index.signed write.index.wire.width (number_at e dag.old write.index.wire.node))
        (from +ℤ (pos step -ℤ pos (write.change.bits.width - 1))) then write_bits write.change.old.width
        (pos step -ℤ pos (write.change.bits.width - 1)) write.change.bits.width
        (number_at e dag.old write.change.bits.node)
        (number_at e dag.old write.change.old.node) else number_at e dag.old other)) }
{
    let index = write.index;
    let bits = write.change.bits;
    // a node has from 1 to 64 bits
    let _lengths = (length_of(dag, index.wire), length_of(dag, bits));
    let at = i128::from(step) - i128::from(bits.width - 1);
    match code_of(from + at, index.wire.width, index.signed) {
        Some(code) => {
            let number = with_code(dag, write, code, at, other)?;
            Ok(number)
        }
        None => Ok(other),
    }
}

/// A word with bits from the one that an index names upwards; bits that it hasn't aren't written.
#[tactic(auto, using(elab_step_expr::proofs::Kept::keeps_then, elab_step_expr::proofs::Kept::made_node, elab_step_expr::proofs::Kept::node_kept, elab_step_expr::proofs::Kept::keeps_same))]
pub fn indexed(dag: &mut Dag, write: Write, from: i128) -> Result<u64, AllocError>
    requires old { IsWire dag.old write.change.old }
    requires bits { IsWire dag.old write.change.bits }
    requires index { IsWire dag.old write.index.wire }
    requires low { negsuc (2 ^ 80) ≤ℤ from }
    requires high { from <ℤ pos (2 ^ 80) }
    ensures keeps { Keeps dag.old dag.new }
    ensures makes { IfOk result (λ r. Makes dag.new r write.change.old.width
        (λ e. write_bits write.change.old.width (integer write.index.signed write.index.wire.width
        (number_at e dag.old write.index.wire.node) -ℤ from) write.change.bits.width
        (number_at e dag.old write.change.bits.node) (number_at e dag.old write.change.old.node))) }
{
    bits_are_written();
    let size = length_of(dag, write.change.old);
    let count = length_of(dag, write.change.bits);
    let mut number = write.change.old.node;
    for step in 0..count - 1 + size {
        number = with_position(dag, write, from, step, number)?;
    }
    Ok(number)
}
