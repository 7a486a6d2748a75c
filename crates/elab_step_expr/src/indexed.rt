// Bits of a vector that a variable index names.
ghost use Rattle.std.specs.Prelude.{◌≡◌, ℕ, ◌+◌, ◌-◌, ◌%◌, ◌^◌, ◌≤◌, ◌<◌, IfOk, ℤ, pos, negsuc, ◌≤ℤ◌, ◌<ℤ◌, ◌+ℤ◌, ◌-ℤ◌, nat_eq, false, IfSome, IfNone, if◌then◌else◌};
ghost use Rattle.word_dag.specs.Nodes.{FitFrom};
ghost use Rattle.word_dag.specs.Adding.{Keeps};
ghost use Rattle.vlog_tree.specs.Value.{moved_down, integer, bit};
ghost use Rattle.elab_step_expr.specs.Indexed.{is_same};
ghost use Rattle.elab_step_expr.specs.Nodes.{Makes, IsNode, IsWire, number_at};

use crate::bits::moved;
use crate::nodes::{Wire, choice, constant, two};
use crate::operators::length_of;
use std::alloc::AllocError;
use vlog_tree_values::{cut, integer};
use word_dag::{Dag, Op};

/// The number of the words of a length that stand for an integer, if there is one.
pub fn code_of(number: i128, width: u8, signed: bool) -> Option<u64>
    requires some { 1 ≤ width }
    requires most { width ≤ 64 }
    ensures some { IfSome result (λ k. (k < 2 ^ width) ×
        ((x : ℕ) → x < 2 ^ width → nat_eq x k ≡ is_same (integer signed width x) number)) }
    ensures none { IfNone result ((x : ℕ) → x < 2 ^ width → is_same (integer signed width x) number ≡ false) }
{
    if number < -0x1_0000_0000_0000_0000 || 0x1_0000_0000_0000_0000 <= number {
        return None;
    }
    let code = cut(width, number);
    if integer(code, signed) != number {
        return None;
    }
    Some(code.value())
}

/// One bit: does a word have this number?
#[tactic(auto, using(crate::proofs::Kept::keeps_then, crate::proofs::Kept::made_node, crate::proofs::Kept::node_kept))]
pub fn hit(dag: &mut Dag, a: Wire, code: u64) -> Result<u64, AllocError>
    requires node { IsWire dag.old a }
    requires fits { code < 2 ^ a.width }
    ensures keeps { Keeps dag.old dag.new }
    ensures makes { IfOk result (λ r. Makes dag.new r 1 (λ e. bit (nat_eq (number_at e dag.old a.node) code))) }
{
    let width = length_of(dag, a);
    let number = constant(dag, width, code)?;
    let number = two(
        dag,
        Op::Eq,
        1,
        a,
        Wire {
            node: number,
            width,
        },
    )?;
    Ok(number)
}

// The bits of `a` at a distance where a word has this number, and other bits where it hasn't.
#[tactic(auto, using(crate::proofs::Kept::keeps_then, crate::proofs::Kept::made_node, crate::proofs::Kept::node_kept))]
fn with_code(
    dag: &mut Dag,
    a: Wire,
    word: Wire,
    code: u64,
    distance: i128,
    other: Wire,
) -> Result<u64, AllocError>
    requires node { IsWire dag.old a }
    requires word { IsWire dag.old word }
    requires other { IsWire dag.old other }
    requires fits { code < 2 ^ word.width }
    requires low { negsuc (2 ^ 100) ≤ℤ distance }
    ensures keeps { Keeps dag.old dag.new }
    ensures makes { IfOk result (λ r. Makes dag.new r other.width
        (λ e. if nat_eq (number_at e dag.old word.node) code then moved_down distance
        (number_at e dag.old a.node) % 2 ^ other.width else number_at e dag.old other.node)) }
{
    // a node has from 1 to 64 bits
    let _width = length_of(dag, other);
    let hit = hit(dag, word, code)?;
    let bits = moved(dag, a, distance, other.width)?;
    let number = choice(
        dag,
        hit,
        Wire {
            node: bits,
            width: other.width,
        },
        other,
    )?;
    Ok(number)
}

/// A word that is taken by itself, and its sign.
#[derive(Clone, Copy)]
pub struct Own {
    pub wire: Wire,
    pub signed: bool,
}

// The same where an index stands for an integer: the one that is `step` above the lowest that gives any bits.
fn with_position(
    dag: &mut Dag,
    a: Wire,
    index: Own,
    from: i128,
    step: u8,
    other: Wire,
) -> Result<u64, AllocError>
    requires node { IsWire dag.old a }
    requires index { IsWire dag.old index.wire }
    requires other { IsWire dag.old other }
    requires low { negsuc (2 ^ 80) ≤ℤ from }
    requires high { from <ℤ pos (2 ^ 80) }
    ensures keeps { Keeps dag.old dag.new }
    ensures makes { IfOk result (λ r. Makes dag.new r other.width
        (λ e. if is_same (integer index.signed index.wire.width (number_at e dag.old index.wire.node))
        (from +ℤ (pos step -ℤ pos (other.width - 1))) then moved_down (pos step -ℤ pos (other.width - 1))
        (number_at e dag.old a.node) % 2 ^ other.width else number_at e dag.old other.node)) }
{
    // a node has from 1 to 64 bits
    let _lengths = (length_of(dag, index.wire), length_of(dag, other));
    let distance = i128::from(step) - i128::from(other.width - 1);
    match code_of(from + distance, index.wire.width, index.signed) {
        Some(code) => {
            let number = with_code(dag, a, index.wire, code, distance, other)?;
            Ok(number)
        }
        None => Ok(other.node),
    }
}

/// The bits of a word from the one that an index names upwards, where the word's lowest bit has the number `from`; a
/// bit out of range is 0.
#[tactic(auto, using(crate::proofs::Kept::keeps_then, crate::proofs::Kept::made_node, crate::proofs::Kept::node_kept))]
pub fn indexed(dag: &mut Dag, a: Wire, index: Own, from: i128, width: u8) -> Result<u64, AllocError>
    requires node { IsWire dag.old a }
    requires index { IsWire dag.old index.wire }
    requires some { 1 ≤ width }
    requires most { width ≤ 64 }
    requires low { negsuc (2 ^ 80) ≤ℤ from }
    requires high { from <ℤ pos (2 ^ 80) }
    ensures keeps { Keeps dag.old dag.new }
    ensures makes { IfOk result (λ r. Makes dag.new r width
        (λ e. moved_down (integer index.signed index.wire.width (number_at e dag.old index.wire.node) -ℤ from)
        (number_at e dag.old a.node) % 2 ^ width)) }
{
    let length = length_of(dag, a);
    let mut bits = constant(dag, width, 0)?;
    for step in 0..width - 1 + length {
        bits = with_position(dag, a, index, from, step, Wire { node: bits, width })?;
    }
    Ok(bits)
}
