// Numbers given to the parts of a left side.
ghost use Rattle.std.specs.Prelude.{◌≡◌, ◌+◌, ◌≤◌, ◌^◌, IfOk, IfSome, pos, negsuc, ◌≤ℤ◌, ◌<ℤ◌, ◌-ℤ◌};
ghost use Rattle.word_dag.specs.Nodes.{Naming};
ghost use Rattle.word_dag.specs.Adding.{Keeps};
ghost use Rattle.vlog_tree.specs.Value.{integer};
ghost use Rattle.elab_step_expr.specs.Leaves.{AreReady, declared};
ghost use Rattle.elab_step_expr.specs.Nodes.{Makes, number_at, IsWire, wire_word};
ghost use Rattle.vlog_tree_runs.specs.Places.{write_bits};
ghost use Rattle.elab_step_blocks.specs.Standing.{AreApart};
ghost use Rattle.elab_step_blocks.specs.Targets.{IsSpot, IsTarget, AreTargets, bits_in, bit_at, Puts, PutsFrom, Gives};

use crate::bits::written;
use crate::indexed::{Change, Write, indexed};
use elab_step_expr::{Leaves, Own, Wire, length_of, slice};
use std::alloc::AllocError;
use vlog_tree_values::integer;
use word_core::Word;
use word_dag::{Dag, Node};

/// Where the bits of a part begin, counted from the lowest bit of its signal.
#[derive(Clone, Copy)]
pub enum Spot {
    Fixed(i128),
    /// At an index less this number.
    Indexed(Own, i128),
}

/// A part of a left side: the number of its signal's leaf, where its bits begin, and how many they are.
#[derive(Clone, Copy)]
pub struct Target {
    pub leaf: usize,
    pub spot: Spot,
    pub count: u8,
}

// The word of a node that is a constant.
fn constant_word(dag: &Dag, a: Wire) -> Option<Word>
    requires { IsWire dag.now a }
    ensures { IfSome result (λ w. (e : Naming) → wire_word e dag.now a ≡ w) }
{
    // the nodes of a dag fit
    let _fit = dag.nodes();
    match dag.node(a.node) {
        Node::Const(word) => Some(*word),
        _ => None,
    }
}

// A word after bits are written in it at an index. A constant one names a single place.
fn changed_at(dag: &mut Dag, write: Write, from: i128) -> Result<u64, AllocError>
    requires old { IsWire dag.old write.change.old }
    requires bits { IsWire dag.old write.change.bits }
    requires index { IsWire dag.old write.index.wire }
    requires low { negsuc (2 ^ 80) ≤ℤ from }
    requires high { from <ℤ pos (2 ^ 80) }
    ensures keeps { Keeps dag.old dag.new }
    ensures makes { IfOk result (λ r. Makes dag.new r write.change.old.width
        (λ e. write_bits write.change.old.width (integer write.index.signed write.index.wire.width
        (number_at e dag.old write.index.wire.node) -ℤ from) write.change.bits.width
        (number_at e dag.old write.change.bits.node) (number_at e dag.old write.change.old.node))) }
{
    match constant_word(dag, write.index.wire) {
        Some(word) => {
            let at = integer(word, write.index.signed) - from;
            let number = written(dag, write.change.old, write.change.bits, at)?;
            Ok(number)
        }
        None => {
            let number = indexed(dag, write, from)?;
            Ok(number)
        }
    }
}

// A word after bits are written in it at a spot.
fn changed(dag: &mut Dag, change: Change, spot: Spot) -> Result<u64, AllocError>
    requires old { IsWire dag.old change.old }
    requires bits { IsWire dag.old change.bits }
    requires spot { IsSpot dag.old spot }
    ensures keeps { Keeps dag.old dag.new }
    ensures makes { IfOk result (λ r. Makes dag.new r change.old.width
        (λ e. write_bits change.old.width (bit_at e dag.old spot) change.bits.width
        (number_at e dag.old change.bits.node) (number_at e dag.old change.old.node))) }
{
    match spot {
        Spot::Fixed(at) => {
            let number = written(dag, change.old, change.bits, at)?;
            Ok(number)
        }
        Spot::Indexed(index, from) => {
            let number = changed_at(dag, Write { change, index }, from)?;
            Ok(number)
        }
    }
}

// Puts a word into one target.
fn put(dag: &mut Dag, target: Target, bits: Wire, state: &mut Leaves) -> Result<(), AllocError>
    requires ready { AreReady state.old dag.old }
    requires apart { AreApart state.old }
    requires target { IsTarget state.old dag.old target }
    requires bits { IsWire dag.old bits }
    requires count { bits.width ≡ target.count }
    ensures keeps { Keeps dag.old dag.new }
    ensures same { declared state.new ≡ declared state.old }
    ensures ready { IfOk result (λ u. AreReady state.new dag.new) }
    ensures puts { IfOk result (λ u. Puts target bits.node state.old dag.old state.new dag.new) }
{
    let leaf = state.leaf(target.leaf);
    let old = Wire {
        node: leaf.node,
        width: leaf.width,
    };
    let number = changed(dag, Change { old, bits }, target.spot)?;
    state.set_node(target.leaf, number);
    Ok(())
}

// Puts the bits of a word above the `rest` lowest ones into one target.
#[tactic(auto, using(elab_step_expr::proofs::Kept::keeps_then, elab_step_expr::proofs::Kept::made_node, elab_step_expr::proofs::Kept::ready_kept))]
fn put_from(
    dag: &mut Dag,
    target: Target,
    value: Wire,
    rest: u8,
    state: &mut Leaves,
) -> Result<(), AllocError>
    requires ready { AreReady state.old dag.old }
    requires apart { AreApart state.old }
    requires target { IsTarget state.old dag.old target }
    requires value { IsWire dag.old value }
    requires within { rest + target.count ≤ value.width }
    ensures keeps { Keeps dag.old dag.new }
    ensures same { declared state.new ≡ declared state.old }
    ensures ready { IfOk result (λ u. AreReady state.new dag.new) }
    ensures puts { IfOk result (λ u. PutsFrom target value.node rest state.old dag.old state.new dag.new) }
{
    let width = target.count;
    let node = slice(dag, value, rest, width)?;
    put(dag, target, Wire { node, width }, state)?;
    Ok(())
}

/// Gives a word to targets: the last one has its lowest bits. `state` is half changed where it is refused.
pub fn give(
    dag: &mut Dag,
    targets: &[Target],
    value: Wire,
    state: &mut Leaves,
) -> Result<(), AllocError>
    requires ready { AreReady state.old dag.old }
    requires apart { AreApart state.old }
    requires targets { AreTargets state.old dag.old targets.now }
    requires value { IsWire dag.old value }
    requires total { value.width ≡ bits_in targets.now }
    ensures keeps { Keeps dag.old dag.new }
    ensures same { declared state.new ≡ declared state.old }
    ensures ready { IfOk result (λ u. AreReady state.new dag.new) }
    ensures gives { IfOk result (λ u. Gives targets.now value.node state.old dag.old state.new dag.new) }
{
    let mut rest = length_of(dag, value);
    for target in targets {
        rest -= target.count;
        put_from(dag, *target, value, rest, state)?;
    }
    Ok(())
}
