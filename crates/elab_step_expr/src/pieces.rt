// Numbers, names and their bits as nodes.
ghost use Rattle.std.specs.Prelude.{◌≡◌, ◌+◌, ◌*◌, ◌%◌, ◌^◌, ◌≤◌, ◌<◌, IfOk, Some, List, ℤ, pos, negsuc, ◌≤ℤ◌, ◌<ℤ◌, ◌-ℤ◌};
ghost use Rattle.word_dag.specs.Adding.{Keeps};
ghost use Rattle.vlog_tree.specs.Valuation.{IsLength, named};
ghost use Rattle.vlog_tree.specs.Value.{IsFormed, Stands, number_width, extend, integer, moved_down, part_low, value_of};
ghost use Rattle.elab_step_expr.specs.declared.leaves.Leaf.{Leaf};
ghost use Rattle.elab_step_expr.specs.Leaves.{AreReady, declared, valued, leaf_at};
ghost use Rattle.elab_step_expr.specs.Nodes.{Makes, IsNode, IsWire, number_at, words};
ghost use Rattle.elab_step_expr.specs.Terms.{IsTaken};
ghost use Rattle.elab_step_expr.specs.Vectors.{IsVector};

use crate::bits::moved;
use crate::indexed::{Own, indexed};
use crate::leaves::{Leaf, Leaves};
use crate::nodes::{Wire, constant, extended};
use crate::operands::Vector;
use std::alloc::AllocError;
use vlog_tree::{Constant, Expr, Name, Number, Span};
use vlog_tree_values::{evaluated_at, low_bits, number_width};
use word_core::Word;
use word_dag::Dag;

/// The node of a number.
#[tactic(auto, using(crate::proofs::Kept::keeps_then, crate::proofs::Kept::made_node))]
pub fn number_node(dag: &mut Dag, number: &Number, here: (u8, bool)) -> Result<u64, AllocError>
    requires formed { IsLength (number_width number.now.size) }
    requires long { number_width number.now.size ≤ here.0 }
    requires most { here.0 ≤ 64 }
    ensures keeps { Keeps dag.old dag.new }
    ensures makes { IfOk result (λ r. Makes dag.new r here.0
        (λ e. extend here.1 (number_width number.now.size) here.0
        (number.now.value % 2 ^ number_width number.now.size))) }
{
    let width = number_width(number);
    let value = low_bits(number.value, width).value();
    let node = constant(dag, width, value)?;
    let number = extended(dag, Wire { node, width }, here.0, here.1)?;
    Ok(number)
}

// The leaf of a name.
#[tactic(auto, using(crate::proofs::Read::stands_leaf))]
fn leaf_of<'a>(name: &Name, leaves: &'a Leaves) -> &'a Leaf
    requires { Stands (declared leaves.now) name.now }
    ensures { leaf_at leaves.now name.now.text name.now.offset ≡ Some result.now }
{
    match leaves.find(name.text.bytes(), name.offset) {
        Some(leaf) => leaf,
        None => unreachable!(),
    }
}

/// The node of a name.
pub fn name_node(
    dag: &mut Dag,
    name: &Name,
    here: (u8, bool),
    leaves: &Leaves,
) -> Result<u64, AllocError>
    requires ready { AreReady leaves.now dag.old }
    requires formed { Stands (declared leaves.now) name.now }
    requires long { (named (declared leaves.now) name.now).width ≤ here.0 }
    requires most { here.0 ≤ 64 }
    ensures keeps { Keeps dag.old dag.new }
    ensures makes { IfOk result (λ r. Makes dag.new r here.0
        (λ e. extend here.1 (named (valued leaves.now (words e dag.old)) name.now).width here.0
        (named (valued leaves.now (words e dag.old)) name.now).value)) }
{
    let leaf = leaf_of(name, leaves);
    let wire = Wire {
        node: leaf.node,
        width: leaf.width,
    };
    let number = extended(dag, wire, here.0, here.1)?;
    Ok(number)
}

// The bits of a word that an index names, at a length.
#[tactic(auto, using(crate::proofs::Kept::keeps_then, crate::proofs::Kept::made_node))]
fn indexed_at(
    dag: &mut Dag,
    a: Wire,
    index: Own,
    from: i128,
    width: u8,
    length: u8,
) -> Result<u64, AllocError>
    requires node { IsWire dag.old a }
    requires index { IsWire dag.old index.wire }
    requires some { 1 ≤ width }
    requires long { width ≤ length }
    requires most { length ≤ 64 }
    requires low { negsuc (2 ^ 80) ≤ℤ from }
    requires high { from <ℤ pos (2 ^ 80) }
    ensures keeps { Keeps dag.old dag.new }
    ensures makes { IfOk result (λ r. Makes dag.new r length
        (λ e. moved_down (integer index.signed index.wire.width (number_at e dag.old index.wire.node) -ℤ from)
        (number_at e dag.old a.node) % 2 ^ width)) }
{
    let bits = indexed(dag, a, index, from, width)?;
    let number = extended(dag, Wire { node: bits, width }, length, false)?;
    Ok(number)
}

/// The vector that a name stands for.
pub fn name_vector(dag: &Dag, name: &Name, leaves: &Leaves) -> Vector
    requires ready { AreReady leaves.now dag.now }
    requires formed { Stands (declared leaves.now) name.now }
    ensures { IsVector leaves.now dag.now (λ v. named v name.now) result }
{
    // the nodes of a dag fit
    let _fit = dag.nodes();
    let leaf = leaf_of(name, leaves);
    Vector {
        wire: Wire {
            node: leaf.node,
            width: leaf.width,
        },
        low: leaf.low,
    }
}

/// The vector of a parameter's number.
pub fn constant_vector(dag: &mut Dag, vector: Constant) -> Result<Vector, AllocError>
    requires { IsLength vector.width }
    ensures keeps { Keeps dag.old dag.new }
    ensures vector { IfOk result (λ v. (ls : List Leaf) → IsVector ls dag.new (λ _. vector) v) }
{
    let value = low_bits(vector.value, vector.width).value();
    let node = constant(dag, vector.width, value)?;
    Ok(Vector {
        wire: Wire {
            node,
            width: vector.width,
        },
        low: vector.low,
    })
}

/// The bits of a vector from the one with the number `low` upwards, at a length.
#[tactic(auto, using(crate::proofs::Kept::keeps_then, crate::proofs::Kept::made_node))]
pub fn fixed_bits(
    dag: &mut Dag,
    vector: Vector,
    low: i128,
    width: u8,
    length: u8,
) -> Result<u64, AllocError>
    requires node { IsWire dag.old vector.wire }
    requires some { 1 ≤ width }
    requires long { width ≤ length }
    requires most { length ≤ 64 }
    requires low { negsuc (2 ^ 64) ≤ℤ low }
    requires high { low <ℤ pos (2 ^ 64) }
    ensures keeps { Keeps dag.old dag.new }
    ensures makes { IfOk result (λ r. Makes dag.new r length
        (λ e. moved_down (low -ℤ pos vector.low) (number_at e dag.old vector.wire.node) % 2 ^ width)) }
{
    let bits = moved(dag, vector.wire, low - i128::from(vector.low), width)?;
    let number = extended(dag, Wire { node: bits, width }, length, false)?;
    Ok(number)
}

// The number of the bit at which a base has to stand for the lowest bits of a vector to be selected.
fn start_of(span: Span, low: u64, width: u8) -> i128
    requires some { 1 ≤ width }
    requires most { width ≤ 64 }
    requires varies { span ≡ Span.Fixed → ⊥ }
    ensures start { (i : ℤ) → (i -ℤ result) ≡ (part_low span i (pos width) -ℤ pos low) }
    ensures low { negsuc (2 ^ 80) ≤ℤ result }
    ensures high { result <ℤ pos (2 ^ 80) }
{
    match span {
        Span::Fixed => unreachable!(),
        Span::Up => i128::from(low),
        Span::Down => i128::from(low) + i128::from(width - 1),
    }
}

/// The bits `[base +: width]` or `[base -: width]` of a vector, at a length.
pub fn based_bits(
    dag: &mut Dag,
    vector: Vector,
    span: Span,
    base: Own,
    width: u8,
    length: u8,
) -> Result<u64, AllocError>
    requires node { IsWire dag.old vector.wire }
    requires base { IsWire dag.old base.wire }
    requires varies { span ≡ Span.Fixed → ⊥ }
    requires some { 1 ≤ width }
    requires long { width ≤ length }
    requires most { length ≤ 64 }
    ensures keeps { Keeps dag.old dag.new }
    ensures makes { IfOk result (λ r. Makes dag.new r length
        (λ e. moved_down (part_low span (integer base.signed base.wire.width (number_at e dag.old base.wire.node))
        (pos width) -ℤ pos vector.low) (number_at e dag.old vector.wire.node) % 2 ^ width)) }
{
    let start = start_of(span, vector.low, width);
    let number = indexed_at(dag, vector.wire, base, start, width, length)?;
    Ok(number)
}

// The value of an expression at the length and the sign at which it is taken, each name having the value 0.
fn constant_word(expr: &Expr, here: (u8, bool), leaves: &Leaves) -> Result<Word, AllocError>
    requires { IsTaken leaves.now expr.now here.0 here.1 }
    ensures { IfOk result (λ w. w ≡ record {
      width = here.0;
      value = value_of
          (declared leaves.now) expr.now here.0 here.1;
    }) }
{
    match evaluated_at(leaves.allocator(), expr, here.0, here.1, leaves.declared())? {
        Some(word) => Ok(word),
        None => unreachable!(),
    }
}

/// The node of an expression that is the same whatever the names' values are.
pub fn constant_node(
    dag: &mut Dag,
    expr: &Expr,
    here: (u8, bool),
    leaves: &Leaves,
) -> Result<u64, AllocError>
    requires { IsTaken leaves.now expr.now here.0 here.1 }
    ensures keeps { Keeps dag.old dag.new }
    ensures makes { IfOk result (λ r. Makes dag.new r here.0
        (λ e. value_of (declared leaves.now) expr.now here.0 here.1)) }
{
    let word = constant_word(expr, here, leaves)?;
    let number = constant(dag, here.0, word.value())?;
    Ok(number)
}
