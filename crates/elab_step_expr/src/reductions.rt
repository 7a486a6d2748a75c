// Unary operators as nodes.
ghost use Rattle.std.specs.Prelude.{◌≡◌, ◌+◌, ◌-◌, ◌/◌, ◌%◌, ◌^◌, ◌<◌, ◌≤◌, IfOk, nat_eq, not, true, false, bit_xor, count_ones};
ghost use Rattle.word_dag.specs.Adding.{Keeps};
ghost use Rattle.vlog_tree.specs.Value.{bit};
ghost use Rattle.vlog_tree_values.specs.Operators.{is_reduction, reduction_of, sign_change_of, made_number};
ghost use Rattle.elab_step_expr.specs.Nodes.{Makes, IsNode, IsWire, number_at};

use crate::nodes::{Wire, constant, extended, slice, turned, two};
use crate::operators::{inverse, is_zero, length_of, truth};
use std::alloc::AllocError;
use vlog_tree::Unary;
use word_dag::{Dag, Op};

// Whether each bit is 1.
#[tactic(auto, using(crate::proofs::Kept::keeps_then, crate::proofs::Kept::made_node))]
fn is_ones(dag: &mut Dag, a: Wire) -> Result<u64, AllocError>
    requires { IsWire dag.old a }
    ensures keeps { Keeps dag.old dag.new }
    ensures makes { IfOk result (λ r. Makes dag.new r 1
        (λ e. bit (nat_eq (number_at e dag.old a.node) (2 ^ a.width - 1)))) }
{
    let width = length_of(dag, a);
    let zeros = turned(dag, a)?;
    let number = is_zero(dag, Wire { node: zeros, width })?;
    Ok(number)
}

// The sum of a bit and the bit with the number i of a word, modulo 2.
#[tactic(auto, using(crate::proofs::Kept::keeps_then, crate::proofs::Kept::made_node, crate::proofs::Kept::node_kept))]
fn with_bit(dag: &mut Dag, a: Wire, odd: u64, i: u8) -> Result<u64, AllocError>
    requires node { IsWire dag.old a }
    requires odd { IsNode dag.old odd 1 }
    requires within { i < a.width }
    ensures keeps { Keeps dag.old dag.new }
    ensures makes { IfOk result (λ r. Makes dag.new r 1
        (λ e. bit_xor (number_at e dag.old odd) (number_at e dag.old a.node / 2 ^ i % 2 ^ 1))) }
{
    let bit = slice(dag, a, i, 1)?;
    let number = two(
        dag,
        Op::Xor,
        1,
        Wire {
            node: odd,
            width: 1,
        },
        Wire {
            node: bit,
            width: 1,
        },
    )?;
    Ok(number)
}

// Whether the number of bits that are 1 is odd.
fn parity(dag: &mut Dag, a: Wire) -> Result<u64, AllocError>
    requires { IsWire dag.old a }
    ensures keeps { Keeps dag.old dag.new }
    ensures makes { IfOk result (λ r. Makes dag.new r 1 (λ e. count_ones (number_at e dag.old a.node) % 2)) }
{
    let width = length_of(dag, a);
    let mut odd = slice(dag, a, 0, 1)?;
    for i in 1..width {
        odd = with_bit(dag, a, odd, i)?;
    }
    Ok(odd)
}

// Whether it is even.
#[tactic(auto, using(crate::proofs::Kept::keeps_then, crate::proofs::Kept::made_node))]
fn even(dag: &mut Dag, a: Wire) -> Result<u64, AllocError>
    requires { IsWire dag.old a }
    ensures keeps { Keeps dag.old dag.new }
    ensures makes { IfOk result (λ r. Makes dag.new r 1 (λ e. 1 - count_ones (number_at e dag.old a.node) % 2)) }
{
    let odd = parity(dag, a)?;
    let number = inverse(dag, odd)?;
    Ok(number)
}

// Whether a bit is 0.
#[tactic(auto, using(crate::proofs::Kept::keeps_then, crate::proofs::Kept::made_node))]
fn not_ones(dag: &mut Dag, a: Wire) -> Result<u64, AllocError>
    requires { IsWire dag.old a }
    ensures keeps { Keeps dag.old dag.new }
    ensures makes { IfOk result (λ r. Makes dag.new r 1
        (λ e. bit (not (nat_eq (number_at e dag.old a.node) (2 ^ a.width - 1))))) }
{
    let ones = is_ones(dag, a)?;
    let number = inverse(dag, ones)?;
    Ok(number)
}

/// The one bit that a unary operator makes of a word.
#[tactic(auto, using(crate::proofs::Parity::odd_bit, crate::proofs::Parity::even_bit))]
pub fn reduction(dag: &mut Dag, op: Unary, a: Wire) -> Result<u64, AllocError>
    requires node { IsWire dag.old a }
    requires reduction { is_reduction op ≡ true }
    ensures keeps { Keeps dag.old dag.new }
    ensures makes { IfOk result (λ r. Makes dag.new r 1
        (λ e. bit (reduction_of op a.width (number_at e dag.old a.node)))) }
{
    match op {
        Unary::LogicalNot => is_zero(dag, a),
        Unary::ReduceNor => is_zero(dag, a),
        Unary::ReduceOr => truth(dag, a),
        Unary::ReduceAnd => is_ones(dag, a),
        Unary::ReduceNand => not_ones(dag, a),
        Unary::ReduceXor => parity(dag, a),
        Unary::ReduceXnor => even(dag, a),
        _ => unreachable!(),
    }
}

// 0 less a word.
#[tactic(auto, using(crate::proofs::Kept::keeps_then, crate::proofs::Kept::made_node, crate::proofs::Kept::node_kept))]
fn negated(dag: &mut Dag, a: Wire) -> Result<u64, AllocError>
    requires { IsWire dag.old a }
    ensures keeps { Keeps dag.old dag.new }
    ensures makes { IfOk result (λ r. Makes dag.new r a.width
        (λ e. (2 ^ a.width - number_at e dag.old a.node) % 2 ^ a.width)) }
{
    let width = length_of(dag, a);
    let zero = constant(dag, width, 0)?;
    let number = two(dag, Op::Sub, width, Wire { node: zero, width }, a)?;
    Ok(number)
}

// The word itself.
#[tactic(auto, using(crate::proofs::Kept::made_here, crate::proofs::Kept::keeps_same))]
fn same(dag: &mut Dag, a: Wire) -> Result<u64, AllocError>
    requires { IsWire dag.old a }
    ensures keeps { Keeps dag.old dag.new }
    ensures makes { IfOk result (λ r. Makes dag.new r a.width (λ e. number_at e dag.old a.node)) }
{
    let _width = length_of(dag, a);
    Ok(a.node)
}

/// The word with its sign changed, its bits turned, or as it is.
pub fn sign_change(dag: &mut Dag, op: Unary, a: Wire) -> Result<u64, AllocError>
    requires node { IsWire dag.old a }
    requires change { is_reduction op ≡ false }
    ensures keeps { Keeps dag.old dag.new }
    ensures makes { IfOk result (λ r. Makes dag.new r a.width
        (λ e. sign_change_of op a.width (number_at e dag.old a.node))) }
{
    match op {
        Unary::Plus => same(dag, a),
        Unary::Minus => negated(dag, a),
        Unary::BitNot => turned(dag, a),
        _ => unreachable!(),
    }
}
