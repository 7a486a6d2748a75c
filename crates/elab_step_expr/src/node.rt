// Expressions as nodes.
ghost use Rattle.std.specs.Prelude.{◌≡◌, ◌≤◌, max, not, nat_eq, IfOk};
ghost use Rattle.word_dag.specs.Adding.{Keeps};
ghost use Rattle.vlog_tree.specs.Valuation.{IsLength};
ghost use Rattle.vlog_tree.specs.Value.{IsFormed, IsDefined, HasConstantParts, width_of, sign_of, own_value, assigned, bit};
ghost use Rattle.elab_step_expr.specs.Leaves.{AreReady, declared, valued};
ghost use Rattle.elab_step_expr.specs.Nodes.{Makes, words};
ghost use Rattle.elab_step_expr.specs.Terms.{nothing, IsTaken, IsAlone, IsRow, HasNode, HasOwnNode, HasRowNode};

use crate::families::{chosen, joined, made};
use crate::indexed::Own;
use crate::joins::{appended, copies};
use crate::leaves::Leaves;
use crate::nodes::{Wire, extended, slice};
use crate::operands::{
    alone, binary_places, constant_integer, count_of, is_division, operand, own_place, part, row,
    unary_place,
};
use crate::operators::truth;
use crate::pieces::{
    based_bits, constant_node, constant_vector, fixed_bits, name_node, name_vector, number_node,
};
use crate::shapes::{is_fixed, shape};
use std::alloc::AllocError;
use vlog_tree::{Expr, Span};
use word_dag::Dag;

// The node of an expression at a length and a sign, each name having the value of its leaf.
#[cycle(nodes)]
#[tactic(auto, using(crate::proofs::Kept::keeps_then, crate::proofs::Kept::ready_kept))]
fn node_at(dag: &mut Dag, expr: &Expr, here: (u8, bool), leaves: &Leaves) -> Result<u64, AllocError>
    requires ready { AreReady leaves.now dag.old }
    requires taken { IsTaken leaves.now expr.now here.0 here.1 }
    ensures keeps { Keeps dag.old dag.new }
    ensures ready { AreReady leaves.now dag.new }
    ensures node { IfOk result (λ i. HasNode leaves.now dag.new dag.new expr.now here.0 here.1 i) }
{
    match expr {
        Expr::Number(number) => {
            let node = number_node(dag, number, here)?;
            Ok(node)
        }
        Expr::Name(name) => {
            let node = name_node(dag, name, here, leaves)?;
            Ok(node)
        }
        Expr::Select(name, index) => {
            let index = own_node(dag, alone(index, leaves), leaves)?;
            let vector = name_vector(dag, name, leaves);
            let node = based_bits(dag, vector, Span::Up, index, 1, here.0)?;
            Ok(node)
        }
        Expr::Part(name, span, a, b) => {
            let own = shape(expr, leaves)?;
            if is_fixed(*span) {
                let low = constant_integer(b, leaves)?;
                let vector = name_vector(dag, name, leaves);
                let node = fixed_bits(dag, vector, low, own.0, here.0)?;
                return Ok(node);
            }
            let base = own_node(dag, alone(a, leaves), leaves)?;
            let vector = name_vector(dag, name, leaves);
            let node = based_bits(dag, vector, *span, base, own.0, here.0)?;
            Ok(node)
        }
        Expr::ConstantSelect(number, index) => {
            let index = own_node(dag, alone(index, leaves), leaves)?;
            let vector = constant_vector(dag, *number)?;
            let node = based_bits(dag, vector, Span::Up, index, 1, here.0)?;
            Ok(node)
        }
        Expr::ConstantPart(number, span, a, _) => {
            if is_fixed(*span) {
                let node = constant_node(dag, expr, here, leaves)?;
                return Ok(node);
            }
            let own = shape(expr, leaves)?;
            let base = own_node(dag, alone(a, leaves), leaves)?;
            let vector = constant_vector(dag, *number)?;
            let node = based_bits(dag, vector, *span, base, own.0, here.0)?;
            Ok(node)
        }
        Expr::Cast(_, inner) => {
            let inner = own_node(dag, alone(inner, leaves), leaves)?;
            let node = extended(dag, inner.wire, here.0, here.1)?;
            Ok(node)
        }
        Expr::Paren(inner) => {
            let node = node_at(dag, operand(inner, here, leaves), here, leaves)?;
            Ok(node)
        }
        Expr::Concat(items) => {
            let all = row_node(dag, row(items, leaves), leaves)?;
            let node = extended(dag, all, here.0, false)?;
            Ok(node)
        }
        Expr::Repeat(count, items) => {
            let once = row_node(dag, row(items, leaves), leaves)?;
            let times = count_of(count, once.width, leaves)?;
            let all = copies(dag, once, times)?;
            let node = extended(dag, all, here.0, false)?;
            Ok(node)
        }
        Expr::Unary(op, inner) => {
            let place = unary_place(expr, *op, inner, here, leaves)?;
            let inner = node_at(dag, operand(inner, place, leaves), place, leaves)?;
            let width = place.0;
            let node = made(dag, *op, here.0, Wire { node: inner, width })?;
            Ok(node)
        }
        Expr::Binary(op, a, b) => {
            if is_division(*op) {
                let node = constant_node(dag, expr, here, leaves)?;
                return Ok(node);
            }
            let places = binary_places(expr, *op, a, b, here, leaves)?;
            let left = places.left;
            let right = places.right;
            let a = node_at(dag, operand(a, left, leaves), left, leaves)?;
            let b = node_at(dag, operand(b, right, leaves), right, leaves)?;
            let a = Wire {
                node: a,
                width: left.0,
            };
            let b = Wire {
                node: b,
                width: right.0,
            };
            let node = joined(dag, *op, here, left.1, a, b)?;
            Ok(node)
        }
        Expr::Choice(condition, a, b) => {
            let condition = own_node(dag, alone(condition, leaves), leaves)?;
            let a = node_at(dag, operand(a, here, leaves), here, leaves)?;
            let b = node_at(dag, operand(b, here, leaves), here, leaves)?;
            let a = Wire {
                node: a,
                width: here.0,
            };
            let b = Wire {
                node: b,
                width: here.0,
            };
            let node = chosen(dag, condition.wire, a, b)?;
            Ok(node)
        }
    }
}

// The node of an expression by itself, and its sign.
#[cycle(nodes)]
fn own_node(dag: &mut Dag, expr: &Expr, leaves: &Leaves) -> Result<Own, AllocError>
    requires ready { AreReady leaves.now dag.old }
    requires alone { IsAlone leaves.now expr.now }
    ensures keeps { Keeps dag.old dag.new }
    ensures ready { AreReady leaves.now dag.new }
    ensures node { IfOk result (λ o. HasOwnNode leaves.now dag.new dag.new expr.now o.wire o.signed) }
{
    if let Expr::Concat(items) = expr {
        let wire = row_node(dag, row(items, leaves), leaves)?;
        return Ok(Own {
            wire,
            signed: false,
        });
    }
    let here = own_place(expr, leaves)?;
    let node = node_at(dag, expr, here, leaves)?;
    let wire = Wire {
        node,
        width: here.0,
    };
    Ok(Own {
        wire,
        signed: here.1,
    })
}

// The node of the parts of a concatenation, joined.
#[cycle(nodes)]
fn row_node(dag: &mut Dag, items: &[Expr], leaves: &Leaves) -> Result<Wire, AllocError>
    requires ready { AreReady leaves.now dag.old }
    requires row { IsRow leaves.now items.now }
    ensures keeps { Keeps dag.old dag.new }
    ensures ready { AreReady leaves.now dag.new }
    ensures node { IfOk result (λ w. HasRowNode leaves.now dag.new dag.new items.now w) }
{
    let mut all = Wire { node: 0, width: 0 };
    for item in items {
        let low = own_node(dag, part(item, leaves), leaves)?;
        all = appended(dag, all, low.wire)?;
    }
    Ok(all)
}

/// The node of an expression at a length in bits, at least its own, and a sign, as they come from the expression that
/// it stands in. Its number is the expression's value, each name having the number of its leaf's node, whatever the
/// free words are. On an error the nodes that were there stay as they were.
#[tactic(auto, using(crate::proofs::Kept::keeps_then, crate::proofs::Kept::ready_kept))]
pub fn node_of(
    dag: &mut Dag,
    expr: &Expr,
    length: u8,
    signed: bool,
    leaves: &Leaves,
) -> Result<u64, AllocError>
    requires ready { AreReady leaves.now dag.old }
    requires taken { IsTaken leaves.now expr.now length signed }
    ensures keeps { Keeps dag.old dag.new }
    ensures ready { AreReady leaves.now dag.new }
    ensures node { IfOk result (λ i. HasNode leaves.now dag.old dag.new expr.now length signed i) }
{
    let node = node_at(dag, expr, (length, signed), leaves)?;
    Ok(node)
}

/// The node of what an assignment gives to a left side of so many bits (IEEE 1364-2005, 5.4). On an error the nodes
/// that were there stay as they were.
#[tactic(auto, using(crate::proofs::Kept::keeps_then, crate::proofs::Kept::ready_kept))]
pub fn assigned_node(
    dag: &mut Dag,
    expr: &Expr,
    width: u8,
    leaves: &Leaves,
) -> Result<u64, AllocError>
    requires ready { AreReady leaves.now dag.old }
    requires formed { IsFormed (declared leaves.now) expr.now }
    requires constant { HasConstantParts nothing expr.now }
    requires defined { IsDefined (declared leaves.now) expr.now (max (width_of (declared leaves.now) expr.now) width)
        (sign_of (declared leaves.now) expr.now) }
    requires some { 1 ≤ width }
    requires most { width ≤ 64 }
    ensures keeps { Keeps dag.old dag.new }
    ensures ready { AreReady leaves.now dag.new }
    ensures node { IfOk result (λ i. Makes dag.new i width
        (λ e. assigned (valued leaves.now (words e dag.old)) expr.now width)) }
{
    let own = shape(expr, leaves)?;
    let length = own.0.max(width);
    let node = node_at(dag, expr, (length, own.1), leaves)?;
    let wire = Wire {
        node,
        width: length,
    };
    let number = slice(dag, wire, 0, width)?;
    Ok(number)
}

/// The node of an expression's own value, at its own length. On an error the nodes that were there stay as they were.
#[tactic(auto, using(crate::proofs::Kept::keeps_then, crate::proofs::Kept::ready_kept))]
pub fn value_node(dag: &mut Dag, expr: &Expr, leaves: &Leaves) -> Result<u64, AllocError>
    requires ready { AreReady leaves.now dag.old }
    requires alone { IsAlone leaves.now expr.now }
    ensures keeps { Keeps dag.old dag.new }
    ensures ready { AreReady leaves.now dag.new }
    ensures length { IfOk result (λ i. IsLength (width_of (declared leaves.now) expr.now)) }
    ensures node { IfOk result (λ i. Makes dag.new i (width_of (declared leaves.now) expr.now)
        (λ e. own_value (valued leaves.now (words e dag.old)) expr.now)) }
{
    let own = own_node(dag, expr, leaves)?;
    Ok(own.wire.node)
}

/// The node of a condition: one bit that is 1 exactly where the expression's own value isn't 0. On an error the nodes
/// that were there stay as they were.
#[tactic(auto, using(crate::proofs::Kept::keeps_then, crate::proofs::Kept::ready_kept))]
pub fn holds_node(dag: &mut Dag, expr: &Expr, leaves: &Leaves) -> Result<u64, AllocError>
    requires ready { AreReady leaves.now dag.old }
    requires alone { IsAlone leaves.now expr.now }
    ensures keeps { Keeps dag.old dag.new }
    ensures ready { AreReady leaves.now dag.new }
    ensures node { IfOk result (λ i. Makes dag.new i 1
        (λ e. bit (not (nat_eq (own_value (valued leaves.now (words e dag.old)) expr.now) 0)))) }
{
    let own = own_node(dag, expr, leaves)?;
    let number = truth(dag, own.wire)?;
    Ok(number)
}
