// The lengths and the signs that expressions have by themselves.
ghost use Rattle.std.specs.Bool.{MatchBool};
ghost use Rattle.std.specs.Prelude.{◌≡◌, true, IsTrue, IfOk, pos, negsuc, ◌≤ℤ◌, ◌<ℤ◌, ◌-ℤ◌, ◌+ℤ◌, ◌^◌};
ghost use Rattle.vlog_tree.specs.Valuation.{IsLength};
ghost use Rattle.vlog_tree.specs.Value.{IsFormed, operand_of, own_defined, own_integer, part_width, width_of, sign_of};
ghost use Rattle.vlog_tree_values.specs.Shapes.{HasShape, NeedsBound};
ghost use Rattle.elab_step_expr.specs.Leaves.{declared};

use crate::counts::nests_counts;
use crate::leaves::Leaves;
use sqlite_items::Boxed;
use std::alloc::AllocError;
use vlog_tree::{Expr, Span};
use vlog_tree_values::{
    evaluated, family_of, integer, is_reduction, is_signed, joined_shape, longer, measured,
    shape_of, sizing,
};

// The shape of an expression, of which each part is looked at. A copy of it, in which each count is taken once, is made
// only where counts stand within one another.
fn whole_shape(expr: &Expr, leaves: &Leaves) -> Result<(u8, bool), AllocError>
    requires { IsFormed (declared leaves.now) expr.now }
    ensures { IfOk result (λ s. HasShape (declared leaves.now) expr.now s.0 s.1) }
{
    let found = if nests_counts(expr) {
        measured(leaves.allocator(), expr, leaves.declared())?
    } else {
        shape_of(expr, leaves.declared())
    };
    match found {
        Some(shape) => Ok(shape),
        None => unreachable!(),
    }
}

/// The integer that an expression is by itself, each name having the value 0.
pub fn own_number(boxed: &Boxed<Expr>, leaves: &Leaves) -> Result<i128, AllocError>
    requires formed { IsFormed (declared leaves.now) boxed.now }
    requires defined { IsTrue (own_defined (operand_of (declared leaves.now) boxed.now)) }
    ensures value { IfOk result (λ i. i ≡ own_integer (operand_of (declared leaves.now) boxed.now)) }
    ensures low { IfOk result (λ i. negsuc (2 ^ 64) ≤ℤ i) }
    ensures high { IfOk result (λ i. i <ℤ pos (2 ^ 64)) }
{
    match evaluated(leaves.allocator(), boxed.get(), leaves.declared())? {
        Some((word, signed)) => Ok(integer(word, signed)),
        None => unreachable!(),
    }
}

/// Whether a part-select is `[high:low]`.
pub fn is_fixed(span: Span) -> bool
    ensures { MatchBool result (span ≡ Span.Fixed) (span ≡ Span.Fixed → ⊥) }
{
    matches!(span, Span::Fixed)
}

// How many bits there are from the one of the second number up to the one of the first.
fn bits_between(first: i128, second: i128) -> i128
    requires low { negsuc (2 ^ 64) ≤ℤ first }
    requires high { first <ℤ pos (2 ^ 64) }
    requires low_too { negsuc (2 ^ 64) ≤ℤ second }
    requires high_too { second <ℤ pos (2 ^ 64) }
    ensures { result ≡ ((first -ℤ second) +ℤ pos 1) }
{
    first - second + 1
}

// How many bits a part-select has. A base isn't looked at.
fn part_length(
    span: Span,
    a: &Boxed<Expr>,
    b: &Boxed<Expr>,
    leaves: &Leaves,
) -> Result<u8, AllocError>
    requires first { NeedsBound (declared leaves.now) a.now span }
    requires formed { IsFormed (declared leaves.now) b.now }
    requires defined { IsTrue (own_defined (operand_of (declared leaves.now) b.now)) }
    requires length { IsLength (part_width span (own_integer (operand_of (declared leaves.now) a.now))
        (own_integer (operand_of (declared leaves.now) b.now))) }
    ensures { IfOk result (λ n. n ≡ part_width span (own_integer (operand_of (declared leaves.now) a.now))
        (own_integer (operand_of (declared leaves.now) b.now))) }
{
    let second = own_number(b, leaves)?;
    if is_fixed(span) {
        let first = own_number(a, leaves)?;
        let bits = bits_between(first, second);
        return Ok(bits as u8);
    }
    Ok(second as u8)
}

// A part of an expression that is well formed.
fn formed<'a>(boxed: &'a Boxed<Expr>, leaves: &Leaves) -> &'a Expr
    requires { IsFormed (declared leaves.now) boxed.now }
    ensures same { result.now ≡ boxed.now }
    ensures formed { IsFormed (declared leaves.now) result.now }
{
    let _leaves = leaves;
    boxed.get()
}

/// The length and the sign that an expression has by itself (IEEE 1364-2005, 5.4 and 5.5). Operands on which they don't
/// depend aren't looked at: those of a comparison and of a reduction, a condition, the index of a bit.
#[cycle(shaping)]
pub fn shape(expr: &Expr, leaves: &Leaves) -> Result<(u8, bool), AllocError>
    requires { IsFormed (declared leaves.now) expr.now }
    ensures { IfOk result (λ s. HasShape (declared leaves.now) expr.now s.0 s.1) }
{
    match expr {
        Expr::Select(_, _) => Ok((1, false)),
        Expr::ConstantSelect(_, _) => Ok((1, false)),
        Expr::Part(_, span, a, b) => {
            let width = part_length(*span, a, b, leaves)?;
            Ok((width, false))
        }
        Expr::ConstantPart(_, span, a, b) => {
            let width = part_length(*span, a, b, leaves)?;
            Ok((width, false))
        }
        Expr::Cast(cast, inner) => {
            let inner = shape(formed(inner, leaves), leaves)?;
            Ok((inner.0, is_signed(*cast)))
        }
        Expr::Paren(inner) => {
            let inner = shape(formed(inner, leaves), leaves)?;
            Ok(inner)
        }
        Expr::Unary(op, inner) => {
            if is_reduction(*op) {
                return Ok((1, false));
            }
            let inner = shape(formed(inner, leaves), leaves)?;
            Ok(inner)
        }
        Expr::Binary(op, a, b) => {
            let family = family_of(*op);
            let counting = sizing(family);
            let left = shape_where(formed(a, leaves), counting.left, leaves)?;
            let right = shape_where(formed(b, leaves), counting.right, leaves)?;
            Ok(joined_shape(family, left, right))
        }
        Expr::Choice(_, a, b) => {
            let left = shape(formed(a, leaves), leaves)?;
            let right = shape(formed(b, leaves), leaves)?;
            Ok(longer(left, right))
        }
        Expr::Number(_) | Expr::Name(_) | Expr::Concat(_) | Expr::Repeat(_, _) => {
            let all = whole_shape(expr, leaves)?;
            Ok(all)
        }
    }
}

/// The same where it counts. Else the expression isn't looked at, and one bit stands for it.
#[cycle(shaping)]
pub fn shape_where(expr: &Expr, counts: bool, leaves: &Leaves) -> Result<(u8, bool), AllocError>
    requires { IsFormed (declared leaves.now) expr.now }
    ensures { IfOk result (λ s. counts ≡ true → HasShape (declared leaves.now) expr.now s.0 s.1) }
{
    if counts {
        let own = shape(expr, leaves)?;
        return Ok(own);
    }
    Ok((1, false))
}
