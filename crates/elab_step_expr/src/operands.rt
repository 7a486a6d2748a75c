// The parts of expressions, as they are taken.
ghost use Rattle.std.specs.Prelude.{◌≡◌, ◌*◌, ◌^◌, ◌≤◌, ◌<◌, IsTrue, IfOk, ℤ, pos, negsuc, ◌≤ℤ◌, ◌<ℤ◌};
ghost use Rattle.std.specs.Bool.{MatchBool};
ghost use Rattle.vlog_tree.specs.Valuation.{IsLength};
ghost use Rattle.vlog_tree.specs.Value.{IsFormed, natural, operand_of, own_integer};
ghost use Rattle.vlog_tree_values.specs.declared.operators.Family.TheVariants as family;
ghost use Rattle.vlog_tree_values.specs.Operators.{family_of};
ghost use Rattle.vlog_tree_values.specs.Shapes.{HasShape};
ghost use Rattle.elab_step_expr.specs.Leaves.{declared};
ghost use Rattle.elab_step_expr.specs.Terms.{IsTaken, IsAlone, IsRow, IsInner, AreOperands};

use crate::leaves::Leaves;
use crate::nodes::Wire;
use crate::shapes::{own_number, shape, shape_where};
use sqlite_items::{Boxed, Items};
use std::alloc::AllocError;
use vlog_tree::{Binary, Expr, Unary};
use vlog_tree_values::{Family, family_of, is_reduction, left_place, placing, right_place};

/// The bits of a vector, and the number of the lowest one.
#[derive(Clone, Copy)]
pub struct Vector {
    pub wire: Wire,
    pub low: u64,
}

/// Where a binary operator takes its operands: the length and the sign of each.
#[derive(Clone, Copy)]
pub struct Places {
    pub left: (u8, bool),
    pub right: (u8, bool),
}

/// A part of an expression that is taken at a length and a sign.
pub fn operand<'a>(boxed: &'a Boxed<Expr>, here: (u8, bool), leaves: &Leaves) -> &'a Expr
    requires { IsTaken leaves.now boxed.now here.0 here.1 }
    ensures same { result.now ≡ boxed.now }
    ensures taken { IsTaken leaves.now result.now here.0 here.1 }
{
    let _here = here;
    let _leaves = leaves;
    boxed.get()
}

/// A part of an expression that is taken by itself.
pub fn alone<'a>(boxed: &'a Boxed<Expr>, leaves: &Leaves) -> &'a Expr
    requires { IsAlone leaves.now boxed.now }
    ensures same { result.now ≡ boxed.now }
    ensures alone { IsAlone leaves.now result.now }
{
    let _leaves = leaves;
    boxed.get()
}

/// A part of a concatenation.
pub fn part<'a>(expr: &'a Expr, leaves: &Leaves) -> &'a Expr
    requires { IsAlone leaves.now expr.now }
    ensures same { result.now ≡ expr.now }
    ensures alone { IsAlone leaves.now result.now }
{
    let _leaves = leaves;
    expr
}

/// The parts of a concatenation.
pub fn row<'a>(items: &'a Items<Expr>, leaves: &Leaves) -> &'a [Expr]
    requires { IsRow leaves.now items.now }
    ensures same { result.now ≡ items.now }
    ensures row { IsRow leaves.now result.now }
{
    let _leaves = leaves;
    items.as_slice()
}

/// The length and the sign of an expression that is taken by itself.
#[tactic(auto, using(crate::proofs::Shaped::alone_taken))]
pub fn own_place(expr: &Expr, leaves: &Leaves) -> Result<(u8, bool), AllocError>
    requires { IsAlone leaves.now expr.now }
    ensures shape { IfOk result (λ s. HasShape (declared leaves.now) expr.now s.0 s.1) }
    ensures taken { IfOk result (λ s. IsTaken leaves.now expr.now s.0 s.1) }
{
    shape(expr, leaves)
}

/// Where a unary operator takes its operand. It is looked at only where its own length counts.
pub fn unary_place(
    expr: &Expr,
    op: Unary,
    inner: &Boxed<Expr>,
    here: (u8, bool),
    leaves: &Leaves,
) -> Result<(u8, bool), AllocError>
    requires is { expr.now ≡ Expr.Unary op inner.now }
    requires taken { IsTaken leaves.now expr.now here.0 here.1 }
    ensures place { IfOk result (λ p. IsInner leaves.now op inner.now here.0 here.1 p.0 p.1) }
    ensures taken { IfOk result (λ p. IsTaken leaves.now inner.now p.0 p.1) }
{
    let _expr = expr;
    if is_reduction(op) {
        let own = shape(inner.get(), leaves)?;
        return Ok(own);
    }
    Ok(here)
}

// Where an operator of a family takes its operands. One whose own length and sign don't count for that isn't looked at.
#[tactic(auto, using(crate::proofs::Taken::operands_where))]
fn operand_places(
    family: Family,
    a: &Expr,
    b: &Expr,
    here: (u8, bool),
    leaves: &Leaves,
) -> Result<Places, AllocError>
    requires left { IsFormed (declared leaves.now) a.now }
    requires right { IsFormed (declared leaves.now) b.now }
    ensures { IfOk result (λ p. AreOperands leaves.now family a.now b.now here.0 here.1 p.left.0 p.left.1 p.right.0 p.right.1) }
{
    let counting = placing(family);
    let left = shape_where(a, counting.left, leaves)?;
    let right = shape_where(b, counting.right, leaves)?;
    Ok(Places {
        left: left_place(family, here, left, right),
        right: right_place(family, here, left, right),
    })
}

/// Where a binary operator takes its operands.
pub fn binary_places(
    expr: &Expr,
    op: Binary,
    a: &Boxed<Expr>,
    b: &Boxed<Expr>,
    here: (u8, bool),
    leaves: &Leaves,
) -> Result<Places, AllocError>
    requires is { expr.now ≡ Expr.Binary op a.now b.now }
    requires taken { IsTaken leaves.now expr.now here.0 here.1 }
    ensures places { IfOk result (λ p. AreOperands leaves.now
        (family_of op) a.now b.now here.0 here.1 p.left.0 p.left.1 p.right.0 p.right.1) }
    ensures left { IfOk result (λ p. IsTaken leaves.now a.now p.left.0 p.left.1) }
    ensures right { IfOk result (λ p. IsTaken leaves.now b.now p.right.0 p.right.1) }
{
    let _expr = expr;
    let places = operand_places(family_of(op), a.get(), b.get(), here, leaves)?;
    Ok(places)
}

/// Whether an operator divides.
pub fn is_division(op: Binary) -> bool
    ensures { MatchBool result (family_of op ≡ family.Division) (family_of op ≡ family.Division → ⊥) }
{
    matches!(op, Binary::Div | Binary::Rem)
}

/// The integer of a part that is the same whatever the names' values are.
pub fn constant_integer(boxed: &Boxed<Expr>, leaves: &Leaves) -> Result<i128, AllocError>
    requires { IsAlone leaves.now boxed.now }
    ensures value { IfOk result (λ i. i ≡ own_integer (operand_of (declared leaves.now) boxed.now)) }
    ensures low { IfOk result (λ i. negsuc (2 ^ 64) ≤ℤ i) }
    ensures high { IfOk result (λ i. i <ℤ pos (2 ^ 64)) }
{
    own_number(boxed, leaves)
}

/// How many copies of so many bits there are.
pub fn count_of(boxed: &Boxed<Expr>, width: u8, leaves: &Leaves) -> Result<u8, AllocError>
    requires alone { IsAlone leaves.now boxed.now }
    requires length { IsLength (natural (own_integer (operand_of (declared leaves.now) boxed.now)) * width) }
    ensures { IfOk result (λ n. n ≡ natural (own_integer (operand_of (declared leaves.now) boxed.now))) }
{
    let _width = width;
    let count = constant_integer(boxed, leaves)?;
    Ok(count as u8)
}
