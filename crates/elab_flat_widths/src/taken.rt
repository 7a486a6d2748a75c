// Expressions in their places (IEEE 1364-2005, sections 5.4 and 5.5).

ghost use Rattle.std.specs.Prelude.{◌≡◌, ◌≤◌, ℕ, Bool, max, IfOk, IfErr, OnOk};
ghost use Rattle.vlog_tree.specs.Value.{width_of, sign_of, IsFormed, HasConstantParts};
ghost use Rattle.elab_flat_faults.specs.Constants.{alone, stored};
ghost use Rattle.elab_flat_params.specs.Constants.{is_known};
ghost use Rattle.elab_flat_widths.specs.Taken.{IsSound, Breaks, Fails, HasSoundShape, taken_at};

use crate::constant::has_constant_parts;
use crate::violation::Violation;
use elab_flat_params::bounds_defined;
use std::alloc::Global;
use vlog_tree::{Expr, Valuation};
use vlog_tree_values::{evaluated_at, measured};

/// The length and the sign of an expression that keeps the rules, divisors of its value apart.
pub fn sound_shape(
    alloc: Global,
    expr: &Expr,
    params: &Valuation,
    rest: &Valuation,
) -> Result<(u8, bool), Violation>
    ensures ok { IfOk result (λ s. HasSoundShape (is_known params.now) rest.now expr.now s.0 s.1) }
    ensures err { (n : ℕ) (s : Bool) → IfErr result
        (Fails (Breaks (is_known params.now) rest.now (taken_at expr.now n s))) }
{
    if !has_constant_parts(expr, params) {
        return Err(Violation::Constant);
    }
    let shape = measured(alloc, expr, rest)?;
    match shape {
        Some(shape) => Ok(shape),
        None => {
            let defined = bounds_defined(alloc, expr, rest)?;
            if defined {
                Err(Violation::Length)
            } else {
                Err(Violation::Constant)
            }
        }
    }
}

/// An expression of a sound shape keeps the rules at a length and a sign.
pub fn check_at(
    alloc: Global,
    expr: &Expr,
    shape: (u8, bool),
    params: &Valuation,
    rest: &Valuation,
) -> Result<(), Violation>
    requires parts { HasConstantParts (is_known params.now) expr.now }
    requires formed { IsFormed rest.now expr.now }
    requires long { width_of rest.now expr.now ≤ shape.0 }
    requires most { shape.0 ≤ 64 }
    ensures ok { OnOk result (IsSound (is_known params.now) rest.now (taken_at expr.now shape.0 shape.1)) }
    ensures err { IfErr result (Fails (Breaks (is_known params.now) rest.now (taken_at expr.now shape.0 shape.1))) }
{
    let _params = params;
    let value = evaluated_at(alloc, expr, shape.0, shape.1, rest)?;
    match value {
        Some(_) => Ok(()),
        None => Err(Violation::Constant),
    }
}

/// An expression keeps the rules as the right side of an assignment to so many bits.
pub fn check_stored(
    alloc: Global,
    expr: &Expr,
    least: u8,
    params: &Valuation,
    rest: &Valuation,
) -> Result<(), Violation>
    requires { least ≤ 64 }
    ensures ok { OnOk result (IsSound (is_known params.now) rest.now (stored rest.now least expr.now)) }
    ensures err { IfErr result (Fails (Breaks (is_known params.now) rest.now (stored rest.now least expr.now))) }
{
    match sound_shape(alloc, expr, params, rest) {
        Ok((width, signed)) => {
            let shape = (width.max(least), signed);
            check_at(alloc, expr, shape, params, rest)
        }
        Err(violation) => Err(violation),
    }
}

/// An expression keeps the rules by itself.
pub fn check_alone(
    alloc: Global,
    expr: &Expr,
    params: &Valuation,
    rest: &Valuation,
) -> Result<(), Violation>
    ensures ok { OnOk result (IsSound (is_known params.now) rest.now (alone rest.now expr.now)) }
    ensures err { IfErr result (Fails (Breaks (is_known params.now) rest.now (alone rest.now expr.now))) }
{
    match sound_shape(alloc, expr, params, rest) {
        Ok(shape) => check_at(alloc, expr, shape, params, rest),
        Err(violation) => Err(violation),
    }
}
