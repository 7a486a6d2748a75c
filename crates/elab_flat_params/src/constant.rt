// Constants of parameters (IEEE 1364-2005, sections 5.2 and 5.4).

ghost use Rattle.std.specs.Prelude.{ℕ, ◌≤◌, max, IfOk, IfErr};
ghost use Rattle.vlog_tree.specs.Value.{width_of};
ghost use Rattle.elab_flat_params.specs.Constants.{HasKnownShape, IsNumber, IsUnfit};

use crate::bounds::bounds_defined;
use crate::stranger::stranger_in;
use crate::unfit::Unfit;
use std::alloc::{AllocError, Global};
use vlog_tree::{Expr, Valuation};
use vlog_tree_values::{evaluated_at, measured};
use word_core::Word;

/// The value of a constant expression in its place.
#[derive(Clone, Copy)]
pub struct Number {
    /// The length in bits that the expression has by itself.
    pub width: u8,
    pub signed: bool,
    /// Its value at the longer of its own length and its place's.
    pub word: Word,
}

/// The length and the sign of an expression over parameters.
pub fn known_shape(
    alloc: Global,
    expr: &Expr,
    params: &Valuation,
) -> Result<Result<(u8, bool), Unfit>, AllocError>
    ensures ok { IfOk result (λ r. IfOk r (λ s. HasKnownShape params.now expr.now s.0 s.1)) }
    ensures err { (n : ℕ) → IfOk result (λ r. IfErr r (IsUnfit params.now expr.now n)) }
{
    if stranger_in(expr, params).is_some() {
        return Ok(Err(Unfit::Name));
    }
    let shape = measured(alloc, expr, params)?;
    match shape {
        Some(shape) => Ok(Ok(shape)),
        None => {
            let defined = bounds_defined(alloc, expr, params)?;
            if defined {
                Ok(Err(Unfit::Length))
            } else {
                Ok(Err(Unfit::Divisor))
            }
        }
    }
}

/// The value of an expression over parameters in a place of so many bits, of which 0 says that it stands alone. Each
/// refusal has its cause, the names first.
pub fn number_at(
    alloc: Global,
    expr: &Expr,
    least: u8,
    params: &Valuation,
) -> Result<Result<Number, Unfit>, AllocError>
    requires { least ≤ 64 }
    ensures ok { IfOk result (λ r. IfOk r (IsNumber params.now expr.now least)) }
    ensures err { IfOk result (λ r. IfErr r (IsUnfit params.now expr.now (max (width_of params.now expr.now) least))) }
{
    let known = known_shape(alloc, expr, params)?;
    match known {
        Ok((width, signed)) => {
            let value = evaluated_at(alloc, expr, width.max(least), signed, params)?;
            match value {
                Some(word) => Ok(Ok(Number {
                    width,
                    signed,
                    word,
                })),
                None => Ok(Err(Unfit::Divisor)),
            }
        }
        Err(unfit) => Ok(Err(unfit)),
    }
}
