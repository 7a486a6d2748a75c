// What a parameter stands for (IEEE 1364-2005, section 4.10).

ghost use Rattle.std.specs.Prelude.{◌≡◌, Some, None, max, IfOk, IfErr, IfSome};
ghost use Rattle.std.specs.Option.{option_copied};
ghost use Rattle.vlog_tree.specs.declared.item.Range.{Range as Bits};
ghost use Rattle.vlog_tree.specs.Valuation.{IsLength};
ghost use Rattle.vlog_tree.specs.Value.{width_of};
ghost use Rattle.elab_flat_scopes.specs.Borrowed.{shape_meant, param_meant};
ghost use Rattle.elab_flat_params.specs.Constants.{IsUnfit, IsBadRange};
ghost use Rattle.elab_flat_params.specs.Values.{HasBits, width_with, Converts, entry_with, IsBad, IsSound, StandsFor};

use crate::constant::number_at;
use crate::range::{Vector, vector_of};
use crate::unfit::{BadParam, BadRange, Unfit};
use elab_flat_scopes::Param;
use std::alloc::{AllocError, Global};
use vlog_tree::{Constant, Expr, Range, Shape, Valuation};
use word_core::Word;

pub fn range_of<'a>(shape: Option<&'a Shape>) -> Option<&'a Range>
    ensures { option_copied result ≡ (shape_meant shape.entry).range }
{
    match shape {
        Some(shape) => match &shape.range {
            Some(range) => Some(range),
            None => None,
        },
        None => None,
    }
}

/// The bits that a range declares, where there is one.
pub fn bits_of(
    alloc: Global,
    range: Option<&Range>,
    done: &Valuation,
) -> Result<Result<Option<Vector>, BadRange>, AllocError>
    ensures ok { IfOk result (λ r. IfOk r (HasBits done.now (option_copied range.entry))) }
    ensures err { IfOk result (λ r. IfErr r (λ cause. (x : Bits) × (option_copied range.entry ≡ Some x) ×
        IsBadRange done.now x cause)) }
{
    match range {
        Some(range) => {
            let found = vector_of(alloc, range, done)?;
            match found {
                Ok(vector) => Ok(Ok(Some(vector))),
                Err(cause) => Ok(Err(cause)),
            }
        }
        None => Ok(Ok(None)),
    }
}

// The value of an expression in a vector of these bits.
fn in_vector(
    alloc: Global,
    expr: &Expr,
    over: &Valuation,
    signed: bool,
    vector: Vector,
) -> Result<Result<Constant, Unfit>, AllocError>
    requires { IsLength vector.width }
    ensures ok { IfOk result (λ r. IfOk r (Converts over.now expr.now signed (Some vector))) }
    ensures err { IfOk result (λ r. IfErr r (IsUnfit over.now expr.now
        (max (width_of over.now expr.now) vector.width))) }
{
    let found = number_at(alloc, expr, vector.width, over)?;
    match found {
        Ok(number) => Ok(Ok(Constant {
            width: vector.width,
            low: vector.low,
            signed,
            value: Word::slice(number.word, 0, vector.width).value(),
        })),
        Err(unfit) => Ok(Err(unfit)),
    }
}

// The value of an expression at its own length.
fn alone(
    alloc: Global,
    expr: &Expr,
    over: &Valuation,
    signed: bool,
) -> Result<Result<Constant, Unfit>, AllocError>
    ensures ok { IfOk result (λ r. IfOk r (Converts over.now expr.now signed None)) }
    ensures err { IfOk result (λ r. IfErr r (IsUnfit over.now expr.now (max (width_of over.now expr.now) 0))) }
{
    let found = number_at(alloc, expr, 0, over)?;
    match found {
        Ok(number) => Ok(Ok(Constant {
            width: number.width,
            low: 0,
            signed: signed || number.signed,
            value: number.word.value(),
        })),
        Err(unfit) => Ok(Err(unfit)),
    }
}

fn converted(
    alloc: Global,
    expr: &Expr,
    over: &Valuation,
    signed: bool,
    vector: Option<Vector>,
) -> Result<Result<Constant, Unfit>, AllocError>
    requires { IfSome vector (λ d. IsLength d.width) }
    ensures ok { IfOk result (λ r. IfOk r (Converts over.now expr.now signed vector)) }
    ensures err { IfOk result (λ r. IfErr r (IsUnfit over.now expr.now
        (max (width_of over.now expr.now) (width_with vector 0)))) }
{
    match vector {
        Some(vector) => in_vector(alloc, expr, over, signed, vector),
        None => alone(alloc, expr, over, signed),
    }
}

pub fn is_signed(shape: Option<&Shape>) -> bool
    ensures { result ≡ (shape_meant shape.entry).signed }
{
    match shape {
        Some(shape) => shape.signed,
        None => false,
    }
}

/// What a parameter stands for: the value of its declaration over those before it, or what overrides it over the outer
/// ones.
pub fn value_of(
    alloc: Global,
    param: &Param<'_>,
    given: Option<&Expr>,
    outer: &Valuation,
    done: &Valuation,
) -> Result<Result<Constant, BadParam>, AllocError>
    ensures ok { IfOk result (λ r. IfOk r (λ k. StandsFor
        (entry_with (param_meant param.now) (option_copied given.entry) outer.now done.now) k)) }
    ensures sound { IfOk result (λ r. IfOk r
        (λ _. IsSound (param_meant param.now) (option_copied given.entry) outer.now done.now)) }
    ensures err { IfOk result (λ r. IfErr r (IsBad (param_meant param.now)
        (option_copied given.entry) outer.now done.now)) }
{
    let signed = is_signed(param.shape);
    let bits = bits_of(alloc, range_of(param.shape), done)?;
    let vector = match bits {
        Ok(vector) => vector,
        Err(cause) => return Ok(Err(BadParam::Range(cause))),
    };
    let declared = converted(alloc, param.value, done, signed, vector)?;
    let own = match declared {
        Ok(own) => own,
        Err(cause) => return Ok(Err(BadParam::Value(cause))),
    };
    match given {
        Some(expr) => {
            let overridden = converted(alloc, expr, outer, signed, vector)?;
            match overridden {
                Ok(constant) => Ok(Ok(constant)),
                Err(cause) => Ok(Err(BadParam::Given(cause))),
            }
        }
        None => Ok(Ok(own)),
    }
}
