// Divisors in the bounds of expressions (IEEE 1364-2005, sections 5.1.14, 5.2.1 and 5.1.5).

ghost use Rattle.std.specs.Prelude.{◌≡◌, ◌&&◌, IfOk};
ghost use Rattle.std.specs.Bool.{MatchBool};
ghost use Rattle.elab_flat_faults.specs.Constants.{IsOwnDefined, IsBoundDefined, BoundsDefined};
ghost use Rattle.elab_flat_params.specs.Bounds.{EachBoundsDefined};

use std::alloc::{AllocError, Global};
use vlog_tree::{Expr, Span, Valuation};
use vlog_tree_values::{evaluated, measured};

fn both(a: bool, b: bool) -> bool
    ensures { result ≡ (a && b) }
{
    a && b
}

// Whether no divisor is 0 in an expression by itself, where it is well formed.
fn own_defined(alloc: Global, expr: &Expr, valuation: &Valuation) -> Result<bool, AllocError>
    ensures { IfOk result (λ r. MatchBool r (IsOwnDefined valuation.now expr.now) (IsOwnDefined valuation.now expr.now →
        ⊥)) }
{
    let shape = measured(alloc, expr, valuation)?;
    match shape {
        Some(_) => {
            let own = evaluated(alloc, expr, valuation)?;
            match own {
                Some(_) => Ok(true),
                None => Ok(false),
            }
        }
        None => Ok(true),
    }
}

// The same of the constant numbers of a part-select.
fn bound_defined(
    alloc: Global,
    span: Span,
    a: &Expr,
    b: &Expr,
    valuation: &Valuation,
) -> Result<bool, AllocError>
    ensures { IfOk result (λ r. MatchBool r (IsBoundDefined valuation.now span a.now b.now)
        (IsBoundDefined valuation.now span a.now b.now → ⊥)) }
{
    match span {
        Span::Fixed => {
            let high = own_defined(alloc, a, valuation)?;
            let low = own_defined(alloc, b, valuation)?;
            Ok(both(high, low))
        }
        Span::Up => own_defined(alloc, b, valuation),
        Span::Down => own_defined(alloc, b, valuation),
    }
}

/// Whether no divisor is 0 in the bounds, widths and counts of an expression that are well formed.
#[cycle(bounds)]
pub fn bounds_defined(alloc: Global, expr: &Expr, valuation: &Valuation) -> Result<bool, AllocError>
    ensures { IfOk result (λ r. MatchBool r (BoundsDefined valuation.now expr.now)
        (BoundsDefined valuation.now expr.now → ⊥)) }
{
    match expr {
        Expr::Number(_) => Ok(true),
        Expr::Name(_) => Ok(true),
        Expr::Select(_, index) => bounds_defined(alloc, index.get(), valuation),
        Expr::Part(_, span, a, b) => {
            let first = bounds_defined(alloc, a.get(), valuation)?;
            let second = bounds_defined(alloc, b.get(), valuation)?;
            let own = bound_defined(alloc, *span, a.get(), b.get(), valuation)?;
            Ok(both(both(first, second), own))
        }
        Expr::ConstantSelect(_, index) => bounds_defined(alloc, index.get(), valuation),
        Expr::ConstantPart(_, span, a, b) => {
            let first = bounds_defined(alloc, a.get(), valuation)?;
            let second = bounds_defined(alloc, b.get(), valuation)?;
            let own = bound_defined(alloc, *span, a.get(), b.get(), valuation)?;
            Ok(both(both(first, second), own))
        }
        Expr::Cast(_, inner) => bounds_defined(alloc, inner.get(), valuation),
        Expr::Paren(inner) => bounds_defined(alloc, inner.get(), valuation),
        Expr::Concat(parts) => all_defined(alloc, parts.as_slice(), valuation),
        Expr::Repeat(count, parts) => {
            let within = bounds_defined(alloc, count.get(), valuation)?;
            let own = own_defined(alloc, count.get(), valuation)?;
            let all = all_defined(alloc, parts.as_slice(), valuation)?;
            Ok(both(both(within, own), all))
        }
        Expr::Unary(_, a) => bounds_defined(alloc, a.get(), valuation),
        Expr::Binary(_, a, b) => {
            let first = bounds_defined(alloc, a.get(), valuation)?;
            let second = bounds_defined(alloc, b.get(), valuation)?;
            Ok(both(first, second))
        }
        Expr::Choice(condition, a, b) => {
            let test = bounds_defined(alloc, condition.get(), valuation)?;
            let first = bounds_defined(alloc, a.get(), valuation)?;
            let second = bounds_defined(alloc, b.get(), valuation)?;
            Ok(both(test, both(first, second)))
        }
    }
}

#[cycle(bounds)]
fn all_defined(alloc: Global, exprs: &[Expr], valuation: &Valuation) -> Result<bool, AllocError>
    ensures { IfOk result (λ r. MatchBool r (EachBoundsDefined valuation.now exprs.now)
        (EachBoundsDefined valuation.now exprs.now → ⊥)) }
{
    for expr in exprs {
        if !bounds_defined(alloc, expr, valuation)? {
            return Ok(false);
        }
    }
    Ok(true)
}
