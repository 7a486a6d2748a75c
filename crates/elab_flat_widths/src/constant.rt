// Parts of expressions that must be constant: bounds, widths and counts, and operands of a division (IEEE 1364-2005,
// sections 5.1.14 and 5.2.1).

ghost use Rattle.std.specs.Prelude.{◌≡◌, ◌&&◌};
ghost use Rattle.std.specs.Bool.{MatchBool};
ghost use Rattle.vlog_tree.specs.Value.{NamesOnly, HasConstantParts, IsPartConstant, IsDivisionConstant};
ghost use Rattle.elab_flat_params.specs.Constants.{is_known};
ghost use Rattle.elab_flat_widths.specs.Taken.{EachHasConstantParts};

use elab_flat_params::stranger_in;
use sqlite_items::{Boxed, Items};
use vlog_tree::{Binary, Expr, Span, Valuation};

fn both(a: bool, b: bool) -> bool
    ensures { result ≡ (a && b) }
{
    a && b
}

fn all_three(a: bool, b: bool, c: bool) -> bool
    ensures { result ≡ (a && (b && c)) }
{
    a && b && c
}

/// Whether an expression names parameters alone.
pub fn is_constant(expr: &Expr, params: &Valuation) -> bool
    ensures { MatchBool result (NamesOnly (is_known params.now) expr.now) (NamesOnly (is_known params.now) expr.now →
        ⊥) }
{
    match stranger_in(expr, params) {
        Some(_) => false,
        None => true,
    }
}

/// Whether the bounds of `[a:b]`, and the width of `+:` and `-:`, name parameters alone.
pub fn is_part_constant(span: Span, a: &Expr, b: &Expr, params: &Valuation) -> bool
    ensures { MatchBool result (IsPartConstant (is_known params.now) span a.now b.now)
        (IsPartConstant (is_known params.now) span a.now b.now → ⊥) }
{
    match span {
        Span::Fixed => both(is_constant(a, params), is_constant(b, params)),
        Span::Up => is_constant(b, params),
        Span::Down => is_constant(b, params),
    }
}

fn is_division_constant(op: Binary, a: &Expr, b: &Expr, params: &Valuation) -> bool
    ensures { MatchBool result (IsDivisionConstant (is_known params.now) op a.now b.now)
        (IsDivisionConstant (is_known params.now) op a.now b.now → ⊥) }
{
    match op {
        Binary::Div | Binary::Rem => both(is_constant(a, params), is_constant(b, params)),
        _ => true,
    }
}

/// Whether the parts of an expression that must be constant are so.
#[cycle(constant)]
pub fn has_constant_parts(expr: &Expr, params: &Valuation) -> bool
    ensures { MatchBool result (HasConstantParts (is_known params.now) expr.now)
        (HasConstantParts (is_known params.now) expr.now → ⊥) }
{
    match expr {
        Expr::Number(_) => true,
        Expr::Name(_) => true,
        Expr::Select(_, index) => has_constant_parts(index.get(), params),
        Expr::Part(_, span, a, b) => all_three(
            has_constant_parts(a.get(), params),
            has_constant_parts(b.get(), params),
            is_part_constant(*span, a.get(), b.get(), params),
        ),
        Expr::ConstantSelect(_, index) => has_constant_parts(index.get(), params),
        Expr::ConstantPart(_, span, a, b) => all_three(
            has_constant_parts(a.get(), params),
            has_constant_parts(b.get(), params),
            is_part_constant(*span, a.get(), b.get(), params),
        ),
        Expr::Cast(_, inner) => has_constant_parts(inner.get(), params),
        Expr::Paren(inner) => has_constant_parts(inner.get(), params),
        Expr::Concat(parts) => all_have_constant_parts(parts.as_slice(), params),
        Expr::Repeat(count, parts) => all_three(
            has_constant_parts(count.get(), params),
            is_constant(count.get(), params),
            all_have_constant_parts(parts.as_slice(), params),
        ),
        Expr::Unary(_, a) => has_constant_parts(a.get(), params),
        Expr::Binary(op, a, b) => all_three(
            has_constant_parts(a.get(), params),
            has_constant_parts(b.get(), params),
            is_division_constant(*op, a.get(), b.get(), params),
        ),
        Expr::Choice(condition, a, b) => all_three(
            has_constant_parts(condition.get(), params),
            has_constant_parts(a.get(), params),
            has_constant_parts(b.get(), params),
        ),
    }
}

#[cycle(constant)]
fn all_have_constant_parts(exprs: &[Expr], params: &Valuation) -> bool
    ensures { MatchBool result (EachHasConstantParts (is_known params.now) exprs.now)
        (EachHasConstantParts (is_known params.now) exprs.now → ⊥) }
{
    for expr in exprs {
        if !has_constant_parts(expr, params) {
            return false;
        }
    }
    true
}
