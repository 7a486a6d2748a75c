// Parts of formulas that must be constant: bounds, widths and counts, and operands of a division.
ghost use Rattle.std.specs.Prelude.{◌≡◌, ◌&&◌};
ghost use Rattle.std.specs.List.{list_all};
ghost use Rattle.set_read_lookup.specs.Tests.{names_nothing, is_part_constant, is_division_constant, has_constant_parts};

use crate::names::{Wanted, wanted_in};
use vlog_tree::{Binary, Expr, Span};

fn names_nothing(expr: &Expr) -> bool
    ensures { result ≡ names_nothing expr.now }
{
    match wanted_in(expr, &Wanted::Any) {
        Some(_) => false,
        None => true,
    }
}

pub fn both(a: bool, b: bool) -> bool
    ensures { result ≡ (a && b) }
{
    a && b
}

fn is_part_constant(span: Span, a: &Expr, b: &Expr) -> bool
    ensures { result ≡ is_part_constant span a.now b.now }
{
    match span {
        Span::Fixed => both(names_nothing(a), names_nothing(b)),
        Span::Up | Span::Down => names_nothing(b),
    }
}

fn is_division_constant(op: Binary, a: &Expr, b: &Expr) -> bool
    ensures { result ≡ is_division_constant op a.now b.now }
{
    match op {
        Binary::Div | Binary::Rem => both(names_nothing(a), names_nothing(b)),
        _ => true,
    }
}

/// Whether the parts of a formula that must be constant name nothing.
#[cycle(constant)]
pub fn has_constant_parts(expr: &Expr) -> bool
    ensures { result ≡ has_constant_parts expr.now }
{
    match expr {
        Expr::Number(_) | Expr::Name(_) => true,
        Expr::Select(_, a) => has_constant_parts(a.get()),
        Expr::Part(_, span, a, b) | Expr::ConstantPart(_, span, a, b) => {
            let right = both(
                has_constant_parts(b.get()),
                is_part_constant(*span, a.get(), b.get()),
            );
            both(has_constant_parts(a.get()), right)
        }
        Expr::ConstantSelect(_, a) => has_constant_parts(a.get()),
        Expr::Cast(_, a) => has_constant_parts(a.get()),
        Expr::Paren(a) => has_constant_parts(a.get()),
        Expr::Concat(parts) => all_have_constant_parts(parts.as_slice()),
        Expr::Repeat(count, parts) => {
            let right = both(
                names_nothing(count.get()),
                all_have_constant_parts(parts.as_slice()),
            );
            both(has_constant_parts(count.get()), right)
        }
        Expr::Unary(_, a) => has_constant_parts(a.get()),
        Expr::Binary(op, a, b) => {
            let right = both(
                has_constant_parts(b.get()),
                is_division_constant(*op, a.get(), b.get()),
            );
            both(has_constant_parts(a.get()), right)
        }
        Expr::Choice(c, a, b) => {
            let right = both(has_constant_parts(a.get()), has_constant_parts(b.get()));
            both(has_constant_parts(c.get()), right)
        }
    }
}

#[cycle(constant)]
fn all_have_constant_parts(exprs: &[Expr]) -> bool
    ensures { result ≡ list_all has_constant_parts exprs.now }
{
    for expr in exprs {
        if !has_constant_parts(expr) {
            return false;
        }
    }
    true
}
