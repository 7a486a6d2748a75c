// Expressions that can be assigned (IEEE 1364-2005, section 12.3.9.2).

ghost use Rattle.std.specs.Prelude.{◌≡◌};
ghost use Rattle.std.specs.List.{list_all};
ghost use Rattle.elab_flat_names.specs.Assignable.{is_assignable};

use elab_flat_scopes::Names;
use sqlite_items::{Boxed, Items};
use vlog_tree::Expr;

/// Whether an expression is a signal, a select of one, or a concatenation of such.
#[cycle(assignable)]
pub fn is_assignable(expr: &Expr, signals: &Names<'_>) -> bool
    ensures { result ≡ is_assignable signals.now expr.now }
{
    match expr {
        Expr::Name(name) => signals.has(name.text.bytes()),
        Expr::Select(name, _) => signals.has(name.text.bytes()),
        Expr::Part(name, _, _, _) => signals.has(name.text.bytes()),
        Expr::Concat(parts) => are_assignable(parts.as_slice(), signals),
        Expr::Number(_) => false,
        Expr::ConstantSelect(_, _) => false,
        Expr::ConstantPart(_, _, _, _) => false,
        Expr::Cast(_, _) => false,
        Expr::Paren(_) => false,
        Expr::Repeat(_, _) => false,
        Expr::Unary(_, _) => false,
        Expr::Binary(_, _, _) => false,
        Expr::Choice(_, _, _) => false,
    }
}

#[cycle(assignable)]
fn are_assignable(exprs: &[Expr], signals: &Names<'_>) -> bool
    ensures { result ≡ list_all (is_assignable signals.now) exprs.now }
{
    for expr in exprs {
        if !is_assignable(expr, signals) {
            return false;
        }
    }
    true
}
