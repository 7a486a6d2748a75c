// The outermost form of an expression.

ghost use Rattle.std.specs.Prelude.{◌≡◌};
ghost use Rattle.elab_flat_clocks.specs.Heads.{head_meant, head_of};

use outside::Text;
use sqlite_items::{Boxed, Items};
use vlog_tree::{Binary, Expr, Number, Unary};

/// The outermost form of an expression, as far as conditions of resets need it.
#[derive(Clone, Copy)]
pub enum Head<'a> {
    Name(&'a Text),
    Number(&'a Number),
    Unary(Unary, &'a Expr),
    Binary(Binary, &'a Expr, &'a Expr),
    Other,
}

/// The outermost form of an expression.
pub fn head_of(expr: &Expr) -> Head<'_>
    ensures { head_meant result ≡ head_of expr.now }
{
    match expr {
        Expr::Name(name) => Head::Name(&name.text),
        Expr::Number(number) => Head::Number(number),
        Expr::Unary(op, a) => Head::Unary(*op, a.get()),
        Expr::Binary(op, a, b) => Head::Binary(*op, a.get(), b.get()),
        Expr::Select(_, _) => Head::Other,
        Expr::Part(_, _, _, _) => Head::Other,
        Expr::ConstantSelect(_, _) => Head::Other,
        Expr::ConstantPart(_, _, _, _) => Head::Other,
        Expr::Cast(_, _) => Head::Other,
        Expr::Paren(_) => Head::Other,
        Expr::Concat(_) => Head::Other,
        Expr::Repeat(_, _) => Head::Other,
        Expr::Choice(_, _, _) => Head::Other,
    }
}
