// An expression once more: under no prefix, and where nothing is a parameter.

ghost use Rattle.std.specs.Prelude.{◌≡◌, IfOk};

use crate::expr::moved_expr;
use std::alloc::{AllocError, Global};
use vlog_tree::{Expr, Valuation};

/// An expression once more.
pub fn copied(alloc: Global, expr: &Expr) -> Result<Expr, AllocError>
    ensures { IfOk result (λ r. r ≡ expr.now) }
{
    moved_expr(alloc, b"", &Valuation::new(alloc), expr)
}
