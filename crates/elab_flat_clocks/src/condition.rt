// The condition of a block that is one `if` with an `else` (IEEE 1364-2005, section 9.4).

ghost use Rattle.std.specs.Prelude.{◌≡◌};
ghost use Rattle.std.specs.Option.{option_copied};
ghost use Rattle.elab_flat_faults.specs.Clocks.{condition_of};
ghost use Rattle.elab_flat_clocks.specs.Timings.{only_in, condition_alone};

use sqlite_items::{Boxed, Items};
use vlog_tree::{Expr, Stmt};

// The condition of a statement that is an `if` with an `else`.
fn condition_alone(stmt: &Stmt) -> Option<&Expr>
    ensures { option_copied result ≡ condition_alone stmt.now }
{
    match stmt {
        Stmt::IfElse(condition, _, _) => Some(condition),
        Stmt::Empty => None,
        Stmt::Block(_, _) => None,
        Stmt::If(_, _) => None,
        Stmt::Case(_, _, _) => None,
        Stmt::Blocking(_, _) => None,
        Stmt::Nonblocking(_, _) => None,
    }
}

// The condition of the only statement of some.
fn only_in(stmts: &[Stmt]) -> Option<&Expr>
    ensures { option_copied result ≡ only_in stmts.now }
{
    if stmts.len() == 1 {
        condition_alone(&stmts[0])
    } else {
        None
    }
}

/// The condition of a body that is one `if` with an `else`, alone or as the only statement of a `begin` and `end`.
pub fn condition_of(body: &Stmt) -> Option<&Expr>
    ensures { option_copied result ≡ condition_of body.now }
{
    match body {
        Stmt::Block(_, stmts) => only_in(stmts.as_slice()),
        Stmt::IfElse(condition, _, _) => Some(condition),
        Stmt::Empty => None,
        Stmt::If(_, _) => None,
        Stmt::Case(_, _, _) => None,
        Stmt::Blocking(_, _) => None,
        Stmt::Nonblocking(_, _) => None,
    }
}
