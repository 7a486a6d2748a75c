// The parts of a statement, which are ready where it is.
ghost use Rattle.std.specs.Prelude.{◌≡◌};
ghost use Rattle.elab_step_expr.specs.Leaves.{declared};
ghost use Rattle.elab_step_blocks.specs.Ready.{IsReadyStmt, EachReadyStmt, EachReadyItem};

use elab_step_expr::Leaves;
use sqlite_items::{Boxed, Items};
use vlog_tree::{CaseItem, Stmt};

/// A part of a statement.
pub fn part<'a>(boxed: &'a Boxed<Stmt>, state: &Leaves) -> &'a Stmt
    requires { IsReadyStmt (declared state.now) boxed.now }
    ensures same { result.now ≡ boxed.now }
    ensures ready { IsReadyStmt (declared state.now) result.now }
{
    let _state = state;
    boxed.get()
}

/// A statement of a block.
pub fn one<'a>(stmt: &'a Stmt, state: &Leaves) -> &'a Stmt
    requires { IsReadyStmt (declared state.now) stmt.now }
    ensures same { result.now ≡ stmt.now }
    ensures ready { IsReadyStmt (declared state.now) result.now }
{
    let _state = state;
    stmt
}

/// The statements of a block.
pub fn statements<'a>(stmts: &'a Items<Stmt>, state: &Leaves) -> &'a [Stmt]
    requires { EachReadyStmt (declared state.now) stmts.now }
    ensures same { result.now ≡ stmts.now }
    ensures ready { EachReadyStmt (declared state.now) result.now }
{
    let _state = state;
    stmts.as_slice()
}

/// The items of a case statement.
pub fn listed<'a>(items: &'a Items<CaseItem>, state: &Leaves) -> &'a [CaseItem]
    requires { EachReadyItem (declared state.now) items.now }
    ensures same { result.now ≡ items.now }
    ensures ready { EachReadyItem (declared state.now) result.now }
{
    let _state = state;
    items.as_slice()
}

/// The body of an item.
pub fn body<'a>(item: &'a CaseItem, state: &Leaves) -> &'a Stmt
    requires { IsReadyStmt (declared state.now) item.now.body }
    ensures same { result.now ≡ item.now.body }
    ensures ready { IsReadyStmt (declared state.now) result.now }
{
    let _state = state;
    &item.body
}
