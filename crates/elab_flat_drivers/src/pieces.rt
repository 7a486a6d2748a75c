// What stands in a statement (IEEE 1364-2005, sections 9.2, 9.4, 9.5 and 9.8).

ghost use Rattle.std.specs.Prelude.{◌≡◌, ◌++◌, OnOk, IfOk, map};
ghost use Rattle.std.specs.List.{flat_map};
ghost use Rattle.vlog_tree_runs.specs.Blocks.{exprs_in};
ghost use Rattle.elab_flat_drivers.specs.Pieces.{Tests, piece_meant, actions, item_actions};

use sqlite_items::{Boxed, Items};
use std::alloc::{AllocError, Global};
use vlog_tree::{CaseItem, Expr, Labels, Lval, Stmt};

/// What a statement does at one place of its text.
#[derive(Clone, Copy)]
pub enum Piece<'a> {
    /// It tests a condition, a case expression or a label.
    Test(&'a Expr),
    /// `left = right;`
    Blocking(&'a Lval, &'a Expr),
    /// `left <= right;`
    Nonblocking(&'a Lval, &'a Expr),
}

fn add_labels<'a>(all: &mut Vec<Piece<'a>>, labels: &'a Labels) -> Result<(), AllocError>
    ensures { OnOk result (map piece_meant all.new.items ≡ map piece_meant all.old.items ++ map Tests
        (exprs_in labels.now)) }
{
    match labels {
        Labels::Exprs(exprs) => add_tests(all, exprs.as_slice()),
        Labels::Default => Ok(()),
    }
}

fn add_tests<'a>(all: &mut Vec<Piece<'a>>, exprs: &'a [Expr]) -> Result<(), AllocError>
    ensures { OnOk result (map piece_meant all.new.items ≡ map piece_meant all.old.items ++ map Tests exprs.now) }
{
    for expr in exprs {
        all.push(Piece::Test(expr))?;
    }
    Ok(())
}

#[cycle(pieces)]
fn add_pieces<'a>(all: &mut Vec<Piece<'a>>, stmt: &'a Stmt) -> Result<(), AllocError>
    ensures { OnOk result (map piece_meant all.new.items ≡ map piece_meant all.old.items ++ actions stmt.now) }
{
    match stmt {
        Stmt::Empty => Ok(()),
        Stmt::Block(_, stmts) => add_stmts(all, stmts.as_slice()),
        Stmt::If(condition, body) => {
            all.push(Piece::Test(condition))?;
            add_pieces(all, body.get())
        }
        Stmt::IfElse(condition, body, other) => {
            all.push(Piece::Test(condition))?;
            add_pieces(all, body.get())?;
            add_pieces(all, other.get())
        }
        Stmt::Case(_, subject, items) => {
            all.push(Piece::Test(subject))?;
            add_items(all, items.as_slice())
        }
        Stmt::Blocking(left, right) => {
            all.push(Piece::Blocking(left, right))?;
            Ok(())
        }
        Stmt::Nonblocking(left, right) => {
            all.push(Piece::Nonblocking(left, right))?;
            Ok(())
        }
    }
}

#[cycle(pieces)]
fn add_stmts<'a>(all: &mut Vec<Piece<'a>>, stmts: &'a [Stmt]) -> Result<(), AllocError>
    ensures { OnOk result (map piece_meant all.new.items ≡ map piece_meant all.old.items ++ flat_map actions stmts.now) }
{
    for stmt in stmts {
        add_pieces(all, stmt)?;
    }
    Ok(())
}

#[cycle(pieces)]
fn add_items<'a>(all: &mut Vec<Piece<'a>>, items: &'a [CaseItem]) -> Result<(), AllocError>
    ensures { OnOk result (map piece_meant all.new.items ≡ map piece_meant all.old.items ++ flat_map item_actions items.now) }
{
    for item in items {
        add_labels(all, &item.labels)?;
        add_pieces(all, &item.body)?;
    }
    Ok(())
}

/// What a statement does, in the order of its text.
pub fn pieces_of(alloc: Global, stmt: &Stmt) -> Result<Vec<Piece<'_>>, AllocError>
    ensures { IfOk result (λ r. map piece_meant r.items ≡ actions stmt.now) }
{
    let mut all = Vec::new(alloc);
    add_pieces(&mut all, stmt)?;
    Ok(all)
}
