// What statements do with expressions, in the order of their texts (IEEE 1364-2005, sections 9.2, 9.4 and 9.5).

ghost use Rattle.std.specs.Prelude.{◌≡◌, ◌++◌, OnOk, IfOk, map};
ghost use Rattle.std.specs.List.{flat_map};
ghost use Rattle.elab_flat_widths.specs.Usages.{usages, item_usages};
ghost use Rattle.elab_flat_widths.specs.Sites.{site_meant};

use sqlite_items::{Boxed, Items};
use std::alloc::{AllocError, Global};
use vlog_tree::{CaseItem, Expr, Lval, Stmt};

/// What a statement does at one place of its text.
#[derive(Clone, Copy)]
pub enum Site<'a> {
    /// It tests a condition.
    Test(&'a Expr),
    /// It compares an expression with the labels of a case statement.
    Cases(&'a Expr, &'a [CaseItem]),
    /// It assigns an expression.
    Store(&'a Lval, &'a Expr),
}

#[cycle(sites)]
fn add_sites<'a>(all: &mut Vec<Site<'a>>, stmt: &'a Stmt) -> Result<(), AllocError>
    ensures { OnOk result (map site_meant all.new.items ≡ map site_meant all.old.items ++ usages stmt.now) }
{
    match stmt {
        Stmt::Empty => Ok(()),
        Stmt::Block(_, stmts) => add_stmts(all, stmts.as_slice()),
        Stmt::If(condition, body) => {
            all.push(Site::Test(condition))?;
            add_sites(all, body.get())
        }
        Stmt::IfElse(condition, body, other) => {
            all.push(Site::Test(condition))?;
            add_sites(all, body.get())?;
            add_sites(all, other.get())
        }
        Stmt::Case(_, subject, items) => {
            let items = items.as_slice();
            all.push(Site::Cases(subject, items))?;
            add_items(all, items)
        }
        Stmt::Blocking(left, right) => {
            all.push(Site::Store(left, right))?;
            Ok(())
        }
        Stmt::Nonblocking(left, right) => {
            all.push(Site::Store(left, right))?;
            Ok(())
        }
    }
}

#[cycle(sites)]
fn add_stmts<'a>(all: &mut Vec<Site<'a>>, stmts: &'a [Stmt]) -> Result<(), AllocError>
    ensures { OnOk result (map site_meant all.new.items ≡ map site_meant all.old.items ++ flat_map usages stmts.now) }
{
    for stmt in stmts {
        add_sites(all, stmt)?;
    }
    Ok(())
}

#[cycle(sites)]
fn add_items<'a>(all: &mut Vec<Site<'a>>, items: &'a [CaseItem]) -> Result<(), AllocError>
    ensures { OnOk result (map site_meant all.new.items ≡ map site_meant all.old.items ++ flat_map item_usages items.now) }
{
    for item in items {
        add_sites(all, &item.body)?;
    }
    Ok(())
}

/// What a statement does with expressions.
pub fn sites_of(alloc: Global, stmt: &Stmt) -> Result<Vec<Site<'_>>, AllocError>
    ensures { IfOk result (λ r. map site_meant r.items ≡ usages stmt.now) }
{
    let mut all = Vec::new(alloc);
    add_sites(&mut all, stmt)?;
    Ok(all)
}
