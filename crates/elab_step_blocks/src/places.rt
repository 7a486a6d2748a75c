// The leaves that statements assign.
ghost use Rattle.std.specs.Prelude.{◌≡◌, ◌≢◌, ◌<◌, ◌≤◌, ◌*◌, ◌↔◌, ℕ, IfOk, IsTrue};
ghost use Rattle.std.specs.List.{Contains};
ghost use Rattle.vlog_tree.specs.declared.expr.Expr.{Expr};
ghost use Rattle.vlog_tree.specs.declared.stmt.Stmt.TheVariants as s;
ghost use Rattle.vlog_tree.specs.Value.{Stands};
ghost use Rattle.vlog_tree_runs.specs.Places.{read};
ghost use Rattle.elab_step_expr.specs.Leaves.{declared};
ghost use Rattle.elab_step_blocks.specs.Standing.{AreApart};
ghost use Rattle.elab_step_blocks.specs.Ready.{IsReadyLeft, EachReadyLeft, IsReadyStmt, EachReadyStmt, EachReadyItem};
ghost use Rattle.elab_step_blocks.specs.Saving.{AreWithin, IsSaved, IsSavedAt};
ghost use Rattle.elab_step_blocks.specs.Sparing.{SparesLeft, EachSparesLeft, Spares, EachSpares, ItemsSpare, Gathers, Covers, EachCovered};

use crate::branches::{Saved, saved_at};
use crate::left::{self, leaf_number};
use crate::parts::{body, listed, one, part, statements};
use elab_step_expr::Leaves;
use outside::Text;
use std::alloc::{AllocError, Global};
use vlog_tree::{CaseItem, Lval, Stmt};

// Adds the place of a name's leaf.
fn add_name(name: &Text, leaves: &Leaves, places: &mut Vec<usize>) -> Result<(), AllocError>
    requires apart { AreApart leaves.now }
    requires name { Stands (declared leaves.now) (read name.now) }
    ensures { IfOk result (λ u. Gathers leaves.now places.old.items places.new.items (λ x. name.now ≢ x)) }
{
    places.push(leaf_number(name, leaves))?;
    Ok(())
}

// Adds the places of the leaves of which a left side has a part.
#[cycle(add_left)]
fn add_left(left: &Lval, leaves: &Leaves, places: &mut Vec<usize>) -> Result<(), AllocError>
    requires apart { AreApart leaves.now }
    requires left { IsReadyLeft (declared leaves.now) left.now }
    ensures { IfOk result (λ u. Gathers leaves.now places.old.items places.new.items (SparesLeft leaves.now left.now)) }
{
    match left {
        Lval::Name(name) => add_name(name, leaves, places),
        Lval::Select(name, _) => add_name(name, leaves, places),
        Lval::Part(name, _, _, _) => add_name(name, leaves, places),
        Lval::Concat(lefts) => add_lefts(left::row(lefts, leaves), leaves, places),
    }
}

// The same for a row of left sides.
#[cycle(add_left)]
fn add_lefts(lefts: &[Lval], leaves: &Leaves, places: &mut Vec<usize>) -> Result<(), AllocError>
    requires apart { AreApart leaves.now }
    requires lefts { EachReadyLeft (declared leaves.now) lefts.now }
    ensures { IfOk result (λ u. Gathers leaves.now places.old.items places.new.items
        (EachSparesLeft leaves.now lefts.now)) }
{
    for left in lefts {
        add_left(left::one(left, leaves), leaves, places)?;
    }
    Ok(())
}

// Adds the places of the leaves that a statement assigns.
#[cycle(add_stmt)]
fn add_stmt(stmt: &Stmt, leaves: &Leaves, places: &mut Vec<usize>) -> Result<(), AllocError>
    requires apart { AreApart leaves.now }
    requires stmt { IsReadyStmt (declared leaves.now) stmt.now }
    ensures { IfOk result (λ u. Gathers leaves.now places.old.items places.new.items (Spares leaves.now stmt.now)) }
{
    match stmt {
        Stmt::Empty => Ok(()),
        Stmt::Block(_, stmts) => add_stmts(statements(stmts, leaves), leaves, places),
        Stmt::If(_, body) => add_stmt(part(body, leaves), leaves, places),
        Stmt::IfElse(_, body, other) => {
            add_stmt(part(body, leaves), leaves, places)?;
            add_stmt(part(other, leaves), leaves, places)
        }
        Stmt::Case(_, _, items) => add_items(listed(items, leaves), leaves, places),
        Stmt::Blocking(left, _) => add_left(left, leaves, places),
        Stmt::Nonblocking(left, _) => add_left(left, leaves, places),
    }
}

// The same for statements one after another.
#[cycle(add_stmt)]
fn add_stmts(stmts: &[Stmt], leaves: &Leaves, places: &mut Vec<usize>) -> Result<(), AllocError>
    requires apart { AreApart leaves.now }
    requires stmts { EachReadyStmt (declared leaves.now) stmts.now }
    ensures { IfOk result (λ u. Gathers leaves.now places.old.items places.new.items
        (EachSpares leaves.now stmts.now)) }
{
    for stmt in stmts {
        add_stmt(one(stmt, leaves), leaves, places)?;
    }
    Ok(())
}

// The same for the bodies of items.
#[cycle(add_stmt)]
fn add_items(items: &[CaseItem], leaves: &Leaves, places: &mut Vec<usize>) -> Result<(), AllocError>
    requires apart { AreApart leaves.now }
    requires items { EachReadyItem (declared leaves.now) items.now }
    ensures { IfOk result (λ u. Gathers leaves.now places.old.items places.new.items
        (ItemsSpare leaves.now items.now)) }
{
    for item in items {
        add_stmt(body(item, leaves), leaves, places)?;
    }
    Ok(())
}

// Each of these numbers, once.
fn distinct(numbers: Vec<usize>) -> Result<Vec<usize>, AllocError>
    ensures { IfOk result (λ r. (k : ℕ) → Contains r.items k ↔ Contains numbers.items k) }
{
    let mut sorted = numbers;
    sorted.sort()?;
    sorted.dedup();
    Ok(sorted)
}

// The nodes of the leaves of these places.
fn saved_once(alloc: Global, places: Vec<usize>, leaves: &Leaves) -> Result<Vec<Saved>, AllocError>
    requires { AreWithin leaves.now places.items }
    ensures { IfOk result (λ r. IsSavedAt leaves.now places.items r.items) }
{
    let places = distinct(places)?;
    let nodes = saved_at(alloc, leaves, &places)?;
    Ok(nodes)
}

/// The nodes of the leaves that a blocking assignment to a left side assigns.
pub fn before_assign(alloc: Global, left: &Lval, leaves: &Leaves) -> Result<Vec<Saved>, AllocError>
    requires apart { AreApart leaves.now }
    requires left { IsReadyLeft (declared leaves.now) left.now }
    ensures saved { IfOk result (λ r. IsSaved leaves.now r.items) }
    ensures covers { IfOk result (λ r. (right : Expr) → Covers leaves.now r.items (s.Blocking left.now right)) }
{
    let mut places = Vec::new(alloc);
    add_left(left, leaves, &mut places)?;
    let before = saved_once(alloc, places, leaves)?;
    Ok(before)
}

/// The nodes of the leaves that a statement assigns.
pub fn before_one(alloc: Global, stmt: &Stmt, leaves: &Leaves) -> Result<Vec<Saved>, AllocError>
    requires apart { AreApart leaves.now }
    requires stmt { IsReadyStmt (declared leaves.now) stmt.now }
    ensures saved { IfOk result (λ r. IsSaved leaves.now r.items) }
    ensures covers { IfOk result (λ r. Covers leaves.now r.items stmt.now) }
{
    let mut places = Vec::new(alloc);
    add_stmt(stmt, leaves, &mut places)?;
    let before = saved_once(alloc, places, leaves)?;
    Ok(before)
}

/// The nodes of the leaves that one of two statements assigns.
pub fn before_two(
    alloc: Global,
    one: &Stmt,
    other: &Stmt,
    leaves: &Leaves,
) -> Result<Vec<Saved>, AllocError>
    requires apart { AreApart leaves.now }
    requires one { IsReadyStmt (declared leaves.now) one.now }
    requires other { IsReadyStmt (declared leaves.now) other.now }
    ensures saved { IfOk result (λ r. IsSaved leaves.now r.items) }
    ensures one { IfOk result (λ r. Covers leaves.now r.items one.now) }
    ensures other { IfOk result (λ r. Covers leaves.now r.items other.now) }
{
    let mut places = Vec::new(alloc);
    add_stmt(one, leaves, &mut places)?;
    add_stmt(other, leaves, &mut places)?;
    let before = saved_once(alloc, places, leaves)?;
    Ok(before)
}

/// The nodes of the leaves that the bodies of items assign.
pub fn before_items(
    alloc: Global,
    items: &[CaseItem],
    leaves: &Leaves,
) -> Result<Vec<Saved>, AllocError>
    requires apart { AreApart leaves.now }
    requires items { EachReadyItem (declared leaves.now) items.now }
    ensures saved { IfOk result (λ r. IsSaved leaves.now r.items) }
    ensures covers { IfOk result (λ r. EachCovered leaves.now r.items items.now) }
{
    let mut places = Vec::new(alloc);
    add_items(items, leaves, &mut places)?;
    let before = saved_once(alloc, places, leaves)?;
    Ok(before)
}

// Whether joining all leaves at each item takes at most four times as many choices as joining the items' own. So a case
// of up to four items is always joined whole.
fn is_dense(items: usize, all: usize, own: usize) -> bool
    ensures { IsTrue result ↔ items * all ≤ 4 * own }
{
    items as u128 * all as u128 <= 4 * own as u128
}

/// Whether items mostly assign the same leaves, so that joining all of them at each item costs little more than joining
/// what each assigns itself. Both ways are right, and this is a matter of cost alone.
pub fn are_alike(alloc: Global, items: &[CaseItem], leaves: &Leaves) -> Result<bool, AllocError>
    requires apart { AreApart leaves.now }
    requires items { EachReadyItem (declared leaves.now) items.now }
{
    let all = before_items(alloc, items, leaves)?.len();
    let mut own: usize = 0;
    for item in items {
        let assigned = before_one(alloc, body(item, leaves), leaves)?.len();
        own = own.saturating_add(assigned);
    }
    Ok(is_dense(items.len(), all, own))
}
