// What the names of a formula stand for in rows of nodes.
ghost use Rattle.std.specs.Prelude.{◌≡◌, ◌++◌, length, map, is_some, IfOk, OnOk};
ghost use Rattle.std.specs.List.{All, flat_map};
ghost use Rattle.std.specs.Str.{bytes_eq};
ghost use Rattle.vlog_tree.specs.Valuation.{IsLength};
ghost use Rattle.elab_step_expr.specs.Leaves.{leaf_at};
ghost use Rattle.twin_tests.specs.Leaves.{leaf_of, row_leaves, leaves_from, read_meant, names_in, with_leaf, leaves_read};

use crate::window::NodeRow;
use elab_step_expr::{Leaf, Leaves};
use outside::Text;
use set_tree::Name;
use std::alloc::{AllocError, Global};
use vlog_tree::{Expr, Name as Read};

#[cycle(names)]
fn add_names<'a>(all: &mut Vec<&'a Read>, formula: &'a Expr) -> Result<(), AllocError>
    ensures { OnOk result (map read_meant all.new.items ≡ map read_meant all.old.items ++ names_in formula.now) }
{
    match formula {
        Expr::Number(_) => Ok(()),
        Expr::Name(name) => {
            all.push(name)?;
            Ok(())
        }
        Expr::Select(name, index) => {
            all.push(name)?;
            add_names(all, index.get())
        }
        Expr::Part(name, _, a, b) => {
            all.push(name)?;
            add_names(all, a.get())?;
            add_names(all, b.get())
        }
        Expr::ConstantSelect(_, index) => add_names(all, index.get()),
        Expr::ConstantPart(_, _, a, b) => {
            add_names(all, a.get())?;
            add_names(all, b.get())
        }
        Expr::Cast(_, a) => add_names(all, a.get()),
        Expr::Paren(a) => add_names(all, a.get()),
        Expr::Concat(parts) => add_row_names(all, parts.as_slice()),
        Expr::Repeat(count, parts) => {
            add_names(all, count.get())?;
            add_row_names(all, parts.as_slice())
        }
        Expr::Unary(_, a) => add_names(all, a.get()),
        Expr::Binary(_, a, b) => {
            add_names(all, a.get())?;
            add_names(all, b.get())
        }
        Expr::Choice(condition, a, b) => {
            add_names(all, condition.get())?;
            add_names(all, a.get())?;
            add_names(all, b.get())
        }
    }
}

#[cycle(names)]
fn add_row_names<'a>(all: &mut Vec<&'a Read>, formulas: &'a [Expr]) -> Result<(), AllocError>
    ensures { OnOk result (map read_meant all.new.items ≡ map read_meant all.old.items ++ flat_map names_in formulas.now) }
{
    for formula in formulas {
        add_names(all, formula)?;
    }
    Ok(())
}

// The names in a formula, from the left.
fn names_in(alloc: Global, formula: &Expr) -> Result<Vec<&Read>, AllocError>
    ensures { IfOk result (λ r. map read_meant r.items ≡ names_in formula.now) }
{
    let mut all = Vec::new(alloc);
    add_names(&mut all, formula)?;
    Ok(all)
}

// What a name stands for at an offset.
fn leaf_of(alloc: Global, name: &Name, offset: u32, node: u64) -> Result<Leaf, AllocError>
    ensures { IfOk result (λ l. l ≡ leaf_of name.now offset node) }
{
    Ok(Leaf {
        name: Text::copy(alloc, name.name.bytes())?,
        offset,
        width: name.width,
        low: u64::from(name.low),
        signed: name.signed,
        node,
    })
}

fn is_named(name: &Name, text: &[u8]) -> bool
    ensures { result ≡ bytes_eq name.now.name text.now }
{
    name.name.bytes() == text
}

// What a text stands for in the row of an offset, where it is a declared name.
fn row_leaf(
    alloc: Global,
    names: &[Name],
    offset: u32,
    row: &NodeRow,
    text: &[u8],
) -> Result<Option<Leaf>, AllocError>
    requires { length row.now ≡ length names.now }
    ensures { IfOk result (λ leaf. leaf ≡ leaf_at (row_leaves names.now offset row.now) text.now offset) }
{
    let nodes = row.nodes();
    for i in 0..names.len() {
        if is_named(&names[i], text) {
            let leaf = leaf_of(alloc, &names[i], offset, nodes[i])?;
            return Ok(Some(leaf));
        }
    }
    Ok(None)
}

// What a name of a formula stands for in these rows.
fn leaf_in(
    alloc: Global,
    names: &[Name],
    rows: &[NodeRow],
    read: &Read,
) -> Result<Option<Leaf>, AllocError>
    requires { All (λ row. length row ≡ length names.now) rows.now }
    ensures { IfOk result (λ leaf. leaf ≡ leaf_at (leaves_from names.now 0 rows.now) read.now.text read.now.offset) }
{
    let offset = read.offset as usize;
    if rows.len() <= offset {
        return Ok(None);
    }
    row_leaf(alloc, names, read.offset, &rows[offset], read.text.bytes())
}

fn has_leaf(leaves: &Leaves, read: &Read) -> bool
    ensures { result ≡ is_some (leaf_at leaves.now read.now.text read.now.offset) }
{
    leaves.find(read.text.bytes(), read.offset).is_some()
}

// Adds what a name of a formula stands for, once.
fn push_leaf(
    alloc: Global,
    leaves: &mut Leaves,
    names: &[Name],
    rows: &[NodeRow],
    read: &Read,
) -> Result<(), AllocError>
    requires widths { All (λ n. IsLength n.width) names.now }
    requires long { All (λ row. length row ≡ length names.now) rows.now }
    ensures { OnOk result (leaves.new ≡ with_leaf (leaves_from names.now 0 rows.now) leaves.old read.now) }
{
    if has_leaf(leaves, read) {
        return Ok(());
    }
    match leaf_in(alloc, names, rows, read)? {
        None => Ok(()),
        Some(leaf) => leaves.push(alloc, leaf),
    }
}

/// What the names of a formula stand for in these rows: so the leaves are as few as its names, however many names the
/// set declares.
pub fn leaves_of(
    alloc: Global,
    names: &[Name],
    rows: &[NodeRow],
    formula: &Expr,
) -> Result<Leaves, AllocError>
    requires widths { All (λ n. IsLength n.width) names.now }
    requires long { All (λ row. length row ≡ length names.now) rows.now }
    ensures { IfOk result (λ ls. ls ≡ leaves_read (leaves_from names.now 0 rows.now) formula.now) }
{
    let mut leaves = Leaves::new(alloc);
    let reads = names_in(alloc, formula)?;
    for read in &reads {
        push_leaf(alloc, &mut leaves, names, rows, read)?;
    }
    Ok(leaves)
}
