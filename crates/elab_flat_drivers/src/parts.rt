// The signals, bits and parts that left sides and expressions name (IEEE 1364-2005, section 5.2.1).

ghost use Rattle.std.specs.Prelude.{◌≡◌, ◌++◌, [], ◌∷◌, OnOk, IfOk, map};
ghost use Rattle.std.specs.List.{flat_map};
ghost use Rattle.vlog_tree_runs.specs.Blocks.{left_names};
ghost use Rattle.elab_flat_faults.specs.Drivers.{parts_of};
ghost use Rattle.elab_flat_drivers.specs.Parts.{part_meant, reads_of};
ghost use Rattle.elab_flat_drivers.specs.Claims.{part_name};

use outside::Text;
use sqlite_items::{Boxed, Items};
use std::alloc::{AllocError, Global};
use vlog_tree::{Expr, Lval, Span};

/// A signal as a text names it: all of it, one bit, or a part.
#[derive(Clone, Copy)]
pub enum Part<'a> {
    Whole(&'a Text),
    /// `name[index]`
    Bit(&'a Text, &'a Expr),
    /// `name[a:b]`, `name[a+:b]` or `name[a-:b]`
    Bits(&'a Text, Span, &'a Expr, &'a Expr),
}

/// The name of the signal.
pub fn name_of(part: Part<'_>) -> &Text
    ensures names { left_names (part_meant part.entry) ≡ result.now ∷ [] }
    ensures name { result.now ≡ part_name (part_meant part.entry) }
{
    match part {
        Part::Whole(name) => name,
        Part::Bit(name, _) => name,
        Part::Bits(name, _, _, _) => name,
    }
}

/// Adds the parts of a left side, from the left.
#[cycle(parts)]
pub fn add_parts<'a>(all: &mut Vec<Part<'a>>, left: &'a Lval) -> Result<(), AllocError>
    ensures { OnOk result (map part_meant all.new.items ≡ map part_meant all.old.items ++ parts_of left.now) }
{
    match left {
        Lval::Name(name) => {
            all.push(Part::Whole(name))?;
            Ok(())
        }
        Lval::Select(name, index) => {
            all.push(Part::Bit(name, index))?;
            Ok(())
        }
        Lval::Part(name, span, a, b) => {
            all.push(Part::Bits(name, *span, a, b))?;
            Ok(())
        }
        Lval::Concat(lefts) => add_row_parts(all, lefts.as_slice()),
    }
}

#[cycle(parts)]
fn add_row_parts<'a>(all: &mut Vec<Part<'a>>, lefts: &'a [Lval]) -> Result<(), AllocError>
    ensures { OnOk result (map part_meant all.new.items ≡ map part_meant all.old.items ++ flat_map parts_of lefts.now) }
{
    for left in lefts {
        add_parts(all, left)?;
    }
    Ok(())
}

/// The parts of a left side, from the left.
pub fn parts_of(alloc: Global, left: &Lval) -> Result<Vec<Part<'_>>, AllocError>
    ensures { IfOk result (λ r. map part_meant r.items ≡ parts_of left.now) }
{
    let mut all = Vec::new(alloc);
    add_parts(&mut all, left)?;
    Ok(all)
}

/// Adds what an expression reads, from the left, with what its indices read.
#[cycle(reads)]
pub fn add_reads<'a>(all: &mut Vec<Part<'a>>, expr: &'a Expr) -> Result<(), AllocError>
    ensures { OnOk result (map part_meant all.new.items ≡ map part_meant all.old.items ++ reads_of expr.now) }
{
    match expr {
        Expr::Number(_) => Ok(()),
        Expr::Name(name) => {
            all.push(Part::Whole(&name.text))?;
            Ok(())
        }
        Expr::Select(name, index) => {
            let index = index.get();
            all.push(Part::Bit(&name.text, index))?;
            add_reads(all, index)
        }
        Expr::Part(name, span, a, b) => {
            let a = a.get();
            let b = b.get();
            all.push(Part::Bits(&name.text, *span, a, b))?;
            add_reads(all, a)?;
            add_reads(all, b)
        }
        Expr::ConstantSelect(_, index) => add_reads(all, index.get()),
        Expr::ConstantPart(_, _, a, b) => {
            add_reads(all, a.get())?;
            add_reads(all, b.get())
        }
        Expr::Cast(_, inner) => add_reads(all, inner.get()),
        Expr::Paren(inner) => add_reads(all, inner.get()),
        Expr::Concat(parts) => add_row_reads(all, parts.as_slice()),
        Expr::Repeat(count, parts) => {
            add_reads(all, count.get())?;
            add_row_reads(all, parts.as_slice())
        }
        Expr::Unary(_, a) => add_reads(all, a.get()),
        Expr::Binary(_, a, b) => {
            add_reads(all, a.get())?;
            add_reads(all, b.get())
        }
        Expr::Choice(condition, a, b) => {
            add_reads(all, condition.get())?;
            add_reads(all, a.get())?;
            add_reads(all, b.get())
        }
    }
}

#[cycle(reads)]
fn add_row_reads<'a>(all: &mut Vec<Part<'a>>, exprs: &'a [Expr]) -> Result<(), AllocError>
    ensures { OnOk result (map part_meant all.new.items ≡ map part_meant all.old.items ++ flat_map reads_of exprs.now) }
{
    for expr in exprs {
        add_reads(all, expr)?;
    }
    Ok(())
}

/// What an expression reads, from the left, with what its indices read.
pub fn reads_of(alloc: Global, expr: &Expr) -> Result<Vec<Part<'_>>, AllocError>
    ensures { IfOk result (λ r. map part_meant r.items ≡ reads_of expr.now) }
{
    let mut all = Vec::new(alloc);
    add_reads(&mut all, expr)?;
    Ok(all)
}
