// The lines of a set, in the order of a report.
ghost use Rattle.std.specs.Prelude.{◌≡◌, ◌+◌, ◌^◌, ◌<◌, ◌++◌, suc, length, map, IfOk, OnOk};
ghost use Rattle.std.specs.List.{filter, flat_map};
ghost use Rattle.set_tree.specs.Parts.{IsPosition, property_at};
ghost use Rattle.set_tree.specs.Report.{edge_lines, numbers_from, set_lines, until_operations};
ghost use Rattle.twin_tests.specs.Ordering.{edge_line, line_of, property_line};

use crate::property::property_of;
use crate::set_line::SetLine;
use set_tree::Set;
use std::alloc::{AllocError, Global};

// The kinds of line that speak of one property.
#[derive(Clone, Copy, PartialEq, Eq)]
enum OfProperty {
    End,
    Split,
    SameEnd,
    Determine,
}

// The kinds of line that speak of an edge.
#[derive(Clone, Copy, PartialEq, Eq)]
enum OfEdge {
    Choose,
    Hand,
}

fn property_line(kind: OfProperty, p: u32) -> SetLine
    ensures { line_of result ≡ property_line kind p }
{
    match kind {
        OfProperty::End => SetLine::End(p),
        OfProperty::Split => SetLine::Split(p),
        OfProperty::SameEnd => SetLine::SameEnd(p),
        OfProperty::Determine => SetLine::Determine(p),
    }
}

fn edge_line(kind: OfEdge, p: u32, q: u32) -> SetLine
    ensures { line_of result ≡ edge_line kind p q }
{
    match kind {
        OfEdge::Choose => SetLine::Choose(p, q),
        OfEdge::Hand => SetLine::Hand(p, q),
    }
}

// A line for each property.
fn push_all(lines: &mut Vec<SetLine>, set: &Set, kind: OfProperty) -> Result<(), AllocError>
    requires { length set.now.operations < 2 ^ 31 }
    ensures { OnOk result (map line_of lines.new.items ≡ map line_of lines.old.items ++ map (property_line kind)
        (numbers_from 0 (suc (length set.now.operations)))) }
{
    for p in 0..set.operations.as_slice().len() + 1 {
        lines.push(property_line(kind, p as u32))?;
    }
    Ok(())
}

// A line for each operation that ends where a condition holds.
fn push_untils(lines: &mut Vec<SetLine>, set: &Set, kind: OfProperty) -> Result<(), AllocError>
    requires { length set.now.operations < 2 ^ 31 }
    ensures { OnOk result (map line_of lines.new.items ≡ map line_of lines.old.items ++ map (property_line kind)
        (until_operations set.now)) }
{
    for p in 1..set.operations.as_slice().len() + 1 {
        if property_of(set, p).length.until.is_some() {
            lines.push(property_line(kind, p as u32))?;
        }
    }
    Ok(())
}

// A line for each successor of a property.
fn push_next(lines: &mut Vec<SetLine>, kind: OfEdge, p: u32, next: &[u32]) -> Result<(), AllocError>
    ensures { OnOk result (map line_of lines.new.items ≡ map line_of lines.old.items ++ map
        (edge_line kind p) next.now) }
{
    for q in next {
        lines.push(edge_line(kind, p, *q))?;
    }
    Ok(())
}

// A line for each edge.
fn push_edges(lines: &mut Vec<SetLine>, set: &Set, kind: OfEdge) -> Result<(), AllocError>
    requires { length set.now.operations < 2 ^ 31 }
    ensures { OnOk result (map line_of lines.new.items ≡ map line_of lines.old.items ++ edge_lines set.now
        (edge_line kind)) }
{
    for p in 0..set.operations.as_slice().len() + 1 {
        push_next(lines, kind, p as u32, property_of(set, p).next.as_slice())?;
    }
    Ok(())
}

/// The lines of a set, in the order of a report.
pub fn lines_of(alloc: Global, set: &Set) -> Result<Vec<SetLine>, AllocError>
    requires { length set.now.operations < 2 ^ 31 }
    ensures { IfOk result (λ lines. map line_of lines.items ≡ set_lines set.now) }
{
    let mut lines = Vec::new(alloc);
    push_untils(&mut lines, set, OfProperty::End)?;
    push_all(&mut lines, set, OfProperty::Split)?;
    push_untils(&mut lines, set, OfProperty::SameEnd)?;
    push_edges(&mut lines, set, OfEdge::Choose)?;
    push_edges(&mut lines, set, OfEdge::Hand)?;
    push_all(&mut lines, set, OfProperty::Determine)?;
    Ok(lines)
}
