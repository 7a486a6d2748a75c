// The parts of a left side and their lengths (IEEE 1364-2005, sections 5.1.14 and 9.2).

ghost use Rattle.std.specs.Prelude.{◌≡◌, [], ◌∷◌, ◌++◌, ◌≤◌, ◌^◌, OnOk, IfOk, map, min, ℤ, pos, negsuc, ◌≤ℤ◌, ◌<ℤ◌, ◌+ℤ◌, ◌-ℤ◌};
ghost use Rattle.std.specs.List.{flat_map, list_any};
ghost use Rattle.vlog_tree.specs.Value.{operand_of, own_integer, natural, part_width};
ghost use Rattle.elab_flat_faults.specs.Drivers.{parts_of};
ghost use Rattle.elab_flat_drivers.specs.Claims.{IsNear};
ghost use Rattle.mem_laws.specs.Spread.{part_length, lefts_length, is_memory_word};
ghost use Rattle.mem_faults.specs.Asked.{HasOwnValue, IsSpanEvaluable, HasEvaluableLeft, EachEvaluableLeft};
ghost use Rattle.mem_flat.specs.Borrowed.{left_meant};

use crate::spreader::Spreader;
use elab_flat_drivers::clipped;
use std::alloc::{AllocError, Global};
use vlog_tree::{Expr, Lval, Span};
use vlog_tree_values::{checked_own_value, integer};

fn push_part<'a>(all: &mut Vec<&'a Lval>, part: &'a Lval) -> Result<(), AllocError>
    ensures { OnOk result (map left_meant all.new.items ≡ map left_meant all.old.items ++ part.now ∷ []) }
{
    all.push(part)?;
    Ok(())
}

// Adds the parts of a left side, from the left.
#[cycle(parts)]
fn add_parts<'a>(all: &mut Vec<&'a Lval>, left: &'a Lval) -> Result<(), AllocError>
    ensures { OnOk result (map left_meant all.new.items ≡ map left_meant all.old.items ++ parts_of left.now) }
{
    match left {
        Lval::Name(_) => push_part(all, left),
        Lval::Select(_, _) => push_part(all, left),
        Lval::Part(_, _, _, _) => push_part(all, left),
        Lval::Concat(lefts) => add_row_parts(all, lefts.as_slice()),
    }
}

#[cycle(parts)]
fn add_row_parts<'a>(all: &mut Vec<&'a Lval>, lefts: &'a [Lval]) -> Result<(), AllocError>
    ensures { OnOk result (map left_meant all.new.items ≡ map left_meant all.old.items ++ flat_map parts_of lefts.now) }
{
    for left in lefts {
        add_parts(all, left)?;
    }
    Ok(())
}

/// The parts of a left side, from the left.
pub fn parts_of(alloc: Global, left: &Lval) -> Result<Vec<&Lval>, AllocError>
    ensures { IfOk result (λ r. map left_meant r.items ≡ parts_of left.now) }
{
    let mut all = Vec::new(alloc);
    add_parts(&mut all, left)?;
    Ok(all)
}

// `a - b + 1`
fn distance(a: i128, b: i128) -> i128
    requires first { IsNear a }
    requires second { IsNear b }
    ensures value { result ≡ ((a -ℤ b) +ℤ pos 1) }
    ensures low { negsuc (2 ^ 66) ≤ℤ result }
    ensures high { result <ℤ pos (2 ^ 66) }
{
    a - b + 1
}

// How many bits `[a:b]` has, of at most 64.
fn fixed_width(a: i128, b: i128) -> u8
    requires first { IsNear a }
    requires second { IsNear b }
    ensures { result ≡ min 64 (natural ((a -ℤ b) +ℤ pos 1)) }
{
    clipped(distance(a, b), 64)
}

// How many bits a part-select with these numbers has.
fn part_width(span: Span, a: i128, b: i128) -> u8
    requires first { IsNear a }
    requires second { IsNear b }
    requires few { part_width span a b ≤ 64 }
    ensures { result ≡ part_width span a b }
{
    match span {
        Span::Fixed => fixed_width(a, b),
        Span::Up => clipped(b, 64),
        Span::Down => clipped(b, 64),
    }
}

impl Spreader<'_> {
    // The integer of an expression by itself.
    fn own_integer(&self, expr: &Expr) -> i128
        requires { HasOwnValue self.now.rest.now expr.now }
        ensures value { result ≡ own_integer (operand_of self.now.rest.now expr.now) }
        ensures low { negsuc (2 ^ 64) ≤ℤ result }
        ensures high { result <ℤ pos (2 ^ 64) }
    {
        match checked_own_value(expr, self.rest) {
            Some((word, signed)) => integer(word, signed),
            None => unreachable!(),
        }
    }

    // How many bits a part-select has.
    fn span_width(&self, span: Span, a: &Expr, b: &Expr) -> u8
        requires span { IsSpanEvaluable self.now.rest.now span a.now b.now }
        requires few { part_width span (own_integer (operand_of self.now.rest.now a.now))
            (own_integer (operand_of self.now.rest.now b.now)) ≤ 64 }
        ensures { result ≡ part_width span (own_integer (operand_of self.now.rest.now a.now))
            (own_integer (operand_of self.now.rest.now b.now)) }
    {
        match span {
            Span::Fixed => part_width(span, self.own_integer(a), self.own_integer(b)),
            Span::Up => part_width(span, 0, self.own_integer(b)),
            Span::Down => part_width(span, 0, self.own_integer(b)),
        }
    }

    /// How many bits a part of a left side has.
    pub fn part_length(&self, part: &Lval) -> u8
        requires ready { HasEvaluableLeft self.now.rest.now part.now }
        requires few { part_length self.now.rest.now part.now ≤ 64 }
        ensures { result ≡ part_length self.now.rest.now part.now }
    {
        match part {
            Lval::Name(name) => self.width(name.bytes(), 0),
            Lval::Select(name, _) => {
                if self.depth(name.bytes(), 0) == 0 {
                    1
                } else {
                    self.width(name.bytes(), 0)
                }
            }
            Lval::Part(_, span, a, b) => self.span_width(*span, a, b),
            Lval::Concat(_) => 0,
        }
    }

    /// How many bits the parts of a left side have together.
    pub fn lefts_length(&self, parts: &[&Lval]) -> u8
        requires ready { EachEvaluableLeft self.now.rest.now (map left_meant parts.now) }
        requires few { lefts_length self.now.rest.now (map left_meant parts.now) ≤ 64 }
        ensures { result ≡ lefts_length self.now.rest.now (map left_meant parts.now) }
    {
        let mut total = 0;
        for part in parts {
            total += self.part_length(part);
        }
        total
    }

    /// Whether a part of a left side is a word of a memory.
    pub fn is_memory_word(&self, part: &Lval) -> bool
        ensures { result ≡ is_memory_word self.now.rest.now part.now }
    {
        match part {
            Lval::Select(name, _) => self.depth(name.bytes(), 0) != 0,
            Lval::Name(_) => false,
            Lval::Part(_, _, _, _) => false,
            Lval::Concat(_) => false,
        }
    }

    /// Whether some part is a word of a memory.
    pub fn has_memory_word(&self, parts: &[&Lval]) -> bool
        ensures { result ≡ list_any (is_memory_word self.now.rest.now) (map left_meant parts.now) }
    {
        for part in parts {
            if self.is_memory_word(part) {
                return true;
            }
        }
        false
    }
}
