// The parts of left sides: their numbers, and how many bits they have (IEEE 1364-2005, sections 5.2.1 and 5.2.2).

ghost use Rattle.std.specs.Prelude.{◌≡◌, ◌+◌, ◌^◌, ◌≤◌, ℤ, pos, negsuc, ◌≤ℤ◌, ◌<ℤ◌, ◌-ℤ◌, ◌+ℤ◌, IsTrue, IfOk, IfSome, IfNone};
ghost use Rattle.vlog_tree.specs.Valuation.{IsLength, named, depth_of};
ghost use Rattle.vlog_tree.specs.Value.{IsFormed, operand_of, own_integer, own_defined, part_width};
ghost use Rattle.vlog_tree_runs.specs.Places.{read};
ghost use Rattle.vlog_tree_values.specs.Shapes.{FitsPart};
ghost use Rattle.elab_flat_faults.specs.Constants.{IsLeftFormed};
ghost use Rattle.elab_flat_drivers.specs.Parts.{part_meant};
ghost use Rattle.elab_flat_widths.specs.Lefts.{part_count, HasDefinedNumbers};

use elab_flat_drivers::Part;
use std::alloc::{AllocError, Global};
use vlog_tree::{Constant, Expr, Span, Valuation};
use vlog_tree_values::{evaluated, integer};

// The integer that an expression stands for by itself.
fn own_integer(alloc: Global, expr: &Expr, rest: &Valuation) -> Result<i128, AllocError>
    requires formed { IsFormed rest.now expr.now }
    requires defined { IsTrue (own_defined (operand_of rest.now expr.now)) }
    ensures value { IfOk result (λ i. i ≡ own_integer (operand_of rest.now expr.now)) }
    ensures low { IfOk result (λ i. negsuc (2 ^ 64) ≤ℤ i) }
    ensures high { IfOk result (λ i. i <ℤ pos (2 ^ 64)) }
{
    let own = evaluated(alloc, expr, rest)?;
    match own {
        Some((word, signed)) => Ok(integer(word, signed)),
        None => unreachable!(),
    }
}

// The width of `[a:b]`, where it stays in its vector.
fn fixed_width(low: u64, width: u8, a: i128, b: i128) -> Option<i128>
    requires low { negsuc (2 ^ 64) ≤ℤ a }
    requires high { a <ℤ pos (2 ^ 64) }
    requires low_too { negsuc (2 ^ 64) ≤ℤ b }
    requires high_too { b <ℤ pos (2 ^ 64) }
    ensures some { IfSome result (λ n. (pos low ≤ℤ b) × (a <ℤ pos (low + width)) × (n ≡ (a -ℤ b) +ℤ pos 1)) }
    ensures none { IfNone result ((pos low ≤ℤ b) × (a <ℤ pos (low + width)) → ⊥) }
{
    let lowest = i128::from(low);
    if b < lowest || lowest + i128::from(width) <= a {
        return None;
    }
    Some(a - b + 1)
}

// How many bits a part-select has, where its two numbers suit it.
fn part_width(vector: Constant, span: Span, a: i128, b: i128) -> Option<u8>
    requires low { negsuc (2 ^ 64) ≤ℤ a }
    requires high { a <ℤ pos (2 ^ 64) }
    requires low_too { negsuc (2 ^ 64) ≤ℤ b }
    requires high_too { b <ℤ pos (2 ^ 64) }
    ensures some { IfSome result (λ n. FitsPart vector span a b × (n ≡ part_width span a b)) }
    ensures none { IfNone result (FitsPart vector span a b → ⊥) }
{
    let width = match span {
        Span::Fixed => fixed_width(vector.low, vector.width, a, b)?,
        Span::Up | Span::Down => b,
    };
    if width < 1 || 64 < width {
        return None;
    }
    Some(width as u8)
}

// What a name stands for in the present row: one bit where it stands for nothing.
fn vector_of(name: &[u8], rest: &Valuation) -> Constant
    ensures value { result ≡ named rest.now (read name.now) }
    ensures length { IsLength result.width }
{
    match rest.find(name, 0) {
        Some(entry) => Constant {
            width: entry.width,
            low: entry.low,
            signed: entry.signed,
            value: entry.value,
        },
        None => Constant {
            width: 1,
            low: 0,
            signed: false,
            value: 0,
        },
    }
}

// How many words a name has.
fn depth_of(name: &[u8], rest: &Valuation) -> u8
    ensures { result ≡ depth_of rest.now (read name.now) }
{
    match rest.find(name, 0) {
        Some(entry) => entry.depth,
        None => 0,
    }
}

/// How many bits a part of a left side has; none where it isn't well formed.
pub fn part_bits(alloc: Global, part: Part<'_>, rest: &Valuation) -> Result<Option<u8>, AllocError>
    requires { HasDefinedNumbers rest.now (part_meant part) }
    ensures some { IfOk result (λ o. IfSome o (λ n. IsLeftFormed rest.now (part_meant part.entry) ×
        (n ≡ part_count rest.now (part_meant part.entry)) × (n ≤ 64))) }
    ensures none { IfOk result (λ o. IfNone o (IsLeftFormed rest.now (part_meant part.entry) → ⊥)) }
{
    match part {
        Part::Whole(name) => Ok(Some(vector_of(name.bytes(), rest).width)),
        Part::Bit(name, _) => {
            if depth_of(name.bytes(), rest) == 0 {
                Ok(Some(1))
            } else {
                Ok(Some(vector_of(name.bytes(), rest).width))
            }
        }
        Part::Bits(name, span, a, b) => {
            let a = own_integer(alloc, a, rest)?;
            let b = own_integer(alloc, b, rest)?;
            Ok(part_width(vector_of(name.bytes(), rest), span, a, b))
        }
    }
}
