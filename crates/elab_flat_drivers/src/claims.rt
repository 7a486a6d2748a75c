// The bits that a part of a signal names (IEEE 1364-2005, section 5.2.1).

ghost use Rattle.std.specs.Prelude.{◌≡◌, ◌+◌, ◌^◌, ◌≤◌, min, IfOk, IfSome, ℤ, pos, negsuc, ◌≤ℤ◌, ◌<ℤ◌, ◌-ℤ◌, ◌+ℤ◌};
ghost use Rattle.vlog_tree.specs.Value.{natural, part_low, part_width};
ghost use Rattle.elab_flat_drivers.specs.Parts.{part_meant};
ghost use Rattle.elab_flat_drivers.specs.Claims.{ones, known, IsEvaluable, IsPartReady, IsSmall, IsNear, span_run, part_run, claim_at};

use crate::parts::{Part, reads_of};
use std::alloc::{AllocError, Global};
use vlog_tree::{Expr, Span, Valuation};
use vlog_tree_values::{evaluated, integer};

/// Where a signal stands in the list of signals, its length and the number of its lowest bit.
#[derive(Clone, Copy)]
pub struct Spot {
    pub place: usize,
    pub width: u8,
    pub low: u64,
}

/// Bits of the signal at a place, counted from its lowest one.
#[derive(Clone, Copy)]
pub struct Claim {
    pub place: usize,
    pub bits: u64,
}

/// The declared numbers of the bits from `from` on, below `to`.
#[derive(Clone, Copy)]
pub struct Run {
    pub from: i128,
    pub to: i128,
}

/// The integer of an expression without names; none where it has one.
pub fn known(alloc: Global, expr: &Expr) -> Result<Option<i128>, AllocError>
    requires { IsEvaluable expr.now }
    ensures known { IfOk result (λ o. o ≡ known expr.now) }
    ensures near { IfOk result (λ o. IfSome o IsNear) }
{
    let reads = reads_of(alloc, expr)?;
    if !reads.as_slice().is_empty() {
        return Ok(None);
    }
    let own = evaluated(alloc, expr, &Valuation::new(alloc))?;
    match own {
        Some((word, signed)) => Ok(Some(integer(word, signed))),
        None => unreachable!(),
    }
}

/// The run of one bit.
pub fn bit_run(at: i128) -> Run
    requires { IsNear at }
    ensures run { result ≡ record { from = at; to = at +ℤ pos 1 } }
    ensures small { IsSmall result }
{
    Run {
        from: at,
        to: at + 1,
    }
}

// An integer that isn't negative as itself, a negative one as 0.
fn natural(number: i128) -> i128
    requires low { negsuc (2 ^ 66) ≤ℤ number }
    requires high { number <ℤ pos (2 ^ 66) }
    ensures value { result ≡ pos (natural number) }
    ensures natural { pos 0 ≤ℤ result }
    ensures high { result <ℤ pos (2 ^ 66) }
{
    if number < 0 { 0 } else { number }
}

// So many numbers from one on.
fn counted(from: i128, count: i128) -> Run
    requires low { negsuc (2 ^ 66) ≤ℤ from }
    requires high { from <ℤ pos (2 ^ 66) }
    requires natural { pos 0 ≤ℤ count }
    requires few { count <ℤ pos (2 ^ 66) }
    ensures run { result ≡ record { from = from; to = from +ℤ count } }
    ensures small { IsSmall result }
{
    Run {
        from,
        to: from + count,
    }
}

// `a - b + 1`
fn distance(a: i128, b: i128) -> i128
    requires first { IsNear a }
    requires second { IsNear b }
    ensures value { result ≡ ((a -ℤ b) +ℤ pos 1) }
    ensures low { negsuc (2 ^ 66) ≤ℤ result }
    ensures high { result <ℤ pos (2 ^ 66) }
{
    a - b + 1
}

/// The run of a part-select with these numbers.
pub fn span_run(span: Span, a: i128, b: i128) -> Run
    requires first { IsNear a }
    requires second { IsNear b }
    ensures run { result ≡ record { from = part_low span a b; to = part_low span a b +ℤ pos (part_width span a b) } }
    ensures small { IsSmall result }
{
    match span {
        Span::Fixed => counted(b, natural(distance(a, b))),
        Span::Up => counted(a, natural(b)),
        Span::Down => counted(distance(a, b), natural(b)),
    }
}

/// The numbers of the bits that a part names; none: all bits of its signal.
pub fn run_of(alloc: Global, part: Part<'_>) -> Result<Option<Run>, AllocError>
    requires { IsPartReady (part_meant part) }
    ensures run { IfOk result (λ o. o ≡ part_run (part_meant part.entry)) }
    ensures small { IfOk result (λ o. IfSome o IsSmall) }
{
    match part {
        Part::Whole(_) => Ok(None),
        Part::Bit(_, index) => match known(alloc, index)? {
            Some(at) => Ok(Some(bit_run(at))),
            None => Ok(None),
        },
        Part::Bits(_, span, a, b) => match known(alloc, a)? {
            Some(a) => match known(alloc, b)? {
                Some(b) => Ok(Some(span_run(span, a, b))),
                None => Ok(None),
            },
            None => Ok(None),
        },
    }
}

fn power(exponent: u8) -> u128
    requires { exponent ≤ 64 }
    ensures { result ≡ 2 ^ exponent }
{
    1 << exponent
}

/// A 1 for each bit from `from` on, below `to`.
pub fn ones(from: u8, to: u8) -> u64
    requires { to ≤ 64 }
    ensures { result ≡ ones from to }
{
    if to <= from {
        return 0;
    }
    (power(to) - power(from)) as u64
}

/// How many of so many bits stand below a number.
pub fn clipped(number: i128, width: u8) -> u8
    ensures { result ≡ min width (natural number) }
{
    if number <= 0 {
        return 0;
    }
    if i128::from(width) <= number {
        return width;
    }
    number as u8
}

/// The bits of a signal with these numbers; without numbers all of them.
pub fn claim_at(spot: Spot, run: Option<Run>) -> Claim
    requires narrow { spot.width ≤ 64 }
    requires small { IfSome run IsSmall }
    ensures { result ≡ claim_at spot run }
{
    let place = spot.place;
    match run {
        Some(run) => {
            let low = i128::from(spot.low);
            let from = clipped(run.from - low, spot.width);
            let to = clipped(run.to - low, spot.width);
            Claim {
                place,
                bits: ones(from, to),
            }
        }
        None => Claim {
            place,
            bits: ones(0, spot.width),
        },
    }
}
