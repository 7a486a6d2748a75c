// The bits of a signal that left sides drive, as a word with a 1 for each of them (IEEE 1364-2005, sections 5.2.1, 6.1
// and 9.2).

ghost use Rattle.std.specs.Prelude.{◌≡◌, ◌≤◌, IfOk, Some, map};
ghost use Rattle.std.specs.Str.{bytes_eq};
ghost use Rattle.std.specs.List.{All};
ghost use Rattle.elab_flat_drivers.specs.Parts.{part_meant};
ghost use Rattle.elab_flat_drivers.specs.Claims.{IsEvaluable, IsPartReady, IsSmall, bit_run, claim_at, known, ones, part_name, part_run, span_run};
ghost use Rattle.test_judges.specs.Driving.{spot_of, part_bits, bits_in, names, ArePartsReady};
ghost use Rattle.test_judges.specs.Judging.{whole};

use elab_flat_drivers::{Part, Run, bit_run, clipped, known, ones, span_run};
use std::alloc::{AllocError, Global};
use vlog_tree::{Expr, Span};
use vlog_tree_runs::Signal;

// All bits of a signal.
fn all_bits(signal: &Signal) -> u64
    requires { signal.now.width ≤ 64 }
    ensures { result ≡ ones 0 signal.now.width }
{
    ones(0, signal.width)
}

// The bits of a signal with these numbers.
fn run_bits(signal: &Signal, run: Run) -> u64
    requires narrow { signal.now.width ≤ 64 }
    requires small { IsSmall run }
    ensures { result ≡ (claim_at (spot_of signal.now) (Some run)).bits }
{
    let low = i128::from(signal.low);
    let from = clipped(run.from - low, signal.width);
    let to = clipped(run.to - low, signal.width);
    ones(from, to)
}

// The bits of a signal that an index names; all where it isn't constant.
fn index_bits(alloc: Global, signal: &Signal, index: &Expr) -> Result<u64, AllocError>
    requires narrow { signal.now.width ≤ 64 }
    requires ready { IsEvaluable index.now }
    ensures { IfOk result (λ r. r ≡ (claim_at (spot_of signal.now) (bit_run (known index.now))).bits) }
{
    match known(alloc, index)? {
        Some(at) => Ok(run_bits(signal, bit_run(at))),
        None => Ok(all_bits(signal)),
    }
}

// The bits of a signal that two numbers name; all where they aren't constant.
fn span_bits(
    alloc: Global,
    signal: &Signal,
    span: Span,
    a: &Expr,
    b: &Expr,
) -> Result<u64, AllocError>
    requires narrow { signal.now.width ≤ 64 }
    requires first { IsEvaluable a.now }
    requires second { IsEvaluable b.now }
    ensures { IfOk result (λ r. r ≡ (claim_at (spot_of signal.now) (span_run span (known a.now) (known b.now))).bits) }
{
    let Some(a) = known(alloc, a)? else {
        return Ok(all_bits(signal));
    };
    match known(alloc, b)? {
        Some(b) => Ok(run_bits(signal, span_run(span, a, b))),
        None => Ok(all_bits(signal)),
    }
}

// Whether a part is of the signal of this name.
fn is_of(part: Part<'_>, name: &[u8]) -> bool
    ensures { result ≡ bytes_eq (part_name (part_meant part.entry)) name.now }
{
    match part {
        Part::Whole(text) => text.bytes() == name,
        Part::Bit(text, _) => text.bytes() == name,
        Part::Bits(text, _, _, _) => text.bytes() == name,
    }
}

// The bits of its signal that a part names.
fn own_bits(alloc: Global, part: Part<'_>, signal: &Signal) -> Result<u64, AllocError>
    requires narrow { signal.now.width ≤ 64 }
    requires ready { IsPartReady (part_meant part) }
    ensures { IfOk result (λ r. r ≡ (claim_at (spot_of signal.now) (part_run (part_meant part.entry))).bits) }
{
    match part {
        Part::Whole(_) => Ok(all_bits(signal)),
        Part::Bit(_, index) => index_bits(alloc, signal, index),
        Part::Bits(_, span, a, b) => span_bits(alloc, signal, span, a, b),
    }
}

fn part_bits(alloc: Global, part: Part<'_>, signal: &Signal) -> Result<u64, AllocError>
    requires narrow { signal.now.width ≤ 64 }
    requires ready { IsPartReady (part_meant part) }
    ensures { IfOk result (λ r. r ≡ part_bits signal.now (part_meant part.entry)) }
{
    if !is_of(part, signal.name.bytes()) {
        return Ok(0);
    }
    own_bits(alloc, part, signal)
}

/// The bits of a signal that some part names.
pub fn bits_in(alloc: Global, parts: &[Part<'_>], signal: &Signal) -> Result<u64, AllocError>
    requires narrow { signal.now.width ≤ 64 }
    requires ready { ArePartsReady (map part_meant parts.now) }
    ensures { IfOk result (λ r. r ≡ bits_in (map part_meant parts.now) signal.now) }
{
    match parts {
        [first, rest @ ..] => {
            let bits = part_bits(alloc, *first, signal)?;
            let others = bits_in(alloc, rest, signal)?;
            Ok(bits | others)
        }
        [] => Ok(0),
    }
}

/// Whether a part is of the signal of this name.
pub fn names(parts: &[Part<'_>], name: &[u8]) -> bool
    ensures { result ≡ names (map part_meant parts.now) name.now }
{
    match parts {
        [first, rest @ ..] => is_of(*first, name) || names(rest, name),
        [] => false,
    }
}

/// The bits of each signal that some part names.
pub fn masks(alloc: Global, parts: &[Part<'_>], signals: &[Signal]) -> Result<Vec<u64>, AllocError>
    requires narrow { All (λ g. g.width ≤ 64) signals.now }
    requires ready { ArePartsReady (map part_meant parts.now) }
    ensures { IfOk result (λ r. r.items ≡ map (bits_in (map part_meant parts.now)) signals.now) }
{
    let mut all = Vec::new(alloc);
    for signal in signals {
        let bits = bits_in(alloc, parts, signal)?;
        all.push(bits)?;
    }
    Ok(all)
}

/// All bits of each signal.
pub fn whole(alloc: Global, signals: &[Signal]) -> Result<Vec<u64>, AllocError>
    requires { All (λ g. g.width ≤ 64) signals.now }
    ensures { IfOk result (λ r. r.items ≡ whole signals.now) }
{
    let mut all = Vec::new(alloc);
    for signal in signals {
        all.push(all_bits(signal))?;
    }
    Ok(all)
}
