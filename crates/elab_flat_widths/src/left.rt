// Left sides, by their parts (IEEE 1364-2005, sections 6.1 and 9.2).

ghost use Rattle.std.specs.Prelude.{◌≡◌, ◌≤◌, ◌⊎◌, IsTrue, map, OnOk, IfOk, IfErr, IfSome, IfNone, ◌∷◌, []};
ghost use Rattle.std.specs.Bool.{MatchBool};
ghost use Rattle.vlog_tree.specs.declared.stmt.Lval.{Lval as Left};
ghost use Rattle.vlog_tree_runs.specs.Places.{Among};
ghost use Rattle.elab_flat_params.specs.Constants.{is_known};
ghost use Rattle.elab_flat_faults.specs.Constants.{alone};
ghost use Rattle.elab_flat_faults.specs.Texts.{numbers_in};
ghost use Rattle.elab_flat_drivers.specs.Parts.{part_meant};
ghost use Rattle.elab_flat_widths.specs.Taken.{AllSound, SomeBreaks, Fails};
ghost use Rattle.elab_flat_widths.specs.Lefts.{IsConstantAs, PartHasLegalNumbers, BreaksNumbers, HasDefinedNumbers, HasSize, IsMissized};

use crate::constant::{is_constant, is_part_constant};
use crate::part::part_bits;
use crate::side::Side;
use crate::taken::check_alone;
use crate::violation::Violation;
use elab_flat_drivers::Part;
use std::alloc::{AllocError, Global};
use vlog_tree::{Expr, Valuation};

// Two numbers keep the rules by themselves.
fn check_two(
    alloc: Global,
    a: &Expr,
    b: &Expr,
    params: &Valuation,
    rest: &Valuation,
) -> Result<(), Violation>
    ensures ok { OnOk result (AllSound (is_known params.now) rest.now (map (alone rest.now) (a.now ∷ b.now ∷ []))) }
    ensures err { IfErr result (Fails (SomeBreaks (is_known params.now) rest.now
        (map (alone rest.now) (a.now ∷ b.now ∷ [])))) }
{
    match check_alone(alloc, a, params, rest) {
        Ok(()) => check_alone(alloc, b, params, rest),
        Err(violation) => Err(violation),
    }
}

// The numbers of a part keep the rules by themselves.
fn check_each(
    alloc: Global,
    part: Part<'_>,
    params: &Valuation,
    rest: &Valuation,
) -> Result<(), Violation>
    ensures ok { OnOk result (AllSound (is_known params.now) rest.now
        (map (alone rest.now) (numbers_in (part_meant part.entry)))) }
    ensures err { IfErr result (Fails (SomeBreaks (is_known params.now) rest.now
        (map (alone rest.now) (numbers_in (part_meant part.entry))))) }
{
    match part {
        Part::Whole(_) => Ok(()),
        Part::Bit(_, index) => check_alone(alloc, index, params, rest),
        Part::Bits(_, _, a, b) => check_two(alloc, a, b, params, rest),
    }
}

// Whether the numbers of a part are as constant as its place asks.
fn is_constant_as(side: Side, part: Part<'_>, params: &Valuation) -> bool
    ensures { MatchBool result (IsConstantAs side (is_known params.now) (part_meant part.entry))
        (IsConstantAs side (is_known params.now) (part_meant part.entry) → ⊥) }
{
    match side {
        Side::Continuous => match part {
            Part::Whole(_) => true,
            Part::Bit(_, index) => is_constant(index, params),
            Part::Bits(_, _, a, b) => is_constant(a, params) && is_constant(b, params),
        },
        Side::Procedural => match part {
            Part::Whole(_) => true,
            Part::Bit(_, _) => true,
            Part::Bits(_, span, a, b) => is_part_constant(span, a, b, params),
        },
    }
}

// The numbers of a part keep the rules.
fn check_part(
    alloc: Global,
    side: Side,
    part: Part<'_>,
    params: &Valuation,
    rest: &Valuation,
) -> Result<(), Violation>
    ensures ok { OnOk result (PartHasLegalNumbers side (is_known params.now) rest.now (part_meant part.entry)) }
    ensures err { IfErr result (Fails (BreaksNumbers side (is_known params.now) rest.now (part_meant part.entry))) }
{
    if !is_constant_as(side, part, params) {
        return Err(Violation::Constant);
    }
    check_each(alloc, part, params, rest)
}

/// The numbers of the parts of a left side keep the rules.
pub fn check_numbers(
    alloc: Global,
    side: Side,
    parts: &[Part<'_>],
    params: &Valuation,
    rest: &Valuation,
) -> Result<(), Violation>
    ensures ok { OnOk result ((q : Left) → Among (map part_meant parts.now) q →
        PartHasLegalNumbers side (is_known params.now) rest.now q) }
    ensures err { IfErr result (Fails (λ w. (q : Left) × Among (map part_meant parts.now) q ×
        BreaksNumbers side (is_known params.now) rest.now q w)) }
{
    for part in parts {
        match check_part(alloc, side, *part, params, rest) {
            Ok(()) => {}
            Err(violation) => return Err(violation),
        }
    }
    Ok(())
}

/// How many bits the parts of a left side have together, from 1 to 64; none where they haven't, or a part isn't well
/// formed.
pub fn total_bits(
    alloc: Global,
    parts: &[Part<'_>],
    rest: &Valuation,
) -> Result<Option<u8>, AllocError>
    requires { (q : Left) → Among (map part_meant parts.now) q → HasDefinedNumbers rest.now q }
    ensures some { IfOk result (λ o. IfSome o (HasSize rest.now (map part_meant parts.now))) }
    ensures none { IfOk result (λ o. IfNone o (IsMissized rest.now (map part_meant parts.now))) }
{
    let mut total = 0;
    for part in parts {
        let bits = part_bits(alloc, *part, rest)?;
        match bits {
            Some(count) => total += count,
            None => return Ok(None),
        }
        if total > 64 {
            return Ok(None);
        }
    }
    if total == 0 {
        Ok(None)
    } else {
        Ok(Some(total))
    }
}
