// The bits that parts of left sides surely set (IEEE 1364-2005, section 5.2.1).

ghost use Rattle.std.specs.Prelude.{◌≡◌, ◌-◌, ◌+◌, ◌^◌, ◌<◌, ◌≤◌, min, nat_le, IfOk, IfSome, ℤ, pos, negsuc, ◌≤ℤ◌, ◌<ℤ◌, ◌-ℤ◌, ◌+ℤ◌, ◌↔◌, ◌⊎◌, ℕ, OnOk, length, map, replicate};
ghost use Rattle.vlog_tree.specs.declared.stmt.Lval.{Lval as Left};
ghost use Rattle.vlog_tree.specs.Value.{natural};
ghost use Rattle.vlog_tree_runs.specs.Places.{Among};
ghost use Rattle.elab_flat_faults.specs.Drivers.{parts_of};
ghost use Rattle.elab_flat_drivers.specs.Parts.{part_meant};
ghost use Rattle.elab_flat_drivers.specs.Claims.{IsPartReady, IsSmall, part_name};
ghost use Rattle.elab_step_flow.specs.Words.{run_word, set_word, AreNarrow, IsShapeAt, IsSetAt, AnySetAt};
ghost use Rattle.elab_flat_scopes.specs.Finding.{place_in};
ghost use Rattle.elab_step_flow.specs.Sets.{HasBit};
ghost use Rattle.elab_flat_drivers.specs.Spots.{signal_name};

use elab_flat_drivers::{
    Part, Run, bit_run, clipped, known, name_of, no_bits, ones, parts_of, span_run,
};
use elab_flat_scopes::Names;
use std::alloc::{AllocError, Global};
use vlog_tree::Lval;
use vlog_tree_runs::Signal;

/// The length of a signal and the number of its lowest bit.
#[derive(Clone, Copy)]
pub struct Shape {
    pub width: u8,
    pub low: u64,
}

// How many bits of a signal have numbers below one.
fn bits_below(number: i128, shape: Shape) -> u8
    requires low { negsuc (2 ^ 70) ≤ℤ number }
    requires high { number <ℤ pos (2 ^ 70) }
    ensures { result ≡ min shape.width (natural (number -ℤ pos shape.low)) }
{
    clipped(number - i128::from(shape.low), shape.width)
}

// A 1 for each bit of a signal whose number is in a run.
fn word_at(shape: Shape, run: Run) -> u64
    requires narrow { shape.width ≤ 64 }
    requires small { IsSmall run }
    ensures { result ≡ run_word shape.width shape.low run.from run.to }
{
    ones(bits_below(run.from, shape), bits_below(run.to, shape))
}

/// A 1 for each bit of a signal that a part of a left side surely sets.
pub fn set_word(alloc: Global, part: Part<'_>, shape: Shape) -> Result<u64, AllocError>
    requires ready { IsPartReady (part_meant part) }
    requires narrow { shape.width ≤ 64 }
    ensures { IfOk result (λ r. r ≡ set_word shape.width shape.low (part_meant part.entry)) }
{
    match part {
        Part::Whole(_) => Ok(ones(0, shape.width)),
        Part::Bit(_, index) => match known(alloc, index)? {
            Some(at) => Ok(word_at(shape, bit_run(at))),
            None => Ok(0),
        },
        Part::Bits(_, span, a, b) => match known(alloc, a)? {
            Some(a) => match known(alloc, b)? {
                Some(b) => Ok(word_at(shape, span_run(span, a, b))),
                None => Ok(0),
            },
            None => Ok(0),
        },
    }
}

/// The place of the signal of a part.
pub fn place_of(signals: &[Signal], names: &Names<'_>, part: Part<'_>) -> Option<usize>
    requires { names.now ≡ map signal_name signals.now }
    ensures place { result ≡ place_in (map signal_name signals.now) (part_name (part_meant part.entry)) }
    ensures within { IfSome result (λ i. i < length signals.now) }
{
    names.place(name_of(part).bytes())
}

/// The length of the signal at a place, and the number of its lowest bit.
pub fn shape_at(signals: &[Signal], place: usize) -> Shape
    requires within { place < length signals.now }
    requires narrow { AreNarrow signals.now }
    ensures narrow { result.width ≤ 64 }
    ensures shape { IsShapeAt signals.now place result }
{
    let signal = &signals[place];
    Shape {
        width: signal.width,
        low: signal.low,
    }
}
