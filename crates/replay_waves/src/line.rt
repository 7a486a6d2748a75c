// A counterexample as a waveform.
ghost use Rattle.std.specs.Prelude.{◌≡◌, ◌≤◌, ◌⊎◌, map, IfOk, option_map};
ghost use Rattle.replay_waves.specs.Lines.{firsts_of, rows_of, signal_of, wave_of};

use crate::{First, Signal, Wave};
use elab_step_design::Register;
use outside::Text;
use replay::{Shown, Start, Trace};
use set_tree::{Name, Rows};
use std::alloc::{AllocError, Global};
use unroll_binding::Bound;

fn signal_of(alloc: Global, name: &Name) -> Result<Signal, AllocError>
    ensures { IfOk result (λ s. s ≡ signal_of name.now) }
{
    Ok(Signal {
        name: Text::copy(alloc, name.name.bytes())?,
        width: name.width,
    })
}

// The declared names.
fn signals_of(alloc: Global, names: &[Name]) -> Result<Rows<Signal>, AllocError>
    ensures { IfOk result (λ signals. signals ≡ map signal_of names.now) }
{
    let mut signals = Rows::new(alloc);
    for name in names {
        signals.push(signal_of(alloc, name)?)?;
    }
    Ok(signals)
}

fn first_of(alloc: Global, register: &Register, start: &Start) -> Result<First, AllocError>
    ensures { IfOk result (λ f. f ≡ record { name = start.now.name; width = register.now.width; value = start.now.value }) }
{
    Ok(First {
        name: Text::copy(alloc, start.name.bytes())?,
        width: register.width,
        value: start.value,
    })
}

// The smaller one.
fn least(a: usize, b: usize) -> usize
    ensures first { result ≤ a }
    ensures second { result ≤ b }
    ensures one { (a ≤ result) ⊎ (b ≤ result) }
{
    if a < b { a } else { b }
}

// The registers with their first values, where these are shown.
fn firsts_of(
    alloc: Global,
    registers: &[Register],
    starts: &[Start],
) -> Result<Rows<First>, AllocError>
    ensures { IfOk result (λ firsts. firsts ≡ firsts_of registers.now starts.now) }
{
    let mut firsts = Rows::new(alloc);
    let count = least(registers.len(), starts.len());
    for i in 0..count {
        firsts.push(first_of(alloc, &registers[i], &starts[i])?)?;
    }
    Ok(firsts)
}

fn row_of(alloc: Global, row: &[u64]) -> Result<Rows<u64>, AllocError>
    ensures { IfOk result (λ copy. copy ≡ row.now) }
{
    let mut copy = Rows::new(alloc);
    for value in row {
        copy.push(*value)?;
    }
    Ok(copy)
}

fn rows_of(alloc: Global, trace: &Trace) -> Result<Rows<Rows<u64>>, AllocError>
    ensures { IfOk result (λ rows. rows ≡ rows_of trace.now) }
{
    let mut rows = Rows::new(alloc);
    for row in trace.rows.as_slice() {
        rows.push(row_of(alloc, row.as_slice())?)?;
    }
    Ok(rows)
}

fn second_of(alloc: Global, second: &Option<Trace>) -> Result<Option<Rows<Rows<u64>>>, AllocError>
    ensures { IfOk result (λ rows. rows ≡ option_map rows_of second.now) }
{
    match second {
        Some(trace) => Ok(Some(rows_of(alloc, trace)?)),
        None => Ok(None),
    }
}

/// The waveform of a counterexample of a line of a set that is bound to a design: the set's declared names over the
/// cycles that are shown, and the first values of the design's registers where these are shown.
pub fn wave_of(alloc: Global, bound: &Bound, shown: &Shown) -> Result<Wave, AllocError>
    ensures { IfOk result (λ wave. wave ≡ wave_of bound.now shown.now) }
{
    let set = bound.set().set();
    Ok(Wave {
        clock: Text::copy(alloc, set.clock.bytes())?,
        signals: signals_of(alloc, set.names.as_slice())?,
        firsts: firsts_of(alloc, bound.design().registers(), shown.start.as_slice())?,
        before: shown.before,
        first: rows_of(alloc, &shown.first)?,
        second: second_of(alloc, &shown.second)?,
    })
}
