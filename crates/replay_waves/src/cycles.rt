// The cycles of a window, or of both.
ghost use Rattle.std.specs.Prelude.{◌≡◌, ◌++◌, ◌+◌, ◌*◌, ◌≤◌, ◌<◌, ◌^◌, OnOk};
ghost use Rattle.replay_waves.specs.Waves.{beginning, changes, counted, cycle_number, cycle_text, fall, falls, is_new, rise, rises, second_number, starts, value_at};

use crate::parts::{add_scalar, add_time, add_value, add_vector};
use crate::scopes::{is_own, second_number, start_number};
use crate::wave::{First, Signal, Wave, Window};
use set_tree::Rows;
use std::alloc::{AllocError, Global};

// The number of a cycle, in 32 bits.
fn cycle_number(before: u32, i: usize) -> u64
    ensures { result ≡ cycle_number before i }
{
    let cycle = i as u64;
    let reset = u64::from(before);
    if cycle < reset {
        return (1 << 32) - (reset - cycle);
    }
    (cycle - reset) % (1 << 32)
}

// The value of a signal in a cycle.
fn value_at(rows: &[Rows<u64>], i: usize, k: usize) -> u64
    ensures { result ≡ value_at rows.now i k }
{
    match rows.get(i) {
        Some(row) => *row.as_slice().get(k).unwrap_or(&0),
        None => 0,
    }
}

// Whether it is the first one, or not that of the cycle before.
fn is_new(rows: &[Rows<u64>], i: usize, k: usize) -> bool
    ensures { result ≡ is_new rows.now i k }
{
    i == 0 || value_at(rows, i, k) != value_at(rows, i - 1, k)
}

// The values of a cycle that are new.
fn add_changes(
    alloc: Global,
    out: &mut Vec<u8>,
    signals: &[Signal],
    window: &Window,
    i: usize,
) -> Result<(), AllocError>
    requires { window.now.number ≤ 2 ^ 62 }
    ensures { OnOk result (out.new.items ≡ out.old.items ++ changes signals.now window.now.rows.now
        (window.now.number + 2) i) }
{
    let number = window.number + 2;
    for (k, signal) in signals.iter().enumerate() {
        if is_new(window.rows, i, k) {
            let value = value_at(window.rows, i, k);
            add_value(alloc, out, signal.width, number + k as u64, value)?;
        }
    }
    Ok(())
}

// The clock and the number of the cycle.
#[tactic(auto, unfolding(crate::specs::Waves::counted))]
fn add_counted(
    alloc: Global,
    out: &mut Vec<u8>,
    wave: &Wave,
    window: &Window,
    i: usize,
) -> Result<(), AllocError>
    requires { window.now.number ≤ 2 ^ 62 }
    ensures { OnOk result (out.new.items ≡ out.old.items ++ counted wave.now window.now.before window.now.number i) }
{
    if is_own(wave, wave.clock.bytes()) {
        add_scalar(out, window.number, true)?;
    }
    if is_own(wave, b"cycle") {
        add_vector(
            alloc,
            out,
            window.number + 1,
            cycle_number(window.before, i),
        )?;
    }
    Ok(())
}

// A window at the beginning of a cycle.
#[tactic(auto, unfolding(crate::specs::Waves::rise))]
fn add_rise(
    alloc: Global,
    out: &mut Vec<u8>,
    wave: &Wave,
    window: &Window,
    i: usize,
) -> Result<(), AllocError>
    requires { window.now.number ≤ 2 ^ 62 }
    ensures { OnOk result (out.new.items ≡ out.old.items
        ++ rise wave.now window.now.rows.now window.now.before window.now.number i) }
{
    if i < window.rows.len() {
        add_counted(alloc, out, wave, window, i)?;
        add_changes(alloc, out, wave.signals.as_slice(), window, i)?;
    }
    Ok(())
}

// A window in the middle of a cycle.
#[tactic(auto, unfolding(crate::specs::Waves::fall))]
fn add_fall(out: &mut Vec<u8>, wave: &Wave, window: &Window, i: usize) -> Result<(), AllocError>
    ensures { OnOk result (out.new.items ≡ out.old.items ++ fall wave.now window.now.rows.now window.now.number i) }
{
    if i < window.rows.len() && is_own(wave, wave.clock.bytes()) {
        return add_scalar(out, window.number, false);
    }
    Ok(())
}

// The first window.
fn first_window(wave: &Wave) -> Window<'_>
    ensures rows { result.rows.now ≡ wave.now.first }
    ensures before { result.before ≡ wave.now.before }
    ensures number { result.number ≡ 0 }
{
    Window {
        rows: wave.first.as_slice(),
        before: wave.before,
        number: 0,
    }
}

// The second window, of these rows.
fn second_window<'a>(wave: &Wave, rows: &'a Rows<Rows<u64>>) -> Window<'a>
    ensures rows { result.rows.now ≡ rows.now }
    ensures before { result.before ≡ 0 }
    ensures number { result.number ≡ second_number wave.now }
    ensures small { result.number ≤ 2 ^ 62 }
{
    Window {
        rows: rows.as_slice(),
        before: 0,
        number: second_number(wave),
    }
}

// Both windows at the beginning of a cycle.
fn add_rises(alloc: Global, out: &mut Vec<u8>, wave: &Wave, i: usize) -> Result<(), AllocError>
    ensures { OnOk result (out.new.items ≡ out.old.items ++ rises wave.now i) }
{
    add_rise(alloc, out, wave, &first_window(wave), i)?;
    match &wave.second {
        None => Ok(()),
        Some(rows) => add_rise(alloc, out, wave, &second_window(wave, rows), i),
    }
}

// Both windows in the middle of a cycle.
fn add_falls(out: &mut Vec<u8>, wave: &Wave, i: usize) -> Result<(), AllocError>
    ensures { OnOk result (out.new.items ≡ out.old.items ++ falls wave.now i) }
{
    add_fall(out, wave, &first_window(wave), i)?;
    match &wave.second {
        None => Ok(()),
        Some(rows) => add_fall(out, wave, &second_window(wave, rows), i),
    }
}

// The first values of the registers.
fn add_starts(
    alloc: Global,
    out: &mut Vec<u8>,
    number: u64,
    firsts: &[First],
) -> Result<(), AllocError>
    requires { number ≤ 2 ^ 63 }
    ensures { OnOk result (out.new.items ≡ out.old.items ++ starts number firsts.now) }
{
    for (k, first) in firsts.iter().enumerate() {
        add_value(alloc, out, first.width, number + k as u64, first.value)?;
    }
    Ok(())
}

// The beginning of a cycle.
#[tactic(auto, unfolding(crate::specs::Waves::beginning))]
fn add_beginning(alloc: Global, out: &mut Vec<u8>, wave: &Wave, i: usize) -> Result<(), AllocError>
    ensures { OnOk result (out.new.items ≡ out.old.items ++ beginning wave.now i) }
{
    if i > 0 {
        return add_rises(alloc, out, wave, i);
    }
    out.extend_from_slice(b"$dumpvars\n")?;
    add_rises(alloc, out, wave, i)?;
    add_starts(alloc, out, start_number(wave), wave.firsts.as_slice())?;
    out.extend_from_slice(b"$end\n")?;
    Ok(())
}

/// Adds a cycle.
#[tactic(auto, unfolding(crate::specs::Waves::cycle_text))]
pub fn add_cycle(alloc: Global, out: &mut Vec<u8>, wave: &Wave, i: usize) -> Result<(), AllocError>
    requires { i < 2 ^ 60 }
    ensures { OnOk result (out.new.items ≡ out.old.items ++ cycle_text wave.now i) }
{
    let start = 10 * i as u64;
    add_time(alloc, out, start)?;
    add_beginning(alloc, out, wave, i)?;
    add_time(alloc, out, start + 5)?;
    add_falls(out, wave, i)?;
    Ok(())
}
