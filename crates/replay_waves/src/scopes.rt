// What is declared.
ghost use Rattle.std.specs.Prelude.{◌≡◌, ◌++◌, ◌≤◌, ◌^◌, not, OnOk};
ghost use Rattle.std.specs.Str.{bytes_eq};
ghost use Rattle.replay_waves.specs.Parts.{declared};
ghost use Rattle.replay_waves.specs.Waves.{both_scopes, declarations, has_signal, own, register_scopes, second_number, signal_scopes, start_number, start_scope, window_scope, window_scopes};

use crate::parts::{add_declared, add_scope};
use crate::wave::{First, Kind, Signal, Variable, Wave};
use std::alloc::{AllocError, Global};

/// The number of the first variable of the second window.
pub fn second_number(wave: &Wave) -> u64
    ensures number { result ≡ second_number wave.now }
    ensures small { result ≤ 2 ^ 61 }
{
    2 + wave.signals.as_slice().len() as u64
}

/// The number of the first register.
pub fn start_number(wave: &Wave) -> u64
    ensures number { result ≡ start_number wave.now }
    ensures small { result ≤ 2 ^ 62 }
{
    2 * second_number(wave)
}

fn is_named(signal: &Signal, name: &[u8]) -> bool
    ensures { result ≡ bytes_eq signal.now.name name.now }
{
    signal.name.bytes() == name
}

// Whether a signal has this name.
fn has_signal(signals: &[Signal], name: &[u8]) -> bool
    ensures { result ≡ has_signal signals.now name.now }
{
    signals.iter().any(|signal| is_named(signal, name))
}

/// Whether no signal has this name.
pub fn is_own(wave: &Wave, name: &[u8]) -> bool
    ensures { result ≡ not (has_signal wave.now.signals name.now) }
{
    !has_signal(wave.signals.as_slice(), name)
}

// A variable of the dump's own, unless a signal has its name.
fn add_own(
    alloc: Global,
    out: &mut Vec<u8>,
    wave: &Wave,
    number: u64,
    variable: &Variable,
) -> Result<(), AllocError>
    ensures { OnOk result (out.new.items ≡ out.old.items
        ++ own wave.now variable.now.path.now (declared variable.now.kind variable.now.width number variable.now.path.now)) }
{
    if is_own(wave, variable.path) {
        return add_declared(alloc, out, number, variable);
    }
    Ok(())
}

// The signals.
fn add_signals(
    alloc: Global,
    out: &mut Vec<u8>,
    number: u64,
    signals: &[Signal],
) -> Result<(), AllocError>
    requires { number ≤ 2 ^ 63 }
    ensures { OnOk result (out.new.items ≡ out.old.items ++ signal_scopes number signals.now) }
{
    for (k, signal) in signals.iter().enumerate() {
        let variable = Variable {
            kind: Kind::Wire,
            width: signal.width,
            path: signal.name.bytes(),
        };
        add_declared(alloc, out, number + k as u64, &variable)?;
    }
    Ok(())
}

// The scope of a window.
fn add_window(
    alloc: Global,
    out: &mut Vec<u8>,
    wave: &Wave,
    name: &[u8],
    number: u64,
) -> Result<(), AllocError>
    requires { number ≤ 2 ^ 62 }
    ensures { OnOk result (out.new.items ≡ out.old.items ++ window_scope wave.now name.now number) }
{
    let clock = Variable {
        kind: Kind::Wire,
        width: 1,
        path: wave.clock.bytes(),
    };
    let cycle = Variable {
        kind: Kind::Integer,
        width: 32,
        path: b"cycle",
    };
    add_scope(out, name)?;
    add_own(alloc, out, wave, number, &clock)?;
    add_own(alloc, out, wave, number + 1, &cycle)?;
    add_signals(alloc, out, number + 2, wave.signals.as_slice())?;
    out.extend_from_slice(b"$upscope $end\n")?;
    Ok(())
}

// The scopes of two windows.
fn add_both(alloc: Global, out: &mut Vec<u8>, wave: &Wave) -> Result<(), AllocError>
    ensures { OnOk result (out.new.items ≡ out.old.items ++ both_scopes wave.now) }
{
    add_window(alloc, out, wave, b"first", 0)?;
    add_window(alloc, out, wave, b"second", second_number(wave))
}

// The scope of a lone window, or those of both.
fn add_windows(alloc: Global, out: &mut Vec<u8>, wave: &Wave) -> Result<(), AllocError>
    ensures { OnOk result (out.new.items ≡ out.old.items ++ window_scopes wave.now wave.now.second) }
{
    match &wave.second {
        None => add_window(alloc, out, wave, b"segment", 0),
        Some(_) => add_both(alloc, out, wave),
    }
}

// The registers.
fn add_registers(
    alloc: Global,
    out: &mut Vec<u8>,
    number: u64,
    firsts: &[First],
) -> Result<(), AllocError>
    requires { number ≤ 2 ^ 63 }
    ensures { OnOk result (out.new.items ≡ out.old.items ++ register_scopes number firsts.now) }
{
    for (k, first) in firsts.iter().enumerate() {
        let variable = Variable {
            kind: Kind::Reg,
            width: first.width,
            path: first.name.bytes(),
        };
        add_declared(alloc, out, number + k as u64, &variable)?;
    }
    Ok(())
}

// The scope of the registers, where there are any.
#[tactic(auto, unfolding(crate::specs::Waves::start_scope))]
fn add_start(alloc: Global, out: &mut Vec<u8>, wave: &Wave) -> Result<(), AllocError>
    ensures { OnOk result (out.new.items ≡ out.old.items ++ start_scope wave.now) }
{
    let firsts = wave.firsts.as_slice();
    if firsts.is_empty() {
        return Ok(());
    }
    add_scope(out, b"start")?;
    add_registers(alloc, out, start_number(wave), firsts)?;
    out.extend_from_slice(b"$upscope $end\n")?;
    Ok(())
}

/// Adds what is declared.
#[tactic(auto, unfolding(crate::specs::Waves::declarations))]
pub fn add_declarations(alloc: Global, out: &mut Vec<u8>, wave: &Wave) -> Result<(), AllocError>
    ensures { OnOk result (out.new.items ≡ out.old.items ++ declarations wave.now) }
{
    out.extend_from_slice(b"$version signoff $end\n$timescale 1 ns $end\n")?;
    add_windows(alloc, out, wave)?;
    add_start(alloc, out, wave)?;
    out.extend_from_slice(b"$enddefinitions $end\n")?;
    Ok(())
}
