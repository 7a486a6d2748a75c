// The whole dump.
ghost use Rattle.std.specs.Prelude.{◌≡◌, ◌++◌, ◌≤◌, ◌^◌, IfOk, OnOk};
ghost use Rattle.replay_waves.specs.Waves.{count_of, cycle_text, each, wave_text};

use crate::cycles::add_cycle;
use crate::parts::add_time;
use crate::scopes::add_declarations;
use crate::wave::Wave;
use outside::Text;
use std::alloc::{AllocError, Global};

// How many cycles are shown.
fn count_of(wave: &Wave) -> usize
    ensures count { result ≡ count_of wave.now.first wave.now.second }
    ensures small { result ≤ 2 ^ 60 }
{
    let first = wave.first.as_slice().len();
    match &wave.second {
        None => first,
        Some(second) => first.max(second.as_slice().len()),
    }
}

// So many cycles.
fn add_cycles(alloc: Global, out: &mut Vec<u8>, wave: &Wave, count: usize) -> Result<(), AllocError>
    requires { count ≤ 2 ^ 60 }
    ensures { OnOk result (out.new.items ≡ out.old.items ++ each (cycle_text wave.now) count) }
{
    for i in 0..count {
        add_cycle(alloc, out, wave, i)?;
    }
    Ok(())
}

/// The value change dump of a counterexample, with a scope for each window (`segment`, or `first` and `second`) and one
/// for the registers' first values (`start`). A cycle takes 10 ns, at whose beginning the clock rises. A window has,
/// besides its signals, the clock and `cycle`, the number of its cycle, each unless a signal has its name. A window
/// that is shorter than the other keeps its last values.
#[tactic(auto, unfolding(crate::specs::Waves::wave_text))]
pub fn wave_text(alloc: Global, wave: &Wave) -> Result<Text, AllocError>
    ensures { IfOk result (λ text. text ≡ wave_text wave.now) }
{
    let count = count_of(wave);
    let mut out = Vec::new(alloc);
    add_declarations(alloc, &mut out, wave)?;
    add_cycles(alloc, &mut out, wave, count)?;
    add_time(alloc, &mut out, 10 * count as u64)?;
    Ok(Text::new(out))
}
