// Which signals of a module are nets, and which registers.
ghost use Rattle.std.specs.Prelude.{◌≡◌, ◌<◌, ℕ, IfOk, length, map};
ghost use Rattle.vlog_tree_runs.specs.Places.{Among};
ghost use Rattle.elab_flat_scopes.specs.Borrowed.{name_meant};
ghost use Rattle.elab_step_nets.specs.Boards.{name_of, names_of};
ghost use Rattle.elab_step.specs.Sources.{signal_names, clocked_names, flags_among};

use elab_flat_drivers::{Form, block_names};
use elab_flat_scopes::Names;
use outside::Text;
use std::alloc::{AllocError, Global};
use vlog_tree_runs::{Flat, Signal};

/// The names of signals, in their order.
pub fn signal_names(alloc: Global, signals: &[Signal]) -> Result<Names<'_>, AllocError>
    ensures { IfOk result (λ r. r ≡ signal_names signals.now) }
{
    let mut all = Vec::new(alloc);
    for signal in signals {
        all.push(&signal.name)?;
    }
    Names::of(alloc, all)
}

/// The name of the signal at a place.
#[tactic(auto, using(crate::proofs::Flagging::name_get))]
pub fn name_at(signals: &[Signal], place: usize) -> &Text
    requires { place < length signals.now }
    ensures { result.now ≡ name_of signals.now place }
{
    &signals[place].name
}

/// The names of the signals at places, in the order of the places.
pub fn names_at<'a>(
    alloc: Global,
    signals: &'a [Signal],
    places: &[usize],
) -> Result<Names<'a>, AllocError>
    requires { (i : ℕ) → Among places.now i → i < length signals.now }
    ensures { IfOk result (λ r. r ≡ names_of signals.now places.now) }
{
    let mut all = Vec::new(alloc);
    for place in places {
        all.push(name_at(signals, *place))?;
    }
    Names::of(alloc, all)
}

/// Flags that tell the signals that have one of some names.
pub fn flags_among(
    alloc: Global,
    names: &Names<'_>,
    signals: &[Signal],
) -> Result<Vec<bool>, AllocError>
    ensures { IfOk result (λ r. r.items ≡ flags_among names.now signals.now) }
{
    let mut all = Vec::new(alloc);
    for signal in signals {
        all.push(names.has(signal.name.bytes()))?;
    }
    Ok(all)
}

/// Flags that tell the registers.
pub fn register_flags(alloc: Global, flat: &Flat) -> Result<Vec<bool>, AllocError>
    ensures { IfOk result (λ r. r.items ≡ flags_among (clocked_names flat.now) flat.now.signals) }
{
    let assigned = block_names(alloc, flat.blocks.as_slice(), true, Form::Any)?;
    let names = Names::of(alloc, assigned)?;
    flags_among(alloc, &names, flat.signals.as_slice())
}
