// Bits that a combinational block drives and that some path through it doesn't set (IEEE 1364-2005, sections 9.4 and
// 9.5).

ghost use Rattle.std.specs.Prelude.{◌≡◌, ◌<◌, false, length, IfOk, IfSome, IfNone};
ghost use Rattle.vlog_tree_runs.specs.Places.{Name};
ghost use Rattle.elab_step_laws.specs.Laws.{place_over};
ghost use Rattle.elab_flat_faults.specs.declared.elaborating.ElabFault.TheVariants as f;
ghost use Rattle.elab_flat_faults.specs.ElabStands.{Stands};
ghost use Rattle.elab_step_flow.specs.Asked.{AreVectors, IsPassable, ArePassable, CanPass, Misses, BlockMisses, AnyMisses, OfSignal};
ghost use Rattle.elab_step_flow.specs.Shows.{IsAt};

use crate::block::flow_of;
use crate::own::{own_signals, whole_place};
use crate::scope::Scope;
use elab_flat_drivers::{Declared, Driver, clash, driver_claims};
use outside::Text;
use std::alloc::{AllocError, Global};
use vlog_tree::Stmt;
use vlog_tree_runs::{Always, Flat, Signal};

// The place of a signal of which a statement drives a bit that some path through it doesn't set.
fn missed_in(
    alloc: Global,
    scope: &Scope<'_>,
    signals: &Declared<'_>,
    body: &Stmt,
) -> Result<Option<usize>, AllocError>
    requires same { signals.now ≡ scope.now }
    requires vectors { AreVectors scope.now }
    requires body { IsPassable scope.now body.now }
    ensures some { IfOk result (λ o. IfSome o (λ i. OfSignal scope.now i (Misses (place_over scope.now) body.now))) }
    ensures none { IfOk result (λ o. IfNone o ((x : Name) → Misses (place_over scope.now) body.now x → ⊥)) }
{
    let flow = flow_of(alloc, scope, body)?;
    let claims = driver_claims(alloc, Driver::Block(body), signals)?;
    match clash(&flow.unset, &claims) {
        Some(bit) => Ok(Some(bit.place)),
        None => Ok(None),
    }
}

// The same, where the signals are not yet found by their names.
fn missed_inside(alloc: Global, scope: &Scope<'_>, body: &Stmt) -> Result<Option<usize>, AllocError>
    requires vectors { AreVectors scope.now }
    requires body { IsPassable scope.now body.now }
    ensures some { IfOk result (λ o. IfSome o (λ i. OfSignal scope.now i (Misses (place_over scope.now) body.now))) }
    ensures none { IfOk result (λ o. IfNone o ((x : Name) → Misses (place_over scope.now) body.now x → ⊥)) }
{
    let signals = Declared::of(alloc, scope.list())?;
    missed_in(alloc, scope, &signals, body)
}

// The same for the signals of a list.
fn missed_of_list(alloc: Global, list: &[Signal], body: &Stmt) -> Result<Option<usize>, AllocError>
    requires vectors { AreVectors list.now }
    requires body { IsPassable list.now body.now }
    ensures some { IfOk result (λ o. IfSome o (λ i. OfSignal list.now i (Misses (place_over list.now) body.now))) }
    ensures none { IfOk result (λ o. IfNone o ((x : Name) → Misses (place_over list.now) body.now x → ⊥)) }
{
    let scope = Scope::of(alloc, list)?;
    missed_inside(alloc, &scope, body)
}

// The same, found among the signals that the statement names.
fn missed_among_own(
    alloc: Global,
    scope: &Scope<'_>,
    body: &Stmt,
) -> Result<Option<usize>, AllocError>
    requires vectors { AreVectors scope.now }
    requires body { IsPassable scope.now body.now }
    ensures some { IfOk result (λ o. IfSome o (λ i. OfSignal scope.now i (Misses (place_over scope.now) body.now))) }
    ensures none { IfOk result (λ o. IfNone o ((x : Name) → Misses (place_over scope.now) body.now x → ⊥)) }
{
    let own = own_signals(alloc, scope, body)?;
    match missed_of_list(alloc, &own.signals, body)? {
        Some(place) => Ok(Some(whole_place(&own.places, place))),
        None => Ok(None),
    }
}

// The same for a block; none if it waits for edges.
fn missed_by(alloc: Global, scope: &Scope<'_>, block: &Always) -> Result<Option<usize>, AllocError>
    requires vectors { AreVectors scope.now }
    requires body { block.now.clocked ≡ false → IsPassable scope.now block.now.body }
    ensures some { IfOk result (λ o. IfSome o (λ i. OfSignal scope.now i (BlockMisses scope.now block.now))) }
    ensures none { IfOk result (λ o. IfNone o ((x : Name) → BlockMisses scope.now block.now x → ⊥)) }
{
    if block.clocked {
        return Ok(None);
    }
    let place = missed_among_own(alloc, scope, &block.body)?;
    Ok(place)
}

// The same for the first of some blocks that has one.
fn missed_of(
    alloc: Global,
    scope: &Scope<'_>,
    blocks: &[Always],
) -> Result<Option<usize>, AllocError>
    requires vectors { AreVectors scope.now }
    requires blocks { ArePassable scope.now blocks.now }
    ensures some { IfOk result (λ o. IfSome o (λ i. OfSignal scope.now i (AnyMisses scope.now blocks.now))) }
    ensures none { IfOk result (λ o. IfNone o ((x : Name) → AnyMisses scope.now blocks.now x → ⊥)) }
{
    for block in blocks {
        if let Some(place) = missed_by(alloc, scope, block)? {
            return Ok(Some(place));
        }
    }
    Ok(None)
}

/// The name of the signal at a place.
pub fn name_at(alloc: Global, signals: &[Signal], place: usize) -> Result<Text, AllocError>
    requires { place < length signals.now }
    ensures { IfOk result (λ r. IsAt signals.now place r) }
{
    let name = Text::copy(alloc, signals[place].name.bytes())?;
    Ok(name)
}

// The name of such a signal.
fn latch_in(alloc: Global, scope: &Scope<'_>, flat: &Flat) -> Result<Option<Text>, AllocError>
    requires can { CanPass flat.now }
    requires scope { scope.now ≡ flat.now.signals }
    ensures some { IfOk result (λ o. IfSome o (λ x. Stands flat.now (f.Latch x))) }
    ensures none { IfOk result (λ o. IfNone o ((x : Name) → Stands flat.now (f.Latch x) → ⊥)) }
{
    match missed_of(alloc, scope, flat.blocks.as_slice())? {
        Some(place) => {
            let name = name_at(alloc, scope.list(), place)?;
            Ok(Some(name))
        }
        None => Ok(None),
    }
}

/// A signal of which a combinational block drives a bit that some path through it doesn't set.
pub fn latch_of(alloc: Global, flat: &Flat) -> Result<Option<Text>, AllocError>
    requires { CanPass flat.now }
    ensures some { IfOk result (λ o. IfSome o (λ x. Stands flat.now (f.Latch x))) }
    ensures none { IfOk result (λ o. IfNone o ((x : Name) → Stands flat.now (f.Latch x) → ⊥)) }
{
    let scope = Scope::of(alloc, flat.signals.as_slice())?;
    latch_in(alloc, &scope, flat)
}
