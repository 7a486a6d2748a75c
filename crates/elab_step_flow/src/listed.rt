// Names that a block reads and its list leaves out (IEEE 1364-2005, section 9.7.5).

ghost use Rattle.std.specs.Prelude.{◌≡◌, ◌<◌, ℕ, true, false, map, length, IfOk, IfSome, IfNone, Some};
ghost use Rattle.vlog_tree_runs.specs.Places.{Name, Among};
ghost use Rattle.vlog_tree_runs.specs.Contents.{is_among};
ghost use Rattle.elab_flat_scopes.specs.Borrowed.{name_meant};
ghost use Rattle.elab_step_laws.specs.Laws.{place_over};
ghost use Rattle.elab_flat_faults.specs.declared.elaborating.ElabFault.TheVariants as f;
ghost use Rattle.elab_flat_faults.specs.ElabStands.{Stands};
ghost use Rattle.elab_step_flow.specs.Asked.{AreVectors, IsPassable, ArePassable, CanPass, ReadsBesides, BlockReadsUnlisted, AnyReadsUnlisted, OfSignal};
ghost use Rattle.elab_step_flow.specs.Shows.{IsAt};

use crate::block::flow_of;
use crate::latch::name_at;
use crate::own::{own_signals, whole_place};
use crate::scope::Scope;
use crate::sets::put_in_order;
use elab_flat_scopes::Names;
use outside::Text;
use std::alloc::{AllocError, Global};
use vlog_tree::Stmt;
use vlog_tree_runs::{Always, Flat, Signal};

fn borrowed(alloc: Global, texts: &[Text]) -> Result<Vec<&Text>, AllocError>
    ensures { IfOk result (λ r. map name_meant r.items ≡ texts.now) }
{
    let mut all = Vec::new(alloc);
    for text in texts {
        all.push(text)?;
    }
    Ok(all)
}

// Whether the name of the signal at a place is listed.
fn is_listed(listed: &Names<'_>, signals: &[Signal], place: usize) -> bool
    requires { place < length signals.now }
    ensures { (x : Name) → IsAt signals.now place x → result ≡ is_among listed.now x }
{
    listed.has(signals[place].name.bytes())
}

// The first of some places whose signal isn't listed.
fn absent(places: &[usize], signals: &[Signal], listed: &Names<'_>) -> Option<usize>
    requires { (i : ℕ) → Among places.now i → i < length signals.now }
    ensures some { IfSome result (λ i. OfSignal signals.now i (λ x. Among places.now i ×
        (is_among listed.now x ≡ false))) }
    ensures none { IfNone result ((i : ℕ) (x : Name) → IsAt signals.now i x → Among places.now i →
        is_among listed.now x ≡ true) }
{
    for place in places {
        if !is_listed(listed, signals, *place) {
            return Some(*place);
        }
    }
    None
}

// The place of a signal that a statement reads where it hasn't set all of it, and that isn't listed.
fn unlisted_by(
    alloc: Global,
    scope: &Scope<'_>,
    body: &Stmt,
    listed: &[Text],
) -> Result<Option<usize>, AllocError>
    requires signals { AreVectors scope.now }
    requires body { IsPassable scope.now body.now }
    ensures some { IfOk result (λ o. IfSome o
        (λ i. OfSignal scope.now i (ReadsBesides (place_over scope.now) body.now listed.now))) }
    ensures none { IfOk result (λ o. IfNone o ((x : Name) → ReadsBesides (place_over scope.now) body.now listed.now x →
        ⊥)) }
{
    let mut flow = flow_of(alloc, scope, body)?;
    put_in_order(&mut flow.outside);
    let names = Names::of(alloc, borrowed(alloc, listed)?)?;
    let place = absent(&flow.outside, scope.list(), &names);
    Ok(place)
}

// The same for the signals of a list.
fn unlisted_of_list(
    alloc: Global,
    list: &[Signal],
    body: &Stmt,
    listed: &[Text],
) -> Result<Option<usize>, AllocError>
    requires vectors { AreVectors list.now }
    requires body { IsPassable list.now body.now }
    ensures some { IfOk result (λ o. IfSome o
        (λ i. OfSignal list.now i (ReadsBesides (place_over list.now) body.now listed.now))) }
    ensures none { IfOk result (λ o. IfNone o ((x : Name) → ReadsBesides (place_over list.now) body.now listed.now x →
        ⊥)) }
{
    let scope = Scope::of(alloc, list)?;
    unlisted_by(alloc, &scope, body, listed)
}

// The same, found among the signals that the statement names.
fn unlisted_among_own(
    alloc: Global,
    scope: &Scope<'_>,
    body: &Stmt,
    listed: &[Text],
) -> Result<Option<usize>, AllocError>
    requires signals { AreVectors scope.now }
    requires body { IsPassable scope.now body.now }
    ensures some { IfOk result (λ o. IfSome o
        (λ i. OfSignal scope.now i (ReadsBesides (place_over scope.now) body.now listed.now))) }
    ensures none { IfOk result (λ o. IfNone o ((x : Name) → ReadsBesides (place_over scope.now) body.now listed.now x →
        ⊥)) }
{
    let own = own_signals(alloc, scope, body)?;
    match unlisted_of_list(alloc, &own.signals, body, listed)? {
        Some(place) => Ok(Some(whole_place(&own.places, place))),
        None => Ok(None),
    }
}

// The same for a block; none if it waits for edges or has no list.
fn unlisted_at(
    alloc: Global,
    scope: &Scope<'_>,
    block: &Always,
) -> Result<Option<usize>, AllocError>
    requires signals { AreVectors scope.now }
    requires body { block.now.clocked ≡ false → IsPassable scope.now block.now.body }
    ensures some { IfOk result (λ o. IfSome o (λ i. OfSignal scope.now i (BlockReadsUnlisted scope.now block.now))) }
    ensures none { IfOk result (λ o. IfNone o ((x : Name) → BlockReadsUnlisted scope.now block.now x → ⊥)) }
{
    if block.clocked {
        return Ok(None);
    }
    match &block.names {
        Some(listed) => {
            let place = unlisted_among_own(alloc, scope, &block.body, listed.as_slice())?;
            Ok(place)
        }
        None => Ok(None),
    }
}

// The same for the first of some blocks that has one.
fn unlisted_of(
    alloc: Global,
    scope: &Scope<'_>,
    blocks: &[Always],
) -> Result<Option<usize>, AllocError>
    requires signals { AreVectors scope.now }
    requires blocks { ArePassable scope.now blocks.now }
    ensures some { IfOk result (λ o. IfSome o (λ i. OfSignal scope.now i (AnyReadsUnlisted scope.now blocks.now))) }
    ensures none { IfOk result (λ o. IfNone o ((x : Name) → AnyReadsUnlisted scope.now blocks.now x → ⊥)) }
{
    for block in blocks {
        if let Some(place) = unlisted_at(alloc, scope, block)? {
            return Ok(Some(place));
        }
    }
    Ok(None)
}

// The name of such a signal.
fn unlisted_name(alloc: Global, scope: &Scope<'_>, flat: &Flat) -> Result<Option<Text>, AllocError>
    requires can { CanPass flat.now }
    requires scope { scope.now ≡ flat.now.signals }
    ensures some { IfOk result (λ o. IfSome o (λ x. Stands flat.now (f.Sensitivity x))) }
    ensures none { IfOk result (λ o. IfNone o ((x : Name) → Stands flat.now (f.Sensitivity x) → ⊥)) }
{
    match unlisted_of(alloc, scope, flat.blocks.as_slice())? {
        Some(place) => {
            let name = name_at(alloc, scope.list(), place)?;
            Ok(Some(name))
        }
        None => Ok(None),
    }
}

/// A signal that a combinational block with a list of names reads on some path where it hasn't set all of it, though
/// the list leaves it out.
pub fn unlisted_in(alloc: Global, flat: &Flat) -> Result<Option<Text>, AllocError>
    requires { CanPass flat.now }
    ensures some { IfOk result (λ o. IfSome o (λ x. Stands flat.now (f.Sensitivity x))) }
    ensures none { IfOk result (λ o. IfNone o ((x : Name) → Stands flat.now (f.Sensitivity x) → ⊥)) }
{
    let scope = Scope::of(alloc, flat.signals.as_slice())?;
    unlisted_name(alloc, &scope, flat)
}
