// Wrong forms of assignments (IEEE 1364-2005, sections 6.1 and 9.2).

ghost use Rattle.std.specs.Prelude.{◌≡◌, [], map, IfOk, IfSome, IfNone, Some};
ghost use Rattle.vlog_tree_runs.specs.Places.{Name, Among};
ghost use Rattle.elab_flat_scopes.specs.Borrowed.{name_meant};
ghost use Rattle.elab_flat_faults.specs.ElabStands.{Stands};
ghost use Rattle.elab_flat_faults.specs.declared.elaborating.ElabFault.TheVariants as f;
ghost use Rattle.elab_flat_drivers.specs.Kinds.{IsWired, IsMisplaced, IsMisdeclared, IsMisformed, IsMixed};

use crate::names::{Form, assign_names, block_names, declared_names, shared};
use elab_flat_scopes::Names;
use outside::Text;
use std::alloc::{AllocError, Global};
use vlog_tree_runs::Flat;

// A name that a continuous assignment assigns though it is declared by `reg`.
fn assigned_register(alloc: Global, flat: &Flat) -> Result<Option<&Text>, AllocError>
    ensures some { IfOk result (λ o. IfSome o (λ x. IsWired flat.now x.now)) }
    ensures none { IfOk result (λ o. IfNone o ((x : Name) → IsWired flat.now x → ⊥)) }
{
    let registers = declared_names(alloc, flat.signals.as_slice(), true)?;
    let assigned = assign_names(alloc, flat.assigns.as_slice())?;
    Ok(shared(&assigned, &registers))
}

// A name that a clocked block assigns, or a combinational one, though it isn't declared by `reg`.
fn assigned_wire(alloc: Global, flat: &Flat, clocked: bool) -> Result<Option<&Text>, AllocError>
    ensures some { IfOk result (λ o. IfSome o (λ x. IsMisplaced flat.now clocked x.now)) }
    ensures none { IfOk result (λ o. IfNone o ((x : Name) → IsMisplaced flat.now clocked x → ⊥)) }
{
    let wires = declared_names(alloc, flat.signals.as_slice(), false)?;
    let assigned = block_names(alloc, flat.blocks.as_slice(), clocked, Form::Any)?;
    Ok(shared(&assigned, &wires))
}

// A name that a continuous assignment assigns though it is declared by `reg`, or a block though it isn't.
fn misdeclared(alloc: Global, flat: &Flat) -> Result<Option<&Text>, AllocError>
    ensures some { IfOk result (λ o. IfSome o (λ x. IsMisdeclared flat.now x.now)) }
    ensures none { IfOk result (λ o. IfNone o ((x : Name) → IsMisdeclared flat.now x → ⊥)) }
{
    if let Some(name) = assigned_register(alloc, flat)? {
        return Ok(Some(name));
    }
    if let Some(name) = assigned_wire(alloc, flat, true)? {
        return Ok(Some(name));
    }
    assigned_wire(alloc, flat, false)
}

fn first<'a>(names: &[&'a Text]) -> Option<&'a Text>
    ensures some { IfSome result (λ x. Among (map name_meant names.now) x.now) }
    ensures none { IfNone result (names.now ≡ []) }
{
    if names.is_empty() {
        return None;
    }
    Some(names[0])
}

// A name that a clocked block assigns by `=`, or a combinational one by `<=`.
fn misformed(alloc: Global, flat: &Flat) -> Result<Option<&Text>, AllocError>
    ensures some { IfOk result (λ o. IfSome o (λ x. IsMisformed flat.now x.now)) }
    ensures none { IfOk result (λ o. IfNone o ((x : Name) → IsMisformed flat.now x → ⊥)) }
{
    let blocks = flat.blocks.as_slice();
    let blocking = block_names(alloc, blocks, true, Form::Blocking)?;
    if let Some(name) = first(&blocking) {
        return Ok(Some(name));
    }
    let nonblocking = block_names(alloc, blocks, false, Form::Nonblocking)?;
    Ok(first(&nonblocking))
}

// A name that a clocked and a combinational block assign.
fn mixed(alloc: Global, flat: &Flat) -> Result<Option<&Text>, AllocError>
    ensures some { IfOk result (λ o. IfSome o (λ x. IsMixed flat.now x.now)) }
    ensures none { IfOk result (λ o. IfNone o ((x : Name) → IsMixed flat.now x → ⊥)) }
{
    let blocks = flat.blocks.as_slice();
    let clocked = block_names(alloc, blocks, true, Form::Any)?;
    let combinational = block_names(alloc, blocks, false, Form::Any)?;
    let others = Names::of(alloc, combinational)?;
    Ok(shared(&clocked, &others))
}

fn kept(alloc: Global, name: &Text) -> Result<Option<Text>, AllocError>
    ensures { IfOk result (λ o. o ≡ Some name.now) }
{
    Ok(Some(Text::copy(alloc, name.bytes())?))
}

/// A signal with the wrong form of assignment: by a continuous assignment though it is declared by `reg`, or by a block
/// though it isn't; by `=` in a clocked block, or by `<=` in a combinational one; or by both kinds of blocks.
pub fn wrongly_assigned(alloc: Global, flat: &Flat) -> Result<Option<Text>, AllocError>
    ensures some { IfOk result (λ o. IfSome o (λ x. Stands flat.now (f.Kind x))) }
    ensures none { IfOk result (λ o. IfNone o ((x : Name) → Stands flat.now (f.Kind x) → ⊥)) }
{
    if let Some(name) = misdeclared(alloc, flat)? {
        return kept(alloc, name);
    }
    if let Some(name) = misformed(alloc, flat)? {
        return kept(alloc, name);
    }
    if let Some(name) = mixed(alloc, flat)? {
        return kept(alloc, name);
    }
    Ok(None)
}
