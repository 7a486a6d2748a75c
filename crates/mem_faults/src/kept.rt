// Memories that are signed, that nothing assigns, or that are assigned otherwise than by `<=` in a clocked block.

ghost use Rattle.std.specs.Prelude.{◌≡◌, ◌++◌, ◌&&◌, OnOk, IfOk, IfSome, IfNone, map, nat_eq, not};
ghost use Rattle.std.specs.List.{flat_map};
ghost use Rattle.vlog_tree_runs.specs.Places.{Name, Among};
ghost use Rattle.vlog_tree_runs.specs.Contents.{is_among};
ghost use Rattle.elab_flat_drivers.specs.Names.{chosen_names};
ghost use Rattle.elab_flat_faults.specs.ElabStands.{Names as IsNamed};
ghost use Rattle.elab_flat_scopes.specs.Borrowed.{name_meant};
ghost use Rattle.mem_laws.specs.Uses.{lefts_of};
ghost use Rattle.mem_laws.specs.Stands.{IsSigned, IsAssignedOtherwise, IsWronglyKept};
ghost use Rattle.mem_faults.specs.Kept.{signed_names, assign_names, assigned_names, other_names};
ghost use Rattle.mem_faults.specs.Used.{memory_names, memories_of};

use crate::survey::first_among;
use elab_flat_drivers::{Form, add_left_names, block_names};
use elab_flat_scopes::Names;
use outside::Text;
use std::alloc::{AllocError, Global};
use vlog_tree::Assign;
use vlog_tree_runs::{Always, Flat, Signal};

fn signed_names(alloc: Global, signals: &[Signal]) -> Result<Vec<&Text>, AllocError>
    ensures { IfOk result (λ r. map name_meant r.items ≡ flat_map signed_names signals.now) }
{
    let mut all = Vec::new(alloc);
    for signal in signals {
        if signal.signed {
            all.push(&signal.name)?;
        }
    }
    Ok(all)
}

fn assign_names(alloc: Global, assigns: &[Assign]) -> Result<Vec<&Text>, AllocError>
    ensures { IfOk result (λ r. map name_meant r.items ≡ flat_map assign_names assigns.now) }
{
    let mut all = Vec::new(alloc);
    for assign in assigns {
        add_left_names(&mut all, alloc, &assign.left)?;
    }
    Ok(all)
}

fn add_names<'a>(all: &mut Vec<&'a Text>, names: &[&'a Text]) -> Result<(), AllocError>
    ensures { OnOk result (map name_meant all.new.items ≡ map name_meant all.old.items ++ map name_meant names.now) }
{
    for name in names {
        all.push(*name)?;
    }
    Ok(())
}

fn add_block_names<'a>(
    all: &mut Vec<&'a Text>,
    alloc: Global,
    blocks: &'a [Always],
    clocked: bool,
    form: Form,
) -> Result<(), AllocError>
    ensures { OnOk result (map name_meant all.new.items ≡ map name_meant all.old.items ++ flat_map
        (chosen_names clocked form) blocks.now) }
{
    let names = block_names(alloc, blocks, clocked, form)?;
    add_names(all, &names)
}

// All names that texts assign.
fn assigned_names(alloc: Global, flat: &Flat) -> Result<Names<'_>, AllocError>
    ensures { IfOk result (λ r. r ≡ assigned_names flat.now) }
{
    let mut all = assign_names(alloc, flat.assigns.as_slice())?;
    add_block_names(&mut all, alloc, flat.blocks.as_slice(), true, Form::Any)?;
    add_block_names(&mut all, alloc, flat.blocks.as_slice(), false, Form::Any)?;
    Names::of(alloc, all)
}

// The names that are assigned otherwise than by `<=` in a clocked block.
fn other_names(alloc: Global, flat: &Flat) -> Result<Vec<&Text>, AllocError>
    ensures { IfOk result (λ r. map name_meant r.items ≡ other_names flat.now) }
{
    let mut all = assign_names(alloc, flat.assigns.as_slice())?;
    add_block_names(
        &mut all,
        alloc,
        flat.blocks.as_slice(),
        true,
        Form::Blocking,
    )?;
    add_block_names(
        &mut all,
        alloc,
        flat.blocks.as_slice(),
        false,
        Form::Blocking,
    )?;
    add_block_names(
        &mut all,
        alloc,
        flat.blocks.as_slice(),
        false,
        Form::Nonblocking,
    )?;
    Ok(all)
}

fn signed<'a>(
    alloc: Global,
    flat: &'a Flat,
    memories: &Names<'_>,
) -> Result<Option<&'a Text>, AllocError>
    ensures some { IfOk result (λ o. IfSome o (λ x. Among memories.now x.now × IsSigned flat.now x.now)) }
    ensures none { IfOk result (λ o. IfNone o ((x : Name) → Among memories.now x → IsSigned flat.now x → ⊥)) }
{
    let names = signed_names(alloc, flat.signals.as_slice())?;
    Ok(first_among(&names, memories))
}

fn is_unassigned(signal: &Signal, assigned: &Names<'_>) -> bool
    ensures { result ≡ (not (nat_eq signal.now.depth 0) && not (is_among assigned.now signal.now.name)) }
{
    signal.depth != 0 && !assigned.has(signal.name.bytes())
}

// The first memory that isn't among these names.
fn unassigned_in<'a>(signals: &'a [Signal], assigned: &Names<'_>) -> Option<&'a Text>
    ensures some { IfSome result (λ x. Among (flat_map memory_names signals.now) x.now ×
        (Among assigned.now x.now → ⊥)) }
    ensures none { IfNone result ((x : Name) → Among (flat_map memory_names signals.now) x →
        (Among assigned.now x → ⊥) → ⊥) }
{
    for signal in signals {
        if is_unassigned(signal, assigned) {
            return Some(&signal.name);
        }
    }
    None
}

fn unassigned(alloc: Global, flat: &Flat) -> Result<Option<&Text>, AllocError>
    ensures some { IfOk result (λ o. IfSome o (λ x. Among (memories_of flat.now) x.now ×
        (IsNamed (lefts_of flat.now) x.now → ⊥))) }
    ensures none { IfOk result (λ o. IfNone o ((x : Name) → Among (memories_of flat.now) x →
        (IsNamed (lefts_of flat.now) x → ⊥) → ⊥)) }
{
    let assigned = assigned_names(alloc, flat)?;
    Ok(unassigned_in(flat.signals.as_slice(), &assigned))
}

fn otherwise<'a>(
    alloc: Global,
    flat: &'a Flat,
    memories: &Names<'_>,
) -> Result<Option<&'a Text>, AllocError>
    ensures some { IfOk result (λ o. IfSome o (λ x. Among memories.now x.now × IsAssignedOtherwise flat.now x.now)) }
    ensures none { IfOk result (λ o. IfNone o ((x : Name) → Among memories.now x → IsAssignedOtherwise flat.now x →
        ⊥)) }
{
    let names = other_names(alloc, flat)?;
    Ok(first_among(&names, memories))
}

/// A memory that is signed, that nothing assigns, or that is assigned otherwise than by `<=` in a clocked block.
pub fn wrongly_kept<'a>(
    alloc: Global,
    flat: &'a Flat,
    memories: &Names<'_>,
) -> Result<Option<&'a Text>, AllocError>
    requires { memories.now ≡ memories_of flat.now }
    ensures some { IfOk result (λ o. IfSome o (λ x. Among memories.now x.now × IsWronglyKept flat.now x.now)) }
    ensures none { IfOk result (λ o. IfNone o ((x : Name) → Among memories.now x → IsWronglyKept flat.now x → ⊥)) }
{
    if let Some(name) = signed(alloc, flat, memories)? {
        return Ok(Some(name));
    }
    if let Some(name) = unassigned(alloc, flat)? {
        return Ok(Some(name));
    }
    otherwise(alloc, flat, memories)
}
