// Which fault of a module's memories stands, in the order in which faults are told.

ghost use Rattle.std.specs.Prelude.{◌≡◌, Some, IfOk, IfSome, IfNone};
ghost use Rattle.mem_laws.specs.declared.fault.MemFault.TheVariants as m;
ghost use Rattle.mem_laws.specs.Stands.{IsFaultless};
ghost use Rattle.mem_faults.specs.Asked.{IsReady};
ghost use Rattle.mem_faults.specs.Faults.{IsFirstFault};

use crate::kept::wrongly_kept;
use crate::survey::Survey;
use crate::twice::declared_twice;
use mem_laws::MemFault;
use outside::Text;
use std::alloc::{AllocError, Global};
use vlog_tree_runs::Flat;

fn whole_fault(alloc: Global, name: &Text) -> Result<Option<MemFault>, AllocError>
    ensures { IfOk result (λ o. o ≡ Some (m.Whole name.now)) }
{
    Ok(Some(MemFault::Whole(Text::copy(alloc, name.bytes())?)))
}

fn nested_fault(alloc: Global, name: &Text) -> Result<Option<MemFault>, AllocError>
    ensures { IfOk result (λ o. o ≡ Some (m.Nested name.now)) }
{
    Ok(Some(MemFault::Nested(Text::copy(alloc, name.bytes())?)))
}

fn kind_fault(alloc: Global, name: &Text) -> Result<Option<MemFault>, AllocError>
    ensures { IfOk result (λ o. o ≡ Some (m.Kind name.now)) }
{
    Ok(Some(MemFault::Kind(Text::copy(alloc, name.bytes())?)))
}

/// The first fault of a module's memories that stands.
pub fn fault_of(alloc: Global, flat: &Flat) -> Result<Option<MemFault>, AllocError>
    requires { IsReady flat.now }
    ensures some { IfOk result (λ o. IfSome o (IsFirstFault flat.now)) }
    ensures none { IfOk result (λ o. IfNone o (IsFaultless flat.now)) }
{
    if let Some(name) = declared_twice(alloc, flat)? {
        return Ok(Some(MemFault::Twice(name)));
    }
    let survey = Survey::of(alloc, flat)?;
    if let Some(name) = survey.whole(alloc, flat.blocks.as_slice())? {
        return whole_fault(alloc, name);
    }
    if let Some(name) = survey.nested(alloc)? {
        return nested_fault(alloc, name);
    }
    if let Some(name) = wrongly_kept(alloc, flat, &survey.memories)? {
        return kind_fault(alloc, name);
    }
    if survey.indexed() > 1024 {
        return Ok(Some(MemFault::Uses));
    }
    Ok(None)
}
