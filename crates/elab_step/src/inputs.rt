// Inputs of the top that clocked blocks assign.
ghost use Rattle.std.specs.Prelude.{◌≡◌, ◌&&◌, not, IfOk, IfSome, IfNone};
ghost use Rattle.std.specs.List.{flat_map};
ghost use Rattle.vlog_tree_runs.specs.Places.{Name, Among};
ghost use Rattle.vlog_tree_runs.specs.Contents.{is_among};
ghost use Rattle.vlog_tree_runs.specs.Cycles.{IsInput, IsRegister};
ghost use Rattle.elab_step_nets.specs.Asked.{CanElaborate};
ghost use Rattle.elab_step.specs.Parts.{input_name};

use elab_flat_drivers::{Form, block_names};
use elab_flat_scopes::Names;
use outside::Text;
use std::alloc::{AllocError, Global};
use vlog_tree_runs::{Flat, TopPort};

// Whether a port is an input with one of some names.
fn is_input_among(port: &TopPort, names: &Names<'_>) -> bool
    ensures { result ≡ (not port.now.output && is_among names.now port.now.name) }
{
    !port.output && names.has(port.name.bytes())
}

// The first input that has one of some names.
fn input_among<'a>(ports: &'a [TopPort], names: &Names<'_>) -> Option<&'a Text>
    ensures some { IfSome result (λ x. Among (flat_map input_name ports.now) x.now × Among names.now x.now) }
    ensures none { IfNone result ((x : Name) → Among (flat_map input_name ports.now) x → Among names.now x → ⊥) }
{
    for port in ports {
        if is_input_among(port, names) {
            return Some(&port.name);
        }
    }
    None
}

/// An input of the top that a clocked block assigns: an input is a net, and so it isn't to be assigned there (IEEE
/// 1364-2005, section 12.3.3).
pub fn assigned_input(alloc: Global, flat: &Flat) -> Result<Option<Text>, AllocError>
    requires { CanElaborate flat.now }
    ensures some { IfOk result (λ o. IfSome o (λ x. IsInput flat.now x × IsRegister flat.now x)) }
    ensures none { IfOk result (λ o. IfNone o ((x : Name) → IsInput flat.now x → IsRegister flat.now x → ⊥)) }
{
    let assigned = block_names(alloc, flat.blocks.as_slice(), true, Form::Any)?;
    let registers = Names::of(alloc, assigned)?;
    match input_among(flat.ports.as_slice(), &registers) {
        Some(name) => Ok(Some(Text::copy(alloc, name.bytes())?)),
        None => Ok(None),
    }
}
