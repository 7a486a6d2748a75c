ghost use Rattle.std.specs.Prelude.{◌≡◌, IfOk, IfErr, OnOk};
ghost use Rattle.unroll_binding.specs.Binding.{Fits, HasNames, HasRoles, Refuses};

use crate::bound::Bound;
use crate::fault::BindFault;
use crate::find::{
    extra_input, is_bad_clock, is_bad_reset, missing, other_reset, other_role, other_width,
};
use elab_step_design::Design;
use outside::Text;
use set_tree::Set;
use set_tree_structure::Sound;
use std::alloc::Global;

// Names and lengths, and inputs that the set doesn't declare.
fn check_names(alloc: Global, design: &Design, set: &Set) -> Result<(), BindFault>
    ensures ok { OnOk result (HasNames design.now set.now) }
    ensures err { IfErr result (Refuses design.now set.now) }
{
    if let Some(name) = missing(design, set.names.as_slice()) {
        return Err(BindFault::Missing(Text::copy(alloc, name.name.bytes())?));
    }
    if let Some(name) = other_width(design, set.names.as_slice()) {
        return Err(BindFault::WidthOf(Text::copy(alloc, name.name.bytes())?));
    }
    if let Some(net) = extra_input(set, design.inputs()) {
        return Err(BindFault::ExtraInput(Text::copy(alloc, net.name.bytes())?));
    }
    Ok(())
}

// Roles, the clock and the resets.
fn check_roles(alloc: Global, design: &Design, set: &Set) -> Result<(), BindFault>
    ensures ok { OnOk result (HasRoles design.now set.now) }
    ensures err { IfErr result (Refuses design.now set.now) }
{
    if let Some(name) = other_role(design, set) {
        return Err(BindFault::Role(Text::copy(alloc, name.name.bytes())?));
    }
    if is_bad_clock(design, set) {
        return Err(BindFault::Role(Text::copy(alloc, set.clock.bytes())?));
    }
    if is_bad_reset(design, set) {
        return Err(BindFault::Role(Text::copy(alloc, set.reset.bytes())?));
    }
    if let Some(reset) = other_reset(set, design.asyncs()) {
        return Err(BindFault::Role(Text::copy(alloc, reset.name.bytes())?));
    }
    Ok(())
}

/// Joins a set to a design that it fits. Refused by a fault that stands, where one does.
#[tactic(auto, using(crate::proofs::Found::fits))]
pub fn bind(alloc: Global, design: Design, set: Sound) -> Result<Bound, BindFault>
    ensures ok { IfOk result (λ b. b ≡ record { design = design; set = set }) }
    ensures fits { IfOk result (λ _. Fits design set) }
    ensures err { IfErr result (Refuses design set) }
{
    check_names(alloc, &design, set.set())?;
    check_roles(alloc, &design, set.set())?;
    Ok(Bound::new(design, set))
}
