// The rules on constants and lengths in the text of a scope.

ghost use Rattle.std.specs.Prelude.{◌⊎◌, OnOk, IfErr};
ghost use Rattle.vlog_tree_runs.specs.Places.{Name};
ghost use Rattle.elab_flat_faults.specs.declared.flattening.FlatFault.TheVariants.{Unknown};
ghost use Rattle.elab_flat_faults.specs.FlatStands.{Refuses, StandsAt, BreaksConstant, BreaksWidth};
ghost use Rattle.elab_flat_instances.specs.Unfolding.{scope_meant, HasSoundInners};
ghost use Rattle.elab_flat_widths.specs.Scopes.{HasSoundParams};
ghost use Rattle.elab_flat_widths.specs.Texts.{StandsAround};

use crate::assignment::check_assignments;
use crate::block::check_blocks;
use crate::declared::check_ranges;
use crate::inner::{check_inners, named_fault};
use crate::resting::at_rest;
use elab_flat_faults::FlatFault;
use elab_flat_instances::Scope;
use elab_flat_scopes::Modules;
use std::alloc::Global;

/// The rules on constants and lengths hold in a scope of this name: neither `Constant` nor `Width` stands there. A
/// refusal's fault stands at the scope, or at an instance in it: there a range of the port that something is connected
/// to breaks a rule.
pub fn check_texts<'a>(
    alloc: Global,
    modules: &Modules<'a>,
    scope: &Scope<'a>,
    path: &[u8],
) -> Result<(), FlatFault>
    requires names { (somewhere n : Name) → StandsAt modules.now somewhere (scope_meant scope.now) (Unknown n) → ⊥ }
    requires inners { HasSoundInners modules.now (scope_meant scope.now) }
    requires sound { HasSoundParams (scope_meant scope.now) }
    ensures none { OnOk result ((n : Name) → BreaksConstant modules.now path.now (scope_meant scope.now) n ⊎
        BreaksWidth modules.now path.now (scope_meant scope.now) n → ⊥) }
    ensures err { IfErr result (Refuses (StandsAround modules.now path.now (scope_meant scope.now))) }
{
    match check_ranges(alloc, scope) {
        Ok(()) => {}
        Err(fault) => return Err(fault),
    }
    let rest = match at_rest(alloc, scope) {
        Ok(rest) => rest,
        Err(_) => return Err(FlatFault::Memory),
    };
    match check_assignments(alloc, scope, &rest) {
        Ok(()) => {}
        Err(violation) => return Err(named_fault(alloc, path, violation)?),
    }
    match check_blocks(alloc, scope, &rest) {
        Ok(()) => {}
        Err(violation) => return Err(named_fault(alloc, path, violation)?),
    }
    match check_inners(alloc, modules, scope, &rest, path) {
        Ok(()) => Ok(()),
        Err(fault) => Err(fault),
    }
}
