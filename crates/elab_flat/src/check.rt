// The rules on the texts of all scopes.

ghost use Rattle.std.specs.Prelude.{IfErr, OnOk, map};
ghost use Rattle.elab_flat_faults.specs.FlatStands.{Refuses, Stands};
ghost use Rattle.elab_flat_widths.specs.Scopes.{HasSoundParams};
ghost use Rattle.elab_flat_widths.specs.Texts.{StandsAround};
ghost use Rattle.elab_flat_instances.specs.Naming.{prefix_name};
ghost use Rattle.elab_flat_instances.specs.Unfolding.{scope_meant, HasSoundInners, HasSoundTop, AreUnfolded};
ghost use Rattle.elab_flat.specs.Checked.{IsChecked, AreChecked};

use crate::scope::scope_name;
use elab_flat_faults::FlatFault;
use elab_flat_instances::Scope;
use elab_flat_names::check_names;
use elab_flat_scopes::Modules;
use elab_flat_widths::check_texts;
use std::alloc::Global;

// The text of a scope breaks no rule on names, ports, constants and lengths. A refusal's fault stands at the scope, or
// at an instance in it.
fn check_scope<'a>(
    alloc: Global,
    modules: &Modules<'a>,
    top: &[u8],
    scope: &Scope<'a>,
) -> Result<(), FlatFault>
    requires inners { HasSoundInners modules.now (scope_meant scope.now) }
    requires sound { HasSoundParams (scope_meant scope.now) }
    ensures ok { OnOk result (IsChecked modules.now top.now (scope_meant scope.now)) }
    ensures err { IfErr result (Refuses (StandsAround modules.now (prefix_name top.now scope.now.prefix)
        (scope_meant scope.now))) }
{
    match check_names(alloc, modules, scope) {
        Ok(()) => {}
        Err(fault) => return Err(fault),
    }
    let name = scope_name(alloc, top, scope.prefix.bytes())?;
    match check_texts(alloc, modules, scope, name.bytes()) {
        Ok(()) => Ok(()),
        Err(fault) => Err(fault),
    }
}

/// No text of a scope breaks a rule on names, ports, constants and lengths. A refusal's fault stands.
pub fn check_scopes<'a>(
    alloc: Global,
    modules: &Modules<'a>,
    top: &[u8],
    scopes: &[Scope<'a>],
) -> Result<(), FlatFault>
    requires unfolded { AreUnfolded modules.now top.now (map scope_meant scopes.now) }
    requires first { HasSoundTop modules.now top.now }
    ensures ok { OnOk result (AreChecked modules.now top.now (map scope_meant scopes.now)) }
    ensures err { IfErr result (Refuses (Stands modules.now top.now)) }
{
    for scope in scopes {
        match check_scope(alloc, modules, top, scope) {
            Ok(()) => {}
            Err(fault) => return Err(fault),
        }
    }
    Ok(())
}
