// The rules on the names and the ports of a scope's own text.

ghost use Rattle.std.specs.Prelude.{◌≡◌, ◌⊎◌, ◌++◌, IfOk, IfErr, OnOk, false, map};
ghost use Rattle.vlog_tree_runs.specs.Places.{Name, Among};
ghost use Rattle.vlog_tree_runs.specs.Contents.{Inner as Instance, instances_in, signals_in};
ghost use Rattle.elab_flat_faults.specs.declared.flattening.FlatFault.{FlatFault as Fault};
ghost use Rattle.elab_flat_faults.specs.Declaring.{IsDeclaredTwice, LacksDirection, IsUnlisted};
ghost use Rattle.elab_flat_faults.specs.FlatStands.{Refuses, StandsAt};
ghost use Rattle.elab_flat_scopes.specs.Borrowed.{inner_meant};
ghost use Rattle.elab_flat_scopes.specs.Finding.{decl_name};
ghost use Rattle.elab_flat_instances.specs.Unfolding.{scope_meant, StandsIn};
ghost use Rattle.elab_flat_names.specs.Rows.{StandsAlone, IsUsedUnknown, FitsInner, IsOfNames};

use crate::again::declared_again;
use crate::declared::{scope_names, signal_names};
use crate::inner::check_inner;
use crate::module::{listed_twice, named_twice, unassignable, undeclared, undirected, unlisted};
use crate::word::named_as_word;
use elab_flat_faults::FlatFault;
use elab_flat_instances::{Scope, full_name};
use elab_flat_scopes::{Inner, Modules, Names, instances_in};
use outside::Text;
use std::alloc::{AllocError, Global};

// The full name of something in a scope.
fn scoped(alloc: Global, scope: &Scope<'_>, name: &[u8]) -> Result<Text, AllocError>
    ensures { IfOk result (λ text. text ≡ (scope_meant scope.now).prefix ++ name.now) }
{
    let text = full_name(alloc, scope.prefix.bytes(), name)?;
    Ok(text)
}

/// Each name that a scope's text reads is a parameter or a signal of it, and each that it assigns or waits for a
/// signal. A refusal's fault stands at the scope.
pub fn check_used(alloc: Global, scope: &Scope<'_>) -> Result<(), FlatFault>
    ensures ok { OnOk result ((x : Name) → IsUsedUnknown (scope_meant scope.now) x → ⊥) }
    ensures err { IfErr result (Refuses (StandsAlone (scope_meant scope.now))) }
{
    let declared = scope_names(alloc, scope)?;
    if let Some(name) = undeclared(alloc, scope.text, &declared)? {
        let name = scoped(alloc, scope, name.bytes())?;
        return Err(FlatFault::Unknown(name));
    }
    let signals = Names::of(alloc, signal_names(alloc, scope.text)?)?;
    if let Some(name) = unassignable(alloc, scope.text, &signals)? {
        let name = scoped(alloc, scope, name.bytes())?;
        return Err(FlatFault::Unknown(name));
    }
    Ok(())
}

/// No name is declared twice in the module of a scope. A refusal's fault stands at the scope.
pub fn check_declared(alloc: Global, scope: &Scope<'_>) -> Result<(), FlatFault>
    ensures ok { OnOk result ((x : Name) → IsDeclaredTwice (scope_meant scope.now) x → ⊥) }
    ensures err { IfErr result (Refuses (StandsAlone (scope_meant scope.now))) }
{
    if let Some(name) = listed_twice(alloc, scope.text)? {
        return Err(FlatFault::Twice(scoped(alloc, scope, name.bytes())?));
    }
    if let Some(name) = named_twice(alloc, scope.text)? {
        return Err(FlatFault::Twice(scoped(alloc, scope, name.bytes())?));
    }
    match declared_again(alloc, scope) {
        Ok(Some(name)) => return Err(FlatFault::Twice(scoped(alloc, scope, name.bytes())?)),
        Ok(None) => {}
        Err(fault) => return Err(fault),
    }
    match named_as_word(alloc, scope) {
        Ok(Some(name)) => Err(FlatFault::Twice(scoped(alloc, scope, name.bytes())?)),
        Ok(None) => Ok(()),
        Err(fault) => Err(fault),
    }
}

/// The header of a scope's module lists the ports that are declared with a direction. A refusal's fault stands at the
/// scope.
pub fn check_ports(alloc: Global, scope: &Scope<'_>) -> Result<(), FlatFault>
    ensures ok { OnOk result ((x : Name) → LacksDirection scope.now.text.now x ⊎ IsUnlisted scope.now.text.now x → ⊥) }
    ensures err { IfErr result (Refuses (StandsAlone (scope_meant scope.now))) }
{
    if let Some(name) = undirected(alloc, scope.text)? {
        return Err(FlatFault::Port(scoped(alloc, scope, name.bytes())?));
    }
    if let Some(name) = unlisted(alloc, scope.text)? {
        return Err(FlatFault::Port(scoped(alloc, scope, name.bytes())?));
    }
    Ok(())
}

fn check_inners(
    alloc: Global,
    modules: &Modules<'_>,
    scope: &Scope<'_>,
    signals: &Names<'_>,
    instances: &[Inner<'_>],
) -> Result<(), FlatFault>
    requires instances { map inner_meant instances.now ≡ instances_in scope.now.text.now }
    requires signals { signals.now ≡ map decl_name (signals_in scope.now.text.now) }
    ensures ok { OnOk result ((i : Instance) → Among (instances_in scope.now.text.now) i →
        FitsInner modules.now (scope_meant scope.now) i) }
    ensures err { IfErr result (Refuses (StandsIn modules.now (scope_meant scope.now))) }
{
    for inner in instances {
        match check_inner(alloc, modules, scope, signals, inner) {
            Ok(()) => {}
            Err(fault) => return Err(fault),
        }
    }
    Ok(())
}

/// The instances in a scope have modules, which their overrides and their connections fit. A refusal's fault stands at
/// the scope.
pub fn check_instances(
    alloc: Global,
    modules: &Modules<'_>,
    scope: &Scope<'_>,
) -> Result<(), FlatFault>
    ensures ok { OnOk result ((i : Instance) → Among (instances_in scope.now.text.now) i →
        FitsInner modules.now (scope_meant scope.now) i) }
    ensures err { IfErr result (Refuses (StandsIn modules.now (scope_meant scope.now))) }
{
    let instances = instances_in(alloc, scope.text)?;
    let signals = Names::of(alloc, signal_names(alloc, scope.text)?)?;
    check_inners(alloc, modules, scope, &signals, &instances)
}

/// The rules on names and ports hold in a scope: neither `Unknown` nor `Twice` nor `Port` stands there. A refusal's
/// fault stands at the scope; it is `Constant` or `Width` where the range of a signal that is declared again, or of a
/// memory, declares nothing. Its time is linear in the scope's text and in the modules of its instances.
pub fn check_names(alloc: Global, modules: &Modules<'_>, scope: &Scope<'_>) -> Result<(), FlatFault>
    ensures none { OnOk result ((fault : Fault) → IsOfNames fault → (path : Name) →
        StandsAt modules.now path (scope_meant scope.now) fault → ⊥) }
    ensures err { IfErr result (Refuses (StandsIn modules.now (scope_meant scope.now))) }
{
    match check_used(alloc, scope) {
        Ok(()) => {}
        Err(fault) => return Err(fault),
    }
    match check_declared(alloc, scope) {
        Ok(()) => {}
        Err(fault) => return Err(fault),
    }
    match check_ports(alloc, scope) {
        Ok(()) => {}
        Err(fault) => return Err(fault),
    }
    match check_instances(alloc, modules, scope) {
        Ok(()) => Ok(()),
        Err(fault) => Err(fault),
    }
}
