// All instances of a list of modules from its top.

ghost use Rattle.std.specs.Prelude.{◌≡◌, ◌↔◌, List, [], IsTrue, Some, IfOk, IfErr, map};
ghost use Rattle.vlog_tree_runs.specs.Places.{Name};
ghost use Rattle.vlog_tree.specs.declared.module.Module.{Module as Design};
ghost use Rattle.vlog_tree_runs.specs.Scopes.{module_at, scope_at};
ghost use Rattle.elab_flat_instances.specs.Naming.{IsRecursionAnswer};
ghost use Rattle.elab_flat_faults.specs.declared.flattening.FlatFault.{FlatFault as Fault};
ghost use Rattle.elab_flat_faults.specs.FlatStands.{Refuses, Stands, IsRecursive, HasMore};
ghost use Rattle.elab_flat_scopes.specs.Borrowed.{inner_meant};
ghost use Rattle.elab_flat_scopes.specs.Finding.{place_in};
ghost use Rattle.vlog_tree_runs.specs.Contents.{instances_in};
ghost use Rattle.elab_flat_instances.specs.Graph.{inner_name};
ghost use Rattle.elab_flat_instances.specs.Unfolding.{scope_meant, AreChildren, StandsBelow, AreUnfolded, IsTopScope, StandsAtTop, HasSoundTop, IsOfWhole};

use crate::child::{child_of, full_name, param_fault};
use crate::graph::{instance_names, module_names};
use crate::recursion::recursion;
use crate::scope::Scope;
use elab_flat_faults::FlatFault;
use elab_flat_params::{ParamFault, params_of};
use elab_flat_scopes::{Inner, Modules, Names, instances_in};
use outside::Text;
use std::alloc::{AllocError, Global};
use vlog_tree::{Module, Valuation};

// Whether a name stands first at a place.
fn is_first(names: &Names<'_>, at: usize, name: &[u8]) -> bool
    ensures { IsTrue result ↔ (place_in names.now name.now ≡ Some at) }
{
    match names.place(name) {
        Some(first) => first == at,
        None => false,
    }
}

fn children_of<'a>(
    alloc: Global,
    modules: &Modules<'a>,
    outer: &Scope<'a>,
    names: &Names<'_>,
    instances: &[Inner<'a>],
) -> Result<Vec<Scope<'a>>, FlatFault>
    requires names { names.now ≡ map inner_name (map inner_meant instances.now) }
    requires instances { map inner_meant instances.now ≡ instances_in outer.now.text.now }
    ensures ok { IfOk result (λ r. AreChildren modules.now (scope_meant outer.now) 0 (instances_in outer.now.text.now)
        (map scope_meant r.items)) }
    ensures err { IfErr result (Refuses (StandsBelow modules.now (scope_meant outer.now))) }
{
    let mut all = Vec::new(alloc);
    let mut at = 0;
    for inner in instances {
        if !is_first(names, at, inner.name.bytes()) {
            let name = full_name(alloc, outer.prefix.bytes(), inner.name.bytes())?;
            return Err(FlatFault::Twice(name));
        }
        match child_of(alloc, modules, outer, inner) {
            Ok(child) => all.push(child)?,
            Err(fault) => return Err(fault),
        }
        at += 1;
    }
    Ok(all)
}

/// The instances in a scope, in the order of its text. A refusal has a fault that stands at the scope or at one of
/// them.
pub fn children<'a>(
    alloc: Global,
    modules: &Modules<'a>,
    outer: &Scope<'a>,
) -> Result<Vec<Scope<'a>>, FlatFault>
    ensures ok { IfOk result (λ r. AreChildren modules.now (scope_meant outer.now) 0 (instances_in outer.now.text.now)
        (map scope_meant r.items)) }
    ensures err { IfErr result (Refuses (StandsBelow modules.now (scope_meant outer.now))) }
{
    let instances = instances_in(alloc, outer.text)?;
    let names = instance_names(alloc, &instances)?;
    children_of(alloc, modules, outer, &names, &instances)
}

// The most scopes that a list of modules may have, the top among them.
const MOST: usize = 4096;

// The scopes from the top, the first one. A refusal's fault stands.
fn unfold<'a>(
    alloc: Global,
    modules: &Modules<'a>,
    top: &[u8],
    first: Scope<'a>,
) -> Result<Vec<Scope<'a>>, FlatFault>
    requires first { scope_at modules.now top.now [] ≡ Some (scope_meant first) }
    requires plain { (path : List Name) → IsRecursive modules.now top.now path → ⊥ }
    ensures ok { IfOk result (λ r. AreUnfolded modules.now top.now (map scope_meant r.items)) }
    ensures few { IfOk result (λ r. HasMore modules.now top.now 4096 → ⊥) }
    ensures err { IfErr result (Refuses (Stands modules.now top.now)) }
{
    let mut scopes = Vec::new(alloc);
    scopes.push(first)?;
    let mut at = 0;
    while at < scopes.len() {
        let mut more = match children(alloc, modules, &scopes[at]) {
            Ok(more) => more,
            Err(fault) => return Err(fault),
        };
        if MOST - scopes.len() < more.len() {
            return Err(FlatFault::Instances);
        }
        scopes.append(&mut more)?;
        at += 1;
    }
    Ok(scopes)
}

fn top_scope<'a>(alloc: Global, text: &'a Module) -> Result<Scope<'a>, FlatFault>
    ensures ok { IfOk result (λ s. IsTopScope text.now (scope_meant s)) }
    ensures err { IfErr result (Refuses (StandsAtTop text.now)) }
{
    let given = Vec::new(alloc);
    match params_of(alloc, text, &given, &Valuation::new(alloc)) {
        Ok(params) => Ok(Scope {
            prefix: Text::copy(alloc, b"")?,
            text,
            params,
        }),
        Err(ParamFault::Bad(at, cause)) => Err(param_fault(alloc, text, b"", at, cause)?),
        Err(ParamFault::Memory) => Err(FlatFault::Memory),
    }
}

// The name of a module's instance that stands in an instance of the same module, or none where no module below the top
// contains itself.
fn top_recursion(alloc: Global, modules: &[Module], top: &[u8]) -> Result<Option<Text>, AllocError>
    requires { (m : Design) × (module_at modules.now top.now ≡ Some m) }
    ensures { IfOk result (IsRecursionAnswer modules.now top.now) }
{
    let names = module_names(alloc, modules)?;
    match names.place(top) {
        Some(start) => recursion(alloc, modules, &names, top, start),
        None => unreachable!(),
    }
}

// The scopes of a list of modules, which are found by their names, from its top.
fn scopes_from<'a>(
    alloc: Global,
    modules: &'a [Module],
    all: &Modules<'a>,
    top: &[u8],
) -> Result<Vec<Scope<'a>>, FlatFault>
    requires { all.now ≡ modules.now }
    ensures ok { IfOk result (λ r. AreUnfolded modules.now top.now (map scope_meant r.items)) }
    ensures first { IfOk result (λ r. HasSoundTop modules.now top.now) }
    ensures none { IfOk result (λ r. (fault : Fault) → IsOfWhole fault → Stands modules.now top.now fault → ⊥) }
    ensures err { IfErr result (Refuses (Stands modules.now top.now)) }
{
    let text = match all.at(top) {
        Some(text) => text,
        None => return Err(FlatFault::NoTop),
    };
    if let Some(name) = top_recursion(alloc, modules, top)? {
        return Err(FlatFault::Recursion(name));
    }
    let first = match top_scope(alloc, text) {
        Ok(first) => first,
        Err(fault) => return Err(fault),
    };
    unfold(alloc, all, top, first)
}

/// The scopes of a list of modules from its top: the top, and then each one's instances after one another. A refusal's
/// fault stands. Its time is linear in the texts of the modules, and in the sizes of the scopes.
pub fn scopes_of<'a>(
    alloc: Global,
    modules: &'a [Module],
    top: &[u8],
) -> Result<Vec<Scope<'a>>, FlatFault>
    ensures ok { IfOk result (λ r. AreUnfolded modules.now top.now (map scope_meant r.items)) }
    ensures first { IfOk result (λ r. HasSoundTop modules.now top.now) }
    ensures none { IfOk result (λ r. (fault : Fault) → IsOfWhole fault → Stands modules.now top.now fault → ⊥) }
    ensures err { IfErr result (Refuses (Stands modules.now top.now)) }
{
    let all = Modules::of(alloc, modules)?;
    scopes_from(alloc, modules, &all, top)
}
