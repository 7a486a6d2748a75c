// Modules that contain themselves.

ghost use Rattle.std.specs.Prelude.{◌≡◌, ◌<◌, ◌++◌, [], length, map, Some, IfOk, slice_get};
ghost use Rattle.std.specs.Option.{option_map};
ghost use Rattle.vlog_tree_runs.specs.Places.{Name};
ghost use Rattle.vlog_tree_runs.specs.Contents.{instances_in};
ghost use Rattle.vlog_tree_runs.specs.Scopes.{inner_prefix};
ghost use Rattle.elab_flat_scopes.specs.Finding.{module_name, place_in};
ghost use Rattle.elab_flat_instances.specs.Graph.{inner_name, graph_of};
ghost use Rattle.elab_flat_instances.specs.Naming.{IsAtNode, LeadsToModule, LeadsHere, IsRecursionAnswer, prefix_name};

use crate::graph::graph_of;
use elab_flat_graphs::{Graph, cycle_from};
use elab_flat_scopes::{Names, instances_in};
use outside::Text;
use std::alloc::{AllocError, Global};
use vlog_tree::Module;

/// What stands in front of the names of an instance.
pub fn inner_prefix(alloc: Global, prefix: &[u8], name: &[u8]) -> Result<Text, AllocError>
    ensures { IfOk result (λ text. text ≡ inner_prefix prefix.now name.now) }
{
    let mut inner = Text::copy(alloc, prefix)?;
    inner.append(name)?;
    inner.append(b".")?;
    Ok(inner)
}

/// The name of an instance by what stands in front of its names: the top's name at the top.
pub fn prefix_name(alloc: Global, top: &[u8], prefix: &[u8]) -> Result<Text, AllocError>
    ensures { IfOk result (λ text. text ≡ prefix_name top.now prefix.now) }
{
    let length = prefix.len();
    if length == 0 {
        Text::copy(alloc, top)
    } else {
        Text::copy(alloc, &prefix[..length - 1])
    }
}

// The name of the instance at a place in a module.
fn name_at(alloc: Global, text: &Module, at: usize) -> Result<Text, AllocError>
    requires { at < length (instances_in text.now) }
    ensures { IfOk result (λ name. option_map inner_name (slice_get (instances_in text.now) at) ≡ Some name) }
{
    let instances = instances_in(alloc, text)?;
    Text::copy(alloc, instances[at].name.bytes())
}

// What stands in front of the names of the instance at a place in a module, by what stands in front of the module's
// own.
fn prefix_at(alloc: Global, prefix: &[u8], text: &Module, at: usize) -> Result<Text, AllocError>
    requires { at < length (instances_in text.now) }
    ensures { IfOk result (λ r. (name : Name) ×
        (option_map inner_name (slice_get (instances_in text.now) at) ≡ Some name) ×
        (r ≡ inner_prefix prefix.now name)) }
{
    let name = name_at(alloc, text, at)?;
    inner_prefix(alloc, prefix, name.bytes())
}

// What stands in front of the names of the instance that a walk leads to.
fn prefix_along(
    alloc: Global,
    modules: &[Module],
    graph: &Graph,
    top: &[u8],
    start: usize,
    walk: &[usize],
) -> Result<Text, AllocError>
    requires graph { graph.now ≡ graph_of modules.now }
    requires start { IsAtNode modules.now top.now [] start }
    requires walk { LeadsToModule modules.now start walk.now }
    ensures { IfOk result (LeadsHere modules.now top.now start walk.now) }
{
    let mut prefix = Text::copy(alloc, b"")?;
    let mut node = start;
    for edge in walk {
        prefix = prefix_at(alloc, prefix.bytes(), &modules[node], *edge)?;
        node = graph.targets(node)[*edge];
    }
    Ok(prefix)
}

// The name of a module's instance that stands in an instance of the same module, by the graph of the modules.
fn recursion_in(
    alloc: Global,
    modules: &[Module],
    graph: &Graph,
    top: &[u8],
    start: usize,
) -> Result<Option<Text>, AllocError>
    requires graph { graph.now ≡ graph_of modules.now }
    requires start { place_in (map module_name modules.now) top.now ≡ Some start }
    ensures { IfOk result (IsRecursionAnswer modules.now top.now) }
{
    match cycle_from(alloc, graph, start)? {
        Some(cycle) => {
            let way = &cycle.walk[..cycle.back];
            let prefix = prefix_along(alloc, modules, graph, top, start, way)?;
            Ok(Some(prefix_name(alloc, top, prefix.bytes())?))
        }
        None => Ok(None),
    }
}

/// The name of a module's instance that stands in an instance of the same module, or none where no module contains
/// itself. Its time is linear in the texts of the modules.
pub fn recursion(
    alloc: Global,
    modules: &[Module],
    names: &Names<'_>,
    top: &[u8],
    start: usize,
) -> Result<Option<Text>, AllocError>
    requires names { names.now ≡ map module_name modules.now }
    requires start { place_in names.now top.now ≡ Some start }
    ensures { IfOk result (IsRecursionAnswer modules.now top.now) }
{
    let graph = graph_of(alloc, modules, names)?;
    recursion_in(alloc, modules, &graph, top, start)
}
