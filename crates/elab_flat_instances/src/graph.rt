// The graph of modules.

ghost use Rattle.std.specs.Prelude.{◌≡◌, length, map, IfOk};
ghost use Rattle.elab_flat_scopes.specs.Borrowed.{name_meant, inner_meant};
ghost use Rattle.elab_flat_scopes.specs.Finding.{module_name};
ghost use Rattle.elab_flat_instances.specs.Graph.{inner_name, target_of, targets_from, module_targets, graph_of};

use elab_flat_graphs::Graph;
use elab_flat_scopes::{Inner, Names, instances_in};
use outside::Text;
use std::alloc::{AllocError, Global};
use vlog_tree::Module;

/// The names of instances.
pub fn instance_names<'a>(alloc: Global, instances: &[Inner<'a>]) -> Result<Names<'a>, AllocError>
    ensures { IfOk result (λ names. names ≡ map inner_name (map inner_meant instances.now)) }
{
    let mut names = Vec::new(alloc);
    for inner in instances {
        names.push(inner.name)?;
    }
    Names::of(alloc, names)
}

/// The names of modules.
pub fn module_names<'a>(alloc: Global, modules: &'a [Module]) -> Result<Names<'a>, AllocError>
    ensures { IfOk result (λ names. names ≡ map module_name modules.now) }
{
    let mut names: Vec<&'a Text> = Vec::new(alloc);
    for text in modules {
        names.push(&text.name)?;
    }
    Names::of(alloc, names)
}

// The node of the module of the instance at a place, among so many modules.
fn target(
    modules: &Names<'_>,
    count: usize,
    names: &Names<'_>,
    at: usize,
    inner: &Inner<'_>,
) -> usize
    requires { count ≡ length modules.now }
    ensures { result ≡ target_of modules.now names.now at (inner_meant inner.now) }
{
    match names.place(inner.name.bytes()) {
        Some(first) => {
            if first == at {
                match modules.place(inner.of_module.bytes()) {
                    Some(node) => node,
                    None => count,
                }
            } else {
                count
            }
        }
        None => count,
    }
}

fn targets_of(
    alloc: Global,
    modules: &Names<'_>,
    count: usize,
    names: &Names<'_>,
    instances: &[Inner<'_>],
) -> Result<Vec<usize>, AllocError>
    requires { count ≡ length modules.now }
    ensures { IfOk result (λ r. r.items ≡ targets_from modules.now names.now 0 (map inner_meant instances.now)) }
{
    let mut all = Vec::new(alloc);
    let mut at = 0;
    for inner in instances {
        all.push(target(modules, count, names, at, inner))?;
        at += 1;
    }
    Ok(all)
}

fn targets(
    alloc: Global,
    modules: &Names<'_>,
    count: usize,
    text: &Module,
) -> Result<Vec<usize>, AllocError>
    requires { count ≡ length modules.now }
    ensures { IfOk result (λ r. r.items ≡ module_targets modules.now text.now) }
{
    let instances = instances_in(alloc, text)?;
    let names = instance_names(alloc, &instances)?;
    targets_of(alloc, modules, count, &names, &instances)
}

/// The graph of modules.
pub fn graph_of(alloc: Global, modules: &[Module], names: &Names<'_>) -> Result<Graph, AllocError>
    requires { names.now ≡ map module_name modules.now }
    ensures { IfOk result (λ graph. graph ≡ graph_of modules.now) }
{
    let mut all = Vec::new(alloc);
    for text in modules {
        all.push(targets(alloc, names, modules.len(), text)?)?;
    }
    all.push(Vec::new(alloc))?;
    Ok(Graph::new(all))
}
