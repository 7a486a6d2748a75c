// What each signal depends on, as a graph of their places (IEEE 1364-2005, sections 6.1 and 9.4).

ghost use Rattle.std.specs.Prelude.{◌≡◌, ◌<◌, ◌⊎◌, ◌↔◌, ℕ, length, IfOk, OnOk};
ghost use Rattle.vlog_tree_runs.specs.Places.{Among};
ghost use Rattle.vlog_tree_runs.specs.Cycles.{IsRegister};
ghost use Rattle.elab_flat_graphs.specs.Graphs.{graph_of, successors, IsGraph, Among as Lists};
ghost use Rattle.elab_step_flow.specs.Asked.{CanPass};
ghost use Rattle.elab_step_flow.specs.Edges.{edge, AreDependences};
ghost use Rattle.elab_step_flow.specs.declared.edges.Edge.{Edge as Arrow};
ghost use Rattle.elab_step_flow.specs.Sets.{Has};
ghost use Rattle.elab_step_flow.specs.Shows.{Marks};

use crate::edges::{Edge, add_blocks_edges, assigns_edges};
use crate::marks::mark_names;
use crate::scope::Scope;
use crate::sets::{empty_rows, none};
use elab_flat_drivers::{Form, block_names};
use std::alloc::{AllocError, Global};
use vlog_tree_runs::Flat;

fn add_edge(graph: &mut Vec<Vec<usize>>, edge: Edge) -> Result<(), AllocError>
    requires { edge.from < length graph.old.items }
    ensures size { OnOk result (length graph.new.items ≡ length graph.old.items) }
    ensures edges { OnOk result ((i j : ℕ) → Lists (successors (graph_of graph.new.items) i) j
        ↔ (Lists (successors (graph_of graph.old.items) i) j ⊎ ((edge.from ≡ i) × (edge.to ≡ j)))) }
{
    graph[edge.from].push(edge.to)?;
    Ok(())
}

// The graph of edges, without those from the places of a set.
fn graph_from(alloc: Global, barred: &[bool], edges: &[Edge]) -> Result<Vec<Vec<usize>>, AllocError>
    requires { (e : Arrow) → Among edges.now e → e.from < length barred.now }
    ensures size { IfOk result (λ r. length r.items ≡ length barred.now) }
    ensures edges { IfOk result (λ r. (i j : ℕ) → Lists (successors (graph_of r.items) i) j ↔
        ((Has barred.now i → ⊥) × Among edges.now (edge i j))) }
{
    let mut graph = empty_rows(alloc, barred.len())?;
    for edge in edges {
        if !barred[edge.from] {
            add_edge(&mut graph, *edge)?;
        }
    }
    Ok(graph)
}

// The places of the registers.
fn registers(alloc: Global, scope: &Scope<'_>, flat: &Flat) -> Result<Vec<bool>, AllocError>
    requires can { CanPass flat.now }
    requires scope { scope.now ≡ flat.now.signals }
    ensures size { IfOk result (λ r. length r.items ≡ length scope.now) }
    ensures marks { IfOk result (λ r. Marks scope.now r.items (λ x. IsRegister flat.now x)) }
{
    let mut set = none(alloc, scope.list().len())?;
    let assigned = block_names(alloc, flat.blocks.as_slice(), true, Form::Any)?;
    mark_names(&mut set, scope.names(), &assigned);
    Ok(set)
}

// What the signals of a module depend on.
fn dependences_among(
    alloc: Global,
    scope: &Scope<'_>,
    flat: &Flat,
) -> Result<Vec<Vec<usize>>, AllocError>
    requires can { CanPass flat.now }
    requires scope { scope.now ≡ flat.now.signals }
    ensures size { IfOk result (λ r. length r.items ≡ length flat.now.signals) }
    ensures vertices { IfOk result (λ r. IsGraph (graph_of r.items)) }
    ensures depends { IfOk result (λ r. AreDependences flat.now (graph_of r.items)) }
{
    let mut edges = assigns_edges(alloc, scope.names(), flat.assigns.as_slice())?;
    add_blocks_edges(&mut edges, alloc, scope, flat.blocks.as_slice())?;
    let registers = registers(alloc, scope, flat)?;
    let graph = graph_from(alloc, &registers, &edges)?;
    Ok(graph)
}

/// For each signal the places of those that it depends on within a cycle, in the order of the module's signals: by
/// continuous assignments, and by the assignments on the paths through combinational blocks. A register depends on
/// none.
pub fn dependences(alloc: Global, flat: &Flat) -> Result<Vec<Vec<usize>>, AllocError>
    requires { CanPass flat.now }
    ensures size { IfOk result (λ r. length r.items ≡ length flat.now.signals) }
    ensures vertices { IfOk result (λ r. IsGraph (graph_of r.items)) }
    ensures depends { IfOk result (λ r. AreDependences flat.now (graph_of r.items)) }
{
    let scope = Scope::of(alloc, flat.signals.as_slice())?;
    dependences_among(alloc, &scope, flat)
}
