// Dependences of signals as edges of a graph of their places (IEEE 1364-2005, sections 6.1 and 9.4).

ghost use Rattle.std.specs.Prelude.{◌≡◌, ◌++◌, ◌<◌, ◌⊎◌, ◌↔◌, ℕ, false, map, length, IfOk, OnOk};
ghost use Rattle.std.specs.List.{flat_map};
ghost use Rattle.vlog_tree_runs.specs.Places.{Among};
ghost use Rattle.elab_flat_graphs.specs.Graphs.{graph_of, successors};
ghost use Rattle.elab_step_flow.specs.Asked.{AreVectors, IsPassable, ArePassable};
ghost use Rattle.elab_step_flow.specs.Edges.{edge, moved_edge, pairs, assign_edges, IsInRows, IsBlockEdge, AnyBlockEdge};
ghost use Rattle.elab_step_flow.specs.declared.edges.Edge.{Edge as Arrow};

use crate::block::flow_of;
use crate::own::{own_signals, whole_place};
use crate::places::places_of;
use crate::scope::Scope;
use elab_flat_drivers::{add_store_reads, parts_of};
use elab_flat_scopes::Names;
use std::alloc::{AllocError, Global};
use vlog_tree::Assign;
use vlog_tree_runs::Always;

/// That one place depends on another.
#[derive(Clone, Copy)]
pub struct Edge {
    pub from: usize,
    pub to: usize,
}

// ---- continuous assignments

fn add_edges(all: &mut Vec<Edge>, from: usize, to: &[usize]) -> Result<(), AllocError>
    ensures { OnOk result (all.new.items ≡ all.old.items ++ map (edge from) to.now) }
{
    for place in to {
        all.push(Edge { from, to: *place })?;
    }
    Ok(())
}

fn add_pairs(all: &mut Vec<Edge>, from: &[usize], to: &[usize]) -> Result<(), AllocError>
    ensures { OnOk result (all.new.items ≡ all.old.items ++ pairs from.now to.now) }
{
    for place in from {
        add_edges(all, *place, to)?;
    }
    Ok(())
}

fn add_assign_edges(
    all: &mut Vec<Edge>,
    alloc: Global,
    names: &Names<'_>,
    assign: &Assign,
) -> Result<(), AllocError>
    ensures { OnOk result (all.new.items ≡ all.old.items ++ assign_edges names.now assign.now) }
{
    let lefts = parts_of(alloc, &assign.left)?;
    let mut reads = Vec::new(alloc);
    add_store_reads(&mut reads, alloc, &assign.left, &assign.right)?;
    let from = places_of(alloc, names, &lefts)?;
    let to = places_of(alloc, names, &reads)?;
    add_pairs(all, &from, &to)?;
    Ok(())
}

/// From what continuous assignments assign to what they read. It takes time linear in their size.
pub fn assigns_edges(
    alloc: Global,
    names: &Names<'_>,
    assigns: &[Assign],
) -> Result<Vec<Edge>, AllocError>
    ensures { IfOk result (λ r. r.items ≡ flat_map (assign_edges names.now) assigns.now) }
{
    let mut all = Vec::new(alloc);
    for assign in assigns {
        add_assign_edges(&mut all, alloc, names, assign)?;
    }
    Ok(all)
}

// ---- combinational blocks

fn add_rows(all: &mut Vec<Edge>, rows: &[Vec<usize>]) -> Result<(), AllocError>
    ensures { OnOk result ((e : Arrow) → Among all.new.items e ↔
        (Among all.old.items e ⊎ IsInRows (length rows.now) (λ i. successors (graph_of rows.now) i) e)) }
{
    for from in 0..rows.len() {
        add_edges(all, from, &rows[from])?;
    }
    Ok(())
}

fn add_block_edges(
    all: &mut Vec<Edge>,
    alloc: Global,
    scope: &Scope<'_>,
    block: &Always,
) -> Result<(), AllocError>
    requires signals { AreVectors scope.now }
    requires body { block.now.clocked ≡ false → IsPassable scope.now block.now.body }
    ensures { OnOk result ((e : Arrow) → Among all.new.items e ↔
        (Among all.old.items e ⊎ IsBlockEdge scope.now block.now e)) }
{
    if !block.clocked {
        let flow = flow_of(alloc, scope, &block.body)?;
        add_rows(all, &flow.through)?;
    }
    Ok(())
}

// Adds edges of places in a list of places, as edges of the places that stand there.
fn add_moved(all: &mut Vec<Edge>, edges: &[Edge], places: &[usize]) -> Result<(), AllocError>
    requires { (e : Arrow) → Among edges.now e → (e.from < length places.now) × (e.to < length places.now) }
    ensures { OnOk result (all.new.items ≡ all.old.items ++ map (moved_edge places.now) edges.now) }
{
    for edge in edges {
        all.push(Edge {
            from: whole_place(places, edge.from),
            to: whole_place(places, edge.to),
        })?;
    }
    Ok(())
}

// The same edges of a block, found among the signals that it names.
fn add_own_edges(
    all: &mut Vec<Edge>,
    alloc: Global,
    scope: &Scope<'_>,
    block: &Always,
) -> Result<(), AllocError>
    requires signals { AreVectors scope.now }
    requires body { block.now.clocked ≡ false → IsPassable scope.now block.now.body }
    ensures { OnOk result ((e : Arrow) → Among all.new.items e ↔
        (Among all.old.items e ⊎ IsBlockEdge scope.now block.now e)) }
{
    if !block.clocked {
        let own = own_signals(alloc, scope, &block.body)?;
        let inner = Scope::of(alloc, &own.signals)?;
        let mut edges = Vec::new(alloc);
        add_block_edges(&mut edges, alloc, &inner, block)?;
        add_moved(all, &edges, &own.places)?;
    }
    Ok(())
}

/// Adds from what combinational blocks assign to what the assignments depend on.
pub fn add_blocks_edges(
    all: &mut Vec<Edge>,
    alloc: Global,
    scope: &Scope<'_>,
    blocks: &[Always],
) -> Result<(), AllocError>
    requires signals { AreVectors scope.now }
    requires blocks { ArePassable scope.now blocks.now }
    ensures { OnOk result ((e : Arrow) → Among all.new.items e ↔
        (Among all.old.items e ⊎ AnyBlockEdge scope.now blocks.now e)) }
{
    for block in blocks {
        add_own_edges(all, alloc, scope, block)?;
    }
    Ok(())
}
