// The levels of a graph's vertices, and orders by them.
ghost use Rattle.std.specs.Prelude.{◌≡◌, ◌<◌, ◌+◌, ◌^◌, ◌⊎◌, ℕ, length, slice_index, IfOk, OnOk};
ghost use Rattle.std.specs.List.Sorted.{IsPermutation, IsNonDecreasingBy};
ghost use Rattle.elab_flat_graphs.specs.Graphs.{Among, graph_of, IsOrder, AreLevels, StandBy, IsLevelized};

use crate::search::successors_of;
use std::alloc::{AllocError, Global};

// The number of a vertex: 0 where it has none.
fn number_of(numbers: &[usize], v: usize) -> usize
    ensures { result ≡ slice_index numbers.now v }
{
    numbers.get(v).copied().unwrap_or(0)
}

// One above the highest level of some vertices, or 0 where there are none.
fn level_above(levels: &[usize], vertices: &[usize]) -> usize
    requires small { (w : ℕ) → slice_index levels.now w + 1 < 2 ^ 64 }
    ensures above { (w : ℕ) → Among vertices.now w → slice_index levels.now w < result }
    ensures one { (result ≡ 0) ⊎ ((w : ℕ) × Among vertices.now w × (result ≡ slice_index levels.now w + 1)) }
{
    let mut level = 0;
    for i in 0..vertices.len() {
        level = level.max(number_of(levels, vertices[i]) + 1);
    }
    level
}

// The level of each vertex.
fn levels_of(alloc: Global, graph: &[Vec<usize>], order: &[usize]) -> Result<Vec<usize>, AllocError>
    requires { IsOrder (graph_of graph.now) order.now }
    ensures { IfOk result (λ r. AreLevels (graph_of graph.now) r.items) }
{
    let mut levels = vec![in alloc; 0usize; graph.len()]?;
    for i in 0..order.len() {
        let v = order[i];
        levels[v] = level_above(&levels, successors_of(graph, v));
    }
    Ok(levels)
}

// Sorts vertices by their levels, and those of one level by their keys.
fn sort(vertices: &mut Vec<usize>, levels: &[usize], keys: &[usize]) -> Result<(), AllocError>
    ensures same { OnOk result (IsPermutation vertices.old.items vertices.new.items) }
    ensures rises { OnOk result (IsNonDecreasingBy (λ v. slice_index levels.now v) vertices.new.items) }
    ensures sorted { OnOk result ((k : ℕ) → k + 1 < length vertices.new.items →
        StandBy levels.now keys.now (slice_index vertices.new.items k) (slice_index vertices.new.items (k + 1))) }
{
    vertices.sort_by_key(|v| number_of(keys, *v))?;
    vertices.sort_by_key(|v| number_of(levels, *v))?;
    Ok(())
}

/// The vertices of an order by their levels, and those of one level by their keys.
pub fn levelized(
    alloc: Global,
    graph: &[Vec<usize>],
    order: Vec<usize>,
    keys: &[usize],
) -> Result<Vec<usize>, AllocError>
    requires { IsOrder (graph_of graph.now) order.items }
    ensures sorted { IfOk result (λ r. IsOrder (graph_of graph.now) r.items) }
    ensures levels { IfOk result (λ r. IsLevelized (graph_of graph.now) keys.now r.items) }
{
    let levels = levels_of(alloc, graph, &order)?;
    let mut vertices = order;
    sort(&mut vertices, &levels, keys)?;
    Ok(vertices)
}
