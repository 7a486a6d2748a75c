// The order of a graph's vertices.
ghost use Rattle.std.specs.Prelude.{◌≡◌, ◌≢◌, ◌<◌, length, IfOk, true, false};
ghost use Rattle.elab_flat_graphs.specs.Graphs.{graph_of, IsGraph, IsSorted, IfOrder, IsLevelized};
ghost use Rattle.elab_flat_graphs.specs.Searching.{mark_at};

use crate::levels::levelized;
use crate::search::{Mark, Search, mark_of};
use crate::sorted::Sorted;
use std::alloc::{AllocError, Global};

fn is_new(marks: &[Mark], v: usize) -> bool
    requires { v < length marks.now }
    ensures yes { result ≡ true → mark_at marks.now v ≡ Mark.New }
    ensures no { result ≡ false → mark_at marks.now v ≢ Mark.New }
{
    match mark_of(marks, v) {
        Mark::New => true,
        Mark::Open | Mark::Done => false,
    }
}

// Each vertex once, after its successors; or, where there is no such order, a cycle.
fn search(alloc: Global, graph: &[Vec<usize>]) -> Result<Sorted, AllocError>
    requires { IsGraph (graph_of graph.now) }
    ensures { IfOk result (IsSorted (graph_of graph.now)) }
{
    let mut search = Search::start(alloc, graph)?;
    for v in 0..graph.len() {
        if is_new(&search.marks, v) {
            search.open(v)?;
            if let Some(cycle) = search.finish(alloc)? {
                return Ok(Sorted::Cycle(cycle));
            }
        }
    }
    Ok(Sorted::Order(search.done))
}

/// Each vertex once, after its successors; or, where there is no such order, a cycle. The successors of each vertex are
/// vertices. The order goes by levels, those of one level by their keys: a vertex without successors has level 0,
/// another is one level above the highest of its successors, and a vertex without a key has 0. It takes time linear in
/// the graph's size, but for a sort.
pub fn order(alloc: Global, graph: &[Vec<usize>], keys: &[usize]) -> Result<Sorted, AllocError>
    requires { IsGraph (graph_of graph.now) }
    ensures sorted { IfOk result (IsSorted (graph_of graph.now)) }
    ensures levels { IfOk result (λ r. IfOrder r (IsLevelized (graph_of graph.now) keys.now)) }
{
    match search(alloc, graph)? {
        Sorted::Order(vertices) => Ok(Sorted::Order(levelized(alloc, graph, vertices, keys)?)),
        Sorted::Cycle(cycle) => Ok(Sorted::Cycle(cycle)),
    }
}
