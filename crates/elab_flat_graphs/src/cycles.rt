// Depth-first search (Tarjan, Depth-first search and linear graph algorithms, 1972).

ghost use Rattle.std.specs.Prelude.{◌≡◌, ◌+◌, ◌<◌, ◌≤◌, List, ℕ, length, false, true, Some, None, IfOk, IfSome, IfNone, OnOk, slice_get, sum_by};
ghost use Rattle.std.proofs.Math.ListN.{get_or};
ghost use Rattle.elab_flat_graphs.specs.Walks.{IsGraph, IsCycle, targets_of};
ghost use Rattle.elab_flat_graphs.specs.Answer.{IsAnswer};
ghost use Rattle.elab_flat_graphs.specs.Search.{IsSearch, HasFollowed, IsFresh, edge_of};

use crate::graph::Graph;
use crate::stack::Stack;
use std::alloc::{AllocError, Global};

/// A walk that comes back to a node that it has been at.
#[derive(Drop)]
pub struct Cycle {
    /// The numbers of the edges that it follows.
    pub walk: Vec<usize>,
    /// How many of them lead to the node that it comes back to.
    pub back: usize,
}

// How far a search has come.
#[derive(Drop)]
struct Search {
    start: usize,
    // the nodes that were entered and not left
    stack: Stack,
    // for each node a turn for each edge that it hasn't followed, and one to leave it
    left: Vec<usize>,
    // whether a node stands on the stack
    marks: Vec<bool>,
}

fn all_turns(alloc: Global, graph: &Graph) -> Result<Vec<usize>, AllocError>
    ensures { IfOk result (λ r. IsFresh graph.now r.items) }
{
    let mut left = Vec::new(alloc);
    for node in 0..graph.len() {
        left.push(graph.targets(node).len() + 1)?;
    }
    Ok(left)
}

fn no_marks(alloc: Global, count: usize) -> Result<Vec<bool>, AllocError>
    ensures length { IfOk result (λ r. length r.items ≡ count) }
    ensures clear { IfOk result (λ r. (k : ℕ) → get_or r.items k false ≡ false) }
{
    let mut marks = Vec::new(alloc);
    for _node in 0..count {
        marks.push(false)?;
    }
    Ok(marks)
}

impl Search {
    fn begin(alloc: Global, graph: &Graph, start: usize) -> Result<Search, AllocError>
        requires node { start < length graph.now }
        requires graph { IsGraph graph.now }
        ensures search { IfOk result (IsSearch graph.now) }
        ensures start { IfOk result (λ r. r.start ≡ start) }
    {
        let left = all_turns(alloc, graph)?;
        let mut marks = no_marks(alloc, graph.len())?;
        let mut stack = Stack::new(alloc);
        stack.push(start)?;
        marks[start] = true;
        Ok(Search {
            start,
            stack,
            left,
            marks,
        })
    }

    // Follows the next edge of the top, or leaves it where it has none.
    fn turn(&mut self, graph: &Graph, node: usize) -> Option<usize>
        requires search { IsSearch graph.now self.old }
        requires top { slice_get self.old.stack 0 ≡ Some node }
        ensures some { IfSome result (HasFollowed graph.now self.new) }
        ensures none { IfNone result (IsSearch graph.now self.new) }
        ensures start { self.new.start ≡ self.old.start }
        ensures fewer { sum_by (λ x. x) self.new.left.items < sum_by (λ x. x) self.old.left.items }
    {
        let targets = graph.targets(node);
        let left = self.left[node] - 1;
        self.left[node] = left;
        if left == 0 {
            self.stack.pop();
            self.marks[node] = false;
            return None;
        }
        Some(targets[targets.len() - left])
    }

    // Enters the node that the top has just led to, where it is new.
    fn enter(&mut self, graph: &Graph, node: usize) -> Result<(), AllocError>
        requires followed { HasFollowed graph.now self.old node }
        requires off { get_or self.old.marks.items node false ≡ false }
        ensures ok { OnOk result (IsSearch graph.now self.new) }
        ensures start { self.new.start ≡ self.old.start }
        ensures same { self.new.left.items ≡ self.old.left.items }
    {
        let _graph = graph;
        if self.left[node] > 0 {
            self.stack.push(node)?;
            self.marks[node] = true;
        }
        Ok(())
    }

    // The edge that a node on the stack has just followed.
    fn edge(&self, graph: &Graph, node: usize) -> usize
        requires node { node < length graph.now }
        requires turns { length self.now.left.items ≡ length graph.now }
        requires followed { get_or self.now.left.items node 0 ≤ length (targets_of graph.now node) }
        ensures { result ≡ edge_of graph.now self.now.left.items node }
    {
        graph.targets(node).len() - self.left[node]
    }

    // The cycle that the top has just closed by an edge to a node on the stack.
    fn cycle(&self, alloc: Global, graph: &Graph, target: usize) -> Result<Cycle, AllocError>
        requires followed { HasFollowed graph.now self.now target }
        requires on { get_or self.now.marks.items target false ≡ true }
        ensures { IfOk result (λ c. IsCycle graph.now self.now.start c.walk.items c.back) }
    {
        let mut walk = Vec::new(alloc);
        let mut back = 0;
        for node in self.stack.nodes() {
            if *node == target {
                back = walk.len();
            }
            walk.push(self.edge(graph, *node))?;
        }
        Ok(Cycle { walk, back })
    }
}

/// A cycle that walks from a node come to; none where no walk from it comes back to a node that it has been at. Its
/// time is linear in the nodes and edges of the graph.
pub fn cycle_from(alloc: Global, graph: &Graph, start: usize) -> Result<Option<Cycle>, AllocError>
    requires node { start < length graph.now }
    requires graph { IsGraph graph.now }
    ensures { IfOk result (IsAnswer graph.now start) }
{
    let mut search = Search::begin(alloc, graph, start)?;
    while let Some(node) = search.stack.top() {
        if let Some(target) = search.turn(graph, node) {
            if search.marks[target] {
                return Ok(Some(search.cycle(alloc, graph, target)?));
            }
            search.enter(graph, target)?;
        }
    }
    Ok(None)
}
