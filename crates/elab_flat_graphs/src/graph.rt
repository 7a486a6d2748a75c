// Directed graphs as lists of targets.

ghost use Rattle.std.specs.Prelude.{◌≡◌, ◌<◌, length, map, Vec};
ghost use Rattle.std.proofs.Math.ListN.{get_or};

use std::alloc::Global;
use std::marker::Model;

/// A directed graph: for each node the nodes that its edges lead to. Contracts see it as the list of these lists.
#[derive(Drop)]
pub struct Graph {
    targets: Vec<Vec<usize>>,
}

impl Model for Graph {
    ghost use Rattle.std.specs.Prelude.{ℕ, List, map};

    ghost Value = { List (List ℕ) };

    ghost view = { λ x. map (λ v. v.items) x.targets.items };
}

impl Graph {
    ghost use Rattle.elab_flat_graphs.specs.Walks.{targets_of};

    /// The graph with these targets.
    pub fn new(targets: Vec<Vec<usize>>) -> Graph
        ensures { result ≡ map (λ v. v.items) targets.items }
    {
        Graph { targets }
    }

    /// How many nodes it has.
    pub fn len(&self) -> usize
        ensures { result ≡ length self.now }
    {
        self.targets.len()
    }

    /// The targets of a node.
    pub fn targets(&self, node: usize) -> &[usize]
        requires { node < length self.now }
        ensures { result.now ≡ targets_of self.now node }
    {
        &self.targets[node]
    }
}
