// What blocks leave, as nodes of a source in which each signal is a free word.
ghost use Rattle.std.specs.Prelude.{◌≡◌, ◌<◌, ℕ, List, None, length, map, slice_index, ◌↔◌, IfOk, MatchOption};
ghost use Rattle.std.specs.List.Sorted.{IsStrictlyIncreasing};
ghost use Rattle.word_dag.specs.Adding.{Keeps};
ghost use Rattle.word_dag.specs.Nodes.{Naming};
ghost use Rattle.vlog_tree_runs.specs.declared.flat.Signal.{Signal as OneSignal};
ghost use Rattle.vlog_tree_runs.specs.Places.{Among, Cycle};
ghost use Rattle.elab_step_expr.specs.Leaves.{declared};
ghost use Rattle.elab_step_blocks.specs.Ready.{IsReadyStmt};
ghost use Rattle.elab_step_blocks.specs.Runs.{AreSet};
ghost use Rattle.elab_step_blocks.specs.Saving.{node_at, places_of, AreWithin};
ghost use Rattle.elab_step_blocks.specs.Standing.{AreLeavesOf, AreShown};
ghost use Rattle.elab_step_nets.specs.Outcomes.{IsFound, IsOutcome};

use elab_step_blocks::{Saved, before_one, put_back, run};
use elab_step_expr::Leaves;
use std::alloc::{AllocError, Global};
use vlog_tree::Stmt;
use word_dag::Dag;

/// What a block leaves in the leaves that it may assign: their places, which rise, and for each a node of the source.
#[derive(Drop)]
pub struct Outcome {
    places: Vec<usize>,
    nodes: Vec<u64>,
}

impl Outcome {
    /// That of a block which assigns nothing.
    pub fn none(alloc: Global) -> Outcome {
        Outcome {
            places: Vec::new(alloc),
            nodes: Vec::new(alloc),
        }
    }

    /// The node that is left at a place, if the block may assign it.
    pub fn node(&self, place: usize) -> Option<u64>
        requires { IsFound self.now }
        ensures { MatchOption result (Among self.now.places.items place → ⊥) (λ n. (k : ℕ) ×
            (k < length self.now.places.items) × (slice_index self.now.places.items k ≡ place) ×
            (n ≡ slice_index self.now.nodes.items k)) }
    {
        match self.places.binary_search(&place) {
            Ok(at) => Some(self.nodes[at]),
            Err(_) => None,
        }
    }
}

// The places of saved nodes, each once, so that they rise.
fn rising_places(alloc: Global, saved: &[Saved]) -> Result<Vec<usize>, AllocError>
    ensures rises { IfOk result (λ r. IsStrictlyIncreasing r.items) }
    ensures same { IfOk result (λ r. (i : ℕ) → Among r.items i ↔ Among (places_of saved.now) i) }
{
    let mut places = Vec::new(alloc);
    for one in saved {
        places.push(one.place)?;
    }
    places.sort()?;
    places.dedup();
    Ok(places)
}

// The nodes of the leaves at these places.
fn nodes_at(alloc: Global, leaves: &Leaves, places: &[usize]) -> Result<Vec<u64>, AllocError>
    requires { AreWithin leaves.now places.now }
    ensures { IfOk result (λ r. r.items ≡ map (node_at leaves.now) places.now) }
{
    let mut nodes = Vec::new(alloc);
    for place in places {
        nodes.push(leaves.leaf(*place).node)?;
    }
    Ok(nodes)
}

/// Runs a block once over a source, and puts back what it assigns. On an error the leaves are half changed.
pub fn outcome_of(source: &mut Dag, body: &Stmt, leaves: &mut Leaves) -> Result<Outcome, AllocError>
    requires set { AreSet None leaves.old source.old }
    requires body { IsReadyStmt (declared leaves.old) body.now }
    ensures keeps { Keeps source.old source.new }
    ensures same { IfOk result (λ o. declared leaves.new ≡ declared leaves.old) }
    ensures set { IfOk result (λ o. AreSet None leaves.new source.new) }
    ensures back { IfOk result (λ o. (gs : List OneSignal) (e : Naming) (c : Cycle) → AreLeavesOf gs leaves.old →
        AreShown e source.old leaves.old c → AreShown e source.new leaves.new c) }
    ensures outcome { IfOk result (λ o. IsOutcome leaves.old source.new body.now o) }
{
    let alloc = leaves.allocator();
    let before = before_one(alloc, body, leaves)?;
    run(alloc, source, body, None, leaves)?;
    let places = rising_places(alloc, &before)?;
    let nodes = nodes_at(alloc, leaves, &places)?;
    put_back(leaves, &before);
    Ok(Outcome { places, nodes })
}
