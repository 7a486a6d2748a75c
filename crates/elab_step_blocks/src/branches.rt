// The nodes of two branches, joined.
ghost use Rattle.std.specs.Prelude.{◌≡◌, ◌<◌, ◌≤◌, length, IfOk, nat_eq, if◌then◌else◌};
ghost use Rattle.word_dag.specs.Adding.{Keeps};
ghost use Rattle.elab_step_expr.specs.Leaves.{AreReady, declared};
ghost use Rattle.elab_step_expr.specs.Nodes.{Makes, IsNode, number_at};
ghost use Rattle.elab_step_blocks.specs.Saving.{node_at, saved_at, places_of, put_back, AreWithin, AreSaved};
ghost use Rattle.elab_step_blocks.specs.Runs.{Joins};

use elab_step_expr::{Leaves, Wire, choice};
use std::alloc::{AllocError, Global};
use word_dag::Dag;

/// A node for the leaf of a place.
#[derive(Clone, Copy)]
pub struct Saved {
    pub place: usize,
    pub node: u64,
}

// The node of the leaf of this place.
fn saved_one(leaves: &Leaves, place: usize) -> Saved
    requires { place < length leaves.now }
    ensures { result ≡ record { place = place; node = node_at leaves.now place } }
{
    Saved {
        place,
        node: leaves.leaf(place).node,
    }
}

/// The nodes of the leaves of these places.
pub fn saved_at(alloc: Global, leaves: &Leaves, places: &[usize]) -> Result<Vec<Saved>, AllocError>
    requires { AreWithin leaves.now places.now }
    ensures { IfOk result (λ r. r.items ≡ saved_at leaves.now places.now) }
{
    let mut nodes = Vec::new(alloc);
    for place in places {
        nodes.push(saved_one(leaves, *place))?;
    }
    Ok(nodes)
}

// The nodes of the leaves for which others are saved.
fn saved_again(alloc: Global, leaves: &Leaves, others: &[Saved]) -> Result<Vec<Saved>, AllocError>
    requires { AreWithin leaves.now (places_of others.now) }
    ensures { IfOk result (λ r. r.items ≡ saved_at leaves.now (places_of others.now)) }
{
    let mut nodes = Vec::new(alloc);
    for one in others {
        nodes.push(saved_one(leaves, one.place))?;
    }
    Ok(nodes)
}

/// Puts saved nodes back.
pub fn put_back(leaves: &mut Leaves, nodes: &[Saved])
    requires { AreWithin leaves.old (places_of nodes.now) }
    ensures { leaves.new ≡ put_back leaves.old nodes.now }
{
    for one in nodes {
        leaves.set_node(one.place, one.node);
    }
}

/// Puts saved nodes back, and takes the nodes that stood in their places.
pub fn replaced(
    alloc: Global,
    state: &mut Leaves,
    nodes: &[Saved],
) -> Result<Vec<Saved>, AllocError>
    requires { AreWithin state.old (places_of nodes.now) }
    ensures taken { IfOk result (λ r. r.items ≡ saved_at state.old (places_of nodes.now)) }
    ensures given { IfOk result (λ r. state.new ≡ put_back state.old nodes.now) }
    ensures same { declared state.new ≡ declared state.old }
{
    let taken = saved_again(alloc, state, nodes)?;
    put_back(state, nodes);
    Ok(taken)
}

// The first of two nodes where a bit is 1, else the second.
#[tactic(auto, using(elab_step_expr::proofs::Kept::keeps_same))]
fn joined_node(dag: &mut Dag, condition: u64, one: Wire, other: u64) -> Result<u64, AllocError>
    requires condition { IsNode dag.old condition 1 }
    requires one { IsNode dag.old one.node one.width }
    requires other { IsNode dag.old other one.width }
    ensures keeps { Keeps dag.old dag.new }
    ensures node { IfOk result (λ r. IsNode dag.new r one.width) }
    ensures number { IfOk result (λ r. (e : _) → number_at e dag.new r ≡
        (if nat_eq (number_at e dag.old condition) 1 then number_at e dag.old one.node else number_at e dag.old other)) }
{
    if one.node == other {
        return Ok(other);
    }
    let width = one.width;
    let number = choice(dag, condition, one, Wire { node: other, width })?;
    Ok(number)
}

/// Where a bit is 1, the leaves keep their nodes; else those get these for which they are saved.
#[tactic(auto, using(elab_step_expr::proofs::Kept::keeps_then, elab_step_expr::proofs::Kept::keeps_same, elab_step_expr::proofs::Kept::node_kept))]
pub fn join(
    dag: &mut Dag,
    condition: u64,
    others: &[Saved],
    state: &mut Leaves,
) -> Result<(), AllocError>
    requires condition { IsNode dag.old condition 1 }
    requires others { AreSaved state.old others.now dag.old }
    requires ready { AreReady state.old dag.old }
    ensures keeps { Keeps dag.old dag.new }
    ensures same { declared state.new ≡ declared state.old }
    ensures ready { IfOk result (λ u. AreReady state.new dag.new) }
    ensures joins { IfOk result (λ u. Joins condition others.now state.old dag.old state.new dag.new) }
{
    for other in others {
        let leaf = state.leaf(other.place);
        let one = Wire {
            node: leaf.node,
            width: leaf.width,
        };
        let node = joined_node(dag, condition, one, other.node)?;
        state.set_node(other.place, node);
    }
    Ok(())
}
