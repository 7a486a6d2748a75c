// The nodes of a design in one cycle.
ghost use Rattle.std.specs.Prelude.{false, true, ◌≡◌, ◌<◌, List, length, map, slice_index, IfOk, MatchOption};
ghost use Rattle.unroll.specs.Copies.{AreCopies, AreLeaves, FitCopies, FitLeaves};
ghost use Rattle.vlog_tree_runs.specs.Places.{Cycle};
ghost use Rattle.word_dag.specs.Adding.{Adds, Keeps};
ghost use Rattle.word_dag.specs.Given.{is_free};
ghost use Rattle.word_dag.specs.Nodes.{FitsNode, Naming, width_of};
ghost use Rattle.word_dag.specs.Walks.{Each, operands, renumbered};

use elab_step_design::Design;
use std::alloc::{AllocError, Global};
use word_dag::{Dag, Node};

// The node with the copies of its operands. A free word has none.
fn inner(node: &Node, copies: &[u64]) -> Option<Node>
    requires { Each (λ a. a < length copies.now) (operands node.now) }
    ensures { MatchOption result (is_free node.now ≡ true) (λ n. (is_free node.now ≡ false) ×
        (n ≡ renumbered (slice_index copies.now) node.now)) }
{
    match node {
        Node::Free { .. } => None,
        Node::Const(word) => Some(Node::Const(*word)),
        Node::Two { op, width, a, b } => Some(Node::Two {
            op: *op,
            width: *width,
            a: copies[*a as usize],
            b: copies[*b as usize],
        }),
        Node::Not { width, a } => Some(Node::Not {
            width: *width,
            a: copies[*a as usize],
        }),
        Node::Slice { width, a, lo } => Some(Node::Slice {
            width: *width,
            a: copies[*a as usize],
            lo: *lo,
        }),
        Node::Zext { width, a } => Some(Node::Zext {
            width: *width,
            a: copies[*a as usize],
        }),
        Node::Sext { width, a } => Some(Node::Sext {
            width: *width,
            a: copies[*a as usize],
        }),
        Node::Mux { width, c, a, b } => Some(Node::Mux {
            width: *width,
            c: copies[*c as usize],
            a: copies[*a as usize],
            b: copies[*b as usize],
        }),
    }
}

// The copy of a node: of a free word this leaf, of any other node that with the copies of its operands.
fn copy_node(dag: &mut Dag, node: &Node, copies: &[u64], leaf: u64) -> Result<u64, AllocError>
    requires within { Each (λ a. a < length copies.now) (operands node.now) }
    requires fits { FitsNode (map width_of dag.old) (renumbered (slice_index copies.now) node.now) }
    ensures keeps { IfOk result (λ _. Keeps dag.old dag.new) }
    ensures leaf { IfOk result (λ i. is_free node.now ≡ true → (i ≡ leaf) × (dag.new ≡ dag.old)) }
    ensures inner { IfOk result (λ i. is_free node.now ≡ false →
        Adds dag.old dag.new (renumbered (slice_index copies.now) node.now) i) }
{
    match inner(node, copies) {
        Some(node) => dag.add(node),
        None => Ok(leaf),
    }
}

/// For each node of a design a node with its word, where the registers and inputs are these nodes, each at the place of
/// its node in the design.
pub fn copy_nodes(
    alloc: Global,
    dag: &mut Dag,
    design: &Design,
    leaves: &[u64],
) -> Result<Vec<u64>, AllocError>
    requires { FitLeaves design.now dag.old leaves.now }
    ensures keeps { IfOk result (λ _. Keeps dag.old dag.new) }
    ensures fit { IfOk result (λ copies. FitCopies design.now dag.new copies.items) }
    ensures copies { IfOk result (λ copies. (f : Naming → Cycle) → AreLeaves design.now dag.old leaves.now f →
        AreCopies design.now dag.new copies.items f) }
{
    let nodes = design.dag().nodes();
    let mut copies = Vec::with_capacity(alloc, nodes.len())?;
    for j in 0..nodes.len() {
        let copy = copy_node(dag, &nodes[j], copies.as_slice(), leaves[j])?;
        copies.push(copy)?;
    }
    Ok(copies)
}
