// An obligation taken out of a dag, depth first, without recursion.
ghost use Rattle.std.specs.Prelude.{◌≡◌, ◌<◌, ◌==◌, [], length, map, slice_index, IfOk};
ghost use Rattle.word_dag.specs.Nodes.{FitFrom, IsSmall, width_at, width_of};
ghost use Rattle.word_dag.specs.Walks.{operands, renumbered, place_of, first_open, Each, MeansSame};
ghost use Rattle.word_dag.specs.Given.{RootsAgree};
ghost use Rattle.word_dag.specs.Adding.{IsDistinct, HasDistinctFrees};
ghost use Rattle.word_dag.specs.Order.{taken_out};

use crate::dag::Dag;
use crate::fold::constant_node;
use crate::node::Node;
use crate::ob::Ob;
use outside::Text;
use std::alloc::{AllocError, Global};

// Whether this node has no place yet. A place is one more than the new number, and 0 is none.
fn is_open(places: &[u64], number: u64) -> bool
    requires { number < length places.now }
    ensures { result ≡ slice_index places.now number == 0 }
{
    places[number as usize] == 0
}

// The first operand that has no place.
fn open_operand(node: &Node, places: &[u64]) -> Option<u64>
    requires { Each (λ a. a < length places.now) (operands node.now) }
    ensures { result ≡ first_open places.now (operands node.now) }
{
    match node {
        Node::Free { .. } | Node::Const(_) => None,
        Node::Two { a, b, .. } => {
            if is_open(places, *a) {
                Some(*a)
            } else if is_open(places, *b) {
                Some(*b)
            } else {
                None
            }
        }
        Node::Not { a, .. } | Node::Slice { a, .. } | Node::Zext { a, .. } | Node::Sext { a, .. } =>
            { if is_open(places, *a) { Some(*a) } else { None } }
        Node::Mux { c, a, b, .. } => {
            if is_open(places, *c) {
                Some(*c)
            } else if is_open(places, *a) {
                Some(*a)
            } else if is_open(places, *b) {
                Some(*b)
            } else {
                None
            }
        }
    }
}

// The new number of an operand.
fn place(places: &[u64], number: u64) -> u64
    requires within { number < length places.now }
    requires placed { 0 < slice_index places.now number }
    ensures { result ≡ place_of places.now number }
{
    places[number as usize] - 1
}

// The node with the places of its operands.
fn placed(alloc: Global, node: &Node, places: &[u64]) -> Result<Node, AllocError>
    requires within { Each (λ a. a < length places.now) (operands node.now) }
    requires places { Each (λ a. 0 < slice_index places.now a) (operands node.now) }
    ensures node { IfOk result (λ n. n ≡ renumbered (place_of places.now) node.now) }
    ensures small { IfOk result IsSmall }
{
    Ok(match node {
        Node::Free {
            name,
            width,
            side,
            cycle,
        } => Node::Free {
            name: Text::copy(alloc, name.bytes())?,
            width: *width,
            side: *side,
            cycle: *cycle,
        },
        Node::Const(word) => constant_node(*word),
        Node::Two { op, width, a, b } => Node::Two {
            op: *op,
            width: *width,
            a: place(places, *a),
            b: place(places, *b),
        },
        Node::Not { width, a } => Node::Not {
            width: *width,
            a: place(places, *a),
        },
        Node::Slice { width, a, lo } => Node::Slice {
            width: *width,
            a: place(places, *a),
            lo: *lo,
        },
        Node::Zext { width, a } => Node::Zext {
            width: *width,
            a: place(places, *a),
        },
        Node::Sext { width, a } => Node::Sext {
            width: *width,
            a: place(places, *a),
        },
        Node::Mux { width, c, a, b } => Node::Mux {
            width: *width,
            c: place(places, *c),
            a: place(places, *a),
            b: place(places, *b),
        },
    })
}

// The obligation of a node of these, which `extract` takes from a dag.
fn walk(alloc: Global, dag: &[Node], root: u64) -> Result<Ob, AllocError>
    requires nodes { FitFrom [] dag.now }
    requires distinct { IsDistinct dag.now }
    requires root_in { root < length dag.now }
    requires one_bit { width_at dag.now root ≡ 1 }
    ensures exact { IfOk result (λ ob. ob ≡ taken_out dag.now root) }
    ensures value { IfOk result (λ ob. MeansSame dag.now root ob.nodes ob.root) }
    ensures at_values { IfOk result (λ ob. RootsAgree dag.now root ob.nodes ob.root) }
    ensures distinct { IfOk result (λ ob. HasDistinctFrees ob.nodes) }
{
    let mut places = vec![in alloc; 0u64; dag.len()]?;
    let mut nodes = Vec::new(alloc);
    let mut stack = Vec::new(alloc);
    stack.push(root)?;
    while let Some(&top) = stack.last() {
        let node = &dag[top as usize];
        match open_operand(node, &places) {
            Some(operand) => stack.push(operand)?,
            None => {
                nodes.push(placed(alloc, node, &places)?)?;
                places[top as usize] = nodes.len() as u64;
                stack.pop();
            }
        }
    }
    let root = place(&places, root);
    Ok(Ob::new(nodes, root))
}

/// The obligation of a 1-bit node: the nodes that it reads and it, numbered depth first, operands from left to right,
/// each after its operands. The obligation's root has the value of the node in the dag.
#[tactic(auto, using(crate::proofs::NodeValues::width_facts))]
pub fn extract(alloc: Global, dag: &Dag, root: u64) -> Result<Ob, AllocError>
    requires root_in { root < length dag.now }
    requires one_bit { slice_index (map width_of dag.now) root ≡ 1 }
    ensures exact { IfOk result (λ ob. ob ≡ taken_out dag.now root) }
    ensures value { IfOk result (λ ob. MeansSame dag.now root ob.nodes ob.root) }
    ensures at_values { IfOk result (λ ob. RootsAgree dag.now root ob.nodes ob.root) }
    ensures distinct { IfOk result (λ ob. HasDistinctFrees ob.nodes) }
{
    walk(alloc, dag.nodes(), root)
}
