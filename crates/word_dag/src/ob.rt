// One obligation.
ghost use Rattle.std.specs.Prelude.{◌≡◌, ◌<◌, length, take, map, IfOk};
ghost use Rattle.word_dag.specs.Nodes.{Parts, IsOb};

use crate::node::Node;
use outside::Text;
use std::alloc::{AllocError, Global};
use std::marker::Model;

/// An obligation: nodes, each after its operands, and a 1-bit node of them, the root. The question is whether some
/// values of the free nodes make the root 1.
#[derive(Drop)]
pub struct Ob {
    nodes: Vec<Node>,
    root: u64,
}

impl Model for Ob {
    ghost use Rattle.word_dag.specs.Nodes.{Parts, IsOb};

    ghost Value = { Parts };

    ghost view = { λ o. record { nodes = o.nodes.items; root = o.root } };

    ghost invariant = { λ o. IsOb o.nodes.items o.root };
}

impl Ob {
    /// The obligation of these nodes and this root.
    pub fn new(nodes: Vec<Node>, root: u64) -> Ob
        requires { IsOb nodes.items root }
        ensures { result ≡ record { nodes = nodes.items; root = root } }
    {
        Ob { nodes, root }
    }

    /// The nodes, each after its operands.
    pub fn nodes(&self) -> &[Node]
        ensures nodes { result.now ≡ self.now.nodes }
        ensures ob { IsOb self.now.nodes self.now.root }
    {
        self.nodes.as_slice()
    }

    /// The number of the node that is asked about.
    pub fn root(&self) -> u64
        ensures root { result ≡ self.now.root }
        ensures ob { IsOb self.now.nodes self.now.root }
    {
        self.root
    }
}

/// An obligation and its name, as `op idle`.
#[derive(Drop)]
pub struct Named {
    pub name: Text,
    pub ob: Ob,
}

// An equal node.
fn copy_node(alloc: Global, node: &Node) -> Result<Node, AllocError>
    ensures { IfOk result (λ n. n ≡ node.now) }
{
    Ok(match node {
        Node::Free {
            name,
            width,
            side,
            cycle,
        } => Node::Free {
            name: Text::copy(alloc, name.bytes())?,
            width: *width,
            side: *side,
            cycle: *cycle,
        },
        Node::Const(word) => Node::Const(*word),
        Node::Two { op, width, a, b } => Node::Two {
            op: *op,
            width: *width,
            a: *a,
            b: *b,
        },
        Node::Not { width, a } => Node::Not {
            width: *width,
            a: *a,
        },
        Node::Slice { width, a, lo } => Node::Slice {
            width: *width,
            a: *a,
            lo: *lo,
        },
        Node::Zext { width, a } => Node::Zext {
            width: *width,
            a: *a,
        },
        Node::Sext { width, a } => Node::Sext {
            width: *width,
            a: *a,
        },
        Node::Mux { width, c, a, b } => Node::Mux {
            width: *width,
            c: *c,
            a: *a,
            b: *b,
        },
    })
}

fn copy_nodes(alloc: Global, nodes: &[Node]) -> Result<Vec<Node>, AllocError>
    ensures { IfOk result (λ ns. ns.items ≡ nodes.now) }
{
    let mut copy = Vec::with_capacity(alloc, nodes.len())?;
    for node in nodes {
        copy.push(copy_node(alloc, node)?)?;
    }
    Ok(copy)
}

/// An equal obligation.
pub fn copy_ob(alloc: Global, ob: &Ob) -> Result<Ob, AllocError>
    ensures { IfOk result (λ o. o ≡ ob.now) }
{
    let nodes = copy_nodes(alloc, ob.nodes())?;
    Ok(Ob::new(nodes, ob.root()))
}
