// A dag of nodes that shares equal ones and folds constants.
ghost use Rattle.std.specs.Prelude.{◌≡◌, ℕ, ◌<◌, ◌++◌, ◌∷◌, [], length, map, get_or, IfOk, OnErr, OnOk};
ghost use Rattle.word_dag.specs.Nodes.{FitFrom, FitsNode, width_of};
ghost use Rattle.word_dag.specs.Prints.{print_of};
ghost use Rattle.word_dag.specs.Adding.{IsFound, IsDistinct, Adds};

use crate::fold::{Folded, fold};
use crate::index::Index;
use crate::node::Node;
use crate::same::{fingerprint, is_same};
use std::alloc::{AllocError, Global};
use std::marker::Model;

/// Nodes, each after its operands and none twice. Contracts see the list of them.
#[derive(Drop)]
pub struct Dag {
    nodes: Vec<Node>,
    index: Index,
}

impl Model for Dag {
    ghost use Rattle.std.specs.Prelude.{List};
    ghost use Rattle.word_dag.specs.declared.node.Node.{Node};
    ghost use Rattle.word_dag.specs.Holds.{IsDag};

    ghost Value = { List Node };

    ghost view = { λ d. d.nodes.items };

    ghost invariant = { λ d. IsDag d.nodes.items d.index };
}

// The number of a node, if it is there.
fn find(nodes: &[Node], index: &Index, node: &Node, print: u64) -> Option<u64>
    requires index { index.now ≡ map print_of nodes.now }
    requires print { print ≡ print_of node.now }
    ensures { IsFound nodes.now node.now result }
{
    let mut place = index.last(print);
    while place > 0 {
        let number = place - 1;
        if is_same(&nodes[number as usize], node) {
            return Some(number);
        }
        place = index.before(number);
    }
    None
}

// Puts a node at the end.
fn append(
    nodes: &mut Vec<Node>,
    index: &mut Index,
    node: Node,
    print: u64,
) -> Result<u64, AllocError>
    ensures nodes { OnOk result (nodes.new.items ≡ nodes.old.items ++ node ∷ []) }
    ensures index { OnOk result (index.new ≡ index.old ++ print ∷ []) }
    ensures number { IfOk result (λ i. i ≡ length nodes.old.items) }
    ensures refused { OnErr result (nodes.new.items ≡ nodes.old.items) }
    ensures index_refused { OnErr result (index.new ≡ index.old) }
{
    let number = nodes.len() as u64;
    nodes.reserve(1)?;
    index.push(print)?;
    nodes.push(node)?;
    Ok(number)
}

impl Dag {
    /// A dag without nodes. It takes no memory: the allocator is kept for what is added.
    pub fn new(alloc: Global) -> Dag
        ensures { result ≡ [] }
    {
        Dag {
            nodes: Vec::new(alloc),
            index: Index::new(alloc),
        }
    }

    /// How many nodes there are.
    pub fn count(&self) -> u64
        ensures { result ≡ length self.now }
    {
        self.nodes.len() as u64
    }

    /// The node of a number.
    pub fn node(&self, number: u64) -> &Node
        requires { number < length self.now }
        ensures { result.now ≡ get_or self.now number result.now }
    {
        &self.nodes[number as usize]
    }

    /// All nodes.
    pub fn nodes(&self) -> &[Node]
        ensures nodes { result.now ≡ self.now }
        ensures fit { FitFrom [] self.now }
        ensures distinct { IsDistinct self.now }
    {
        self.nodes.as_slice()
    }

    /// The number of a node with the value of this one. Its operands are nodes of the dag of fitting widths.
    ///
    /// An equal node is shared, a node of constants becomes a constant, and a choice by a constant is what it chooses;
    /// nothing else is rewritten. The older nodes keep number and value. On an error nothing changes.
    pub fn add(&mut self, node: Node) -> Result<u64, AllocError>
        requires { FitsNode (map width_of self.old) node }
        ensures adds { IfOk result (λ i. Adds self.old self.new node i) }
        ensures refused { OnErr result (self.new ≡ self.old) }
    {
        match fold(&self.nodes, node) {
            Folded::Is(number) => Ok(number),
            Folded::Make(node) => {
                let print = fingerprint(&node);
                match find(&self.nodes, &self.index, &node, print) {
                    Some(number) => Ok(number),
                    None => Ok(append(&mut self.nodes, &mut self.index, node, print)?),
                }
            }
        }
    }
}
