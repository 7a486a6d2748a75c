// Stacks of nodes.

ghost use Rattle.std.specs.Prelude.{◌≡◌, [], ◌∷◌, OnOk, OnErr, slice_get};

use std::alloc::{AllocError, Global};
use std::marker::Model;

/// A stack of nodes. Contracts see it as the list of its nodes, the top first.
#[derive(Drop)]
pub struct Stack {
    nodes: Vec<usize>,
}

impl Model for Stack {
    ghost use Rattle.std.specs.Prelude.{ℕ, List, reverse};

    ghost Value = { List ℕ };

    ghost view = { λ s. reverse s.nodes.items };
}

impl Stack {
    ghost use Rattle.std.specs.Prelude.{drop};
    ghost use Rattle.std.specs.Prelude.{reverse};

    pub fn new(alloc: Global) -> Stack
        ensures { result ≡ [] }
    {
        Stack {
            nodes: Vec::new(alloc),
        }
    }

    pub fn push(&mut self, node: usize) -> Result<(), AllocError>
        ensures { OnOk result (self.new ≡ node ∷ self.old) }
    {
        self.nodes.push(node)?;
        Ok(())
    }

    pub fn top(&self) -> Option<usize>
        ensures { result ≡ slice_get self.now 0 }
    {
        self.nodes.last().copied()
    }

    /// Takes the top off.
    pub fn pop(&mut self)
        ensures { self.new ≡ drop 1 self.old }
    {
        self.nodes.pop();
    }

    /// The nodes, the top last.
    pub fn nodes(&self) -> &[usize]
        ensures { result.now ≡ reverse self.now }
    {
        &self.nodes
    }
}
