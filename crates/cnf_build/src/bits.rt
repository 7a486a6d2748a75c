// The variables of words.
ghost use Rattle.std.specs.Prelude.{◌≡◌, ◌≤◌, ◌<◌, ◌+◌, ◌^◌, ◌++◌, length, IfOk, OnOk};
ghost use Rattle.std.specs.List.{All};
ghost use Rattle.cnf_build.specs.Lower.{vars as vars_of, free_vars};
ghost use Rattle.cnf_build.specs.Meaning.{read_word};
ghost use Rattle.cnf_build.specs.Built.{at};

use clause_check::in_32_bits;
use std::alloc::{AllocError, Global};
use std::marker::Model;
use word_dag::Node;

/// The variables of a word's bits, from the lowest. Contracts see the list of them.
#[derive(Drop)]
pub struct Vars {
    list: Vec<u32>,
}

impl Model for Vars {
    ghost use Rattle.std.specs.Prelude.{List, ℕ};

    ghost Value = { List ℕ };

    ghost view = { λ v. v.list.items };
}

impl Vars {
    // The variables from this one on.
    fn from(alloc: Global, start: usize, width: u8) -> Result<Vars, AllocError>
        requires { start + width < 2 ^ 64 }
        ensures { IfOk result (λ r. r ≡ vars_of start width) }
    {
        let mut list = Vec::new(alloc);
        for i in 0..width {
            list.push(in_32_bits(start + usize::from(i))?)?;
        }
        Ok(Vars { list })
    }

    /// The variables.
    pub fn list(&self) -> &[u32]
        ensures { result.now ≡ self.now }
    {
        self.list.as_slice()
    }
}

/// Notes the variables of a free node.
pub fn add_bits(
    alloc: Global,
    bits: &mut Vec<Vars>,
    node: &Node,
    start: usize,
) -> Result<(), AllocError>
    requires { start < 2 ^ 63 }
    ensures { OnOk result (bits.new.items ≡ bits.old.items ++ free_vars start node.now) }
{
    match node {
        Node::Free { width, .. } => {
            bits.push(Vars::from(alloc, start, *width)?)?;
            Ok(())
        }
        Node::Const(_) | Node::Two { .. } | Node::Not { .. } | Node::Slice { .. } => Ok(()),
        Node::Zext { .. } | Node::Sext { .. } | Node::Mux { .. } => Ok(()),
    }
}

/// The number that an assignment gives to variables.
pub fn read(assignment: &[bool], vars: &[u32]) -> u64
    requires short { length vars.now ≤ 64 }
    requires within { All (λ v. v < length assignment.now) vars.now }
    ensures value { result ≡ read_word (at assignment.now) vars.now }
    ensures fits { result < 2 ^ length vars.now }
{
    match vars {
        [] => 0,
        [low, high @ ..] => { u64::from(assignment[*low as usize]) + 2 * read(assignment, high) }
    }
}
