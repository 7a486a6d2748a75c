// What names stand for, as nodes of a dag.
ghost use Rattle.std.specs.Prelude.{◌≡◌, ◌<◌, ◌++◌, [], ◌∷◌, get_or, length, IfSome, IfNone, IfOk, Some, None, OnOk, OnErr};
ghost use Rattle.vlog_tree.specs.Valuation.{IsLength};
ghost use Rattle.elab_step_expr.specs.Leaves.{leaf_at, declared, AreWide, entry_of, with_node};

use outside::Text;
use std::alloc::{AllocError, Global};
use std::marker::Model;
use vlog_tree::{Entry, Valuation};

/// What a name stands for at an offset: its length in bits, the number of its lowest bit, its sign, and the node of its
/// value.
#[derive(Drop)]
pub struct Leaf {
    pub name: Text,
    /// The row in which the name is read, in cycles. It is 0 in a module.
    pub offset: u32,
    pub width: u8,
    pub low: u64,
    pub signed: bool,
    pub node: u64,
}

/// Leaves by name and offset. Contracts see the list of them, each of 1 to 64 bits.
#[derive(Drop)]
pub struct Leaves {
    alloc: Global,
    leaves: Vec<Leaf>,
    // The same names with the value 0, in which they are found.
    entries: Valuation,
}

impl Model for Leaves {
    ghost use Rattle.std.specs.Prelude.{List, ◌≡◌};
    ghost use Rattle.elab_step_expr.specs.declared.leaves.Leaf.{Leaf};
    ghost use Rattle.elab_step_expr.specs.Leaves.{AreWide, declared};

    ghost Value = { List Leaf };

    ghost view = { λ l. l.leaves.items };

    ghost invariant = { λ l. AreWide l.leaves.items × (l.entries ≡ declared l.leaves.items) };
}

impl Leaves {
    ghost use Rattle.elab_step_expr.specs.Leaves.{leaf_at, declared, AreWide, with_node};
    ghost use Rattle.vlog_tree.specs.Valuation.{IsLength, place_at};

    /// No leaves. It takes no memory: the allocator is kept for what is added.
    pub fn new(alloc: Global) -> Leaves
        ensures { result ≡ [] }
    {
        Leaves {
            alloc,
            leaves: Vec::new(alloc),
            entries: Valuation::new(alloc),
        }
    }

    /// Where memory for copies of expressions is taken from.
    pub fn allocator(&self) -> Global {
        self.alloc
    }

    /// How many leaves there are.
    pub fn len(&self) -> usize
        ensures { result ≡ length self.now }
    {
        self.leaves.len()
    }

    /// The leaf of this number.
    pub fn leaf(&self, i: usize) -> &Leaf
        requires { i < length self.now }
        ensures { result.now ≡ get_or self.now i result.now }
    {
        &self.leaves[i]
    }

    /// The place of the first leaf of this name at this offset.
    pub fn place(&self, name: &[u8], offset: u32) -> Option<usize>
        ensures { result ≡ place_at (declared self.now) name.now offset }
    {
        self.entries.place(name, offset)
    }

    /// The first leaf of this name at this offset.
    pub fn find(&self, name: &[u8], offset: u32) -> Option<&Leaf>
        ensures found { IfSome result (λ l. leaf_at self.now name.now offset ≡ Some l.now) }
        ensures none { IfNone result (leaf_at self.now name.now offset ≡ None) }
    {
        match self.place(name, offset) {
            Some(place) => Some(&self.leaves[place]),
            None => None,
        }
    }

    /// The names as they are declared, each with the value 0.
    pub fn declared(&self) -> &Valuation
        ensures entries { result.now ≡ declared self.now }
        ensures wide { AreWide self.now }
    {
        &self.entries
    }

    /// Adds a leaf at the end. On an error nothing changes.
    pub fn push(&mut self, alloc: Global, leaf: Leaf) -> Result<(), AllocError>
        requires { IsLength leaf.width }
        ensures ok { OnOk result (self.new ≡ self.old ++ leaf ∷ []) }
        ensures err { OnErr result (self.new ≡ self.old) }
    {
        let entry = entry_of(alloc, &leaf)?;
        self.leaves.reserve(1)?;
        self.entries.push(entry)?;
        self.leaves.push(leaf)?;
        Ok(())
    }

    /// Gives the leaf of this number another node.
    pub fn set_node(&mut self, i: usize, node: u64)
        requires { i < length self.old }
        ensures { self.new ≡ with_node self.old i node }
    {
        self.leaves[i].node = node;
    }
}

// A leaf's name with the value 0.
fn entry_of(alloc: Global, leaf: &Leaf) -> Result<Entry, AllocError>
    ensures { IfOk result (λ e. e ≡ entry_of leaf.now 0) }
{
    Ok(Entry {
        name: Text::copy(alloc, leaf.name.bytes())?,
        offset: leaf.offset,
        width: leaf.width,
        low: leaf.low,
        signed: leaf.signed,
        depth: 0,
        value: 0,
    })
}
