// Each line where its property ends at n.
ghost use Rattle.std.specs.Prelude.{◌≡◌, ℕ, ◌+◌, ◌<◌, ◌≤◌, List, length, max, IfOk};
ghost use Rattle.std.specs.List.{All, list_any};
ghost use Rattle.twin_tests_laws.specs.Lines.{edge_end, split_end};
ghost use Rattle.twin_tests_laws.specs.Tests.{ends_at, violates_choose, violates_determine, violates_hand, violates_split};
ghost use Rattle.twin_tests_laws.specs.Windows.{named_rows};
ghost use Rattle.set_tree.specs.Formulas.{meaning_of};
ghost use Rattle.set_tree.specs.Lines.{last_row};
ghost use Rattle.set_tree.specs.Meaning.{Row};
ghost use Rattle.set_tree.specs.Parts.{IsPosition, assumed, property_at, window_of};
ghost use Rattle.twin_tests.specs.Building.{AreLeaves, HasWidth, Shows, Tests};
ghost use Rattle.twin_tests.specs.Framing.{AreFrames, IsFrame};
ghost use Rattle.twin_tests.specs.Reading.{FollowsWithin, HasStructure};
ghost use Rattle.twin_tests.specs.Sharing.{AreMade};
ghost use Rattle.word_dag.specs.Adding.{Keeps};
ghost use Rattle.word_dag.specs.Nodes.{Naming};

use crate::formula::rows_after;
use crate::frame::{Frame, rows_to};
use crate::property::{assumed_node, property_of};
use crate::shared::{Atom, Nodes, Predicate};
use crate::twins::{RowPair, Twins};
use crate::window::NodeRow;
use crate::words::{both, constant, either, negated};
use set_tree::Set;
use std::alloc::{AllocError, Global};
use word_dag::Dag;

// Whether one of these properties that start in the first row is assumed to.
fn any_assumed_node(
    alloc: Global,
    dag: &mut Dag,
    set: &Set,
    properties: &[u32],
    rows: &[NodeRow],
) -> Result<u64, AllocError>
    requires structure { HasStructure set.now }
    requires follow { All (FollowsWithin set.now (length rows.now)) properties.now }
    requires leaves { AreLeaves set.now.names dag.old rows.now }
    ensures keeps { IfOk result (λ _. Keeps dag.old dag.new) }
    ensures width { IfOk result (λ i. HasWidth dag.new i 1) }
    ensures node { IfOk result (λ i. (f : Naming → List Row) → Shows set.now.names dag.old rows.now f →
        Tests dag.new i (λ e. list_any (λ q. assumed (meaning_of set.now) set.now q (f e)) properties.now)) }
{
    let mut any = constant(dag, false)?;
    for property in properties {
        let one = assumed_node(alloc, dag, set, *property as usize, rows)?;
        any = either(dag, any, one)?;
    }
    Ok(any)
}

// The last row of the window of `split P`.
fn last_row(set: &Set, window: usize, n: usize, properties: &[u32]) -> usize
    requires window { window ≤ 64 }
    requires end { n ≤ 64 }
    requires structure { HasStructure set.now }
    requires positions { All (IsPosition set.now) properties.now }
    ensures { result ≡ last_row set.now window n properties.now }
{
    let mut last = window;
    for property in properties {
        let next = property_of(set, *property as usize);
        last = last.max(n + next.window as usize);
    }
    last
}

// The last row of the windows of `choose P Q` and `hand P Q` where P ends at n.
fn edge_end(set: &Set, p: usize, q: usize, n: usize) -> usize
    requires structure { HasStructure set.now }
    requires first { IsPosition set.now p }
    requires second { IsPosition set.now q }
    requires end { n ≤ 64 }
    ensures { result ≡ edge_end set.now p q n }
{
    let here = property_of(set, p).window as usize;
    let there = property_of(set, q).window as usize;
    here.max(n + there)
}

impl Twins<'_> {
    /// `split P` at n: P ends there, and no successor is assumed.
    pub fn split_node(&self, dag: &mut Dag, p: usize, n: usize) -> Result<u64, AllocError>
        requires structure { HasStructure self.now.set.now }
        requires position { IsPosition self.now.set.now p }
        requires least { (property_at self.now.set.now p).length.low ≤ n }
        requires most { n ≤ (property_at self.now.set.now p).length.high }
        requires frames { AreFrames self.now.set.now dag.old self.now.frames }
        ensures keeps { IfOk result (λ _. Keeps dag.old dag.new) }
        ensures width { IfOk result (λ i. HasWidth dag.new i 1) }
        ensures node { IfOk result (λ i. Tests dag.new i
            (λ e. violates_split (meaning_of self.now.set.now) self.now.set.now p n
            (named_rows self.now.set.now e 0 (split_end self.now.set.now p n)))) }
    {
        let property = property_of(self.set, p);
        let next = property.next.as_slice();
        let end = last_row(self.set, property.window as usize, n, next);
        let rows = rows_to(&self.frames.first, end);
        let opens = self.opens_node(dag, p, &self.frames.first, end)?;
        let ends = self.ends_node(dag, p, n, rows)?;
        let ended = both(dag, opens, ends)?;
        let some = any_assumed_node(self.alloc, dag, self.set, next, rows_after(rows, n))?;
        let none = negated(dag, some)?;
        both(dag, ended, none)
    }

    /// `choose P Q` at n: P pairs there, the first window goes on with Q, and in the second Q isn't assumed.
    pub fn choose_node(
        &self,
        nodes: &mut Nodes,
        p: usize,
        q: usize,
        n: usize,
    ) -> Result<u64, AllocError>
        requires structure { HasStructure self.now.set.now }
        requires position { IsPosition self.now.set.now p }
        requires next { IsPosition self.now.set.now q }
        requires least { (property_at self.now.set.now p).length.low ≤ n }
        requires most { n ≤ (property_at self.now.set.now p).length.high }
        requires frames { AreFrames self.now.set.now nodes.old.dag self.now.frames }
        requires made { AreMade self.now.set.now nodes.old.dag nodes.old.made.items }
        ensures keeps { IfOk result (λ _. Keeps nodes.old.dag nodes.new.dag) }
        ensures made { IfOk result (λ _. AreMade self.now.set.now nodes.new.dag nodes.new.made.items) }
        ensures width { IfOk result (λ i. HasWidth nodes.new.dag i 1) }
        ensures node { IfOk result (λ i. Tests nodes.new.dag i
            (λ e. violates_choose (meaning_of self.now.set.now) self.now.set.now p q n
            (named_rows self.now.set.now e 0 (edge_end self.now.set.now p q n))
            (named_rows self.now.set.now e 1 (edge_end self.now.set.now p q n)))) }
    {
        let end = edge_end(self.set, p, q, n);
        let pairs = self.atom_node(nodes, Atom::new(Predicate::Pairs, p, n, end))?;
        let chosen = self.atom_node(nodes, Atom::new(Predicate::AssumedFirst, q, n, end))?;
        let other = self.atom_node(nodes, Atom::new(Predicate::AssumedSecond, q, n, end))?;
        let first = both(&mut nodes.dag, pairs, chosen)?;
        let refused = negated(&mut nodes.dag, other)?;
        both(&mut nodes.dag, first, refused)
    }

    /// `hand P Q` at n: both windows go on with Q, which doesn't hand over the same.
    pub fn hand_node(
        &self,
        nodes: &mut Nodes,
        p: usize,
        q: usize,
        n: usize,
    ) -> Result<u64, AllocError>
        requires structure { HasStructure self.now.set.now }
        requires position { IsPosition self.now.set.now p }
        requires next { IsPosition self.now.set.now q }
        requires least { (property_at self.now.set.now p).length.low ≤ n }
        requires most { n ≤ (property_at self.now.set.now p).length.high }
        requires frames { AreFrames self.now.set.now nodes.old.dag self.now.frames }
        requires made { AreMade self.now.set.now nodes.old.dag nodes.old.made.items }
        ensures keeps { IfOk result (λ _. Keeps nodes.old.dag nodes.new.dag) }
        ensures made { IfOk result (λ _. AreMade self.now.set.now nodes.new.dag nodes.new.made.items) }
        ensures width { IfOk result (λ i. HasWidth nodes.new.dag i 1) }
        ensures node { IfOk result (λ i. Tests nodes.new.dag i
            (λ e. violates_hand (meaning_of self.now.set.now) self.now.set.now p q n
            (named_rows self.now.set.now e 0 (edge_end self.now.set.now p q n))
            (named_rows self.now.set.now e 1 (edge_end self.now.set.now p q n)))) }
    {
        let end = edge_end(self.set, p, q, n);
        let pairs = self.atom_node(nodes, Atom::new(Predicate::Pairs, p, n, end))?;
        let here = self.atom_node(nodes, Atom::new(Predicate::StartsFirst, q, n, end))?;
        let there = self.atom_node(nodes, Atom::new(Predicate::StartsSecond, q, n, end))?;
        let hands = self.atom_node(nodes, Atom::new(Predicate::Hands, q, n, end))?;
        let first = both(&mut nodes.dag, pairs, here)?;
        let second = both(&mut nodes.dag, first, there)?;
        let differ = negated(&mut nodes.dag, hands)?;
        both(&mut nodes.dag, second, differ)
    }

    /// `determine P` at n: an output isn't determined at an offset of its cover.
    pub fn determine_node(&self, nodes: &mut Nodes, p: usize, n: usize) -> Result<u64, AllocError>
        requires structure { HasStructure self.now.set.now }
        requires position { IsPosition self.now.set.now p }
        requires least { (property_at self.now.set.now p).length.low ≤ n }
        requires most { n ≤ (property_at self.now.set.now p).length.high }
        requires frames { AreFrames self.now.set.now nodes.old.dag self.now.frames }
        requires made { AreMade self.now.set.now nodes.old.dag nodes.old.made.items }
        ensures keeps { IfOk result (λ _. Keeps nodes.old.dag nodes.new.dag) }
        ensures made { IfOk result (λ _. AreMade self.now.set.now nodes.new.dag nodes.new.made.items) }
        ensures width { IfOk result (λ i. HasWidth nodes.new.dag i 1) }
        ensures node { IfOk result (λ i. Tests nodes.new.dag i
            (λ e. violates_determine (meaning_of self.now.set.now) self.now.set.now p n
            (named_rows self.now.set.now e 0 (window_of self.now.set.now p))
            (named_rows self.now.set.now e 1 (window_of self.now.set.now p)))) }
    {
        let end = property_of(self.set, p).window as usize;
        let first = rows_to(&self.frames.first, end);
        let second = rows_to(&self.frames.second, end);
        let pairs = self.atom_node(nodes, Atom::new(Predicate::Pairs, p, n, end))?;
        let apart = self.covers_node(&mut nodes.dag, p, n, RowPair { first, second })?;
        both(&mut nodes.dag, pairs, apart)
    }

    /// `end P` at n: P ends there.
    pub fn end_node(
        &self,
        dag: &mut Dag,
        p: usize,
        n: usize,
        frame: &Frame,
    ) -> Result<u64, AllocError>
        requires structure { HasStructure self.now.set.now }
        requires position { IsPosition self.now.set.now p }
        requires least { (property_at self.now.set.now p).length.low ≤ n }
        requires most { n ≤ (property_at self.now.set.now p).length.high }
        requires within { window_of self.now.set.now p < length frame.now.rows.items }
        requires frame { IsFrame self.now.set.now dag.old frame.now }
        ensures keeps { IfOk result (λ _. Keeps dag.old dag.new) }
        ensures width { IfOk result (λ i. HasWidth dag.new i 1) }
        ensures node { IfOk result (λ i. Tests dag.new i
            (λ e. ends_at (meaning_of self.now.set.now) self.now.set.now p n
            (named_rows self.now.set.now e frame.now.side (window_of self.now.set.now p)))) }
    {
        let end = property_of(self.set, p).window as usize;
        self.ends_node(dag, p, n, rows_to(frame, end))
    }
}
