// Windows in which a property starts, and those in which it does so in both.
ghost use Rattle.std.specs.Prelude.{◌≡◌, ◌<◌, ◌≤◌, length, IfOk};
ghost use Rattle.twin_tests_laws.specs.Tests.{opens, pairs, pairs_to};
ghost use Rattle.twin_tests_laws.specs.Windows.{named_rows};
ghost use Rattle.set_tree.specs.Formulas.{meaning_of};
ghost use Rattle.set_tree.specs.Parts.{IsPosition, property_at, window_of};
ghost use Rattle.twin_tests.specs.Building.{HasWidth, Tests};
ghost use Rattle.twin_tests.specs.Framing.{AreFrames, IsFrame};
ghost use Rattle.twin_tests.specs.Reading.{HasStructure};
ghost use Rattle.word_dag.specs.Adding.{Keeps};

use crate::frame::{Frame, rows_to};
use crate::property::starts_node;
use crate::twins::{RowPair, Twins};
use crate::words::both;
use std::alloc::AllocError;
use word_dag::Dag;

impl Twins<'_> {
    /// Whether the constraints hold in the window that ends at a cycle, and a property starts in its first row.
    pub fn opens_node(
        &self,
        dag: &mut Dag,
        at: usize,
        frame: &Frame,
        end: usize,
    ) -> Result<u64, AllocError>
        requires structure { HasStructure self.now.set.now }
        requires position { IsPosition self.now.set.now at }
        requires reach { window_of self.now.set.now at ≤ end }
        requires within { end < length frame.now.rows.items }
        requires frame { IsFrame self.now.set.now dag.old frame.now }
        ensures keeps { IfOk result (λ _. Keeps dag.old dag.new) }
        ensures width { IfOk result (λ i. HasWidth dag.new i 1) }
        ensures node { IfOk result (λ i. Tests dag.new i
            (λ e. opens (meaning_of self.now.set.now) self.now.set.now at
            (named_rows self.now.set.now e frame.now.side end))) }
    {
        let starts = starts_node(self.alloc, dag, self.set, at, rows_to(frame, end))?;
        let met = frame.met[end];
        both(dag, met, starts)
    }

    /// Whether so it is in both windows, and the property hands over the same.
    pub fn pairs_node(&self, dag: &mut Dag, at: usize, end: usize) -> Result<u64, AllocError>
        requires structure { HasStructure self.now.set.now }
        requires position { IsPosition self.now.set.now at }
        requires reach { window_of self.now.set.now at ≤ end }
        requires first { end < length self.now.frames.first.rows.items }
        requires second { end < length self.now.frames.second.rows.items }
        requires frames { AreFrames self.now.set.now dag.old self.now.frames }
        ensures keeps { IfOk result (λ _. Keeps dag.old dag.new) }
        ensures width { IfOk result (λ i. HasWidth dag.new i 1) }
        ensures node { IfOk result (λ i. Tests dag.new i
            (λ e. pairs (meaning_of self.now.set.now) self.now.set.now at (named_rows self.now.set.now e 0 end)
            (named_rows self.now.set.now e 1 end))) }
    {
        let first = self.opens_node(dag, at, &self.frames.first, end)?;
        let second = self.opens_node(dag, at, &self.frames.second, end)?;
        let open = both(dag, first, second)?;
        let xs = rows_to(&self.frames.first, end);
        let ys = rows_to(&self.frames.second, end);
        let hands = self.same_hands_node(
            dag,
            at,
            RowPair {
                first: xs,
                second: ys,
            },
        )?;
        both(dag, open, hands)
    }

    /// Whether the property also ends at n in both.
    pub fn pairs_to_node(
        &self,
        dag: &mut Dag,
        at: usize,
        n: usize,
        end: usize,
    ) -> Result<u64, AllocError>
        requires structure { HasStructure self.now.set.now }
        requires position { IsPosition self.now.set.now at }
        requires least { (property_at self.now.set.now at).length.low ≤ n }
        requires most { n ≤ (property_at self.now.set.now at).length.high }
        requires reach { window_of self.now.set.now at ≤ end }
        requires first { end < length self.now.frames.first.rows.items }
        requires second { end < length self.now.frames.second.rows.items }
        requires frames { AreFrames self.now.set.now dag.old self.now.frames }
        ensures keeps { IfOk result (λ _. Keeps dag.old dag.new) }
        ensures width { IfOk result (λ i. HasWidth dag.new i 1) }
        ensures node { IfOk result (λ i. Tests dag.new i
            (λ e. pairs_to (meaning_of self.now.set.now) self.now.set.now at n (named_rows self.now.set.now e 0 end)
            (named_rows self.now.set.now e 1 end))) }
    {
        let pairs = self.pairs_node(dag, at, end)?;
        let first = self.ends_node(dag, at, n, rows_to(&self.frames.first, end))?;
        let one = both(dag, pairs, first)?;
        let second = self.ends_node(dag, at, n, rows_to(&self.frames.second, end))?;
        both(dag, one, second)
    }
}
