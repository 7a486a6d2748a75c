// What properties hand over, and where outputs are determined.
ghost use Rattle.std.specs.Prelude.{◌≡◌, ℕ, ◌-◌, ◌^◌, ◌<◌, ◌≤◌, ◌==◌, List, length, drop, get_or, slice_index, not, IfOk};
ghost use Rattle.std.specs.List.{All, list_any};
ghost use Rattle.twin_tests_laws.specs.Tests.{any_from, determined, same_hands};
ghost use Rattle.set_tree.specs.declared.set.Cover.{Cover};
ghost use Rattle.set_tree.specs.Formulas.{meaning_of};
ghost use Rattle.set_tree.specs.Meaning.{Row};
ghost use Rattle.set_tree.specs.Parts.{IsOutput, cover_end, in_domain, property_at, value_of};
ghost use Rattle.twin_tests.specs.Building.{AreLeaves, HasWidth, IsWide, Counts, Shows, Tests};
ghost use Rattle.twin_tests.specs.Reading.{FollowsWithin, HasStructure};
ghost use Rattle.word_dag.specs.Adding.{Keeps};
ghost use Rattle.word_dag.specs.Nodes.{Naming};

use crate::formula::{formula_node, rows_after, test_node};
use crate::property::property_of;
use crate::twins::{RowPair, Span, Twins};
use crate::window::NodeRow;
use crate::words::{both, constant, either, equal, negated, same};
use set_tree::{Cover, Set, To};
use std::alloc::{AllocError, Global};
use word_dag::Dag;

// Whether an output is in its domain in the first row.
fn domain_node(
    alloc: Global,
    dag: &mut Dag,
    set: &Set,
    output: usize,
    rows: &[NodeRow],
) -> Result<u64, AllocError>
    requires structure { HasStructure set.now }
    requires output { output < length set.now.names }
    requires some { 1 ≤ length rows.now }
    requires leaves { AreLeaves set.now.names dag.old rows.now }
    ensures keeps { IfOk result (λ _. Keeps dag.old dag.new) }
    ensures width { IfOk result (λ i. HasWidth dag.new i 1) }
    ensures node { IfOk result (λ i. (f : Naming → List Row) → Shows set.now.names dag.old rows.now f →
        Tests dag.new i (λ e. in_domain (meaning_of set.now) set.now output (f e))) }
{
    let names = set.names.as_slice();
    match &names[output].domain {
        None => constant(dag, true),
        Some(formula) => test_node(alloc, dag, set, rows, formula),
    }
}

// The node of a name in the first row.
fn value_node(rows: &[NodeRow], output: usize) -> u64
    requires some { 1 ≤ length rows.now }
    requires output { All (λ row. output < length row) rows.now }
    ensures { (d : List ℕ) → result ≡ slice_index (get_or rows.now 0 d) output }
{
    let row = &rows[0];
    let nodes = row.nodes();
    nodes[output]
}

// Where a cover ends whose property ends at n.
fn cover_end(to: To, n: usize) -> usize
    requires { n < 2 ^ 32 }
    ensures { result ≡ cover_end to n }
{
    match to {
        To::At(offset) => offset as usize,
        To::AfterEnd(more) => n + more as usize,
    }
}

impl Twins<'_> {
    /// Whether a property hands over the same in the first row of two windows.
    pub fn same_hands_node(
        &self,
        dag: &mut Dag,
        at: usize,
        pair: RowPair<'_>,
    ) -> Result<u64, AllocError>
        requires structure { HasStructure self.now.set.now }
        requires first { FollowsWithin self.now.set.now (length pair.first.now) at }
        requires second { FollowsWithin self.now.set.now (length pair.second.now) at }
        requires first_leaves { AreLeaves self.now.set.now.names dag.old pair.first.now }
        requires second_leaves { AreLeaves self.now.set.now.names dag.old pair.second.now }
        ensures keeps { IfOk result (λ _. Keeps dag.old dag.new) }
        ensures width { IfOk result (λ i. HasWidth dag.new i 1) }
        ensures node { IfOk result (λ i. (f g : Naming → List Row) →
            Shows self.now.set.now.names dag.old pair.entry.first.now f →
            Shows self.now.set.now.names dag.old pair.entry.second.now g →
            Tests dag.new i (λ e. same_hands (meaning_of self.now.set.now) self.now.set.now at (f e) (g e))) }
    {
        let mut all = constant(dag, true)?;
        for formula in property_of(self.set, at).hand.as_slice() {
            let one = formula_node(self.alloc, dag, self.set, pair.first, formula)?;
            let other = formula_node(self.alloc, dag, self.set, pair.second, formula)?;
            let agree = equal(dag, one, other)?;
            all = both(dag, all, agree)?;
        }
        Ok(all)
    }

    // Whether an output is determined in the first row of two windows.
    fn determined_node(
        &self,
        dag: &mut Dag,
        output: usize,
        pair: RowPair<'_>,
    ) -> Result<u64, AllocError>
        requires structure { HasStructure self.now.set.now }
        requires output { output < length self.now.set.now.names }
        requires first { 1 ≤ length pair.first.now }
        requires second { 1 ≤ length pair.second.now }
        requires first_leaves { AreLeaves self.now.set.now.names dag.old pair.first.now }
        requires second_leaves { AreLeaves self.now.set.now.names dag.old pair.second.now }
        ensures keeps { IfOk result (λ _. Keeps dag.old dag.new) }
        ensures width { IfOk result (λ i. HasWidth dag.new i 1) }
        ensures node { IfOk result (λ i. (f g : Naming → List Row) →
            Shows self.now.set.now.names dag.old pair.entry.first.now f →
            Shows self.now.set.now.names dag.old pair.entry.second.now g →
            Tests dag.new i (λ e. determined (meaning_of self.now.set.now) self.now.set.now output (f e) (g e))) }
    {
        let here = domain_node(self.alloc, dag, self.set, output, pair.first)?;
        let there = domain_node(self.alloc, dag, self.set, output, pair.second)?;
        let domains = same(dag, here, there)?;
        let outside = negated(dag, here)?;
        let values = equal(
            dag,
            value_node(pair.first, output),
            value_node(pair.second, output),
        )?;
        let claimed = either(dag, outside, values)?;
        both(dag, domains, claimed)
    }

    // Whether an output isn't determined at one of these offsets.
    fn apart_node(
        &self,
        dag: &mut Dag,
        output: usize,
        span: Span,
        pair: RowPair<'_>,
    ) -> Result<u64, AllocError>
        requires structure { HasStructure self.now.set.now }
        requires output { output < length self.now.set.now.names }
        requires order { span.from ≤ span.to }
        requires first { span.to ≤ length pair.first.now }
        requires second { span.to ≤ length pair.second.now }
        requires first_leaves { AreLeaves self.now.set.now.names dag.old pair.first.now }
        requires second_leaves { AreLeaves self.now.set.now.names dag.old pair.second.now }
        ensures keeps { IfOk result (λ _. Keeps dag.old dag.new) }
        ensures width { IfOk result (λ i. HasWidth dag.new i 1) }
        ensures node { IfOk result (λ i. (f g : Naming → List Row) →
            Shows self.now.set.now.names dag.old pair.entry.first.now f →
            Shows self.now.set.now.names dag.old pair.entry.second.now g →
            Tests dag.new i (λ e. any_from span.from (span.to - span.from)
            (λ t. not (determined (meaning_of self.now.set.now) self.now.set.now output (drop t (f e))
            (drop t (g e)))))) }
    {
        let mut any = constant(dag, false)?;
        for t in span.from..span.to {
            let one = self.determined_node(
                dag,
                output,
                RowPair {
                    first: rows_after(pair.first, t),
                    second: rows_after(pair.second, t),
                },
            )?;
            let apart = negated(dag, one)?;
            any = either(dag, any, apart)?;
        }
        Ok(any)
    }

    /// Whether an output isn't determined at some offset of its cover by a property that ends at n.
    pub fn covers_node(
        &self,
        dag: &mut Dag,
        at: usize,
        n: usize,
        pair: RowPair<'_>,
    ) -> Result<u64, AllocError>
        requires structure { HasStructure self.now.set.now }
        requires first { FollowsWithin self.now.set.now (length pair.first.now) at }
        requires second { FollowsWithin self.now.set.now (length pair.second.now) at }
        requires least { (property_at self.now.set.now at).length.low ≤ n }
        requires most { n ≤ (property_at self.now.set.now at).length.high }
        requires first_leaves { AreLeaves self.now.set.now.names dag.old pair.first.now }
        requires second_leaves { AreLeaves self.now.set.now.names dag.old pair.second.now }
        ensures keeps { IfOk result (λ _. Keeps dag.old dag.new) }
        ensures width { IfOk result (λ i. HasWidth dag.new i 1) }
        ensures node { IfOk result (λ i. (f g : Naming → List Row) →
            Shows self.now.set.now.names dag.old pair.entry.first.now f →
            Shows self.now.set.now.names dag.old pair.entry.second.now g →
            Tests dag.new i (λ e. list_any (λ (cover : Cover). any_from cover.from (cover_end cover.to n - cover.from)
            (λ t. not (determined (meaning_of self.now.set.now) self.now.set.now cover.output (drop t (f e))
            (drop t (g e))))) (property_at self.now.set.now at).covers)) }
    {
        let mut any = constant(dag, false)?;
        for cover in property_of(self.set, at).covers.as_slice() {
            let span = Span {
                from: cover.from as usize,
                to: cover_end(cover.to, n),
            };
            let one = self.apart_node(dag, cover.output as usize, span, pair)?;
            any = either(dag, any, one)?;
        }
        Ok(any)
    }
}
