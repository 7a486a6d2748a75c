// Where properties end in rows of nodes.
ghost use Rattle.std.specs.Prelude.{◌≡◌, ◌-◌, ◌<◌, ◌≤◌, List, drop, length, IfOk};
ghost use Rattle.std.specs.List.{All};
ghost use Rattle.vlog_tree.specs.Valuation.{IsLength};
ghost use Rattle.twin_tests_laws.specs.Tests.{any_from, ends_at};
ghost use Rattle.set_tree.specs.Formulas.{meaning_of};
ghost use Rattle.set_tree.specs.Meaning.{Row, holds};
ghost use Rattle.set_tree.specs.Parts.{property_at};
ghost use Rattle.twin_tests.specs.Building.{AreLeaves, HasWidth, IsReadable, Shows, Tests};
ghost use Rattle.twin_tests.specs.Reading.{FollowsWithin, HasStructure};
ghost use Rattle.word_dag.specs.Adding.{Keeps};
ghost use Rattle.word_dag.specs.Nodes.{Naming};

use crate::formula::{rows_after, test_node};
use crate::property::property_of;
use crate::twins::{Span, Twins};
use crate::window::NodeRow;
use crate::words::{both, constant, either, negated};
use std::alloc::AllocError;
use vlog_tree::Expr;
use word_dag::Dag;

impl Twins<'_> {
    // Whether a formula that reads one row holds in one of the rows at these offsets.
    fn earlier_node(
        &self,
        dag: &mut Dag,
        rows: &[NodeRow],
        formula: &Expr,
        span: Span,
    ) -> Result<u64, AllocError>
        requires widths { All (λ n. IsLength n.width) self.now.set.now.names }
        requires readable { IsReadable self.now.set.now 1 formula.now }
        requires order { span.from ≤ span.to }
        requires within { span.to ≤ length rows.now }
        requires leaves { AreLeaves self.now.set.now.names dag.old rows.now }
        ensures keeps { IfOk result (λ _. Keeps dag.old dag.new) }
        ensures width { IfOk result (λ i. HasWidth dag.new i 1) }
        ensures node { IfOk result (λ i. (f : Naming → List Row) → Shows self.now.set.now.names dag.old rows.now f →
            Tests dag.new i (λ e. any_from span.from (span.to - span.from)
            (λ t. holds (meaning_of self.now.set.now) formula.now (drop t (f e))))) }
    {
        let mut any = constant(dag, false)?;
        for t in span.from..span.to {
            let later = rows_after(rows, t);
            let one = test_node(self.alloc, dag, self.set, later, formula)?;
            any = either(dag, any, one)?;
        }
        Ok(any)
    }

    /// Whether a property that starts in the first row ends at an offset that its length allows.
    pub fn ends_node(
        &self,
        dag: &mut Dag,
        at: usize,
        n: usize,
        rows: &[NodeRow],
    ) -> Result<u64, AllocError>
        requires structure { HasStructure self.now.set.now }
        requires follows { FollowsWithin self.now.set.now (length rows.now) at }
        requires least { (property_at self.now.set.now at).length.low ≤ n }
        requires most { n ≤ (property_at self.now.set.now at).length.high }
        requires leaves { AreLeaves self.now.set.now.names dag.old rows.now }
        ensures keeps { IfOk result (λ _. Keeps dag.old dag.new) }
        ensures width { IfOk result (λ i. HasWidth dag.new i 1) }
        ensures node { IfOk result (λ i. (f : Naming → List Row) → Shows self.now.set.now.names dag.old rows.now f →
            Tests dag.new i (λ e. ends_at (meaning_of self.now.set.now) self.now.set.now at n (f e))) }
    {
        let property = property_of(self.set, at);
        match &property.length.until {
            None => constant(dag, true),
            Some(until) => {
                let from = property.length.low as usize;
                let earlier = self.earlier_node(dag, rows, until, Span { from, to: n })?;
                let first = negated(dag, earlier)?;
                let here = test_node(self.alloc, dag, self.set, rows_after(rows, n), until)?;
                both(dag, first, here)
            }
        }
    }
}
