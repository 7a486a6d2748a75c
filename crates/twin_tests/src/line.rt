// The test of each line.
ghost use Rattle.std.specs.Prelude.{◌≡◌, ◌<◌, ◌≤◌, suc, ◌-◌, IfOk};
ghost use Rattle.twin_tests_laws.specs.Laws.{property_of};
ghost use Rattle.twin_tests_laws.specs.Tests.{any_end, line_test};
ghost use Rattle.set_tree.specs.Formulas.{meaning_of};
ghost use Rattle.set_tree.specs.Parts.{IsPosition, property_at};
ghost use Rattle.twin_tests.specs.Building.{HasWidth, Tests};
ghost use Rattle.twin_tests.specs.Framing.{AreFrames, SpeaksOf, end_test};
ghost use Rattle.twin_tests.specs.Ordering.{line_of};
ghost use Rattle.twin_tests.specs.Reading.{HasStructure};
ghost use Rattle.twin_tests.specs.Sharing.{AreMade};
ghost use Rattle.word_dag.specs.Adding.{Keeps};

use crate::property::property_of;
use crate::set_line::SetLine;
use crate::shared::Nodes;
use crate::twins::Twins;
use crate::words::{both, constant, either, negated, same};
use std::alloc::AllocError;
use word_dag::Dag;

impl Twins<'_> {
    // `same-end P` at n: P ends there in one window alone.
    fn end_apart_node(&self, dag: &mut Dag, p: usize, n: usize) -> Result<u64, AllocError>
        requires structure { HasStructure self.now.set.now }
        requires position { IsPosition self.now.set.now p }
        requires least { (property_at self.now.set.now p).length.low ≤ n }
        requires most { n ≤ (property_at self.now.set.now p).length.high }
        requires frames { AreFrames self.now.set.now dag.old self.now.frames }
        ensures keeps { IfOk result (λ _. Keeps dag.old dag.new) }
        ensures width { IfOk result (λ i. HasWidth dag.new i 1) }
        ensures node { IfOk result (λ i. Tests dag.new i (end_test self.now.set.now (SetLine.SameEnd p) n)) }
    {
        let first = self.end_node(dag, p, n, &self.frames.first)?;
        let second = self.end_node(dag, p, n, &self.frames.second)?;
        let agree = same(dag, first, second)?;
        negated(dag, agree)
    }

    // What a line says of its property's end at n.
    fn at_end_node(&self, nodes: &mut Nodes, line: SetLine, n: usize) -> Result<u64, AllocError>
        requires structure { HasStructure self.now.set.now }
        requires line { SpeaksOf self.now.set.now (line_of line) }
        requires least { (property_at self.now.set.now (property_of (line_of line))).length.low ≤ n }
        requires most { n ≤ (property_at self.now.set.now (property_of (line_of line))).length.high }
        requires frames { AreFrames self.now.set.now nodes.old.dag self.now.frames }
        requires made { AreMade self.now.set.now nodes.old.dag nodes.old.made.items }
        ensures keeps { IfOk result (λ _. Keeps nodes.old.dag nodes.new.dag) }
        ensures made { IfOk result (λ _. AreMade self.now.set.now nodes.new.dag nodes.new.made.items) }
        ensures width { IfOk result (λ i. HasWidth nodes.new.dag i 1) }
        ensures node { IfOk result (λ i. Tests nodes.new.dag i (end_test self.now.set.now line n)) }
    {
        match line {
            SetLine::End(p) => self.end_node(&mut nodes.dag, p as usize, n, &self.frames.first),
            SetLine::Split(p) => self.split_node(&mut nodes.dag, p as usize, n),
            SetLine::SameEnd(p) => self.end_apart_node(&mut nodes.dag, p as usize, n),
            SetLine::Choose(p, q) => self.choose_node(nodes, p as usize, q as usize, n),
            SetLine::Hand(p, q) => self.hand_node(nodes, p as usize, q as usize, n),
            SetLine::Determine(p) => self.determine_node(nodes, p as usize, n),
        }
    }

    // What a line says of an end, for some end that its property may have.
    fn any_end_node(&self, nodes: &mut Nodes, line: SetLine) -> Result<u64, AllocError>
        requires structure { HasStructure self.now.set.now }
        requires line { SpeaksOf self.now.set.now (line_of line) }
        requires position { IsPosition self.now.set.now (property_of (line_of line)) }
        requires frames { AreFrames self.now.set.now nodes.old.dag self.now.frames }
        requires made { AreMade self.now.set.now nodes.old.dag nodes.old.made.items }
        ensures keeps { IfOk result (λ _. Keeps nodes.old.dag nodes.new.dag) }
        ensures made { IfOk result (λ _. AreMade self.now.set.now nodes.new.dag nodes.new.made.items) }
        ensures width { IfOk result (λ i. HasWidth nodes.new.dag i 1) }
        ensures node { IfOk result (λ i. Tests nodes.new.dag i
            (λ e. any_end self.now.set.now (property_of (line_of line)) (λ n. end_test self.now.set.now line n e))) }
    {
        let property = property_of(self.set, line.property() as usize);
        let low = property.length.low as usize;
        let high = property.length.high as usize;
        let mut any = constant(&mut nodes.dag, false)?;
        for n in low..high + 1 {
            let one = self.at_end_node(nodes, line, n)?;
            any = either(&mut nodes.dag, any, one)?;
        }
        Ok(any)
    }

    /// The test of a line: 1 exactly at values whose windows violate the line.
    pub fn line_node(&self, nodes: &mut Nodes, line: SetLine) -> Result<u64, AllocError>
        requires structure { HasStructure self.now.set.now }
        requires line { SpeaksOf self.now.set.now (line_of line) }
        requires frames { AreFrames self.now.set.now nodes.old.dag self.now.frames }
        requires made { AreMade self.now.set.now nodes.old.dag nodes.old.made.items }
        ensures keeps { IfOk result (λ _. Keeps nodes.old.dag nodes.new.dag) }
        ensures made { IfOk result (λ _. AreMade self.now.set.now nodes.new.dag nodes.new.made.items) }
        ensures width { IfOk result (λ i. HasWidth nodes.new.dag i 1) }
        ensures node { IfOk result (λ i. Tests nodes.new.dag i
            (line_test (meaning_of self.now.set.now) self.now.set.now (line_of line))) }
    {
        match line {
            SetLine::End(p) => {
                let end = property_of(self.set, p as usize).window as usize;
                let any = self.any_end_node(nodes, line)?;
                let none = negated(&mut nodes.dag, any)?;
                let opens = self.opens_node(&mut nodes.dag, p as usize, &self.frames.first, end)?;
                both(&mut nodes.dag, opens, none)
            }
            SetLine::SameEnd(p) => {
                let end = property_of(self.set, p as usize).window as usize;
                let any = self.any_end_node(nodes, line)?;
                let pairs = self.pairs_node(&mut nodes.dag, p as usize, end)?;
                both(&mut nodes.dag, pairs, any)
            }
            SetLine::Split(_)
            | SetLine::Choose(_, _)
            | SetLine::Hand(_, _)
            | SetLine::Determine(_) => self.any_end_node(nodes, line),
        }
    }
}
