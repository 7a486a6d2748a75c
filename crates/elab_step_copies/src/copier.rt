// Copies of nodes, each made once as long as the leaves that it reads keep their nodes.
ghost use Rattle.std.specs.Prelude.{◌≡◌, ◌<◌, ℕ, List, [], length, map, true, false, Some, None, IfOk, OnOk, MatchOption};
ghost use Rattle.std.specs.List.{All};
ghost use Rattle.vlog_tree_runs.specs.Places.{Among};
ghost use Rattle.word_dag.specs.Adding.{Adds, IsAt, Keeps};
ghost use Rattle.word_dag.specs.Given.{is_free};
ghost use Rattle.word_dag.specs.Nodes.{FitFrom, FitsNode, width_of};
ghost use Rattle.word_dag.specs.Order.{operands_of};
ghost use Rattle.word_dag.specs.Walks.{renumbered};
ghost use Rattle.word_dag.specs.declared.node.Node.{Node as OneNode};
ghost use Rattle.elab_step_expr.specs.Leaves.{AreReady};
ghost use Rattle.elab_step_expr.specs.declared.leaves.Leaf.{Leaf};
ghost use Rattle.elab_step_blocks.specs.Saving.{AreWithin};
ghost use Rattle.elab_step_copies.specs.Copies.{AreCopies, AreMoved, AreOfLeaves, EachCopy, HasCopy, HaveCopies, IsNetwork, IsSound, copy_at, made_at};
ghost use Rattle.elab_step_copies.specs.Walks.{CanMake, IsForgotten, IsLater, IsRenewed, MakesOne};

use crate::lists::{empty_lists, note, note_at, take_list};
use crate::made::{is_other, is_unmade, node_of, over_copies, unmade_operand};
use crate::words::word_leaf;
use elab_step_expr::Leaves;
use std::alloc::{AllocError, Global};
use word_dag::{Dag, Node};

/// Makes nodes of a source again in another dag, where the source's free words are the nodes of leaves. What a node
/// becomes is kept until a leaf that it reads gets another node.
#[derive(Drop)]
pub struct Copier {
    source: Dag,
    // For each node of the source its copy's number, if it has a copy.
    copies: Vec<Option<u64>>,
    // For each node of the source those that were copied over its copy.
    readers: Vec<Vec<u64>>,
    // For each leaf the free words that became its node.
    words: Vec<Vec<u64>>,
}

// Adds a node that isn't a free word; the older ones are kept also where it is refused.
#[tactic(auto, using(elab_step_expr::proofs::Kept::keeps_refused))]
fn put(dag: &mut Dag, node: Node) -> Result<u64, AllocError>
    requires fits { FitsNode (map width_of dag.old) node }
    requires bound { is_free node ≡ false }
    ensures keeps { Keeps dag.old dag.new }
    ensures adds { IfOk result (λ i. Adds dag.old dag.new node i) }
{
    let number = dag.add(node)?;
    Ok(number)
}

// Whether one of these nodes has a copy that isn't this node.
fn is_stale(copies: &[Option<u64>], numbers: &[u64], node: u64) -> bool
    requires { (n : ℕ) → Among numbers.now n → n < length copies.now }
    ensures { result ≡ false → (n i : ℕ) → Among numbers.now n → made_at copies.now n ≡ Some i → i ≡ node }
{
    for number in numbers {
        if is_other(copies, *number, node) {
            return true;
        }
    }
    false
}

impl Copier {
    /// A copier that has made nothing yet, for so many leaves.
    pub fn new(alloc: Global, source: Dag, leaves: usize) -> Result<Copier, AllocError>
        ensures source { IfOk result (λ k. k.source ≡ source) }
        ensures copies { IfOk result (λ k. (ls : List Leaf) (ns : List OneNode) → length ls ≡ leaves →
            AreOfLeaves source ls → AreCopies k ls ns) }
    {
        let count = source.nodes().len();
        let copies = vec![in alloc; None; count]?;
        let readers = empty_lists(alloc, count)?;
        let words = empty_lists(alloc, leaves)?;
        Ok(Copier {
            source,
            copies,
            readers,
            words,
        })
    }

    /// Forgets the copies that read a leaf of these places which has another node by now, and all that was made over
    /// them. On an error the copier is half changed.
    pub fn renew(
        &mut self,
        alloc: Global,
        leaves: &Leaves,
        places: &[usize],
    ) -> Result<(), AllocError>
        requires sound { IsSound self.old (length leaves.now) }
        requires places { AreWithin leaves.now places.now }
        ensures source { IfOk result (λ u. self.new.source ≡ self.old.source) }
        ensures copies { IfOk result (λ u. (ls : List Leaf) (a b : List OneNode) → AreCopies self.old ls a →
            AreMoved places.now ls a leaves.now b → AreCopies self.new leaves.now b) }
    {
        for place in places {
            self.renew_leaf(alloc, leaves, *place)?;
        }
        Ok(())
    }

    /// For each of these nodes of the source a node of the dag that has its word, where the free words of the source
    /// have the values of the leaves' nodes. Each takes time once, until a leaf that it reads gets another node. On an
    /// error the copier is half changed.
    pub fn copy_each(
        &mut self,
        alloc: Global,
        dag: &mut Dag,
        leaves: &Leaves,
        roots: &[u64],
    ) -> Result<Vec<u64>, AllocError>
        requires ready { AreReady leaves.now dag.old }
        requires copies { AreCopies self.old leaves.now dag.old }
        requires roots { All (λ n. n < length self.old.source) roots.now }
        ensures keeps { Keeps dag.old dag.new }
        ensures source { IfOk result (λ r. self.new.source ≡ self.old.source) }
        ensures copies { IfOk result (λ r. AreCopies self.new leaves.now dag.new) }
        ensures each { IfOk result (λ r. EachCopy self.old.source leaves.now dag.new roots.now r.items) }
        ensures fit { IfOk result (λ r. FitFrom [] dag.new) }
    {
        let mut made = Vec::new(alloc);
        for root in roots {
            let copy = self.reach(alloc, dag, leaves, *root)?;
            made.push(copy)?;
        }
        // the nodes of a dag fit
        let _fit = dag.nodes();
        Ok(made)
    }

    // Forgets the copies that read a leaf, if it has another node than the one that they read.
    fn renew_leaf(&mut self, alloc: Global, leaves: &Leaves, place: usize) -> Result<(), AllocError>
        requires sound { IsSound self.old (length leaves.now) }
        requires place { place < length leaves.now }
        ensures { OnOk result (IsRenewed self.old self.new leaves.now place) }
    {
        let node = leaves.leaf(place).node;
        if !is_stale(&self.copies, &self.words[place], node) {
            return Ok(());
        }
        let mut stale = Vec::new(alloc);
        take_list(&mut self.words, place, &mut stale)?;
        self.forget(stale)?;
        Ok(())
    }

    // Forgets the copies of these nodes, and of all that read them.
    fn forget(&mut self, numbers: Vec<u64>) -> Result<(), AllocError>
        requires network { IsNetwork self.old.source self.old.copies.items self.old.readers.items }
        requires numbers { (n : ℕ) → Among numbers.items n → n < length self.old.source }
        ensures { OnOk result (IsForgotten self.old self.new numbers.items) }
    {
        let mut stack = numbers;
        while let Some(top) = stack.pop() {
            self.copies[top as usize] = None;
            take_list(&mut self.readers, top as usize, &mut stack)?;
        }
        Ok(())
    }

    // The copy of a node.
    fn reach(
        &mut self,
        alloc: Global,
        dag: &mut Dag,
        leaves: &Leaves,
        root: u64,
    ) -> Result<u64, AllocError>
        requires ready { AreReady leaves.now dag.old }
        requires copies { AreCopies self.old leaves.now dag.old }
        requires root { root < length self.old.source }
        ensures keeps { Keeps dag.old dag.new }
        ensures later { OnOk result (IsLater self.old self.new leaves.now dag.new) }
        ensures copy { IfOk result (λ i. made_at self.new.copies.items root ≡ Some i) }
    {
        if !is_unmade(&self.copies, root) {
            return Ok(node_of(&self.copies, root));
        }
        self.walk(alloc, dag, leaves, root)?;
        Ok(node_of(&self.copies, root))
    }

    // Makes the copy of a node after those of its operands, depth first, without recursion.
    fn walk(
        &mut self,
        alloc: Global,
        dag: &mut Dag,
        leaves: &Leaves,
        root: u64,
    ) -> Result<(), AllocError>
        requires ready { AreReady leaves.now dag.old }
        requires copies { AreCopies self.old leaves.now dag.old }
        requires root { root < length self.old.source }
        requires unmade { made_at self.old.copies.items root ≡ None }
        ensures keeps { Keeps dag.old dag.new }
        ensures later { OnOk result (IsLater self.old self.new leaves.now dag.new) }
        ensures copy { OnOk result (HasCopy self.new.copies.items root) }
    {
        let mut stack = Vec::new(alloc);
        stack.push(root)?;
        while let Some(&top) = stack.last() {
            match self.unmade(top) {
                Some(operand) => stack.push(operand)?,
                None => {
                    self.make(dag, leaves, top)?;
                    stack.pop();
                }
            }
        }
        Ok(())
    }

    // The first operand of a node that has no copy.
    fn unmade(&self, number: u64) -> Option<u64>
        requires number { number < length self.now.source }
        requires long { length self.now.copies.items ≡ length self.now.source }
        ensures { MatchOption result (HaveCopies self.now.copies.items (operands_of self.now.source number))
            (λ a. (a < number) × (made_at self.now.copies.items a ≡ None)) }
    {
        unmade_operand(&self.source.nodes()[number as usize], &self.copies)
    }

    // Makes the copy of a node whose operands have copies.
    fn make(&mut self, dag: &mut Dag, leaves: &Leaves, number: u64) -> Result<(), AllocError>
        requires { CanMake self.old leaves.now dag.old number }
        ensures keeps { Keeps dag.old dag.new }
        ensures one { OnOk result (MakesOne self.old self.new leaves.now dag.new number) }
    {
        match over_copies(&self.source.nodes()[number as usize], &self.copies) {
            Some(copied) => self.make_over(dag, number, copied)?,
            None => self.make_word(leaves, number)?,
        }
        Ok(())
    }

    // Makes the copy of a node that isn't a free word: it becomes this one, over the copies of its operands.
    fn make_over(&mut self, dag: &mut Dag, number: u64, copied: Node) -> Result<(), AllocError>
        requires number { number < length self.old.source }
        requires network { IsNetwork self.old.source self.old.copies.items self.old.readers.items }
        requires fits { FitsNode (map width_of dag.old) copied }
        requires bound { is_free copied ≡ false }
        ensures keeps { Keeps dag.old dag.new }
        ensures one { OnOk result ((ls : List Leaf) (z : OneNode) → CanMake self.old ls dag.old number →
            IsAt self.old.source number z → is_free z ≡ false → copied ≡ renumbered (copy_at self.old.copies.items) z →
            MakesOne self.old self.new ls dag.new number) }
    {
        note(
            &mut self.readers,
            &self.source.nodes()[number as usize],
            number,
        )?;
        let copy = put(dag, copied)?;
        self.copies[number as usize] = Some(copy);
        Ok(())
    }

    // Makes the copy of a free word: it becomes the node of its leaf.
    fn make_word(&mut self, leaves: &Leaves, number: u64) -> Result<(), AllocError>
        requires number { number < length self.old.source }
        requires sound { IsSound self.old (length leaves.now) }
        requires words { AreOfLeaves self.old.source leaves.now }
        requires free { (z : OneNode) → IsAt self.old.source number z → is_free z ≡ true }
        ensures { OnOk result ((ns : List OneNode) → CanMake self.old leaves.now ns number →
            MakesOne self.old self.new leaves.now ns number) }
    {
        let place = word_leaf(&self.source.nodes()[number as usize], leaves);
        note_at(&mut self.words, place, number)?;
        self.copies[number as usize] = Some(leaves.leaf(place).node);
        Ok(())
    }
}
