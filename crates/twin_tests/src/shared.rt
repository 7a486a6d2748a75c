// Atoms that lines share.
ghost use Rattle.std.specs.Prelude.{◌≡◌, ◌+◌, ◌<◌, ◌≤◌, length, drop, take, IfOk, IfSome};
ghost use Rattle.std.specs.List.{All};
ghost use Rattle.set_tree.specs.declared.set.Set.{Set};
ghost use Rattle.word_dag.specs.Adding.{Keeps};
ghost use Rattle.twin_tests.specs.Building.{HasWidth, Tests};
ghost use Rattle.twin_tests.specs.Framing.{AreFrames};
ghost use Rattle.twin_tests.specs.Reading.{HasStructure};
ghost use Rattle.twin_tests.specs.Sharing.{AreMade, HasRoom, atom_test};

use crate::formula::rows_after;
use crate::frame::{Frame, rows_to};
use crate::property::{assumed_node, starts_node};
use crate::twins::{RowPair, Twins};
use crate::window::NodeRow;
use set_tree::Set;
use std::alloc::{AllocError, Global};
use word_dag::Dag;

/// What a line may say of a property at a row of both windows.
#[derive(Clone, Copy, PartialEq, Eq)]
pub enum Predicate {
    /// It starts in the first row of both, hands over the same there, and ends at the row in both.
    Pairs,
    /// It is assumed at the row of the first window.
    AssumedFirst,
    /// It is assumed at the row of the second window.
    AssumedSecond,
    /// It starts at the row of the first window.
    StartsFirst,
    /// It starts at the row of the second window.
    StartsSecond,
    /// It hands over the same at the row of both.
    Hands,
}

/// A predicate of a property, given by its position in the set, at a row of both windows, of which `end` is the last
/// row. Rows are counted in cycles from the first row of a window, which is 0.
#[derive(Clone, Copy, PartialEq, Eq)]
pub struct Atom {
    predicate: Predicate,
    property: usize,
    row: usize,
    end: usize,
}

impl Atom {
    /// What is said of this property at this row of windows up to `end`.
    pub fn new(predicate: Predicate, property: usize, row: usize, end: usize) -> Atom
        ensures { result ≡ record { predicate = predicate; property = property; row = row; end = end } }
    {
        Atom {
            predicate,
            property,
            row,
            end,
        }
    }
}

// An atom and its node.
#[derive(Clone, Copy)]
struct Made {
    atom: Atom,
    node: u64,
}

/// The nodes of lines, and for each property and predicate the atom that was made last: the lines of a property follow
/// one another, and where lengths are fixed a line shares all its atoms with others.
#[derive(Drop)]
pub struct Nodes {
    pub dag: Dag,
    made: Vec<Option<Made>>,
}

// How many predicates there are.
const PREDICATES: usize = 6;

// Where the atom is kept that was made last of a property and a predicate.
fn place(atom: Atom) -> usize {
    atom.property
        .saturating_mul(PREDICATES)
        .saturating_add(atom.predicate as usize)
}

impl Nodes {
    /// These nodes, and no atom yet of the lines of a set.
    pub fn new(alloc: Global, dag: Dag, set: &Set) -> Result<Nodes, AllocError>
        ensures dag { IfOk result (λ nodes. nodes.dag ≡ dag) }
        ensures made { IfOk result (λ nodes. (of : Set) → AreMade of nodes.dag nodes.made.items) }
    {
        let properties = set.operations.as_slice().len().saturating_add(1);
        Ok(Nodes {
            dag,
            made: vec![in alloc; None; properties.saturating_mul(PREDICATES)]?,
        })
    }

    // The node of an atom, where it was made last.
    fn found(&self, atom: Atom) -> Option<u64>
        ensures { (set : Set) → AreMade set self.now.dag self.now.made.items →
            IfSome result (λ i. Tests self.now.dag i (atom_test set atom)) }
    {
        let place = place(atom);
        if place >= self.made.len() {
            return None;
        }
        match self.made[place] {
            Some(made) if made.atom == atom => Some(made.node),
            _ => None,
        }
    }

    // Notes the node of an atom.
    fn note(&mut self, atom: Atom, node: u64)
        ensures dag { self.new.dag ≡ self.old.dag }
        ensures made { (set : Set) → Tests self.old.dag node (atom_test set atom) →
            AreMade set self.old.dag self.old.made.items → AreMade set self.new.dag self.new.made.items }
    {
        let place = place(atom);
        if place < self.made.len() {
            self.made[place] = Some(Made { atom, node });
        }
    }
}

// The rows of a window from the row of an atom on.
fn rows_of(frame: &Frame, atom: Atom) -> &[NodeRow]
    requires row { atom.row ≤ atom.end }
    requires end { atom.end < length frame.now.rows.items }
    ensures { result.now ≡ drop atom.row (take (atom.end + 1) frame.now.rows.items) }
{
    rows_after(rows_to(frame, atom.end), atom.row)
}

impl Twins<'_> {
    // The node of an atom, made anew.
    fn new_node(&self, dag: &mut Dag, atom: Atom) -> Result<u64, AllocError>
        requires structure { HasStructure self.now.set.now }
        requires room { HasRoom self.now.set.now self.now.frames atom }
        requires frames { AreFrames self.now.set.now dag.old self.now.frames }
        ensures keeps { IfOk result (λ _. Keeps dag.old dag.new) }
        ensures width { IfOk result (λ i. HasWidth dag.new i 1) }
        ensures node { IfOk result (λ i. Tests dag.new i (atom_test self.now.set.now atom)) }
    {
        let Atom {
            predicate,
            property,
            row,
            end,
        } = atom;
        match predicate {
            Predicate::Pairs => self.pairs_to_node(dag, property, row, end),
            Predicate::AssumedFirst => {
                let rows = rows_of(&self.frames.first, atom);
                assumed_node(self.alloc, dag, self.set, property, rows)
            }
            Predicate::AssumedSecond => {
                let rows = rows_of(&self.frames.second, atom);
                assumed_node(self.alloc, dag, self.set, property, rows)
            }
            Predicate::StartsFirst => {
                let rows = rows_of(&self.frames.first, atom);
                starts_node(self.alloc, dag, self.set, property, rows)
            }
            Predicate::StartsSecond => {
                let rows = rows_of(&self.frames.second, atom);
                starts_node(self.alloc, dag, self.set, property, rows)
            }
            Predicate::Hands => {
                let first = rows_of(&self.frames.first, atom);
                let second = rows_of(&self.frames.second, atom);
                self.same_hands_node(dag, property, RowPair { first, second })
            }
        }
    }

    /// The node of an atom of a line, which isn't made again where it is the one of its kind that was made last.
    pub fn atom_node(&self, nodes: &mut Nodes, atom: Atom) -> Result<u64, AllocError>
        requires structure { HasStructure self.now.set.now }
        requires room { HasRoom self.now.set.now self.now.frames atom }
        requires frames { AreFrames self.now.set.now nodes.old.dag self.now.frames }
        requires made { AreMade self.now.set.now nodes.old.dag nodes.old.made.items }
        ensures keeps { IfOk result (λ _. Keeps nodes.old.dag nodes.new.dag) }
        ensures made { IfOk result (λ _. AreMade self.now.set.now nodes.new.dag nodes.new.made.items) }
        ensures width { IfOk result (λ i. HasWidth nodes.new.dag i 1) }
        ensures node { IfOk result (λ i. Tests nodes.new.dag i (atom_test self.now.set.now atom)) }
    {
        if let Some(node) = nodes.found(atom) {
            return Ok(node);
        }
        let node = self.new_node(&mut nodes.dag, atom)?;
        nodes.note(atom, node);
        Ok(node)
    }
}
