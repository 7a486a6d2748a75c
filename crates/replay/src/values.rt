// The values of an obligation's free words, found at once by name, side and cycle.
ghost use Rattle.std.specs.Prelude.{◌≡◌, ℕ, ◌∷◌, List, IfOk, OnOk, drop, unwrap_or, slice_index, if◌then◌else◌};
ghost use Rattle.std.specs.HashMap.{get};
ghost use Rattle.word_dag.specs.declared.node.Node.{Node as DagNode};
ghost use Rattle.word_dag.specs.Nodes.{Naming};
ghost use Rattle.word_dag.specs.Names.{naming_from};
ghost use Rattle.replay.specs.declared.values.Word.{Word as FreeWord};
ghost use Rattle.replay.specs.Values.{same_word, AreOf};

use std::alloc::{AllocError, Global};
use std::collections::HashMap;
use word_dag::Node;

/// A free word: its name, the trace in which it stands, and its cycle.
#[derive(Clone, Copy, PartialEq, Eq, Hash)]
pub struct Word<'a> {
    pub name: &'a [u8],
    pub side: u8,
    pub cycle: i16,
}

/// The values of free words.
#[derive(Drop)]
pub struct Values<'a> {
    pub words: HashMap<Word<'a>, u64>,
}

// Puts in a word that isn't there yet.
fn add<'a>(words: &mut HashMap<Word<'a>, u64>, word: Word<'a>, value: u64) -> Result<(), AllocError>
    ensures { OnOk result ((q : FreeWord) (rest : ℕ) →
        unwrap_or (get same_word words.new q) rest ≡ unwrap_or (get same_word words.old q)
        (if same_word word.entry q then value else rest)) }
{
    if !words.contains_key(&word) {
        words.insert(word, value)?;
    }
    Ok(())
}

fn first_or_zero(values: &[u64]) -> u64
    ensures { result ≡ slice_index values.now 0 }
{
    values.first().copied().unwrap_or(0)
}

fn after_first(values: &[u64]) -> &[u64]
    ensures { result.now ≡ drop 1 values.now }
{
    if values.is_empty() {
        values
    } else {
        &values[1..]
    }
}

// Puts in the word of a node, if it is a free one, and gives the values that are left.
fn add_node<'a, 'b>(
    words: &mut HashMap<Word<'a>, u64>,
    node: &'a Node,
    left: &'b [u64],
) -> Result<&'b [u64], AllocError>
    ensures { IfOk result (λ after. (q : FreeWord) (rest : List DagNode) →
        unwrap_or (get same_word words.new q) (naming_from rest after.now q.name.now q.side q.cycle) ≡ unwrap_or (get same_word words.old q) (naming_from (node.now ∷ rest) left.now q.name.now q.side q.cycle)) }
{
    match node {
        Node::Free {
            name,
            side,
            cycle,
            ..
        } => {
            let word = Word {
                name: name.bytes(),
                side: *side,
                cycle: *cycle,
            };
            add(words, word, first_or_zero(left))?;
            Ok(after_first(left))
        }
        _ => Ok(left),
    }
}

/// The values that the free nodes take in turn.
pub fn values_of<'a>(
    alloc: Global,
    nodes: &'a [Node],
    values: &[u64],
) -> Result<Values<'a>, AllocError>
    ensures { IfOk result (AreOf (naming_from nodes.now values.now)) }
{
    let mut words = HashMap::new(alloc);
    let mut left = values;
    for node in nodes {
        left = add_node(&mut words, node, left)?;
    }
    Ok(Values { words })
}

/// The value of a word; 0 where it isn't among them.
pub fn value_at(values: &Values<'_>, name: &[u8], side: u8, cycle: i16) -> u64
    ensures { (e : Naming) → AreOf e values.now → result ≡ e name.now side cycle }
{
    let word = Word { name, side, cycle };
    values.words.get(&word).copied().unwrap_or(0)
}
