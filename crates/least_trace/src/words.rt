// The free words of an obligation, and their order.
ghost use Rattle.std.specs.Prelude.{◌≡◌, ◌++◌, ◌∷◌, [], length, IfOk, OnOk, IsPermutation, IsSorted};
ghost use Rattle.least_trace.specs.Bits.{words_from, word_cmp};

use outside::Text;
use std::alloc::{AllocError, Global};
use std::cmp::Ordering;
use word_dag::Node;

/// A free word, and its place among the values.
#[derive(Drop)]
pub struct Word {
    pub cycle: i16,
    pub side: u8,
    pub name: Text,
    pub place: u64,
    pub width: u8,
}

// Notes the word of a free node.
fn add_word(alloc: Global, words: &mut Vec<Word>, node: &Node) -> Result<(), AllocError>
    ensures { OnOk result (words.new.items ≡ words.old.items ++ words_from (length words.old.items) (node.now ∷ [])) }
{
    match node {
        Node::Free {
            name,
            width,
            side,
            cycle,
        } => {
            let name = Text::copy(alloc, name.bytes())?;
            let place = words.len() as u64;
            words.push(Word {
                cycle: *cycle,
                side: *side,
                name,
                place,
                width: *width,
            })?;
            Ok(())
        }
        Node::Const(_) | Node::Two { .. } | Node::Not { .. } | Node::Slice { .. } => Ok(()),
        Node::Zext { .. } | Node::Sext { .. } | Node::Mux { .. } => Ok(()),
    }
}

// The free words in the order of their nodes.
fn free_words(alloc: Global, nodes: &[Node]) -> Result<Vec<Word>, AllocError>
    ensures { IfOk result (λ words. words.items ≡ words_from 0 nodes.now) }
{
    let mut words = Vec::new(alloc);
    for node in nodes {
        add_word(alloc, &mut words, node)?;
    }
    Ok(words)
}

fn compare(a: &Word, b: &Word) -> Ordering
    ensures { result ≡ word_cmp a.now b.now }
{
    a.cycle
        .cmp(&b.cycle)
        .then(a.side.cmp(&b.side))
        .then(a.name.bytes().cmp(b.name.bytes()))
        .then(a.place.cmp(&b.place))
}

/// The free words by cycle, then side, then name, then node.
pub fn sorted_words(alloc: Global, nodes: &[Node]) -> Result<Vec<Word>, AllocError>
    ensures all { IfOk result (λ words. IsPermutation (words_from 0 nodes.now) words.items) }
    ensures sorted { IfOk result (λ words. IsSorted word_cmp words.items) }
{
    let mut words = free_words(alloc, nodes)?;
    words.sort_unstable_by(|a, b| compare(a, b));
    Ok(words)
}
