// The value of an obligation.
ghost use Rattle.std.specs.Prelude.{◌≡◌, ◌≤◌, ◌^◌, ◌<◌, ◌↔◌, ℕ, [], length, take, slice_index, IfOk, IsTrue};
ghost use Rattle.word_core.specs.Words.{Bits};
ghost use Rattle.word_dag.specs.Nodes.{FitsOp, FitsNode, FitFrom, IsOb, word_at, op_value, node_value, left_after, ob_values, root_value};
ghost use Rattle.word_dag.specs.Given.{widths_of, FitsFree, AllFit, is_free};

use crate::node::{Node, Op};
use crate::ob::Ob;
use std::alloc::{AllocError, Global};
use std::marker::Model;
use word_core::Word;

/// The word that an operation makes of two words of fitting widths.
pub fn operate(op: Op, width: u8, a: Word, b: Word) -> Word
    requires { FitsOp op width a.width b.width }
    ensures { result ≡ op_value op a b }
{
    match op {
        Op::Add => Word::add(a, b),
        Op::Sub => Word::sub(a, b),
        Op::Mul => Word::mul(a, b),
        Op::And => Word::and(a, b),
        Op::Or => Word::or(a, b),
        Op::Xor => Word::xor(a, b),
        Op::Shl => Word::shl(a, b),
        Op::Shr => Word::shr(a, b),
        Op::Sar => Word::sar(a, b),
        Op::Ult => Word::ult(a, b),
        Op::Slt => Word::slt(a, b),
        Op::Eq => Word::eq(a, b),
        Op::Concat => Word::concat(a, b),
    }
}

// The word of an earlier node.
fn word_of(words: &[Word], number: u64) -> Word
    requires { number < length words.now }
    ensures { result ≡ word_at words.now number }
{
    words[number as usize]
}

/// The value of a node from those of the nodes before it; a free word has the given one.
#[tactic(auto, using(crate::proofs::Operands::operands))]
pub fn value_of(node: &Node, given: u64, words: &[Word]) -> Word
    requires node { FitsNode (widths_of words.now) node.now }
    requires given { FitsFree node.now given }
    ensures { result ≡ node_value given words.now node.now }
{
    match node {
        Node::Free { width, .. } => Word::new(*width, given),
        Node::Const(word) => *word,
        Node::Two { op, width, a, b } => operate(
            *op,
            *width,
            word_of(words, *a),
            word_of(words, *b),
        ),
        Node::Not { a, .. } => Word::not(word_of(words, *a)),
        Node::Slice { width, a, lo } => Word::slice(word_of(words, *a), *lo, *width),
        Node::Zext { width, a } => Word::extend(word_of(words, *a), *width, false),
        Node::Sext { width, a } => Word::extend(word_of(words, *a), *width, true),
        Node::Mux { c, a, b, .. } => {
            if word_of(words, *c).value() == 1 {
                word_of(words, *a)
            } else {
                word_of(words, *b)
            }
        }
    }
}

/// Room for the words of nodes. Contracts see for how many.
#[derive(Drop)]
pub struct Table {
    words: Vec<Word>,
}

impl Model for Table {
    ghost use Rattle.std.specs.Prelude.{ℕ, length};

    ghost Value = { ℕ };

    ghost view = { λ t. length t.words.items };
}

impl Table {
    /// A table for this many nodes.
    pub fn new(alloc: Global, nodes: usize) -> Result<Table, AllocError>
        ensures { IfOk result (λ t. t ≡ nodes) }
    {
        let mut words = Vec::with_capacity(alloc, nodes)?;
        for _ in 0..nodes {
            words.push(Word::new(1, 0))?;
        }
        Ok(Table { words })
    }
}

fn is_free(node: &Node) -> bool
    ensures { result ≡ is_free node.now }
{
    matches!(node, Node::Free { .. })
}

fn first_or_zero(values: &[u64]) -> u64
    ensures { result ≡ slice_index values.now 0 }
{
    values.first().copied().unwrap_or(0)
}

// The values that are left after a node has taken its own.
#[tactic(auto, using(crate::proofs::Operands::lefts))]
fn left_over<'a>(node: &Node, left: &'a [u64]) -> &'a [u64]
    ensures { result.now ≡ left_after node.now left.now }
{
    if is_free(node) && !left.is_empty() {
        &left[1..]
    } else {
        left
    }
}

// Whether a number has at most so many bits.
fn has_width(value: u64, width: u8) -> bool
    ensures { IsTrue result ↔ (value < 2 ^ width) }
{
    width >= 64 || value >> width == 0
}

// Whether a free node can have this value.
fn fits_free(node: &Node, value: u64) -> bool
    ensures { IsTrue result ↔ FitsFree node.now value }
{
    match node {
        Node::Free { width, .. } => has_width(value, *width),
        _ => true,
    }
}

/// Whether the free nodes can have these values, one each in number order: each is within its width.
pub fn fits(nodes: &[Node], values: &[u64]) -> bool
    ensures { IsTrue result ↔ AllFit values.now nodes.now }
{
    let mut left = values;
    for node in nodes {
        if !fits_free(node, first_or_zero(left)) {
            return false;
        }
        left = left_over(node, left);
    }
    true
}

// Writes the words of the nodes into the table, and gives the root's.
fn fill(nodes: &[Node], root: u64, values: &[u64], words: &mut [Word]) -> Word
    requires root { root < length nodes.now }
    requires room { length nodes.now ≤ length words.old }
    requires nodes { FitFrom [] nodes.now }
    requires values { AllFit values.now nodes.now }
    ensures { result ≡ root_value values.now nodes.now root }
{
    let mut left = values;
    for i in 0..nodes.len() {
        let node = &nodes[i];
        let word = value_of(node, first_or_zero(left), &words[..i]);
        words[i] = word;
        left = left_over(node, left);
    }
    word_of(words, root)
}

/// The value of the root at these values of the free nodes, one each in number order and each within its width. The
/// table has room for as many nodes as there are. It takes no memory.
pub fn value_at(ob: &Ob, values: &[u64], table: &mut Table) -> Word
    requires values { AllFit values.now ob.now.nodes }
    requires room { length ob.now.nodes ≤ table.old }
    ensures root { result ≡ root_value values.now ob.now.nodes ob.now.root }
    ensures table { table.new ≡ table.old }
{
    fill(ob.nodes(), ob.root(), values, table.words.as_mut_slice())
}
