// The words of a design's nodes in the cycles of a segment whose values a source has.
ghost use Rattle.std.specs.Prelude.{◌≡◌, ◌<◌, map, IfOk};
ghost use Rattle.std.specs.Option.{option_map};
ghost use Rattle.elab_flat_scopes.specs.Borrowed.{name_meant};
ghost use Rattle.word_dag.specs.Given.{widths_of};
ghost use Rattle.word_dag.specs.Nodes.{FitsNode, Naming, named, node_value, width_of, word_at};
ghost use Rattle.elab_step_design.specs.Designs.{naming_of};
ghost use Rattle.unroll_laws.specs.Tests.{held, register_at};
ghost use Rattle.replay.specs.Segments.{AreWordsAt, AreWordsBefore, register_name, register_next};

use crate::source::{Position, Source};
use crate::window::cut;
use elab_flat_scopes::Names;
use elab_step_design::Design;
use std::alloc::{AllocError, Global};
use unroll::level;
use unroll_binding::Bound;
use word_core::Word;
use word_dag::{Node, value_of};

/// The names of a design's registers, each found at once.
pub fn register_names<'a>(alloc: Global, design: &'a Design) -> Result<Names<'a>, AllocError>
    ensures { IfOk result (λ names. names ≡ map register_name design.now.registers) }
{
    let mut names = Vec::new(alloc);
    for register in design.registers() {
        names.push(&register.name)?;
    }
    Names::of(alloc, names)
}

// The node of a register's next value, where there is a register of this name.
fn next_of(design: &Design, registers: &Names<'_>, name: &[u8]) -> Option<u64>
    requires { registers.now ≡ map register_name design.now.registers }
    ensures { result ≡ option_map register_next (register_at design.now.registers name.now) }
{
    match registers.place(name) {
        Some(at) => match design.registers().get(at) {
            Some(register) => Some(register.next),
            None => None,
        },
        None => None,
    }
}

/// The value of a node; 0 where it isn't there.
pub fn value_in(words: &[Word], node: u64) -> u64
    ensures { result ≡ (word_at words.now node).value }
{
    match words.get(node as usize) {
        Some(word) => word.value(),
        None => 0,
    }
}

// The value of a register or an input in a cycle: at first its free word's, then what the cycle before leaves in a
// register, and a free word's in an input; the reset has its level.
fn held<S: Source>(
    bound: &Bound,
    source: &S,
    registers: &Names<'_>,
    position: Position,
    before: &[Word],
    name: &[u8],
) -> u64
    requires registers { registers.now ≡ map register_name bound.now.design.registers }
    requires counts { position.at < S.count source.now }
    requires before { AreWordsBefore bound.now.design bound.now.set position.resets position.at
        (S.gives source.now) before.now }
    ensures { (e : Naming) → S.gives source.now e →
        result ≡ held bound.now.design bound.now.set position.resets e position.at name.now }
{
    let set = bound.set().set();
    if name == set.reset.bytes() {
        return level(set, position.at < usize::from(position.resets));
    }
    let free = source.value(name, position);
    if position.at == 0 {
        return free;
    }
    match next_of(bound.design(), registers, name) {
        Some(next) => value_in(before, next),
        None => free,
    }
}

// The word of a node in a cycle, from those of the nodes before it.
fn node_word<S: Source>(
    bound: &Bound,
    source: &S,
    registers: &Names<'_>,
    position: Position,
    before: &[Word],
    node: &Node,
    words: &[Word],
) -> Word
    requires registers { registers.now ≡ map register_name bound.now.design.registers }
    requires counts { position.at < S.count source.now }
    requires before { AreWordsBefore bound.now.design bound.now.set position.resets position.at
        (S.gives source.now) before.now }
    requires fits { FitsNode (widths_of words.now) node.now }
    ensures value { (e : Naming) → S.gives source.now e →
        result ≡ node_value (named (naming_of (held bound.now.design bound.now.set position.resets e position.at)) node.now) words.now node.now }
    ensures width { result.width ≡ width_of node.now }
{
    match node {
        Node::Free { name, width, .. } => {
            let value = held(bound, source, registers, position, before, name.bytes());
            Word::new(*width, cut(value, *width))
        }
        _ => value_of(node, 0, words),
    }
}

/// The words of all nodes of a design in a cycle of the segment whose values the source has, from those of the cycle
/// before, where there is one.
pub fn words_at<S: Source>(
    alloc: Global,
    bound: &Bound,
    source: &S,
    registers: &Names<'_>,
    position: Position,
    before: &[Word],
) -> Result<Vec<Word>, AllocError>
    requires registers { registers.now ≡ map register_name bound.now.design.registers }
    requires counts { position.at < S.count source.now }
    requires before { AreWordsBefore bound.now.design bound.now.set position.resets position.at
        (S.gives source.now) before.now }
    ensures { IfOk result (λ words. AreWordsAt bound.now.design bound.now.set position.resets position.at
        (S.gives source.now) words.items) }
{
    let nodes = bound.design().dag().nodes();
    let mut words = Vec::with_capacity(alloc, nodes.len())?;
    for node in nodes {
        let word = node_word(
            bound,
            source,
            registers,
            position,
            before,
            node,
            words.as_slice(),
        );
        words.push(word)?;
    }
    Ok(words)
}
