// The names of lines.
ghost use Rattle.std.specs.Prelude.{◌≡◌, ◌++◌, ◌∷◌, IfOk};
ghost use Rattle.twin_tests_laws.specs.Names.{invariant_name, line_name, property_name};

use outside::Text;
use set_tree::{Line, Set};
use std::alloc::{AllocError, Global};

// The name of the property at a position.
fn property_name(set: &Set, at: u32) -> &[u8]
    ensures { result.now ≡ property_name set.now at }
{
    if at == 0 {
        return b"reset";
    }
    match set.operations.as_slice().get(at as usize - 1) {
        Some(operation) => operation.name.bytes(),
        None => set.first.name.bytes(),
    }
}

// The name of the invariant at a position.
fn invariant_name(set: &Set, at: u32) -> &[u8]
    ensures { result.now ≡ invariant_name set.now at }
{
    match set.invariants.as_slice().get(at as usize) {
        Some(rule) => rule.name.bytes(),
        None => b"",
    }
}

// A kind and what the line speaks of.
fn joined(alloc: Global, kind: &[u8], name: &[u8]) -> Result<Text, AllocError>
    ensures { IfOk result (λ text. text ≡ kind.now ++ name.now) }
{
    let mut text = Text::copy(alloc, kind)?;
    text.append(name)?;
    Ok(text)
}

// A kind and the two properties of an edge.
fn joined_edge(alloc: Global, kind: &[u8], from: &[u8], to: &[u8]) -> Result<Text, AllocError>
    ensures { IfOk result (λ text. text ≡ kind.now ++ (from.now ++ 32 ∷ to.now)) }
{
    let mut text = Text::copy(alloc, kind)?;
    text.append(from)?;
    text.append(b" ")?;
    text.append(to)?;
    Ok(text)
}

/// The name of a line in a report, as `choose idle run`.
pub fn line_name(alloc: Global, set: &Set, line: Line) -> Result<Text, AllocError>
    ensures { IfOk result (λ text. text ≡ line_name set.now line) }
{
    match line {
        Line::Base(i) => joined(alloc, b"base ", invariant_name(set, i)),
        Line::Step(i) => joined(alloc, b"step ", invariant_name(set, i)),
        Line::Reset => Text::copy(alloc, b"reset"),
        Line::Operation(p) => joined(alloc, b"op ", property_name(set, p)),
        Line::End(p) => joined(alloc, b"end ", property_name(set, p)),
        Line::Split(p) => joined(alloc, b"split ", property_name(set, p)),
        Line::SameEnd(p) => joined(alloc, b"same-end ", property_name(set, p)),
        Line::Choose(p, q) => {
            joined_edge(
                alloc,
                b"choose ",
                property_name(set, p),
                property_name(set, q),
            )
        }
        Line::Hand(p, q) => {
            joined_edge(
                alloc,
                b"hand ",
                property_name(set, p),
                property_name(set, q),
            )
        }
        Line::Determine(p) => joined(alloc, b"determine ", property_name(set, p)),
    }
}
