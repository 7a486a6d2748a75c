// What a set's positions stand for, and how sentences name them.
ghost use Rattle.std.specs.Prelude.{◌≡◌, IfOk, MatchOption, string_bytes};
ghost use Rattle.std.specs.Str.{IsUtf8};
ghost use Rattle.set_tree.specs.Parts.{IsPosition, property_at};
ghost use Rattle.signoff_places.specs.Titles.{property_name, title_of, invariant_name, declared_name};

use crate::tokens::shown;
use set_tree::{Property, Set};
use std::alloc::{AllocError, Global};

/// The property at a position, 0 being the reset property.
pub fn property_at(set: &Set, at: u32) -> Option<&Property>
    ensures { MatchOption result (¬ (IsPosition set.now at)) (λ p. IsPosition set.now at ×
        (p.now ≡ property_at set.now at)) }
{
    if at == 0 {
        return Some(&set.first);
    }
    set.operations.as_slice().get(at as usize - 1)
}

/// The name of the property at a position: that of the reset property is `reset`.
pub fn property_name(set: &Set, at: u32) -> &[u8]
    ensures { result.now ≡ property_name set.now at }
{
    if at == 0 {
        return b"reset";
    }
    match property_at(set, at) {
        Some(operation) => operation.name.bytes(),
        None => b"",
    }
}

/// The name of the invariant at a position.
pub fn invariant_name(set: &Set, at: u32) -> &[u8]
    ensures { result.now ≡ invariant_name set.now at }
{
    match set.invariants.as_slice().get(at as usize) {
        Some(rule) => rule.name.bytes(),
        None => b"",
    }
}

/// The declared name at a position.
pub fn declared_name(set: &Set, at: u32) -> &[u8]
    ensures { result.now ≡ declared_name set.now at }
{
    match set.names.as_slice().get(at as usize) {
        Some(name) => name.name.bytes(),
        None => b"",
    }
}

/// The property at a position, as a sentence names it.
pub fn titled(alloc: Global, set: &Set, at: u32) -> Result<String, AllocError>
    ensures { IsUtf8 (property_name set.now at) → IfOk result (λ title. string_bytes title ≡ title_of set.now at) }
{
    let name = shown(property_name(set, at));
    if at == 0 {
        return format!(in alloc; "property {name}");
    }
    format!(in alloc; "operation {name}")
}
