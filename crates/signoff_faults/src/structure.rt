// Findings about the structure of a set.
use crate::covers::{Edge, cover_finding, tile_finding};
use crate::finding::Finding;
use set_tree::Set;
use set_tree_structure::{GraphFault, Place, Unsound};
use signoff_places::{
    Pick, behind_word, byte_at, declared_in_set, declared_name, first, invariant_name,
    offset_above, property_in, property_name, shown, titled, up_to, window_of,
};
use std::alloc::{AllocError, Global};
use vlog_tree::Token;

// The first offset in the `until` of a property that is above 0.
fn until_offset(property: &[Token]) -> Option<usize> {
    offset_above(up_to(first(property, b"until")?, b";"), 0)
}

fn until_sentence(alloc: Global, set: &Set, at: u32) -> Result<String, AllocError> {
    let title = titled(alloc, set, at)?;
    format!(in alloc;
        "the `until` of {title} reads another cycle than `@0`: it is a test of each cycle"
    )
}

fn window_sentence(alloc: Global, set: &Set, at: u32, window: u64) -> Result<String, AllocError> {
    let title = titled(alloc, set, at)?;
    format!(in alloc;
        "{title} reads behind its window, cycle {window}: correct the offset, or give a larger `window`"
    )
}

// A formula of a property, by its place, that reads behind its window, or an `until` that reads another cycle than its
// own.
fn offset_in(alloc: Global, property: &[Token], set: &Set, at: u32) -> Result<Finding, AllocError> {
    if let Some(byte) = until_offset(property) {
        return Ok(Finding::of_set(Some(byte), until_sentence(alloc, set, at)?));
    }
    let window = window_of(property).unwrap_or(0);
    let byte = offset_above(property, window).or(byte_at(property));
    Ok(Finding::of_set(byte, window_sentence(alloc, set, at, window)?))
}

// A formula of a property that reads outside its window.
fn property_offset(
    alloc: Global,
    tokens: &[Token],
    set: &Set,
    at: u32,
) -> Result<Finding, AllocError> {
    if let Some(property) = property_in(tokens, property_name(set, at)) {
        return offset_in(alloc, property, set, at);
    }
    let title = titled(alloc, set, at)?;
    let sentence = format!(in alloc; "{title} reads outside its window")?;
    Ok(Finding::of_set(None, sentence))
}

fn invariant_offset(
    alloc: Global,
    tokens: &[Token],
    set: &Set,
    at: u32,
) -> Result<Finding, AllocError> {
    let name = invariant_name(set, at);
    let rule = behind_word(tokens, b"invariant", name);
    let byte = rule.and_then(|rule| offset_above(up_to(rule, b";"), 0));
    let name = shown(name);
    let sentence = format!(in alloc;
        "the invariant {name} reads another cycle than `@0`: it is about one state"
    )?;
    Ok(Finding::of_set(byte, sentence))
}

fn domain_offset(
    alloc: Global,
    tokens: &[Token],
    set: &Set,
    at: u32,
) -> Result<Finding, AllocError> {
    let name = declared_name(set, at);
    let declared = declared_in_set(tokens, name, Pick::First);
    let byte = declared.and_then(|declared| offset_above(up_to(declared.item, b";"), 0));
    let name = shown(name);
    let sentence = format!(in alloc;
        "the `when` of `{name}` reads another cycle than `@0`, the one in which the output is claimed"
    )?;
    Ok(Finding::of_set(byte, sentence))
}

// The place of a word in a property.
fn word_in(tokens: &[Token], property: &[u8], word: &[u8]) -> Option<usize> {
    byte_at(first(property_in(tokens, property)?, word)?)
}

// A property that has reset as a successor.
fn into_reset(alloc: Global, tokens: &[Token], set: &Set, at: u32) -> Result<Finding, AllocError> {
    let byte = word_in(tokens, property_name(set, at), b"next");
    let title = titled(alloc, set, at)?;
    let sentence = format!(in alloc;
        "{title} has `reset` as a successor: reset is active at the begin of a run alone"
    )?;
    Ok(Finding::of_set(byte, sentence))
}

/// A fault of the structure of a set.
pub fn graph_finding(
    alloc: Global,
    tokens: &[Token],
    unsound: &Unsound,
) -> Result<Finding, AllocError> {
    let set = &unsound.set;
    match unsound.fault {
        GraphFault::Tile(from, to, output) => tile_finding(
            alloc,
            tokens,
            set,
            Edge { from, to, output },
        ),
        GraphFault::Cover(at, output) => cover_finding(alloc, tokens, set, at, output),
        GraphFault::Offset(Place::Property(at)) => property_offset(alloc, tokens, set, at),
        GraphFault::Offset(Place::Invariant(at)) => invariant_offset(alloc, tokens, set, at),
        GraphFault::Offset(Place::Output(at)) => domain_offset(alloc, tokens, set, at),
        GraphFault::IntoReset(at) => into_reset(alloc, tokens, set, at),
        GraphFault::HandAtReset => {
            let byte = word_in(tokens, b"reset", b"hand");
            let sentence =
                "property reset hands something over: leave `hand` out, and say by `commit` what holds";
            Ok(Finding::of_set(byte, String::from_str(alloc, sentence)?))
        }
    }
}
