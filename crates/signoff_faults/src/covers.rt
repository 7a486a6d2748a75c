// Findings about covers of outputs.
use crate::finding::Finding;
use set_tree::{Cover, Property, Set, To};
use signoff_places::{
    byte_at, count_of_covers, cover_in, declared_name, property_at, property_in, property_name,
    shown, titled,
};
use std::alloc::{AllocError, Global};
use vlog_tree::Token;

// The cover of an output that a property has.
fn cover_of(property: &Property, output: u32) -> Option<Cover> {
    for cover in property.covers.as_slice() {
        if cover.output == output {
            return Some(*cover);
        }
    }
    None
}

// The cycle of the property that follows in which a cover ends.
fn end_in_next(property: &Property, cover: Cover) -> Option<u64> {
    match cover.to {
        To::At(offset) => u64::from(offset).checked_sub(u64::from(property.length.high)),
        To::AfterEnd(distance) => Some(u64::from(distance)),
    }
}

// The place of the cover of an output in a property, else that of the property.
fn cover_byte(tokens: &[Token], property: &[u8], output: &[u8]) -> Option<usize> {
    let property = property_in(tokens, property)?;
    byte_at(cover_in(property, output).unwrap_or(property))
}

/// Two properties of which one follows the other, and an output.
#[derive(Clone, Copy)]
pub struct Edge {
    pub from: u32,
    pub to: u32,
    pub output: u32,
}

fn tile_sentence(alloc: Global, set: &Set, edge: Edge) -> Result<String, AllocError> {
    let end = property_at(set, edge.from).and_then(|property| end_in_next(
        property,
        cover_of(property, edge.output)?,
    ));
    let begin = property_at(set, edge.to).and_then(|property| cover_of(property, edge.output));
    let from = shown(property_name(set, edge.from));
    let to = shown(property_name(set, edge.to));
    let output = shown(declared_name(set, edge.output));
    match (end, begin) {
        (Some(end), Some(begin)) => {
            let begin = begin.from;
            format!(in alloc;
                "in cycles of {to}, the cover of `{output}` by {from} ends in {end}, but that by {to} begins in {begin}"
            )
        }
        _ => format!(in alloc;
            "where {to} follows {from}, the cover of `{output}` ends before {to} begins"
        ),
    }
}

/// Covers of an output that leave a gap or overlap.
pub fn tile_finding(
    alloc: Global,
    tokens: &[Token],
    set: &Set,
    edge: Edge,
) -> Result<Finding, AllocError> {
    let byte = cover_byte(
        tokens,
        property_name(set, edge.from),
        declared_name(set, edge.output),
    );
    Ok(Finding::of_set(byte, tile_sentence(alloc, set, edge)?))
}

// What is wrong with the only cover of an output in a property.
fn bounds_hint(property: &Property, at: u32, output: u32) -> &'static str {
    let Some(cover) = cover_of(property, output) else {
        return "is missing";
    };
    if at == 0 && cover.from != 0 {
        return "begins at 0 in reset";
    }
    if property.length.until.is_some() && matches!(cover.to, To::At(_)) {
        return "goes `to end + ..` where there is an `until`";
    }
    "ends from its begin to the window + 1"
}

// The sentence for a property that has so many covers of an output.
fn cover_sentence(
    alloc: Global,
    set: &Set,
    at: u32,
    output: u32,
    count: usize,
) -> Result<String, AllocError> {
    let title = titled(alloc, set, at)?;
    let name = shown(declared_name(set, output));
    if count == 0 {
        return format!(in alloc;
            "{title} has no cover of `{name}`: it covers each output once, as `cover {name} from 1 to 2;`"
        );
    }
    if count > 1 {
        return format!(in alloc; "{title} has several covers of `{name}`: leave one");
    }
    let hint = match property_at(set, at) {
        Some(property) => bounds_hint(property, at, output),
        None => "is missing",
    };
    format!(in alloc; "the cover of `{name}` in {title} is out of bounds: it {hint}")
}

/// A cover that is missing, stands several times, or is out of bounds.
pub fn cover_finding(
    alloc: Global,
    tokens: &[Token],
    set: &Set,
    at: u32,
    output: u32,
) -> Result<Finding, AllocError> {
    let name = declared_name(set, output);
    let byte = cover_byte(tokens, property_name(set, at), name);
    let count = match property_in(tokens, property_name(set, at)) {
        Some(property) => count_of_covers(property, name),
        None => 1,
    };
    Ok(Finding::of_set(byte, cover_sentence(alloc, set, at, output, count)?))
}
