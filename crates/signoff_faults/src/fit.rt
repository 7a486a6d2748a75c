// Findings about a set that doesn't fit its block.
use crate::finding::Finding;
use crate::sources::Sources;
use outside::Text;
use signoff_places::{
    DeclaredInSet, Pick, behind_word, byte_at, declared_in, declared_in_set, first, shown, text_of,
    width_at, word_at,
};
use std::alloc::{AllocError, Global};
use unroll_binding::BindFault;
use vlog_read_lex::is;

fn declared_byte(sources: &Sources<'_>, name: &Text) -> Option<usize> {
    byte_at(declared_in_set(sources.set, name.bytes(), Pick::First)?.named)
}

fn missing(alloc: Global, sources: &Sources<'_>, name: &Text) -> Result<Finding, AllocError> {
    let byte = declared_byte(sources, name);
    let name = text_of(name);
    let top = shown(sources.top);
    let sentence = format!(in alloc;
        "the block `{top}` has no signal `{name}`: one of an instance `u` is named `u.q`"
    )?;
    Ok(Finding::of_set(byte, sentence))
}

// The width that a signal has in the block, where the text has it in plain numbers.
fn width_in_block(sources: &Sources<'_>, name: &Text) -> Option<u64> {
    let named = sources.named(name.bytes())?;
    width_at(declared_in(named.body, named.last, Pick::First)?.range())
}

fn other_width(alloc: Global, sources: &Sources<'_>, name: &Text) -> Result<Finding, AllocError> {
    let byte = declared_byte(sources, name);
    let here = declared_in_set(sources.set, name.bytes(), Pick::First).and_then(
        |declared| declared.width(),
    );
    let there = width_in_block(sources, name);
    let name = text_of(name);
    let sentence = match (here, there) {
        (Some(here), Some(there)) => format!(in alloc;
            "`{name}` has {here} bits here and {there} in the block: declare it as it stands there"
        )?,
        _ => format!(in alloc;
            "`{name}` has another width in the block: declare it as it stands there"
        )?,
    };
    Ok(Finding::of_set(byte, sentence))
}

// The word behind a word of the set's head.
fn named_behind<'a>(sources: &Sources<'a>, word: &[u8]) -> &'a str {
    match first(sources.set, word) {
        Some(place) => shown(word_at(place, 1)),
        None => "",
    }
}

fn extra_input(alloc: Global, sources: &Sources<'_>, name: &Text) -> Result<Finding, AllocError> {
    let byte = sources.byte_of(name.bytes());
    let name = text_of(name);
    let clock = named_behind(sources, b"clock");
    let reset = named_behind(sources, b"reset");
    let sentence = format!(in alloc;
        "the set lacks the input `{name}`: it declares all but its clock `{clock}` and its reset `{reset}`"
    )?;
    Ok(Finding::of_module(byte, sentence))
}

// The sentence for a declared name that is something else in the block.
fn declared_role(
    alloc: Global,
    declared: &DeclaredInSet<'_>,
    name: &str,
) -> Result<String, AllocError> {
    if is(declared.role(), b"input") {
        return format!(in alloc;
            "`{name}` is declared as an input, but is none of the block, or is its clock or its reset"
        );
    }
    if is(declared.role(), b"output") {
        return format!(in alloc;
            "`{name}` is declared as an output, but is none of the block: declare it as a `state`"
        );
    }
    format!(in alloc;
        "`{name}` is declared as a state, but is an input of the block: declare it as an `input`"
    )
}

fn other_role(alloc: Global, sources: &Sources<'_>, name: &Text) -> Result<Finding, AllocError> {
    let text = text_of(name);
    if let Some(declared) = declared_in_set(sources.set, name.bytes(), Pick::First) {
        let sentence = declared_role(alloc, &declared, text)?;
        return Ok(Finding::of_set(byte_at(declared.named), sentence));
    }
    if let Some(place) = behind_word(sources.set, b"clock", name.bytes()) {
        let sentence = format!(in alloc;
            "`{text}` isn't the block's clock, which is the input of one bit that all blocks wait for"
        )?;
        return Ok(Finding::of_set(byte_at(place), sentence));
    }
    let place = behind_word(sources.set, b"reset", name.bytes());
    let sentence = format!(in alloc;
        "`{text}` isn't the block's reset: an input of one bit, and at the level of an asynchronous one"
    )?;
    Ok(Finding::of_set(place.and_then(|place| byte_at(place)), sentence))
}

/// A fault between a set and a design.
pub fn bind_finding(
    alloc: Global,
    sources: &Sources<'_>,
    fault: &BindFault,
) -> Result<Finding, AllocError> {
    match fault {
        BindFault::Missing(name) => missing(alloc, sources, name),
        BindFault::WidthOf(name) => other_width(alloc, sources, name),
        BindFault::ExtraInput(name) => extra_input(alloc, sources, name),
        BindFault::Role(name) => other_role(alloc, sources, name),
        BindFault::Memory => Ok(Finding::of_none(String::from_str(alloc, "out of memory")?)),
    }
}
