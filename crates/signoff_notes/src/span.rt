// Where the clauses of a set stand in its text.
use signoff_places::{behind, behind_word, byte_at, first, property_in, stands};
use vlog_tree::Token;

/// A part of a text: its first byte, and the byte behind it.
#[derive(Clone, Copy)]
pub struct Span {
    pub from: usize,
    pub end: usize,
}

/// An item of a clause: the clause's first word, how many clauses with this word stand before it, and how many items
/// before the item.
#[derive(Clone, Copy)]
pub struct Item<'a> {
    pub word: &'a [u8],
    pub clause: usize,
    pub number: usize,
}

// What stands behind the first word of a property's clause.
fn clause_in<'a>(property: &'a [Token], item: Item<'_>) -> Option<&'a [Token]> {
    // the property's name and a brace stand first
    let mut rest = behind(property, 2);
    let mut left = item.clause;
    for _ in 0..property.len() {
        if stands(rest, 0, item.word) {
            if left == 0 {
                return Some(behind(rest, 1));
            }
            left -= 1;
        }
        rest = behind(first(rest, b";")?, 1);
    }
    None
}

// The item of this number of a list that ends with a semicolon. A comma in braces ends none.
fn item_in(list: &[Token], number: usize) -> Option<Span> {
    let mut from = byte_at(list)?;
    let mut left = number;
    let mut depth = 0usize;
    for at in 0..list.len() {
        let here = &list[at..];
        let end = list[at].at;
        if stands(here, 0, b"{") {
            depth = depth.saturating_add(1);
        } else if stands(here, 0, b"}") {
            depth = depth.saturating_sub(1);
        } else if stands(here, 0, b";") {
            return if left == 0 {
                Some(Span { from, end })
            } else {
                None
            };
        } else if depth == 0 && stands(here, 0, b",") {
            if left == 0 {
                return Some(Span { from, end });
            }
            left -= 1;
            from = byte_at(behind(here, 1))?;
        }
    }
    None
}

/// Where an item of a clause of the property of this name stands.
pub fn span_in(tokens: &[Token], property: &[u8], item: Item<'_>) -> Option<Span> {
    let property = property_in(tokens, property)?;
    item_in(clause_in(property, item)?, item.number)
}

/// Where the formula of an invariant stands.
pub fn invariant_span(tokens: &[Token], name: &[u8]) -> Option<Span> {
    item_in(behind(behind_word(tokens, b"invariant", name)?, 2), 0)
}
