// Findings about quantities of a set that leave their bounds.
use crate::finding::Finding;
use set_read_lookup::Quantity;
use signoff_places::{
    behind, byte_at, count_of, declares, first, number_at, offset_above, stands, up_to, width_at,
    word_at,
};
use std::alloc::{AllocError, Global};
use vlog_tree::Token;

// The sentence for a quantity.
fn limit_sentence(quantity: Quantity) -> &'static str {
    match quantity {
        Quantity::Width =>
            "a width is 1 to 64: a range is `[m:l]` with m >= l, and a formula stays within its vectors",
        Quantity::Cycles => "reset is active for 1 to 16 cycles",
        Quantity::Length =>
            "an operation takes 1 to 64 cycles, reset 0 to 64; the greatest length isn't below the least",
        Quantity::Window =>
            "a window is from its property's greatest length to 64; a constraint's offset is at most 64",
        Quantity::Operations => "a set has 1 to 64 operations",
        Quantity::Invariants => "a set has at most 64 invariants: join some with `&&`",
        Quantity::Constraints => "a set has at most 64 constraints: join some with `&&`",
        Quantity::Names =>
            "a set declares 1 to 256 names; one that needs none declares some register as a `state`",
        Quantity::Hands => "an operation hands over at most 64 expressions: join some by `{a, b}`",
    }
}

// The place of the word that follows so many of its kind.
fn surplus(set: &[Token], word: &[u8], most: usize) -> Option<usize> {
    let mut rest = set;
    for _ in 0..most {
        rest = behind(first(rest, word)?, 1);
    }
    byte_at(first(rest, word)?)
}

// The declaration that follows 256 others.
fn surplus_name(set: &[Token]) -> Option<usize> {
    let mut seen = 0u32;
    for at in 0..set.len() {
        let here = &set[at..];
        if declares(word_at(here, 0)) {
            seen = seen.saturating_add(1);
            if seen > 256 {
                return byte_at(here);
            }
        }
    }
    None
}

fn is_bad_width(range: &[Token]) -> bool {
    match width_at(range) {
        Some(width) => width > 64,
        None => true,
    }
}

// The range of a declaration that isn't 1 to 64 bits.
fn bad_width(set: &[Token]) -> Option<usize> {
    for at in 0..set.len() {
        let here = &set[at..];
        if declares(word_at(here, 0)) {
            let range = if stands(here, 1, b"[") {
                behind(here, 1)
            } else {
                behind(here, 2)
            };
            if is_bad_width(range) {
                return byte_at(range);
            }
        }
    }
    None
}

// The number of the cycles of reset.
fn bad_cycles(set: &[Token]) -> Option<usize> {
    byte_at(behind(first(set, b"reset")?, 3))
}

// Where a length leaves its bounds, from the word `length` on: at its greatest number, or at its only one.
fn bad_number(length: &[Token]) -> Option<&[Token]> {
    let low = number_at(length, 1)?;
    match number_at(length, 3) {
        Some(high) if high > 64 || high < low => Some(behind(length, 3)),
        _ if low > 64 => Some(behind(length, 1)),
        _ => None,
    }
}

// The first length that leaves its bounds. A length of 0 is reset's alone, which comes first.
fn bad_length(set: &[Token]) -> Option<usize> {
    let mut is_first = true;
    for at in 0..set.len() {
        let here = &set[at..];
        if stands(here, 0, b"length") {
            if let Some(place) = bad_number(here) {
                return byte_at(place);
            }
            if !is_first && number_at(here, 1) == Some(0) {
                return byte_at(behind(here, 1));
            }
            is_first = false;
        }
    }
    None
}

// The greatest length of a property, from the word `length` on.
fn greatest_length(length: &[Token]) -> u64 {
    number_at(length, 3).or(number_at(length, 1)).unwrap_or(0)
}

// The first window that leaves its bounds, or the first offset of a constraint that does.
fn bad_window(set: &[Token]) -> Option<usize> {
    let mut length = 0;
    for at in 0..set.len() {
        let here = &set[at..];
        if stands(here, 0, b"length") {
            length = greatest_length(here);
        }
        if stands(here, 0, b"constraint") {
            if let Some(byte) = offset_above(up_to(here, b";"), 64) {
                return Some(byte);
            }
        }
        if stands(here, 0, b"window") {
            let window = number_at(here, 1).unwrap_or(length);
            if window > 64 || window < length {
                return byte_at(behind(here, 1));
            }
        }
    }
    None
}

// The first list of more than 64 expressions that are handed over.
fn bad_hands(set: &[Token]) -> Option<usize> {
    for at in 0..set.len() {
        let here = &set[at..];
        if stands(here, 0, b"hand") && count_of(up_to(here, b";"), b",") >= 64 {
            return byte_at(here);
        }
    }
    None
}

// The byte at which a quantity leaves its bounds.
fn limit_byte(set: &[Token], quantity: Quantity) -> Option<usize> {
    match quantity {
        Quantity::Width => bad_width(set),
        Quantity::Cycles => bad_cycles(set),
        Quantity::Length => bad_length(set),
        Quantity::Window => bad_window(set),
        Quantity::Operations => surplus(set, b"operation", 64),
        Quantity::Invariants => surplus(set, b"invariant", 64),
        Quantity::Constraints => surplus(set, b"constraint", 64),
        Quantity::Names => surplus_name(set),
        Quantity::Hands => bad_hands(set),
    }
}

/// A quantity of a set that leaves its bounds.
pub fn limit_finding(
    alloc: Global,
    set: &[Token],
    quantity: Quantity,
) -> Result<Finding, AllocError> {
    let sentence = String::from_str(alloc, limit_sentence(quantity))?;
    Ok(Finding::of_set(limit_byte(set, quantity), sentence))
}
