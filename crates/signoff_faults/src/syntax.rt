// Sentences for tokens that the grammars don't have where they stand.
use crate::subset::{instead_of, instead_of_system};
use signoff_places::{around, first, shown, stands, word_at, word_of};
use std::alloc::{AllocError, Global};
use vlog_read_lex::is;
use vlog_tree::{Kind, Token};

// The tokens that stand one, two and three before a place.
fn word_before(before: &[Token], back: usize) -> &[u8] {
    match before.iter().rev().nth(back) {
        Some(token) => word_of(token),
        None => b"",
    }
}

// What to write in place of a word of SystemVerilog at or just before a place.
fn system_hint<'a>(before: &'a [Token], after: &'a [Token]) -> Option<(&'a [u8], &'static str)> {
    for word in [
        word_at(after, 0),
        word_before(before, 0),
        word_before(before, 1),
        word_before(before, 2),
    ] {
        if let Some(hint) = instead_of_system(word) {
            return Some((word, hint));
        }
    }
    None
}

// The tokens of the item that goes on at a place: those behind the last `;`.
fn item_of(before: &[Token]) -> &[Token] {
    for at in (0..before.len()).rev() {
        if is(word_of(&before[at]), b";") {
            return &before[at + 1..];
        }
    }
    before
}

fn ends(word: &[u8]) -> bool {
    is(word, b";") || is(word, b"end") || is(word, b"endcase")
}

// What is known of a token that no module has at its place.
fn module_hint(before: &[Token], after: &[Token]) -> Option<&'static str> {
    let word = word_at(after, 0);
    let last = word_before(before, 0);
    if after.is_empty() {
        return Some("the text ends within a module: an `end` or `endmodule` is missing");
    }
    if is(word, b"=") && first(item_of(before), b"reg").is_some() {
        return Some("a `reg` takes no value here: give it its first value under the reset");
    }
    if is(word, b"#") || is(last, b"#") {
        return Some("delays aren't supported: leave it out");
    }
    if ends(last)
        && (is(word, b"if") || is(word, b"case") || is(word, b"casez") || is(word, b"begin"))
    {
        return Some(
            "a statement stands here outside of an `always` block; generate conditions aren't supported",
        );
    }
    if is(last, b".") || is(word_before(before, 1), b".") {
        return Some(
            "a connection is `.port(expression)`; `.port` alone and `.*` are SystemVerilog",
        );
    }
    if is(word, b":") && (is(last, b"end") || is(last, b"endmodule")) {
        return Some("no label stands behind `end` or `endmodule`: leave it out");
    }
    if is(word, b"reg") || is(word, b"wire") || is(word, b"parameter") || is(word, b"localparam") {
        return Some(
            "a declaration stands at the module's level, behind a `;`, and not within a block",
        );
    }
    None
}

/// The sentence for a token that no module has at its place.
pub fn module_syntax(
    alloc: Global,
    tokens: &[Token],
    byte: usize,
    word: &[u8],
) -> Result<String, AllocError> {
    let (before, after) = around(tokens, byte);
    if let Some((system, hint)) = system_hint(before, after) {
        let system = shown(system);
        return format!(in alloc; "`{system}` is SystemVerilog: {hint}");
    }
    if let Some(hint) = module_hint(before, after) {
        return String::from_str(alloc, hint);
    }
    let word = shown(word);
    format!(in alloc;
        "no module goes on with `{word}` here: a `;`, `)` or `end` may be missing before it"
    )
}

fn is_of_property(word: &[u8]) -> bool {
    is(word, b"length")
        || is(word, b"window")
        || is(word, b"assume")
        || is(word, b"commit")
        || is(word, b"hand")
        || is(word, b"cover")
        || is(word, b"next")
}

fn is_of_set(word: &[u8]) -> bool {
    is(word, b"input")
        || is(word, b"output")
        || is(word, b"state")
        || is(word, b"constraint")
        || is(word, b"invariant")
        || is(word, b"property")
        || is(word, b"operation")
}

// What is known of a token that no set has at its place.
fn set_hint(before: &[Token], after: &[Token]) -> Option<&'static str> {
    let word = word_at(after, 0);
    let last = word_before(before, 0);
    let begins = is(last, b";") || is(last, b"{") || is(last, b"}");
    if after.is_empty() {
        return Some(
            "the text ends within the set: a `}` is missing, or an operation, of which there is at least one",
        );
    }
    if is(word, b"/") || is(word, b"%") {
        return Some("formulas have no `/` and no `%`: compare products instead, in enough bits");
    }
    if begins && is_of_property(word) {
        return Some(
            "the order in a property is: length, window, assume, commit, hand, cover, next",
        );
    }
    if begins && is(word, b"operation") && first(before, b"property").is_some() {
        return Some("the `}` of the property before this operation is missing");
    }
    if begins && is_of_set(word) {
        return Some(
            "the order in a set is: block, clock, reset, names, rules, property reset, operations",
        );
    }
    if is(last, b"property") {
        return Some("the one property is `property reset`; all others are operations");
    }
    if is(last, b"@") {
        return Some("an offset is a plain number, as in `q@1`");
    }
    None
}

// Whether a word or a sign that is outside the subset stands at a place.
fn is_outside(tokens: &[Token]) -> bool {
    match tokens.first() {
        Some(token) => matches!(&token.kind, Kind::Outside),
        None => false,
    }
}

// The sentence for a word or a sign that is outside the subset, in a set.
fn outside_set(alloc: Global, word: &[u8]) -> Result<String, AllocError> {
    if word.first().is_some_and(|byte| byte.is_ascii_alphabetic()) {
        let word = shown(word);
        return format!(in alloc; "`{word}` is a reserved word of Verilog: rename what it names");
    }
    let hint = instead_of(word);
    let word = shown(word);
    format!(in alloc; "`{word}` doesn't stand in a set: {hint}")
}

/// The sentence for a token that no set has at its place.
pub fn set_syntax(
    alloc: Global,
    tokens: &[Token],
    byte: usize,
    word: &[u8],
) -> Result<String, AllocError> {
    let (before, after) = around(tokens, byte);
    if let Some(hint) = set_hint(before, after) {
        return String::from_str(alloc, hint);
    }
    if is_outside(after) {
        return outside_set(alloc, word);
    }
    let word = shown(word);
    format!(in alloc; "no set goes on with `{word}` here: a `;` or `)` may be missing before it")
}
