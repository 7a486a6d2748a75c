// Findings about texts that aren't read.
use crate::finding::Finding;
use crate::limits::limit_finding;
use crate::subset::instead_of;
use crate::syntax::{module_syntax, set_syntax};
use outside::Text;
use set_read::SetFault;
use signoff_places::{
    Pick, behind, behind_word, byte_at, clause_before, cover_in, declared_in_set, last_behind_word,
    next_again, shown, text_of, used_in_set,
};
use std::alloc::{AllocError, Global};
use vlog_read_lex::{Class, ReadFault, is, sign_size};
use vlog_tree::Token;

/// The word, the number or the sign that begins at a byte.
pub fn word_from(text: &[u8], byte: usize) -> &[u8] {
    let rest = text.get(byte..).unwrap_or(b"");
    let size = sign_size(rest, 0);
    if size > 0 {
        return &rest[..size];
    }
    for end in 1..rest.len() {
        if !Class::Word.has(rest[end]) && rest[end] != b'\'' {
            return &rest[..end];
        }
    }
    rest
}

// The sentence for a byte that begins no token.
fn bytes_sentence(alloc: Global, text: &[u8], byte: usize) -> Result<String, AllocError> {
    let sentence = match text.get(byte..).unwrap_or(b"") {
        [b'/', b'*', ..] => "this comment has no end: `*/` is missing",
        [b'(', b'*', ..] => "this attribute has no end: `*)` is missing",
        _ =>
            "this byte begins no token: outside of comments a text has ASCII names, numbers and signs",
    };
    String::from_str(alloc, sentence)
}

// The sentence for a number that breaks a rule.
fn number_sentence(alloc: Global, text: &[u8], byte: usize) -> Result<String, AllocError> {
    let number = word_from(text, byte);
    if number == b"'0".as_slice() || number == b"'1".as_slice() {
        return String::from_str(
            alloc,
            "a number without size and base is SystemVerilog: write it as `8'h00` or `{8{1'b1}}`",
        );
    }
    let number = shown(number);
    format!(in alloc;
        "`{number}` breaks a rule: a size is 1 to 64, a value below 2^64 (2^32 without size), digits fit"
    )
}

fn outside_sentence(alloc: Global, text: &[u8], byte: usize) -> Result<String, AllocError> {
    let word = word_from(text, byte);
    let hint = instead_of(word);
    let word_text = shown(word);
    if word.first() == Some(&b'`') {
        return format!(in alloc;
            "{word_text} is a directive or a macro: run a preprocessor first, as `iverilog -E`, or `bin/lower`"
        );
    }
    format!(in alloc; "`{word_text}` isn't supported: {hint}")
}

/// A fault of the reader of modules, whose text has these tokens.
pub fn read_finding(
    alloc: Global,
    text: &[u8],
    tokens: &[Token],
    fault: &ReadFault,
) -> Result<Finding, AllocError> {
    let (byte, sentence) = match fault {
        ReadFault::Bytes(byte) => (Some(*byte), bytes_sentence(alloc, text, *byte)?),
        ReadFault::Number(byte) => (Some(*byte), number_sentence(alloc, text, *byte)?),
        ReadFault::Outside(byte) => (Some(*byte), outside_sentence(alloc, text, *byte)?),
        ReadFault::Syntax(byte) => {
            let sentence = module_syntax(alloc, tokens, *byte, word_from(text, *byte))?;
            (Some(*byte), sentence)
        }
        ReadFault::Deep => (
            None,
            String::from_str(
                alloc,
                "the text is nested more than 500 deep: write it flatter, with wires in between",
            )?,
        ),
        ReadFault::Memory => (None, String::from_str(alloc, "out of memory")?),
    };
    Ok(Finding::of_module(byte, sentence))
}

// The place at which a name is used that isn't declared, or that is covered and is no output.
fn unknown_byte(set: &[Token], name: &[u8]) -> Option<usize> {
    match declared_in_set(set, name, Pick::First) {
        Some(_) => byte_at(behind(cover_in(set, name)?, 1)),
        None => byte_at(used_in_set(set, name)?),
    }
}

// A name that isn't declared in a set.
fn unknown_name(alloc: Global, set: &[Token], name: &Text) -> Result<Finding, AllocError> {
    let byte = unknown_byte(set, name.bytes());
    let clause = clause_before(set, byte.unwrap_or(0));
    let name = text_of(name);
    let sentence = if is(clause, b"next") {
        format!(in alloc; "no operation is named `{name}`: successors are operations of the set")?
    } else if is(clause, b"cover") {
        format!(in alloc; "`{name}` is no output of the set: a cover names a declared `output`")?
    } else {
        format!(in alloc;
            "`{name}` isn't declared in the set: declare it, as a `state` if it is within the block"
        )?
    };
    Ok(Finding::of_set(byte, sentence))
}

// The second declaration of a name.
fn declared_again<'a>(set: &'a [Token], name: &[u8]) -> Option<&'a [Token]> {
    let one = declared_in_set(set, name, Pick::First)?;
    let last = declared_in_set(set, name, Pick::Last)?;
    if byte_at(one.named) == byte_at(last.named) {
        return None;
    }
    Some(last.named)
}

// The last property or rule of a name, unless it is the only one.
fn named_again<'a>(set: &'a [Token], name: &[u8]) -> Option<&'a [Token]> {
    let mut found = None;
    let mut several = false;
    for word in [
        b"constraint".as_slice(),
        b"invariant".as_slice(),
        b"operation".as_slice(),
    ] {
        let one = behind_word(set, word, name);
        let last = last_behind_word(set, word, name);
        several = several
            || (found.is_some() && last.is_some())
            || one.and_then(|place| byte_at(place)) != last.and_then(|place| byte_at(place));
        found = last.or(found);
    }
    if several || is(name, b"reset") {
        found
    } else {
        None
    }
}

// A name that stands twice in a set.
fn repeated_name(alloc: Global, set: &[Token], name: &Text) -> Result<Finding, AllocError> {
    let text = text_of(name);
    if let Some(place) = declared_again(set, name.bytes()) {
        let sentence = format!(in alloc; "the set declares `{text}` twice: leave one out")?;
        return Ok(Finding::of_set(byte_at(place), sentence));
    }
    if let Some(place) = named_again(set, name.bytes()) {
        let sentence = format!(in alloc;
            "two properties, constraints or invariants are named `{text}`: rename one of them"
        )?;
        return Ok(Finding::of_set(byte_at(place), sentence));
    }
    let byte = next_again(set, name.bytes()).and_then(|place| byte_at(place));
    let sentence = format!(in alloc;
        "`{text}` stands twice in a list of successors: leave one out"
    )?;
    Ok(Finding::of_set(byte, sentence))
}

/// A fault of the reader of sets, whose text has these tokens.
pub fn set_finding(
    alloc: Global,
    text: &[u8],
    tokens: &[Token],
    fault: &SetFault,
) -> Result<Finding, AllocError> {
    match fault {
        SetFault::Bytes(byte) => Ok(Finding::of_set(
            Some(*byte),
            bytes_sentence(alloc, text, *byte)?,
        )),
        SetFault::Number(byte) => Ok(Finding::of_set(
            Some(*byte),
            number_sentence(alloc, text, *byte)?,
        )),
        SetFault::Syntax(byte) => {
            let sentence = set_syntax(alloc, tokens, *byte, word_from(text, *byte))?;
            Ok(Finding::of_set(Some(*byte), sentence))
        }
        SetFault::Unknown(name) => unknown_name(alloc, tokens, name),
        SetFault::Twice(name) => repeated_name(alloc, tokens, name),
        SetFault::Limit(quantity) => limit_finding(alloc, tokens, *quantity),
        SetFault::Deep => {
            let sentence =
                "a formula is nested more than 498 deep: give the block a wire for a part of it";
            Ok(Finding::of_set(None, String::from_str(alloc, sentence)?))
        }
        SetFault::Memory => Ok(Finding::of_none(String::from_str(alloc, "out of memory")?)),
    }
}
