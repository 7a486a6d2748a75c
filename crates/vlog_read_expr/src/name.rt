// Identifiers, and names with their paths and offsets.
ghost use Rattle.std.specs.Prelude.{◌≡◌, ◌+◌, ◌↔◌, ◌<◌, ◌≤◌, IsTrue, IfOk, IfErr, length, true};
ghost use Rattle.vlog_tree.specs.Spelling.{IsIdentifier, IsOffset};
ghost use Rattle.vlog_read_expr.specs.Names.{RefusesIdentifier, NameAnswers, PathAnswers, OffsetAnswers};

use crate::tokens::{after, ends_name, is_sign, kind_at};
use outside::Text;
use std::alloc::Global;
use vlog_read_lex::ReadFault;
use vlog_tree::{Kind, Name, Token, is_reserved};

/// A name and the place after it.
#[derive(Drop)]
pub struct Named {
    pub name: Name,
    pub end: usize,
}

/// A path and the place after it.
#[derive(Drop)]
pub struct Path {
    pub text: Text,
    pub end: usize,
}

/// An offset and the place after it.
#[derive(Drop)]
pub struct Offset {
    pub cycles: u32,
    pub end: usize,
}

/// The identifier at a place, in a text of modules or, where `set` is true, of a set. Syntax: none stands there.
pub fn identifier(alloc: Global, set: bool, tokens: &[Token], at: usize) -> Result<Text, ReadFault>
    ensures ok { IfOk result (λ text. IsIdentifier set tokens.now at text) }
    ensures within { IfOk result (λ text. at < length tokens.now) }
    ensures err { IfErr result (λ fault. RefusesIdentifier set tokens.now at fault) }
{
    match kind_at(tokens, at) {
        Some(Kind::Word(word)) if !is_reserved(set, word.bytes()) => {
            Ok(Text::copy(alloc, word.bytes())?)
        }
        _ => Err(ReadFault::Syntax(at)),
    }
}

/// The path at a place of a set: identifiers with dots between, as many as stand there. Syntax: no identifier stands
/// there, or none after a dot.
pub fn read_path(alloc: Global, tokens: &[Token], at: usize) -> Result<Path, ReadFault>
    ensures { PathAnswers tokens.now at result }
{
    let mut text = identifier(alloc, true, tokens, at)?;
    let mut end = after(tokens, at);
    while is_sign(tokens, end, b".") {
        let dot = after(tokens, end);
        let word = identifier(alloc, true, tokens, dot)?;
        text.append(b".")?;
        text.append(word.bytes())?;
        end = after(tokens, dot);
    }
    Ok(Path { text, end })
}

// `@` and decimal digits, or nothing.
fn read_offset(tokens: &[Token], at: usize) -> Result<Offset, ReadFault>
    ensures { OffsetAnswers tokens.now at result }
{
    if !is_sign(tokens, at, b"@") {
        return Ok(Offset { cycles: 0, end: at });
    }
    let digits = after(tokens, at);
    match kind_at(tokens, digits) {
        Some(Kind::Number(number)) if number.plain && number.value <= u32::MAX as u64 => {
            Ok(Offset {
                cycles: number.value as u32,
                end: after(tokens, digits),
            })
        }
        _ => Err(ReadFault::Syntax(digits)),
    }
}

// A path with its offset.
fn set_name(alloc: Global, tokens: &[Token], at: usize) -> Result<Named, ReadFault>
    ensures { NameAnswers true tokens.now at result }
{
    let path = read_path(alloc, tokens, at)?;
    let offset = read_offset(tokens, path.end)?;
    if !ends_name(tokens, offset.end) {
        return Err(ReadFault::Syntax(offset.end));
    }
    Ok(Named {
        name: Name {
            text: path.text,
            offset: offset.cycles,
        },
        end: offset.end,
    })
}

/// The name at a place, which no dot and no `@` follows.
pub fn read_name(alloc: Global, set: bool, tokens: &[Token], at: usize) -> Result<Named, ReadFault>
    ensures { NameAnswers set tokens.now at result }
{
    if set {
        return set_name(alloc, tokens, at);
    }
    let text = identifier(alloc, false, tokens, at)?;
    let end = after(tokens, at);
    if !ends_name(tokens, end) {
        return Err(ReadFault::Syntax(end));
    }
    Ok(Named {
        name: Name { text, offset: 0 },
        end,
    })
}
