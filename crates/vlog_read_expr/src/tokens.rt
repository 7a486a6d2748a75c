// Tokens by their place.
ghost use Rattle.std.specs.Prelude.{◌≡◌, ◌+◌, ◌↔◌, ◌<◌, ◌≤◌, IsTrue, OnSome, length};
ghost use Rattle.std.specs.Option.{option_copied};
ghost use Rattle.vlog_tree.specs.Signs.{kind_at, IsSign, IsWord, infix_at, span_at};
ghost use Rattle.vlog_tree.specs.Spelling.{NoSuffix};
ghost use Rattle.vlog_read_spelling.specs.Growing.{NoPath};

use vlog_tree::{Infix, Kind, Span, Token, is};

/// The kind of the token at a place; None past the end.
#[tactic(auto, unfolding(vlog_tree::specs::Signs::kind_at))]
pub fn kind_at(tokens: &[Token], at: usize) -> Option<&Kind>
    ensures is { option_copied result ≡ kind_at tokens.now at }
    ensures within { OnSome result (at < length tokens.now) }
{
    match tokens.get(at) {
        Some(token) => Some(&token.kind),
        None => None,
    }
}

/// Whether a sign stands at a place.
pub fn is_sign(tokens: &[Token], at: usize, sign: &[u8]) -> bool
    ensures { IsTrue result ↔ IsSign tokens.now at sign.now }
{
    match kind_at(tokens, at) {
        Some(Kind::Sign(found)) => is(found.bytes(), sign),
        _ => false,
    }
}

/// Whether a word stands at a place.
pub fn is_word(tokens: &[Token], at: usize, word: &[u8]) -> bool
    ensures { IsTrue result ↔ IsWord tokens.now at word.now }
{
    match kind_at(tokens, at) {
        Some(Kind::Word(found)) => is(found.bytes(), word),
        _ => false,
    }
}

/// The operator that stands at a place between two operands, in a set where `set` is true.
pub fn infix_at(set: bool, tokens: &[Token], at: usize) -> Option<Infix>
    ensures { result ≡ infix_at set tokens.now at }
{
    match kind_at(tokens, at) {
        Some(Kind::Sign(found)) => Infix::of_sign(set, found.bytes()),
        _ => None,
    }
}

/// What a sign is between the two expressions of a part-select.
pub fn span_at(tokens: &[Token], at: usize) -> Option<Span>
    ensures { result ≡ span_at tokens.now at }
{
    match kind_at(tokens, at) {
        Some(Kind::Sign(found)) => Span::of_sign(found.bytes()),
        _ => None,
    }
}

/// The place after a token's.
pub fn after(tokens: &[Token], at: usize) -> usize
    requires { at < length tokens.now }
    ensures { result ≡ at + 1 }
{
    prove!(at < tokens.len());
    at + 1
}

/// Whether no token at a place continues a name, a select or what stands in brackets: `[`, `.` and `@` would.
pub fn is_alone(tokens: &[Token], at: usize) -> bool
    ensures { IsTrue result ↔ NoSuffix tokens.now at }
{
    !is_sign(tokens, at, b"[") && !is_sign(tokens, at, b".") && !is_sign(tokens, at, b"@")
}

/// Whether neither a dot nor an `@` stands at a place.
pub fn ends_name(tokens: &[Token], at: usize) -> bool
    ensures { IsTrue result ↔ NoPath tokens.now at }
{
    !is_sign(tokens, at, b".") && !is_sign(tokens, at, b"@")
}
