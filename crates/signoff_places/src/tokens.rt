// Tokens, and what stands at and behind them. A place in a text is the list of its tokens from there on.
ghost use Rattle.std.specs.Prelude.{◌≡◌, ◌++◌, ◌<◌, IfOk, IfSome, codes, drop, length, position, slice_get};
ghost use Rattle.std.specs.Option.{option_copied, option_map};
ghost use Rattle.std.specs.List.{before_first};
ghost use Rattle.std.specs.Str.{IsUtf8};
ghost use Rattle.signoff_places.specs.Paths.{is_dot, spells};
ghost use Rattle.signoff_places.specs.Tokens.{
  AreTokensOf,
  word_of,
  byte_of,
  word_at,
  number_at,
  stands,
  first_where,
  last_where,
  begins,
  begins_with_both,
  is_word,
  begins_from,
  bits_at,
  width_of,
  width_at,
};

use outside::Text;
use std::alloc::{AllocError, Global};
use vlog_read_lex::{ReadFault, is, read_tokens};
use vlog_tree::{Kind, Token};

/// The tokens of a text; none where it has a fault among them.
pub fn tokens_of(alloc: Global, text: &[u8], set: bool) -> Result<Vec<Token>, AllocError>
    ensures { IfOk result (λ tokens. AreTokensOf set text.now tokens.items) }
{
    match read_tokens(alloc, text, set) {
        Ok(tokens) => Ok(tokens),
        Err(ReadFault::Memory) => Err(AllocError),
        Err(_) => Ok(Vec::new(alloc)),
    }
}

/// The word or the sign of a token, nothing for a number.
pub fn word_of(token: &Token) -> &[u8]
    ensures { result.now ≡ word_of token.now }
{
    match &token.kind {
        Kind::Word(text) => text.bytes(),
        Kind::Sign(text) => text.bytes(),
        _ => b"",
    }
}

/// The word or the sign so many tokens behind a place, nothing for a number and past the end.
pub fn word_at(tokens: &[Token], at: usize) -> &[u8]
    ensures { result.now ≡ word_at tokens.now at }
{
    match tokens.get(at) {
        Some(token) => word_of(token),
        None => b"",
    }
}

/// The number so many tokens behind a place.
pub fn number_at(tokens: &[Token], at: usize) -> Option<u64>
    ensures { result ≡ number_at tokens.now at }
{
    match &tokens.get(at)?.kind {
        Kind::Number(number) => Some(number.value),
        _ => None,
    }
}

/// Whether this word or sign stands so many tokens behind a place.
pub fn stands(tokens: &[Token], at: usize, word: &[u8]) -> bool
    ensures { result ≡ stands tokens.now at word.now }
{
    is(word_at(tokens, at), word)
}

/// The place so many tokens behind another.
#[tactic(auto, using(crate::proofs::LineLemmas::cut))]
pub fn behind(tokens: &[Token], at: usize) -> &[Token]
    ensures { result.now ≡ drop at tokens.now }
{
    &tokens[at.min(tokens.len())..]
}

/// The byte of a place.
pub fn byte_at(tokens: &[Token]) -> Option<usize>
    ensures { result ≡ option_map byte_of (slice_get tokens.now 0) }
{
    Some(tokens.first()?.at)
}

/// The tokens before a byte, and those from there on.
pub fn around(tokens: &[Token], byte: usize) -> (&[Token], &[Token])
    ensures before { result.0.now ≡ before_first (begins_from byte) tokens.now }
    ensures whole { result.0.now ++ result.1.now ≡ tokens.now }
{
    for at in 0..tokens.len() {
        if tokens[at].at >= byte {
            return tokens.split_at(at);
        }
    }
    (tokens, &[])
}

/// The first place where a word or a sign stands.
pub fn first<'a>(tokens: &'a [Token], word: &[u8]) -> Option<&'a [Token]>
    ensures { option_copied result ≡ first_where (begins word.now) tokens.now }
{
    for at in 0..tokens.len() {
        let here = &tokens[at..];
        if stands(here, 0, word) {
            return Some(here);
        }
    }
    None
}

/// The tokens up to a word or a sign, or all.
pub fn up_to<'a>(tokens: &'a [Token], word: &[u8]) -> &'a [Token]
    ensures { result.now ≡ before_first (is_word word.now) tokens.now }
{
    for at in 0..tokens.len() {
        if is(word_of(&tokens[at]), word) {
            return &tokens[..at];
        }
    }
    tokens
}

// Whether two words stand at a place, one behind the other.
fn stand_both(tokens: &[Token], before: &[u8], word: &[u8]) -> bool
    ensures { result ≡ begins_with_both before.now word.now tokens.now }
{
    stands(tokens, 0, before) && stands(tokens, 1, word)
}

/// The place of a word where it first stands behind another.
pub fn behind_word<'a>(tokens: &'a [Token], before: &[u8], word: &[u8]) -> Option<&'a [Token]>
    ensures { option_copied result ≡ option_map (drop 1)
        (first_where (begins_with_both before.now word.now) tokens.now) }
{
    for at in 0..tokens.len() {
        let here = &tokens[at..];
        if stand_both(here, before, word) {
            return Some(behind(here, 1));
        }
    }
    None
}

/// The place of a word where it last stands behind another.
pub fn last_behind_word<'a>(tokens: &'a [Token], before: &[u8], word: &[u8]) -> Option<&'a [Token]>
    ensures { option_copied result ≡ option_map (drop 1)
        (last_where (begins_with_both before.now word.now) tokens.now) }
{
    let mut last = None;
    for at in 0..tokens.len() {
        let here = &tokens[at..];
        if stand_both(here, before, word) {
            last = Some(behind(here, 1));
        }
    }
    last
}

// Where the first dot of a path stands.
fn first_dot(path: &[u8]) -> Option<usize>
    ensures exact { result ≡ position is_dot path.now }
    ensures within { IfSome result (λ dot. dot < length path.now) }
{
    path.iter().position(|byte| *byte == b'.')
}

/// Whether a hierarchical name stands at a place, and no longer one.
pub fn spells(tokens: &[Token], path: &[u8]) -> bool
    ensures { result ≡ spells path.now tokens.now }
{
    let mut here = tokens;
    let mut rest = path;
    while let Some(dot) = first_dot(rest) {
        if !stand_both(here, &rest[..dot], b".") {
            return false;
        }
        here = behind(here, 2);
        rest = &rest[dot + 1..];
    }
    stands(here, 0, rest) && !stands(here, 1, b".")
}

/// The bounds of a range of plain numbers.
#[derive(Clone, Copy)]
pub struct Bits {
    pub high: u64,
    pub low: u64,
}

impl Bits {
    /// How many bits there are, none where the bounds stand the wrong way round.
    #[tactic(auto, unfolding(vlog_read_lex::specs::Numbers::fit))]
    pub fn width(self) -> Option<u64>
        ensures { result ≡ width_of self }
    {
        self.high.checked_sub(self.low)?.checked_add(1)
    }
}

/// The range `[high:low]` at a place.
pub fn bits_at(range: &[Token]) -> Option<Bits>
    ensures { result ≡ bits_at range.now }
{
    let high = number_at(range, 1)?;
    let low = number_at(range, 3)?;
    if stands(range, 0, b"[") && stands(range, 2, b":") && stands(range, 4, b"]") {
        Some(Bits { high, low })
    } else {
        None
    }
}

/// The width of a declared range of plain numbers, 1 where no range stands.
pub fn width_at(range: &[Token]) -> Option<u64>
    ensures { result ≡ width_at range.now }
{
    if !stands(range, 0, b"[") {
        return Some(1);
    }
    bits_at(range)?.width()
}

/// The name as text for a sentence.
pub fn shown(name: &[u8]) -> &str
    ensures text { IsUtf8 name.now → result.now ≡ name.now }
    ensures other { ¬ (IsUtf8 name.now) → result.now ≡ codes "?" }
{
    match str::from_utf8(name) {
        Ok(text) => text,
        Err(_) => "?",
    }
}

/// The name as text for a sentence.
pub fn text_of(name: &Text) -> &str
    ensures text { IsUtf8 name.now → result.now ≡ name.now }
    ensures other { ¬ (IsUtf8 name.now) → result.now ≡ codes "?" }
{
    shown(name.bytes())
}
