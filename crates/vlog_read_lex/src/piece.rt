ghost use Rattle.std.specs.Prelude.{◌≡◌, ◌≤◌, ◌<◌, IfOk, length};
ghost use Rattle.vlog_read_lex.specs.Pieces.{
  IsWithin,
  digits_at,
  based_at,
  quoted_at,
  number_at,
  slash_at,
  paren_at,
  tick_at,
  dollar_at,
  word_at,
  sign_at,
  is_skipped,
  is_function,
  plain_at,
  piece_at,
  gap_to,
  number_piece,
  seen,
};

use crate::class::{Base, Class, is_digit, is_letter, is_space};
use crate::number::{Size, base_of, based_number, decimal_number, has_unknown, size_of};
use crate::scan::{byte_at, closing, has_pair, run_end};
use crate::signs::{is_outside_sign, sign_size};
use crate::{is, is_outside_word};
use outside::Text;
use std::alloc::{AllocError, Global};
use vlog_tree::{Kind, Number};

/// What begins at a place, with the place after it.
#[derive(Drop)]
pub enum Piece {
    /// White space, a comment, an attribute or a line that is skipped.
    Gap(usize),
    Token(Kind, usize),
    /// A word or a sign that the language leaves out.
    Outside(usize),
    /// A number that breaks a rule.
    NoNumber,
    /// No token begins here, or a comment or attribute has no end.
    NoToken,
}

fn gap_to(end: Option<usize>) -> Piece
    ensures { result ≡ gap_to end }
{
    match end {
        Some(end) => Piece::Gap(end),
        None => Piece::NoToken,
    }
}

fn number_piece(number: Option<Number>, end: usize) -> Piece
    ensures { result ≡ number_piece number end }
{
    match number {
        Some(number) => Piece::Token(Kind::Number(number), end),
        None => Piece::NoNumber,
    }
}

// The digits after a base, behind white space.
#[tactic(auto, unfolding(crate::specs::Pieces::digits_at))]
fn digits_at(size: Size, signed: bool, base: Base, bytes: &[u8], at: usize) -> Piece
    requires { at ≤ length bytes.now }
    ensures exact { result ≡ digits_at size signed base bytes.now at }
    ensures within { IsWithin at (length bytes.now) result }
{
    let from = run_end(bytes, at, Class::Space);
    let end = run_end(bytes, from, Class::Digits(base));
    let digits = &bytes[from..end];
    if has_unknown(digits) {
        return Piece::Outside(end);
    }
    number_piece(based_number(size, signed, base, digits), end)
}

// The letter of a base and its digits.
#[tactic(auto, unfolding(crate::specs::Pieces::based_at))]
fn based_at(size: Size, signed: bool, bytes: &[u8], at: usize) -> Piece
    requires { at ≤ length bytes.now }
    ensures exact { result ≡ based_at size signed bytes.now at }
    ensures within { IsWithin at (length bytes.now) result }
{
    let letter = byte_at(bytes, at);
    if letter == 0 {
        return Piece::NoNumber;
    }
    match base_of(letter) {
        Some(base) => digits_at(size, signed, base, bytes, at + 1),
        None => Piece::NoNumber,
    }
}

// A number from its `'` on.
#[tactic(auto, unfolding(crate::specs::Pieces::quoted_at))]
fn quoted_at(size: Size, bytes: &[u8], at: usize) -> Piece
    requires { at < length bytes.now }
    ensures exact { result ≡ quoted_at size bytes.now at }
    ensures within { IsWithin at (length bytes.now) result }
{
    let letter = byte_at(bytes, at + 1);
    if letter == b's' || letter == b'S' {
        based_at(size, true, bytes, at + 2)
    } else {
        based_at(size, false, bytes, at + 1)
    }
}

// A number that begins with a decimal digit.
#[tactic(auto, unfolding(crate::specs::Pieces::number_at))]
fn number_at(bytes: &[u8], at: usize) -> Piece
    requires { at < length bytes.now }
    ensures exact { result ≡ number_at bytes.now at }
    ensures within { IsWithin at (length bytes.now) result }
{
    let end = run_end(bytes, at + 1, Class::Decimal);
    let digits = &bytes[at..end];
    let mark = run_end(bytes, end, Class::Space);
    if byte_at(bytes, mark) == b'\'' {
        quoted_at(size_of(digits), bytes, mark)
    } else {
        number_piece(decimal_number(digits), end)
    }
}

#[tactic(auto, unfolding(crate::specs::Pieces::sign_at))]
fn sign_at(alloc: Global, bytes: &[u8], at: usize) -> Result<Piece, AllocError>
    requires { at < length bytes.now }
    ensures exact { IfOk result (λ piece. piece ≡ sign_at bytes.now at) }
    ensures within { IfOk result (IsWithin at (length bytes.now)) }
{
    let size = sign_size(bytes, at);
    if size == 0 {
        return Ok(Piece::NoToken);
    }
    let text = &bytes[at..at + size];
    if is_outside_sign(text) {
        return Ok(Piece::Outside(at + size));
    }
    Ok(Piece::Token(Kind::Sign(Text::copy(alloc, text)?), at + size))
}

// A comment, or a sign.
#[tactic(auto, unfolding(crate::specs::Pieces::slash_at))]
fn slash_at(alloc: Global, bytes: &[u8], at: usize) -> Result<Piece, AllocError>
    requires { at < length bytes.now }
    ensures exact { IfOk result (λ piece. piece ≡ slash_at bytes.now at) }
    ensures within { IfOk result (IsWithin at (length bytes.now)) }
{
    if has_pair(bytes, at, b'/', b'/') {
        return Ok(Piece::Gap(run_end(bytes, at + 2, Class::Line)));
    }
    if has_pair(bytes, at, b'/', b'*') {
        return Ok(gap_to(closing(bytes, at + 2, b'/')));
    }
    sign_at(alloc, bytes, at)
}

// An attribute, or a sign.
#[tactic(auto, unfolding(crate::specs::Pieces::paren_at))]
fn paren_at(alloc: Global, bytes: &[u8], at: usize) -> Result<Piece, AllocError>
    requires { at < length bytes.now }
    ensures exact { IfOk result (λ piece. piece ≡ paren_at bytes.now at) }
    ensures within { IfOk result (IsWithin at (length bytes.now)) }
{
    if has_pair(bytes, at, b'(', b'*') {
        let next = byte_at(bytes, run_end(bytes, at + 2, Class::Space));
        if next != b')' {
            return Ok(gap_to(closing(bytes, at + 2, b')')));
        }
    }
    sign_at(alloc, bytes, at)
}

fn is_skipped(word: &[u8]) -> bool
    ensures { result ≡ is_skipped word.now }
{
    is(word, b"`timescale") || is(word, b"`default_nettype")
}

fn is_function(word: &[u8]) -> bool
    ensures { result ≡ is_function word.now }
{
    is(word, b"$signed") || is(word, b"$unsigned")
}

// A word that begins with a backtick.
#[tactic(auto, unfolding(crate::specs::Pieces::tick_at))]
fn tick_at(set: bool, bytes: &[u8], at: usize) -> Piece
    requires { at < length bytes.now }
    ensures exact { result ≡ tick_at set bytes.now at }
    ensures within { IsWithin at (length bytes.now) result }
{
    let end = run_end(bytes, at + 1, Class::Word);
    if !set && is_skipped(&bytes[at..end]) {
        return Piece::Gap(run_end(bytes, end, Class::Line));
    }
    Piece::Outside(end)
}

// A word that begins with `$`.
#[tactic(auto, unfolding(crate::specs::Pieces::dollar_at))]
fn dollar_at(alloc: Global, bytes: &[u8], at: usize) -> Result<Piece, AllocError>
    requires { at < length bytes.now }
    ensures exact { IfOk result (λ piece. piece ≡ dollar_at bytes.now at) }
    ensures within { IfOk result (IsWithin at (length bytes.now)) }
{
    let end = run_end(bytes, at + 1, Class::Word);
    let word = &bytes[at..end];
    if is_function(word) {
        return Ok(Piece::Token(Kind::Word(Text::copy(alloc, word)?), end));
    }
    Ok(Piece::Outside(end))
}

#[tactic(auto, unfolding(crate::specs::Pieces::word_at))]
fn word_at(alloc: Global, bytes: &[u8], at: usize) -> Result<Piece, AllocError>
    requires { at < length bytes.now }
    ensures exact { IfOk result (λ piece. piece ≡ word_at bytes.now at) }
    ensures within { IfOk result (IsWithin at (length bytes.now)) }
{
    let end = run_end(bytes, at + 1, Class::Word);
    let word = &bytes[at..end];
    if is_outside_word(word) {
        return Ok(Piece::Outside(end));
    }
    Ok(Piece::Token(Kind::Word(Text::copy(alloc, word)?), end))
}

#[tactic(auto, unfolding(crate::specs::Pieces::plain_at))]
fn plain_at(alloc: Global, set: bool, bytes: &[u8], at: usize) -> Result<Piece, AllocError>
    requires { at < length bytes.now }
    ensures exact { IfOk result (λ piece. piece ≡ plain_at set bytes.now at) }
    ensures within { IfOk result (IsWithin at (length bytes.now)) }
{
    let first = bytes[at];
    if is_space(first) {
        Ok(Piece::Gap(at + 1))
    } else if first == b'/' {
        slash_at(alloc, bytes, at)
    } else if first == b'(' && !set {
        paren_at(alloc, bytes, at)
    } else if first == b'`' {
        Ok(tick_at(set, bytes, at))
    } else if first == b'$' {
        dollar_at(alloc, bytes, at)
    } else if is_letter(first) {
        word_at(alloc, bytes, at)
    } else if is_digit(first) {
        Ok(number_at(bytes, at))
    } else if first == b'\'' {
        Ok(quoted_at(Size::Unsized, bytes, at))
    } else {
        sign_at(alloc, bytes, at)
    }
}

// In a set, what the language leaves out is a token.
fn seen(set: bool, piece: Piece) -> Piece
    ensures { result ≡ seen set piece }
{
    match piece {
        Piece::Outside(end) if set => Piece::Token(Kind::Outside, end),
        other => other,
    }
}

/// What begins at a place.
#[tactic(auto, unfolding(crate::specs::Pieces::piece_at))]
pub fn piece_at(alloc: Global, set: bool, bytes: &[u8], at: usize) -> Result<Piece, AllocError>
    requires { at < length bytes.now }
    ensures exact { IfOk result (λ piece. piece ≡ piece_at set bytes.now at) }
    ensures within { IfOk result (IsWithin at (length bytes.now)) }
{
    Ok(seen(set, plain_at(alloc, set, bytes, at)?))
}
