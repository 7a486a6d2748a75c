// Bits of vectors.

ghost use Rattle.std.specs.Prelude.{◌≡◌, ℕ, ◌+◌, ◌*◌, ◌/◌, ◌%◌, ◌^◌, ◌≤◌, ◌<◌, min, ℤ, pos, negsuc, ◌≤ℤ◌, ◌<ℤ◌, ◌-ℤ◌, ◌+ℤ◌, IfSome, IfNone};
ghost use Rattle.word_core.specs.Words.{word};
ghost use Rattle.vlog_tree.specs.Valuation.{IsLength};
ghost use Rattle.vlog_tree.specs.Value.{moved_down, bits_of, part_width, part_low, natural};
ghost use Rattle.vlog_tree_values.specs.Shapes.{FitsPart};

use crate::operators::low_bits;
use vlog_tree::{Constant, Span};
use word_core::Word;

// The steps of a move, of which more than 64 do what 64 do.
fn steps(distance: i128) -> Word
    requires { pos 0 ≤ℤ distance }
    ensures { result ≡ record { width = 8; value = min (natural distance) 64 } }
{
    Word::new(8, distance.min(64) as u64)
}

// The low bits of a number moved down, or up where the distance is negative.
fn moved(number: u64, distance: i128, width: u8) -> Word
    requires some { 1 ≤ width }
    requires most { width ≤ 64 }
    requires low { negsuc (2 ^ 100) ≤ℤ distance }
    ensures { result ≡ word width (moved_down distance number) }
{
    let word = Word::new(64, number);
    if distance < 0 {
        return low_bits(Word::shl(word, steps(-distance)).value(), width);
    }
    low_bits(Word::shr(word, steps(distance)).value(), width)
}

/// The bits of a vector from the one with the number `from` upwards; a bit out of range is 0.
pub fn bits(vector: Constant, from: i128, width: u8) -> Word
    requires vector { IsLength vector.width }
    requires some { 1 ≤ width }
    requires most { width ≤ 64 }
    requires low { negsuc (2 ^ 80) ≤ℤ from }
    requires high { from <ℤ pos (2 ^ 80) }
    ensures { result ≡ record { width = width; value = bits_of vector from width } }
{
    let number = low_bits(vector.value, vector.width).value();
    moved(number, from - i128::from(vector.low), width)
}

/// How many bits a part-select has, where its two numbers suit it.
pub fn part_width(vector: Constant, span: Span, a: i128, b: i128) -> Option<u8>
    requires low { negsuc (2 ^ 64) ≤ℤ a }
    requires high { a <ℤ pos (2 ^ 64) }
    requires low_too { negsuc (2 ^ 64) ≤ℤ b }
    requires high_too { b <ℤ pos (2 ^ 64) }
    ensures some { IfSome result (λ n. FitsPart vector span a b × (n ≡ part_width span a b)) }
    ensures none { IfNone result (FitsPart vector span a b → ⊥) }
{
    let width = match span {
        Span::Fixed => fixed_width(vector, a, b)?,
        Span::Up | Span::Down => b,
    };
    if width < 1 || 64 < width {
        return None;
    }
    Some(width as u8)
}

// The width of `[a:b]`, where it stays in its vector.
fn fixed_width(vector: Constant, a: i128, b: i128) -> Option<i128>
    requires low { negsuc (2 ^ 64) ≤ℤ a }
    requires high { a <ℤ pos (2 ^ 64) }
    requires low_too { negsuc (2 ^ 64) ≤ℤ b }
    requires high_too { b <ℤ pos (2 ^ 64) }
    ensures some { IfSome result (λ n. (pos vector.low ≤ℤ b) × (a <ℤ pos (vector.low + vector.width)) ×
        (n ≡ (a -ℤ b) +ℤ pos 1)) }
    ensures none { IfNone result ((pos vector.low ≤ℤ b) × (a <ℤ pos (vector.low + vector.width)) → ⊥) }
{
    let low = i128::from(vector.low);
    if b < low || low + i128::from(vector.width) <= a {
        return None;
    }
    Some(a - b + 1)
}

/// The number of the lowest bit of a part-select.
pub fn part_low(span: Span, a: i128, b: i128) -> i128
    requires low { negsuc (2 ^ 64) ≤ℤ a }
    requires high { a <ℤ pos (2 ^ 64) }
    requires low_too { negsuc (2 ^ 64) ≤ℤ b }
    requires high_too { b <ℤ pos (2 ^ 64) }
    ensures value { result ≡ part_low span a b }
    ensures low { negsuc (2 ^ 80) ≤ℤ result }
    ensures high { result <ℤ pos (2 ^ 80) }
{
    match span {
        Span::Fixed => b,
        Span::Up => a,
        Span::Down => a - b + 1,
    }
}
