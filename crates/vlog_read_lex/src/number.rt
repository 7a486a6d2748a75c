ghost use Rattle.std.specs.Prelude.{◌≡◌, ◌≤◌, ◌<◌, ◌%◌, ◌^◌, length};
ghost use Rattle.std.specs.List.{list_all};
ghost use Rattle.vlog_read_lex.specs.Numbers.{
  radix,
  digit_value,
  is_wild,
  is_unknown,
  is_digit_of,
  value,
  wild,
  wild_digit,
  fit,
  size_of,
  filled,
  put_digit,
  put_wild,
  begins_with_digit,
  is_spelt,
  has_wild,
  has_unknown,
  is_plain,
  decimal_number,
  based_number,
  base_of,
};

use crate::class::{Base, is_digit, is_hex};
use vlog_tree::Number;

/// The size that a number is written with.
#[derive(Clone, Copy, PartialEq, Eq)]
pub enum Size {
    Unsized,
    Bits(u8),
    /// 0 or above 64.
    Wrong,
}

pub fn base_of(letter: u8) -> Option<Base>
    ensures { result ≡ base_of letter }
{
    match letter {
        b'b' | b'B' => Some(Base::Two),
        b'o' | b'O' => Some(Base::Eight),
        b'd' | b'D' => Some(Base::Ten),
        b'h' | b'H' => Some(Base::Sixteen),
        _ => None,
    }
}

impl Base {
    pub fn radix(self) -> u64
        ensures exact { result ≡ radix self }
        ensures small { result ≤ 16 }
        ensures some { 2 ≤ result }
    {
        match self {
            Base::Two => 2,
            Base::Eight => 8,
            Base::Ten => 10,
            Base::Sixteen => 16,
        }
    }

    #[tactic(auto, unfolding(crate::specs::Numbers::is_digit_of))]
    fn has_digit(self, byte: u8) -> bool
        ensures { result ≡ is_digit_of self byte }
    {
        byte == b'_'
            || (is_hex(byte) && digit_value(byte) < self.radix())
            || (is_wild(byte) && self != Base::Ten)
    }
}

fn digit_value(byte: u8) -> u64
    ensures exact { result ≡ digit_value byte }
    ensures small { result < 16 }
{
    match byte {
        b'0'..=b'9' => u64::from(byte - b'0'),
        b'a'..=b'f' => u64::from(byte - b'a' + 10),
        b'A'..=b'F' => u64::from(byte - b'A' + 10),
        _ => 0,
    }
}

fn is_wild(byte: u8) -> bool
    ensures { result ≡ is_wild byte }
{
    byte == b'?' || byte == b'z' || byte == b'Z'
}

fn is_unknown(byte: u8) -> bool
    ensures { result ≡ is_unknown byte }
{
    byte == b'x' || byte == b'X'
}

// One more digit behind what the digits before it make.
#[tactic(auto, unfolding(crate::specs::Numbers::fit))]
fn put_digit(base: Base, made: u64, digit: u8) -> Option<u64>
    ensures { result ≡ fit (put_digit base made digit) }
{
    if digit == b'_' {
        return Some(made);
    }
    made.checked_mul(base.radix())?
        .checked_add(digit_value(digit))
}

/// The number that digits spell, if it is below 2 to the 64.
#[tactic(auto, unfolding(crate::specs::Numbers::value))]
pub fn value(base: Base, digits: &[u8]) -> Option<u64>
    ensures { result ≡ fit (value base digits.now) }
{
    let mut made = 0u64;
    for digit in digits {
        made = put_digit(base, made, *digit)?;
    }
    Some(made)
}

fn wild_digit(base: Base, byte: u8) -> u64
    ensures { result ≡ wild_digit base byte }
{
    if is_wild(byte) { base.radix() - 1 } else { 0 }
}

fn put_wild(base: Base, made: u64, digit: u8) -> u64
    ensures { result ≡ put_wild base made digit }
{
    if digit == b'_' {
        return made;
    }
    made.wrapping_mul(base.radix())
        .wrapping_add(wild_digit(base, digit))
}

// The bits on the left of the digits: all, where the first digit stands for any bits.
fn filled(digits: &[u8]) -> u64
    ensures { result ≡ filled digits.now }
{
    match digits {
        [first, ..] if is_wild(*first) => u64::MAX,
        _ => 0,
    }
}

// The bits of the digits that stand for any bits, in 64 bits.
#[tactic(auto, unfolding(crate::specs::Numbers::wild))]
fn wild(base: Base, digits: &[u8]) -> u64
    ensures { result ≡ wild base digits.now }
{
    let mut made = filled(digits);
    for digit in digits {
        made = put_wild(base, made, *digit);
    }
    made
}

// The low bits of a value.
fn cut(value: u64, bits: u8) -> u64
    ensures { result ≡ value % 2 ^ bits }
{
    if bits < 64 {
        value % (1 << bits)
    } else {
        value
    }
}

pub fn size_of(digits: &[u8]) -> Size
    ensures { result ≡ size_of digits.now }
{
    match value(Base::Ten, digits) {
        Some(bits) if 1 <= bits && bits <= 64 => Size::Bits(bits as u8),
        _ => Size::Wrong,
    }
}

fn begins_with_digit(digits: &[u8]) -> bool
    ensures { result ≡ begins_with_digit digits.now }
{
    match digits {
        [first, ..] => *first != b'_',
        [] => false,
    }
}

fn has_digits_alone(base: Base, digits: &[u8]) -> bool
    ensures { result ≡ list_all (is_digit_of base) digits.now }
{
    digits.iter().all(|digit| base.has_digit(*digit))
}

fn is_spelt(base: Base, digits: &[u8]) -> bool
    ensures { result ≡ is_spelt base digits.now }
{
    begins_with_digit(digits) && has_digits_alone(base, digits)
}

fn has_wild(digits: &[u8]) -> bool
    ensures { result ≡ has_wild digits.now }
{
    digits.iter().any(|digit| is_wild(*digit))
}

pub fn has_unknown(digits: &[u8]) -> bool
    ensures { result ≡ has_unknown digits.now }
{
    digits.iter().any(|digit| is_unknown(*digit))
}

fn is_plain(digits: &[u8]) -> bool
    ensures { result ≡ is_plain digits.now }
{
    digits.iter().all(|digit| is_digit(*digit))
}

/// The number without base that digits spell.
pub fn decimal_number(digits: &[u8]) -> Option<Number>
    ensures { result ≡ decimal_number digits.now }
{
    match value(Base::Ten, digits) {
        Some(value) if value < 1 << 32 => Some(Number {
            size: None,
            signed: true,
            value,
            wild: 0,
            wildcard: false,
            plain: is_plain(digits),
        }),
        _ => None,
    }
}

/// The number with a base that digits spell, unless it breaks a rule.
pub fn based_number(size: Size, signed: bool, base: Base, digits: &[u8]) -> Option<Number>
    ensures { result ≡ based_number size signed base digits.now }
{
    if !is_spelt(base, digits) {
        return None;
    }
    match (size, value(base, digits)) {
        (Size::Unsized, Some(value)) if value < 1 << 32 && !has_wild(digits) => Some(Number {
            size: None,
            signed,
            value,
            wild: 0,
            wildcard: false,
            plain: false,
        }),
        (Size::Bits(bits), Some(value)) if !(signed && has_wild(digits)) => Some(Number {
            size: Some(bits),
            signed,
            value: cut(value, bits),
            wild: cut(wild(base, digits), bits),
            wildcard: has_wild(digits),
            plain: false,
        }),
        _ => None,
    }
}
