// What operators make of words.

ghost use Rattle.std.specs.Prelude.{◌≡◌, ◌≢◌, ◌+◌, ◌-◌, ◌%◌, ◌^◌, ◌≤◌, ◌<◌, min, max, ◌&&◌, IfSome, IfNone, nat_eq, nat_le, not, true, false, Bool, int_lt, ℤ, pos, negsuc, ◌≤ℤ◌, ◌<ℤ◌, if◌then◌else◌};
ghost use Rattle.word_core.specs.Words.{word, flag, IsWord};
ghost use Rattle.vlog_tree.specs.Value.{integer, cut, bit, extend};
ghost use Rattle.vlog_tree_values.specs.Operators.{family_of, arithmetic_of, quotient_of, shift_of, order_of, equality_of, logic_of, is_reduction, sign_change_of, reduction_of, left_width, right_width, left_sign, right_sign, joined_width, joined_sign, joined_number, is_joined, places_by_left, places_by_right, sizes_by_left, sizes_by_right, inner_width, inner_sign, made_width, made_sign, made_number, PlacesFit};

use vlog_tree::{Binary, Unary};
use word_core::Word;

/// How an operator takes its two operands.
#[derive(Clone, Copy, PartialEq, Eq)]
pub enum Family {
    /// Both at the length and the sign of the expression.
    Arithmetic,
    /// The same, where the second is a divisor.
    Division,
    /// The first one alone is so.
    Shift,
    /// At the longer length of the two, as integers by their sign.
    Order,
    /// At the longer length of the two, bit by bit.
    Equality,
    /// Each by itself, as a condition.
    Logic,
}

/// How this operator does.
pub fn family_of(op: Binary) -> Family
    ensures { result ≡ family_of op }
{
    match op {
        Binary::Add
        | Binary::Sub
        | Binary::Mul
        | Binary::BitAnd
        | Binary::BitXor
        | Binary::BitXnor
        | Binary::BitOr => Family::Arithmetic,
        Binary::Div | Binary::Rem => Family::Division,
        Binary::Shl | Binary::Shr | Binary::ArithmeticShl | Binary::ArithmeticShr => Family::Shift,
        Binary::Less | Binary::LessEqual | Binary::Greater | Binary::GreaterEqual => Family::Order,
        Binary::Equal | Binary::NotEqual => Family::Equality,
        Binary::LogicalAnd | Binary::LogicalOr => Family::Logic,
    }
}

/// Whether a unary operator's result is one bit.
pub fn is_reduction(op: Unary) -> bool
    ensures { result ≡ is_reduction op }
{
    !matches!(op, Unary::Plus | Unary::Minus | Unary::BitNot)
}

/// The low bits of a number.
pub fn low_bits(number: u64, width: u8) -> Word
    requires some { 1 ≤ width }
    requires most { width ≤ 64 }
    ensures { result ≡ word width number }
{
    Word::slice(Word::new(64, number), 0, width)
}

/// One bit.
pub fn flag(test: bool) -> Word
    ensures { result ≡ flag test }
{
    Word::new(1, u64::from(test))
}

// The difference of two words of one width.
fn difference(a: Word, b: Word) -> Word
    requires { a.width ≡ b.width }
    ensures { result ≡ word a.width (a.value + 2 ^ a.width - b.value) }
{
    // a word's number fits its width
    let _fits = b.value();
    Word::sub(a, b)
}

/// The result of an operator on two words of one width.
pub fn arithmetic(op: Binary, a: Word, b: Word) -> Word
    requires family { family_of op ≡ Family.Arithmetic }
    requires same { a.width ≡ b.width }
    ensures { result ≡ record { width = a.width; value = arithmetic_of op a.width a.value b.value } }
{
    match op {
        Binary::Mul => Word::mul(a, b),
        Binary::Add => Word::add(a, b),
        Binary::Sub => difference(a, b),
        Binary::BitAnd => Word::and(a, b),
        Binary::BitXor => Word::xor(a, b),
        Binary::BitXnor => Word::not(Word::xor(a, b)),
        Binary::BitOr => Word::or(a, b),
        _ => unreachable!(),
    }
}

/// A word at a length that is at least its own: where it is signed, its top bit is repeated.
#[tactic(auto, using(crate::proofs::Signs::extend_is))]
pub fn extended(a: Word, length: u8, signed: bool) -> Word
    requires wider { a.width ≤ length }
    requires most { length ≤ 64 }
    ensures { result ≡ record { width = length; value = extend signed a.width length a.value } }
{
    // a word's number fits its width
    let _fits = a.value();
    Word::extend(a, length, signed)
}

/// The word with its sign changed, its bits turned, or as it is.
pub fn sign_change(op: Unary, a: Word) -> Word
    requires { is_reduction op ≡ false }
    ensures { result ≡ record { width = a.width; value = sign_change_of op a.width a.value } }
{
    match op {
        Unary::Plus => a,
        Unary::Minus => negated(a),
        Unary::BitNot => Word::not(a),
        _ => unreachable!(),
    }
}

fn negated(a: Word) -> Word
    ensures { result ≡ word a.width (2 ^ a.width - a.value) }
{
    // a word's width is from 1 to 64
    let _fits = a.value();
    Word::sub(Word::new(a.width(), 0), a)
}

fn is_ones(a: Word) -> bool
    ensures { result ≡ nat_eq a.value (2 ^ a.width - 1) }
{
    Word::not(a).value() == 0
}

/// The one bit that a unary operator makes of a word.
pub fn reduction(op: Unary, a: Word) -> bool
    requires { is_reduction op ≡ true }
    ensures { result ≡ reduction_of op a.width a.value }
{
    match op {
        Unary::LogicalNot | Unary::ReduceNor => a.value() == 0,
        Unary::ReduceOr => a.value() != 0,
        Unary::ReduceAnd => is_ones(a),
        Unary::ReduceNand => !is_ones(a),
        Unary::ReduceXor => a.value().count_ones() % 2 == 1,
        Unary::ReduceXnor => a.value().count_ones() % 2 == 0,
        _ => unreachable!(),
    }
}

/// A word moved by the number of another, which has any width; `>>>` repeats the top bit where the word is signed.
pub fn shifted(op: Binary, a: Word, b: Word, signed: bool) -> Word
    requires { family_of op ≡ Family.Shift }
    ensures { result ≡ record { width = a.width; value = shift_of op a.width signed a.value (min b.value a.width) } }
{
    match op {
        Binary::Shl | Binary::ArithmeticShl => Word::shl(a, b),
        Binary::Shr => Word::shr(a, b),
        Binary::ArithmeticShr => moved_down(a, b, signed),
        _ => unreachable!(),
    }
}

#[tactic(auto, using(crate::proofs::Signs::sar_is, crate::proofs::Signs::shr_is))]
fn moved_down(a: Word, b: Word, signed: bool) -> Word
    ensures { result ≡ record {
      width = a.width;
      value = shift_of Binary.ArithmeticShr a.width signed a.value
          (min b.value a.width);
    } }
{
    // a word's number fits its width
    let _fits = a.value();
    if signed {
        Word::sar(a, b)
    } else {
        Word::shr(a, b)
    }
}

#[tactic(auto, using(crate::proofs::Signs::signed_less))]
fn is_less(a: Word, b: Word, signed: bool) -> bool
    requires { a.width ≡ b.width }
    ensures { result ≡ int_lt (integer signed a.width a.value) (integer signed b.width b.value) }
{
    // a word's number fits its width
    let _fits = (a.value(), b.value());
    let test = if signed {
        Word::slt(a, b)
    } else {
        Word::ult(a, b)
    };
    test.value() == 1
}

/// How two words of one width compare as integers by their sign.
#[tactic(auto, using(crate::proofs::Signs::le_is))]
pub fn is_ordered(op: Binary, a: Word, b: Word, signed: bool) -> bool
    requires family { family_of op ≡ Family.Order }
    requires same { a.width ≡ b.width }
    ensures { result ≡ order_of op (integer signed a.width a.value) (integer signed b.width b.value) }
{
    match op {
        Binary::Less => is_less(a, b, signed),
        Binary::LessEqual => !is_less(b, a, signed),
        Binary::Greater => is_less(b, a, signed),
        Binary::GreaterEqual => !is_less(a, b, signed),
        _ => unreachable!(),
    }
}

/// Whether two words have the same number, or not the same.
pub fn is_equal(op: Binary, a: Word, b: Word) -> bool
    requires { family_of op ≡ Family.Equality }
    ensures { result ≡ equality_of op a.value b.value }
{
    match op {
        Binary::Equal => a.value() == b.value(),
        Binary::NotEqual => a.value() != b.value(),
        _ => unreachable!(),
    }
}

/// Whether both conditions hold, or one does.
pub fn holds(op: Binary, a: bool, b: bool) -> bool
    requires { family_of op ≡ Family.Logic }
    ensures { result ≡ logic_of op a b }
{
    match op {
        Binary::LogicalAnd => a && b,
        Binary::LogicalOr => a || b,
        _ => unreachable!(),
    }
}

/// The integer that a word stands for by its sign.
pub fn integer(a: Word, signed: bool) -> i128
    ensures value { result ≡ integer signed a.width a.value }
    ensures low { negsuc (2 ^ 64) ≤ℤ result }
    ensures high { result <ℤ pos (2 ^ 64) }
{
    if signed && is_top_set(a) {
        return -1 - i128::from(Word::not(a).value());
    }
    i128::from(a.value())
}

fn is_top_set(a: Word) -> bool
    ensures { result ≡ nat_le (2 ^ (a.width - 1)) a.value }
{
    // a word's width is from 1 to 64
    let _fits = a.value();
    Word::slice(a, a.width() - 1, 1).value() == 1
}

/// An integer modulo 2 to the width.
pub fn cut(width: u8, number: i128) -> Word
    requires some { 1 ≤ width }
    requires most { width ≤ 64 }
    requires low { negsuc (2 ^ 64 - 1) ≤ℤ number }
    requires high { number <ℤ pos (2 ^ 64) }
    ensures { result ≡ record { width = width; value = cut width number } }
{
    if number < 0 {
        return Word::not(low_bits((-1 - number) as u64, width));
    }
    low_bits(number as u64, width)
}

/// The quotient of two words of one width, or the remainder, as integers by their sign.
pub fn quotient(op: Binary, a: Word, b: Word, signed: bool) -> Word
    requires family { family_of op ≡ Family.Division }
    requires same { a.width ≡ b.width }
    requires divisor { b.value ≢ 0 }
    ensures { result ≡ record {
      width = a.width;
      value = cut a.width
          (quotient_of op (integer signed a.width a.value) (integer signed b.width b.value));
    } }
{
    let dividend = integer(a, signed);
    let divisor = integer(b, signed);
    match op {
        Binary::Div => cut(a.width(), dividend / divisor),
        Binary::Rem => cut(a.width(), dividend % divisor),
        _ => unreachable!(),
    }
}

/// Which operands' own lengths and signs count for something.
#[derive(Clone, Copy)]
pub struct Counting {
    pub left: bool,
    pub right: bool,
}

/// Which ones say where an operator of this family takes its operands.
pub fn placing(family: Family) -> Counting
    ensures left { result.left ≡ places_by_left family }
    ensures right { result.right ≡ places_by_right family }
{
    match family {
        Family::Arithmetic | Family::Division => Counting {
            left: false,
            right: false,
        },
        Family::Shift => Counting {
            left: false,
            right: true,
        },
        Family::Order | Family::Equality | Family::Logic => Counting {
            left: true,
            right: true,
        },
    }
}

/// Which ones say what length and sign its expression has by itself.
pub fn sizing(family: Family) -> Counting
    ensures left { result.left ≡ sizes_by_left family }
    ensures right { result.right ≡ sizes_by_right family }
{
    match family {
        Family::Arithmetic | Family::Division => Counting {
            left: true,
            right: true,
        },
        Family::Shift => Counting {
            left: true,
            right: false,
        },
        Family::Order | Family::Equality | Family::Logic => Counting {
            left: false,
            right: false,
        },
    }
}

/// The length and the sign at which an operator of this family takes its left operand, from those of the expression and
/// of both operands.
pub fn left_place(
    family: Family,
    here: (u8, bool),
    left: (u8, bool),
    right: (u8, bool),
) -> (u8, bool)
    ensures width { result.0 ≡ left_width family here.0 left.0 right.0 }
    ensures sign { result.1 ≡ left_sign family here.1 left.1 right.1 }
{
    match family {
        Family::Arithmetic | Family::Division | Family::Shift => here,
        Family::Order | Family::Equality => longer(left, right),
        Family::Logic => left,
    }
}

/// The same of its right operand.
pub fn right_place(
    family: Family,
    here: (u8, bool),
    left: (u8, bool),
    right: (u8, bool),
) -> (u8, bool)
    ensures width { result.0 ≡ right_width family here.0 left.0 right.0 }
    ensures sign { result.1 ≡ right_sign family here.1 left.1 right.1 }
{
    match family {
        Family::Arithmetic | Family::Division => here,
        Family::Order | Family::Equality => longer(left, right),
        Family::Shift | Family::Logic => right,
    }
}

/// The longer length, and whether both are signed.
pub fn longer(left: (u8, bool), right: (u8, bool)) -> (u8, bool)
    ensures width { result.0 ≡ max left.0 right.0 }
    ensures sign { result.1 ≡ (left.1 && right.1) }
{
    (left.0.max(right.0), left.1 && right.1)
}

/// The length and the sign of two operands' expression by itself.
pub fn joined_shape(family: Family, left: (u8, bool), right: (u8, bool)) -> (u8, bool)
    ensures width { result.0 ≡ joined_width family left.0 right.0 }
    ensures sign { result.1 ≡ joined_sign family left.1 right.1 }
{
    match family {
        Family::Arithmetic | Family::Division => longer(left, right),
        Family::Shift => left,
        Family::Order | Family::Equality | Family::Logic => (1, false),
    }
}

// One bit at a length.
fn one_bit(test: bool, length: u8) -> Word
    requires some { 1 ≤ length }
    requires most { length ≤ 64 }
    ensures { result ≡ record { width = length; value = bit test } }
{
    extended(flag(test), length, false)
}

/// The word of an operator at the length and the sign of its expression, from those of its operands, the left one being
/// taken at the sign `sign`; none where the right one is a divisor and 0.
pub fn joined(op: Binary, here: (u8, bool), sign: bool, left: Word, right: Word) -> Option<Word>
    requires some { 1 ≤ here.0 }
    requires most { here.0 ≤ 64 }
    requires fits { PlacesFit (family_of op) here.0 left.width right.width }
    ensures some { IfSome result (λ w. (is_joined (family_of op) true true right.value ≡ true) ×
        (w ≡ record {
          width = here.0;
          value = joined_number
              (family_of op) op here.0 here.1 left.width sign left.value right.value;
        })) }
    ensures none { IfNone result (is_joined (family_of op) true true right.value ≡ false) }
{
    match family_of(op) {
        Family::Arithmetic => Some(arithmetic(op, left, right)),
        Family::Division => divided(op, left, right, here.1),
        Family::Shift => Some(shifted(op, left, right, here.1)),
        Family::Order => Some(one_bit(is_ordered(op, left, right, sign), here.0)),
        Family::Equality => Some(one_bit(is_equal(op, left, right), here.0)),
        Family::Logic => {
            let both = holds(op, left.value() != 0, right.value() != 0);
            Some(one_bit(both, here.0))
        }
    }
}

fn divided(op: Binary, left: Word, right: Word, signed: bool) -> Option<Word>
    requires family { family_of op ≡ Family.Division }
    requires same { left.width ≡ right.width }
    ensures some { IfSome result (λ w. (nat_eq right.value 0 ≡ false) ×
        (w ≡ record { width = left.width; value = joined_number Family.Division op left.width signed left.width signed left.value right.value })) }
    ensures none { IfNone result (nat_eq right.value 0 ≡ true) }
{
    if right.value() == 0 {
        return None;
    }
    Some(quotient(op, left, right, signed))
}

/// Where a unary operator takes its operand, from the length and the sign of the expression and the operand's.
pub fn inner_place(op: Unary, here: (u8, bool), inner: (u8, bool)) -> (u8, bool)
    ensures width { result.0 ≡ inner_width op here.0 inner.0 }
    ensures sign { result.1 ≡ inner_sign op here.1 inner.1 }
{
    if is_reduction(op) { inner } else { here }
}

/// The length and the sign of a unary operator's expression by itself.
pub fn made_shape(op: Unary, inner: (u8, bool)) -> (u8, bool)
    ensures width { result.0 ≡ made_width op inner.0 }
    ensures sign { result.1 ≡ made_sign op inner.1 }
{
    if is_reduction(op) { (1, false) } else { inner }
}

/// The word of a unary operator at a length.
pub fn made(op: Unary, length: u8, inner: Word) -> Word
    requires some { 1 ≤ length }
    requires most { length ≤ 64 }
    requires fits { is_reduction op ≡ false → inner.width ≡ length }
    ensures { result ≡ record { width = length; value = made_number op inner.width inner.value } }
{
    if is_reduction(op) {
        return one_bit(reduction(op, inner), length);
    }
    sign_change(op, inner)
}
