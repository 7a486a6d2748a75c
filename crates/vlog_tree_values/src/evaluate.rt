// Lengths, signs and values of expressions.

ghost use Rattle.std.specs.Prelude.{◌≡◌, nat_eq, true, false, if◌then◌else◌, ℕ, ◌+◌, ◌*◌, ◌^◌, ◌≤◌, ◌<◌, Bool, IsTrue, IfSome, IfNone, List, ℤ, pos, negsuc, ◌≤ℤ◌, ◌<ℤ◌};
ghost use Rattle.vlog_tree.specs.Valuation.{IsLength};
ghost use Rattle.vlog_tree.specs.Value.{IsFormed, IsDefined, width_of, sign_of, value_of, own_value, own_integer, own_defined, own, operand_of, part_width, natural, cast_sign, bits_of, integer};
ghost use Rattle.vlog_tree_values.specs.Shapes.{HasShape, HasOwn, HasValue, IsReady, HasBound, NeedsBound, HasRow, each_formed, each_row, copy_number, HasRowWord, FitsPart, part_word, select_word, IsRow};

use crate::names::{depth_of, is_length, number_width, standing, word_value};
use crate::operators::{
    extended, family_of, inner_place, integer, is_reduction, joined, joined_shape, left_place,
    longer, low_bits, made, made_shape, placing, right_place, sizing,
};
use crate::selects::{bits, part_low, part_width};
use sqlite_items::{Boxed, Items};
use vlog_tree::{Cast, Constant, Expr, Name, Span, Valuation};
use word_core::Word;

// The value of an expression by itself, and its sign.
#[derive(Clone, Copy)]
struct Own {
    word: Word,
    signed: bool,
}

// The length and the sign of a select of one bit, or of a memory's word.
fn select_shape(vector: Constant, depth: u8) -> (u8, bool)
    ensures width { result.0 ≡ (if nat_eq depth 0 then 1 else vector.width) }
    ensures sign { result.1 ≡ false }
{
    if depth == 0 {
        (1, false)
    } else {
        (vector.width, false)
    }
}

/// Whether a cast makes a value signed.
pub fn is_signed(cast: Cast) -> bool
    ensures { result ≡ cast_sign cast }
{
    match cast {
        Cast::Signed => true,
        Cast::Unsigned => false,
    }
}

/// The length and the sign that an expression has by itself; none where it isn't well formed.
#[cycle(evaluation)]
pub fn shape_of(expr: &Expr, valuation: &Valuation) -> Option<(u8, bool)>
    ensures some { IfSome result (λ s. HasShape valuation.now expr.now s.0 s.1) }
    ensures none { IfNone result (IsFormed valuation.now expr.now → ⊥) }
{
    match expr {
        Expr::Number(number) => {
            let width = number_width(number);
            if !is_length(width) {
                return None;
            }
            Some((width, number.signed))
        }
        Expr::Name(name) => {
            let vector = standing(name, valuation)?;
            Some((vector.width, vector.signed))
        }
        Expr::Select(name, index) => {
            let vector = standing(name, valuation)?;
            shape_of(index.get(), valuation)?;
            Some(select_shape(vector, depth_of(name, valuation)))
        }
        Expr::Part(name, span, a, b) => {
            let vector = standing(name, valuation)?;
            let a = bound(a.get(), *span, valuation)?;
            let b = taken(b.get(), valuation)?;
            let width = part_width(vector, *span, a, integer(b.word, b.signed))?;
            Some((width, false))
        }
        Expr::ConstantSelect(vector, index) => {
            if !is_length(vector.width) {
                return None;
            }
            shape_of(index.get(), valuation)?;
            Some((1, false))
        }
        Expr::ConstantPart(vector, span, a, b) => {
            if !is_length(vector.width) {
                return None;
            }
            let a = bound(a.get(), *span, valuation)?;
            let b = taken(b.get(), valuation)?;
            let width = part_width(*vector, *span, a, integer(b.word, b.signed))?;
            Some((width, false))
        }
        Expr::Cast(cast, inner) => {
            let inner = shape_of(inner.get(), valuation)?;
            Some((inner.0, is_signed(*cast)))
        }
        Expr::Paren(inner) => shape_of(inner.get(), valuation),
        Expr::Unary(op, inner) => {
            let inner = shape_of(inner.get(), valuation)?;
            Some(made_shape(*op, inner))
        }
        Expr::Binary(op, a, b) => {
            let left = shape_of(a.get(), valuation)?;
            let right = shape_of(b.get(), valuation)?;
            Some(joined_shape(family_of(*op), left, right))
        }
        Expr::Choice(condition, a, b) => {
            shape_of(condition.get(), valuation)?;
            let left = shape_of(a.get(), valuation)?;
            let right = shape_of(b.get(), valuation)?;
            Some(longer(left, right))
        }
        Expr::Concat(items) => {
            let width = row_width(items.as_slice(), valuation)?;
            if !is_length(width) {
                return None;
            }
            Some((width, false))
        }
        Expr::Repeat(count, items) => {
            let count = taken(count.get(), valuation)?;
            let row = row_width(items.as_slice(), valuation)?;
            let width = copies_width(integer(count.word, count.signed), row)?;
            Some((width, false))
        }
    }
}

// The length and the sign that a well-formed expression has by itself. Operands on which they don't depend aren't
// looked at: those of a comparison and of a reduction, a condition, the index of a constant's bit. Any other select, a
// part-select and a concatenation are looked at whole.
#[cycle(evaluation)]
fn own_shape(expr: &Expr, valuation: &Valuation) -> (u8, bool)
    requires { IsFormed valuation.now expr.now }
    ensures { HasShape valuation.now expr.now result.0 result.1 }
{
    match expr {
        Expr::ConstantSelect(_, _) => (1, false),
        Expr::Cast(cast, inner) => {
            let inner = own_shape(formed(inner, valuation), valuation);
            (inner.0, is_signed(*cast))
        }
        Expr::Paren(inner) => own_shape(formed(inner, valuation), valuation),
        Expr::Unary(op, inner) => {
            if is_reduction(*op) {
                return (1, false);
            }
            own_shape(formed(inner, valuation), valuation)
        }
        Expr::Binary(op, a, b) => {
            let family = family_of(*op);
            let counting = sizing(family);
            let left = shape_where(formed(a, valuation), counting.left, valuation);
            let right = shape_where(formed(b, valuation), counting.right, valuation);
            joined_shape(family, left, right)
        }
        Expr::Choice(_, a, b) => {
            let left = own_shape(formed(a, valuation), valuation);
            let right = own_shape(formed(b, valuation), valuation);
            longer(left, right)
        }
        Expr::Number(_)
        | Expr::Name(_)
        | Expr::Select(_, _)
        | Expr::Part(_, _, _, _)
        | Expr::ConstantPart(_, _, _, _)
        | Expr::Concat(_)
        | Expr::Repeat(_, _) => match shape_of(expr, valuation) {
            Some(shape) => shape,
            None => unreachable!(),
        },
    }
}

// The same where it counts. Else the expression isn't looked at, and one bit stands for it.
#[cycle(evaluation)]
fn shape_where(expr: &Expr, counts: bool, valuation: &Valuation) -> (u8, bool)
    requires { IsFormed valuation.now expr.now }
    ensures { counts ≡ true → HasShape valuation.now expr.now result.0 result.1 }
{
    if counts {
        own_shape(expr, valuation)
    } else {
        (1, false)
    }
}

// A number of a part-select: in `[a:b]` it has to be defined, as a base its value doesn't count here.
#[cycle(evaluation)]
fn bound(expr: &Expr, span: Span, valuation: &Valuation) -> Option<i128>
    ensures some { IfSome result (λ i. HasBound valuation.now expr.now span i) }
    ensures low { IfSome result (λ i. negsuc (2 ^ 64) ≤ℤ i) }
    ensures high { IfSome result (λ i. i <ℤ pos (2 ^ 64)) }
    ensures none { IfNone result (NeedsBound valuation.now expr.now span → ⊥) }
{
    match span {
        Span::Fixed => {
            let own = taken(expr, valuation)?;
            Some(integer(own.word, own.signed))
        }
        Span::Up | Span::Down => {
            shape_of(expr, valuation)?;
            Some(0)
        }
    }
}

// The value of an expression by itself; none where it isn't well formed or a divisor is 0.
#[cycle(evaluation)]
fn taken(expr: &Expr, valuation: &Valuation) -> Option<Own>
    ensures some { IfSome result (λ o. HasOwn valuation.now expr.now o.word o.signed) }
    ensures none { IfNone result (IsFormed valuation.now expr.now →
        IsTrue (own_defined (operand_of valuation.now expr.now)) → ⊥) }
{
    let (width, signed) = shape_of(expr, valuation)?;
    let word = value_at(expr, (width, signed), valuation)?;
    Some(Own { word, signed })
}

// The bits of a row of expressions, if they are at most 64.
#[cycle(evaluation)]
fn row_width(items: &[Expr], valuation: &Valuation) -> Option<u8>
    ensures some { IfSome result (λ n. HasRow valuation.now items.now n) }
    ensures none { IfNone result (each_formed valuation.now items.now → (each_row valuation.now items.now).width ≤ 64 →
        ⊥) }
{
    let mut width = 0;
    for item in items {
        let (more, _) = shape_of(item, valuation)?;
        if 64 - width < more {
            return None;
        }
        width += more;
    }
    Some(width)
}

// How many bits so many copies of so many bits have, if they are from 1 to 64.
fn copies_width(count: i128, width: u8) -> Option<u8>
    requires { width ≤ 64 }
    ensures some { IfSome result (λ n. (n ≡ natural count * width) × IsLength n) }
    ensures none { IfNone result (IsLength (natural count * width) → ⊥) }
{
    if count < 1 || 64 < count {
        return None;
    }
    let all = count * i128::from(width);
    if all < 1 || 64 < all {
        return None;
    }
    Some(all as u8)
}

// The value of an expression at a length and a sign; none where a divisor is 0.
#[cycle(evaluation)]
fn value_at(expr: &Expr, here: (u8, bool), valuation: &Valuation) -> Option<Word>
    requires { IsReady valuation.now expr.now here.0 }
    ensures some { IfSome result (λ w. HasValue valuation.now expr.now here.0 here.1 w) }
    ensures none { IfNone result (IsDefined valuation.now expr.now here.0 here.1 → ⊥) }
{
    match expr {
        Expr::Number(number) => {
            let word = low_bits(number.value, number_width(number));
            Some(extended(word, here.0, here.1))
        }
        Expr::Name(name) => {
            let vector = standing(name, valuation)?;
            Some(extended(whole(vector), here.0, here.1))
        }
        Expr::Select(name, index) => {
            let vector = standing(name, valuation)?;
            let index = taken(index.get(), valuation)?;
            Some(extended(selected(name, vector, index, valuation), here.0, false))
        }
        Expr::Part(name, span, a, b) => {
            let vector = standing(name, valuation)?;
            let a = taken(a.get(), valuation)?;
            let b = taken(b.get(), valuation)?;
            Some(extended(part(vector, *span, a, b)?, here.0, false))
        }
        Expr::ConstantSelect(vector, index) => {
            let index = taken(index.get(), valuation)?;
            Some(extended(bit_at(*vector, index), here.0, false))
        }
        Expr::ConstantPart(vector, span, a, b) => {
            let a = taken(a.get(), valuation)?;
            let b = taken(b.get(), valuation)?;
            Some(extended(part(*vector, *span, a, b)?, here.0, false))
        }
        Expr::Cast(_, inner) => {
            let inner = taken(inner.get(), valuation)?;
            Some(extended(inner.word, here.0, here.1))
        }
        Expr::Paren(inner) => value_at(operand(inner, here.0, valuation), here, valuation),
        Expr::Unary(op, inner) => {
            let own = shape_where(formed(inner, valuation), is_reduction(*op), valuation);
            let place = inner_place(*op, here, own);
            let inner = value_at(operand(inner, place.0, valuation), place, valuation)?;
            Some(made(*op, here.0, inner))
        }
        Expr::Binary(op, a, b) => {
            let family = family_of(*op);
            let counting = placing(family);
            let m = shape_where(formed(a, valuation), counting.left, valuation);
            let n = shape_where(formed(b, valuation), counting.right, valuation);
            let left = left_place(family, here, m, n);
            let right = right_place(family, here, m, n);
            let a = value_at(operand(a, left.0, valuation), left, valuation)?;
            let b = value_at(operand(b, right.0, valuation), right, valuation)?;
            joined(*op, here, left.1, a, b)
        }
        Expr::Choice(condition, a, b) => {
            let condition = taken(condition.get(), valuation)?;
            let a = value_at(operand(a, here.0, valuation), here, valuation)?;
            let b = value_at(operand(b, here.0, valuation), here, valuation)?;
            Some(chosen(condition, a, b))
        }
        Expr::Concat(items) => {
            let row = row_word(row(items, valuation), valuation)?;
            Some(extended(row, here.0, false))
        }
        Expr::Repeat(count, items) => {
            let count = taken(count.get(), valuation)?;
            let row = row_word(row(items, valuation), valuation)?;
            let all = copies(integer(count.word, count.signed), row)?;
            Some(extended(all, here.0, false))
        }
    }
}

// The bits of a row of expressions, joined; none where a divisor is 0.
#[cycle(evaluation)]
fn row_word(items: &[Expr], valuation: &Valuation) -> Option<Word>
    requires { IsRow valuation.now items.now }
    ensures some { IfSome result (λ w. HasRowWord valuation.now items.now w) }
    ensures none { IfNone result (IsTrue (own_defined (each_row valuation.now items.now)) → ⊥) }
{
    let mut width = 0;
    let mut number = 0;
    for item in items {
        let low = taken(item, valuation)?.word;
        number = appended(width, number, low);
        width += low.width();
    }
    Some(Word::new(width, number))
}

// A number of so many bits, and a word below it.
fn appended(width: u8, number: u64, low: Word) -> u64
    requires most { width + low.width ≤ 64 }
    requires fits { number < 2 ^ width }
    ensures value { result ≡ number * 2 ^ low.width + low.value }
    ensures fits { result < 2 ^ (width + low.width) }
{
    if width == 0 {
        return low.value();
    }
    Word::concat(Word::new(width, number), low).value()
}

// So many copies of a word, if there is at least one and they fit 64 bits.
fn copies(count: i128, word: Word) -> Option<Word>
    ensures some { IfSome result (λ w. (w.width ≡ natural count * word.width) ×
        (w.value ≡ copy_number (natural count) word.width word.value)) }
    ensures none { IfNone result (IsLength (natural count * word.width) → ⊥) }
{
    // a word has at least one bit
    let _fits = word.value();
    let _width = copies_width(count, word.width())?;
    Some(repeated(count as u8, word))
}

fn repeated(count: u8, word: Word) -> Word
    requires some { 1 ≤ count }
    requires most { count * word.width ≤ 64 }
    ensures width { result.width ≡ count * word.width }
    ensures value { result.value ≡ copy_number count word.width word.value }
{
    let mut all = word;
    for copy in 1..count {
        all = Word::concat(word, all);
    }
    all
}

// The value of a vector.
fn whole(vector: Constant) -> Word
    requires length { IsLength vector.width }
    requires fits { vector.value < 2 ^ vector.width }
    ensures { result ≡ record { width = vector.width; value = vector.value } }
{
    Word::new(vector.width, vector.value)
}

// The bit of a vector, or the word of a memory, that an index names.
fn selected(name: &Name, vector: Constant, index: Own, valuation: &Valuation) -> Word
    requires { IsLength vector.width }
    ensures { result ≡ select_word valuation.now name.now vector
        (integer index.signed index.word.width index.word.value) index.word.value }
{
    let depth = depth_of(name, valuation);
    if depth == 0 {
        return bit_at(vector, index);
    }
    let at = index.word.value();
    if at < u64::from(depth) {
        return low_bits(word_value(name, at, valuation), vector.width);
    }
    Word::new(vector.width, 0)
}

// The bit of a vector that an index names.
fn bit_at(vector: Constant, index: Own) -> Word
    requires { IsLength vector.width }
    ensures { result ≡ record {
      width = 1;
      value = bits_of vector
          (integer index.signed index.word.width index.word.value) 1;
    } }
{
    bits(vector, integer(index.word, index.signed), 1)
}

// The bits of a vector that a part-select names.
fn part(vector: Constant, span: Span, a: Own, b: Own) -> Option<Word>
    requires { IsLength vector.width }
    ensures some { IfSome result (λ w. w ≡ part_word vector span (integer a.signed a.word.width a.word.value)
        (integer b.signed b.word.width b.word.value)) }
    ensures none { IfNone result (FitsPart vector span (integer a.signed a.word.width a.word.value)
        (integer b.signed b.word.width b.word.value) → ⊥) }
{
    let a = integer(a.word, a.signed);
    let b = integer(b.word, b.signed);
    let width = part_width(vector, span, a, b)?;
    Some(bits(vector, part_low(span, a, b), width))
}

// One of two words, by a condition.
fn chosen(condition: Own, a: Word, b: Word) -> Word
    ensures { result ≡ (if nat_eq condition.word.value 0 then b else a) }
{
    if condition.word.value() == 0 { b } else { a }
}

/// The value of an expression at a length and a sign, as they come from the expression that it stands in.
pub fn value(expr: &Expr, length: u8, signed: bool, valuation: &Valuation) -> Word
    requires formed { IsFormed valuation.now expr.now }
    requires long { width_of valuation.now expr.now ≤ length }
    requires most { length ≤ 64 }
    requires defined { IsDefined valuation.now expr.now length signed }
    ensures width { result.width ≡ length }
    ensures value { result.value ≡ value_of valuation.now expr.now length signed }
{
    match shape_of(expr, valuation) {
        Some(_) => match value_at(expr, (length, signed), valuation) {
            Some(word) => word,
            None => unreachable!(),
        },
        None => unreachable!(),
    }
}

/// The value of an expression by itself.
pub fn own_value(expr: &Expr, valuation: &Valuation) -> Word
    requires formed { IsFormed valuation.now expr.now }
    requires defined { IsDefined valuation.now expr.now (width_of valuation.now expr.now)
        (sign_of valuation.now expr.now) }
    ensures width { result.width ≡ width_of valuation.now expr.now }
    ensures value { result.value ≡ own_value valuation.now expr.now }
{
    match taken(expr, valuation) {
        Some(own) => own.word,
        None => unreachable!(),
    }
}

// A row of expressions that is taken.
fn row<'a>(items: &'a Items<Expr>, valuation: &Valuation) -> &'a [Expr]
    requires { IsRow valuation.now items.now }
    ensures same { result.now ≡ items.now }
    ensures ready { IsRow valuation.now result.now }
{
    let _valuation = valuation;
    items.as_slice()
}

// A part of an expression that is well formed.
fn formed<'a>(boxed: &'a Boxed<Expr>, valuation: &Valuation) -> &'a Expr
    requires { IsFormed valuation.now boxed.now }
    ensures same { result.now ≡ boxed.now }
    ensures formed { IsFormed valuation.now result.now }
{
    let _valuation = valuation;
    boxed.get()
}

// A part of an expression that is taken at a length.
fn operand<'a>(boxed: &'a Boxed<Expr>, length: u8, valuation: &Valuation) -> &'a Expr
    requires { IsReady valuation.now boxed.now length }
    ensures same { result.now ≡ boxed.now }
    ensures ready { IsReady valuation.now result.now length }
{
    let _valuation = valuation;
    let _length = length;
    boxed.get()
}

/// The value of an expression at a length and a sign; none where a divisor is 0 there.
pub fn checked_value(expr: &Expr, length: u8, signed: bool, valuation: &Valuation) -> Option<Word>
    requires formed { IsFormed valuation.now expr.now }
    requires long { width_of valuation.now expr.now ≤ length }
    requires most { length ≤ 64 }
    ensures some { IfSome result (λ w. HasValue valuation.now expr.now length signed w) }
    ensures none { IfNone result (IsDefined valuation.now expr.now length signed → ⊥) }
{
    match shape_of(expr, valuation) {
        Some(_) => value_at(expr, (length, signed), valuation),
        None => unreachable!(),
    }
}

/// The value of an expression by itself, and its sign; none where it isn't well formed or a divisor is 0.
pub fn checked_own_value(expr: &Expr, valuation: &Valuation) -> Option<(Word, bool)>
    ensures some { IfSome result (λ own. HasOwn valuation.now expr.now own.0 own.1) }
    ensures none { IfNone result (IsFormed valuation.now expr.now →
        IsDefined valuation.now expr.now (width_of valuation.now expr.now) (sign_of valuation.now expr.now) → ⊥) }
{
    let own = taken(expr, valuation)?;
    Some((own.word, own.signed))
}
