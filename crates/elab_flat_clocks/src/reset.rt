// The conditions of asynchronous resets (IEEE 1364.1-2002, section 5.2.2).

ghost use Rattle.std.specs.Prelude.{◌≡◌, nat_eq};
ghost use Rattle.std.specs.Option.{option_map};
ghost use Rattle.elab_flat_faults.specs.Clocks.{is_bit, reset_if, negated, level_of, reset_of};
ghost use Rattle.elab_flat_clocks.specs.Timings.{reset_meant, is_not, is_equal};

use crate::head::{Head, head_of};
use outside::Text;
use vlog_tree::{Binary, Expr, Number, Unary};

/// A reset and the level at which it is active.
#[derive(Clone, Copy)]
pub struct Reset<'a> {
    pub name: &'a Text,
    pub high: bool,
}

// Whether a number is an unsigned one of one bit.
fn is_bit(number: &Number) -> bool
    ensures { result ≡ is_bit number.now }
{
    match number.size {
        Some(size) => size == 1 && !number.signed && !number.wildcard,
        None => false,
    }
}

fn is_not(op: Unary) -> bool
    ensures { result ≡ is_not op }
{
    match op {
        Unary::LogicalNot => true,
        Unary::BitNot => true,
        _ => false,
    }
}

fn is_equal(op: Binary) -> bool
    ensures { result ≡ is_equal op }
{
    match op {
        Binary::Equal => true,
        _ => false,
    }
}

// `!r` and `~r`
fn negated(op: Unary, operand: &Expr) -> Option<Reset<'_>>
    ensures { option_map reset_meant result ≡ negated op operand.now }
{
    if !is_not(op) {
        return None;
    }
    match head_of(operand) {
        Head::Name(name) => Some(Reset { name, high: false }),
        Head::Number(_) => None,
        Head::Unary(_, _) => None,
        Head::Binary(_, _, _) => None,
        Head::Other => None,
    }
}

fn at_level<'a>(name: &'a Text, number: &Number) -> Option<Reset<'a>>
    ensures { option_map reset_meant result ≡ reset_if (is_bit number.now) name.now (nat_eq number.now.value 1) }
{
    if is_bit(number) {
        Some(Reset {
            name,
            high: number.value == 1,
        })
    } else {
        None
    }
}

// `r == 1'b0` and `r == 1'b1`
fn level_of<'a>(op: Binary, a: &'a Expr, b: &Expr) -> Option<Reset<'a>>
    ensures { option_map reset_meant result ≡ level_of op a.now b.now }
{
    if !is_equal(op) {
        return None;
    }
    match head_of(a) {
        Head::Name(name) => match head_of(b) {
            Head::Number(number) => at_level(name, number),
            Head::Name(_) => None,
            Head::Unary(_, _) => None,
            Head::Binary(_, _, _) => None,
            Head::Other => None,
        },
        Head::Number(_) => None,
        Head::Unary(_, _) => None,
        Head::Binary(_, _, _) => None,
        Head::Other => None,
    }
}

/// The reset that a condition tests, with the level at which it is active; none where the condition isn't one of the
/// forms.
pub fn reset_of(condition: &Expr) -> Option<Reset<'_>>
    ensures { option_map reset_meant result ≡ reset_of condition.now }
{
    match head_of(condition) {
        Head::Name(name) => Some(Reset { name, high: true }),
        Head::Number(_) => None,
        Head::Unary(op, a) => negated(op, a),
        Head::Binary(op, a, b) => level_of(op, a, b),
        Head::Other => None,
    }
}
