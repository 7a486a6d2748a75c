// Lengths, signs and values of expressions.
ghost use Rattle.std.specs.Prelude.{◌^◌, ◌<◌, ◌≤◌};

use outside::Text;
use std::alloc::{AllocError, Global};
use std::fmt::Write;
use vlog_read_expr::read_tree;
use vlog_read_lex::read_tokens;
use vlog_tree::{Entry, Expr, Token, Valuation};
use vlog_tree_values::{evaluated_at, measured};

// The length and `s` or `u`, and the value at that length or at `length` if that is longer.
fn show(
    alloc: Global,
    out: &mut String,
    expr: &Expr,
    length: u8,
    valuation: &Valuation,
) -> Result<(), AllocError>
    requires { length ≤ 64 }
{
    let (width, signed) = match measured(alloc, expr, valuation)? {
        Some(shape) => shape,
        None => return out.push_str("none"),
    };
    let sign = if signed { 's' } else { 'u' };
    match evaluated_at(alloc, expr, length.max(width), signed, valuation)? {
        Some(word) => {
            let value = word.value();
            write!(out, "{width}{sign} {value}")
        }
        None => out.push_str("divided by 0"),
    }
}

fn show_tree(
    alloc: Global,
    out: &mut String,
    tokens: &[Token],
    length: u8,
    valuation: &Valuation,
) -> Result<(), AllocError>
    requires { length ≤ 64 }
{
    match read_tree(alloc, false, tokens, 0, 500) {
        Ok(parsed) => {
            let shown = show(alloc, out, &parsed.tree, length, valuation);
            // a call, since a proof would write out the drop of the tree here
            drop(parsed);
            shown
        }
        Err(_) => out.push_str("unread"),
    }
}

fn show_text(
    alloc: Global,
    out: &mut String,
    text: &[u8],
    length: u8,
    valuation: &Valuation,
) -> Result<(), AllocError>
    requires { length ≤ 64 }
{
    match read_tokens(alloc, text, false) {
        Ok(tokens) => show_tree(alloc, out, tokens.as_slice(), length, valuation),
        Err(_) => out.push_str("unread"),
    }
}

/// The length, the sign and the value of the expression that a text of a module spells, where its names stand for what
/// the valuation says: at its own length, or at `length` bits where that is more. `unread` where it spells none.
pub fn shown(
    alloc: Global,
    text: &[u8],
    length: u8,
    valuation: &Valuation,
) -> Result<String, AllocError>
    requires { length ≤ 64 }
{
    let mut out = String::new(alloc);
    show_text(alloc, &mut out, text, length, valuation)?;
    Ok(out)
}

// A name of a row, with its lowest bit.
fn add(
    alloc: Global,
    valuation: &mut Valuation,
    name: &[u8],
    width: u8,
    low: u64,
    value: u64,
) -> Result<(), AllocError>
    requires some { 1 ≤ width }
    requires most { width ≤ 64 }
    requires fits { value < 2 ^ width }
{
    valuation.push(Entry {
        name: Text::copy(alloc, name)?,
        offset: 0,
        width,
        low,
        signed: false,
        depth: 0,
        value,
    })
}

// A memory of two words of four bits.
fn add_memory(alloc: Global, valuation: &mut Valuation) -> Result<(), AllocError> {
    valuation.push(Entry {
        name: Text::copy(alloc, b"m")?,
        offset: 0,
        width: 4,
        low: 0,
        signed: false,
        depth: 2,
        value: 0,
    })?;
    add(alloc, valuation, b"m$0", 4, 0, 9)?;
    add(alloc, valuation, b"m$1", 4, 0, 5)
}

// A signed name of a row, of four bits.
fn add_signed(
    alloc: Global,
    valuation: &mut Valuation,
    name: &[u8],
    value: u64,
) -> Result<(), AllocError>
    requires fits { value < 16 }
{
    valuation.push(Entry {
        name: Text::copy(alloc, name)?,
        offset: 0,
        width: 4,
        low: 0,
        signed: true,
        depth: 0,
        value,
    })
}

// a is 11 and b is 01; v[11:4] is 1010_0110; the signed s is 1010, which is -6, and t is 0011.
fn add_names(alloc: Global, valuation: &mut Valuation) -> Result<(), AllocError> {
    add(alloc, valuation, b"a", 2, 0, 3)?;
    add(alloc, valuation, b"b", 2, 0, 1)?;
    add(alloc, valuation, b"v", 8, 4, 166)?;
    add_signed(alloc, valuation, b"s", 10)?;
    add_signed(alloc, valuation, b"t", 3)?;
    add_memory(alloc, valuation)
}

/// The names that expressions may have: `a` and `b` of two bits, `v[11:4]`, the signed `s` and `t` of four bits, and a
/// memory `m` of two words of four bits.
pub fn names(alloc: Global) -> Result<Valuation, AllocError> {
    let mut valuation = Valuation::new(alloc);
    add_names(alloc, &mut valuation)?;
    Ok(valuation)
}
