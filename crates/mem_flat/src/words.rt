// Reads of words.

ghost use Rattle.std.specs.Prelude.{◌≡◌, ◌≤◌, ◌++◌, codes, decimal, IfOk, true};
ghost use Rattle.vlog_tree.specs.declared.expr.Cast.TheVariants as c;
ghost use Rattle.vlog_tree.specs.declared.expr.Expr.TheVariants as e;
ghost use Rattle.elab_flat_laws.specs.Moved.{number_for};
ghost use Rattle.vlog_tree.specs.Valuation.{word_name};
ghost use Rattle.mem_laws.specs.Spread.{number, is_word, word_read, chosen, bits_from};

use elab_flat_move::{both, copied};
use mem_faults::word_text;
use outside::Text;
use sqlite_items::Boxed;
use std::alloc::{AllocError, Global};
use vlog_tree::{Binary, Cast, Expr, Name, Number, Span};

/// An unsigned number of so many bits.
pub fn number(width: u8, value: u64) -> Expr
    ensures { result ≡ number width value }
{
    Expr::Number(Number {
        size: Some(width),
        signed: false,
        value,
        wild: 0,
        wildcard: false,
        plain: false,
    })
}

/// The name of a memory's word.
pub fn word_name(alloc: Global, name: &Name, word: u8) -> Result<Name, AllocError>
    ensures { IfOk result (λ r. r ≡ word_name name.now word) }
{
    Ok(Name {
        text: word_text(alloc, name.text.bytes(), word)?,
        offset: name.offset,
    })
}

/// A name once more.
pub fn copied_name(alloc: Global, name: &Name) -> Result<Name, AllocError>
    ensures { IfOk result (λ r. r ≡ name.now) }
{
    Ok(Name {
        text: Text::copy(alloc, name.text.bytes())?,
        offset: name.offset,
    })
}

// `$unsigned(index)`
fn unsigned(alloc: Global, index: &Expr) -> Result<Expr, AllocError>
    ensures { IfOk result (λ r. r ≡ e.Cast c.Unsigned index.now) }
{
    let index = Boxed::new(alloc, copied(alloc, index)?)?;
    Ok(Expr::Cast(Cast::Unsigned, index))
}

fn binary(alloc: Global, op: Binary, a: Expr, b: Expr) -> Result<Expr, AllocError>
    ensures { IfOk result (λ r. r ≡ e.Binary op a b) }
{
    let (a, b) = both(Boxed::new(alloc, a), Boxed::new(alloc, b))?;
    Ok(Expr::Binary(op, a, b))
}

/// The test that an index names a word.
pub fn is_word(alloc: Global, index: &Expr, word: u8) -> Result<Expr, AllocError>
    ensures { IfOk result (λ r. r ≡ is_word index.now word) }
{
    let index = unsigned(alloc, index)?;
    binary(alloc, Binary::Equal, index, number(8, u64::from(word)))
}

// All bits of a word of so many bits.
fn word_read(alloc: Global, name: &Name, width: u8, word: u8) -> Result<Expr, AllocError>
    requires { 1 ≤ width }
    ensures { IfOk result (λ r. r ≡ word_read name.now width word) }
{
    let high = Boxed::new(alloc, number(8, u64::from(width - 1)));
    let ends = both(high, Boxed::new(alloc, number(8, 0)));
    let (name, (high, low)) = both(word_name(alloc, name, word), ends)?;
    Ok(Expr::Part(name, Span::Fixed, high, low))
}

fn choice(alloc: Global, test: Expr, a: Expr, b: Expr) -> Result<Expr, AllocError>
    ensures { IfOk result (λ r. r ≡ e.Choice test a b) }
{
    let ends = both(Boxed::new(alloc, a), Boxed::new(alloc, b));
    let (test, (a, b)) = both(Boxed::new(alloc, test), ends)?;
    Ok(Expr::Choice(test, a, b))
}

/// Of these words the one that the index names, and otherwise 0.
pub fn chosen(
    alloc: Global,
    name: &Name,
    width: u8,
    index: &Expr,
    words: &[u8],
) -> Result<Expr, AllocError>
    requires { 1 ≤ width }
    ensures { IfOk result (λ r. r ≡ chosen name.now width index.now words.now) }
{
    match words {
        [] => Ok(number(width, 0)),
        [word, others @ ..] => {
            let ends = both(
                word_read(alloc, name, width, *word),
                chosen(alloc, name, width, index, others),
            );
            let (test, (word, others)) = both(is_word(alloc, index, *word), ends)?;
            choice(alloc, test, word, others)
        }
    }
}

// The number 0 of so many bits, signed.
fn signed_zero(width: u8) -> Expr
    ensures { result ≡ number_for (record { width = width; low = 0; signed = true; value = 0 }) }
{
    Expr::Number(Number {
        size: Some(width),
        signed: true,
        value: 0,
        wild: 0,
        wildcard: false,
        plain: false,
    })
}

/// The bits of a right side from one on, where it is assigned to so many bits.
pub fn bits_from(alloc: Global, right: &Expr, width: u8, from: u8) -> Result<Expr, AllocError>
    ensures { IfOk result (λ r. r ≡ bits_from right.now width from) }
{
    let right = copied(alloc, right)?;
    let right = choice(alloc, number(1, 1), right, signed_zero(width))?;
    binary(alloc, Binary::Shr, right, number(8, u64::from(from)))
}
