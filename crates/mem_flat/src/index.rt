// The words that an index may name.

ghost use Rattle.std.specs.Prelude.{◌≡◌, ◌<◌, ◌≤◌, ◌&&◌, nat_eq, length, IfOk, MatchOption, true, false, [], ◌∷◌};
ghost use Rattle.std.specs.List.{range_with_len, flat_map};
ghost use Rattle.vlog_tree.specs.Value.{own_value};
ghost use Rattle.elab_flat_faults.specs.Texts.{names_in, row_names_in};
ghost use Rattle.mem_laws.specs.Spread.{is_constant, is_fixed, named_words, read_words};
ghost use Rattle.mem_faults.specs.Asked.{IsEvaluable};

use sqlite_items::Items;
use std::alloc::{AllocError, Global};
use vlog_tree::{Expr, Valuation};
use vlog_tree_values::checked_own_value;

/// Whether an expression names nothing.
#[cycle(constant)]
pub fn is_constant(expr: &Expr) -> bool
    ensures { result ≡ is_constant expr.now }
{
    match expr {
        Expr::Number(_) => true,
        Expr::Name(_) => false,
        Expr::Select(_, _) => false,
        Expr::Part(_, _, _, _) => false,
        Expr::ConstantSelect(_, index) => is_constant(index.get()),
        Expr::ConstantPart(_, _, a, b) => are_both(is_constant(a.get()), is_constant(b.get())),
        Expr::Cast(_, inner) => is_constant(inner.get()),
        Expr::Paren(inner) => is_constant(inner.get()),
        Expr::Concat(parts) => are_constant(parts.as_slice()),
        Expr::Repeat(count, parts) => {
            are_both(is_constant(count.get()), are_constant(parts.as_slice()))
        }
        Expr::Unary(_, a) => is_constant(a.get()),
        Expr::Binary(_, a, b) => are_both(is_constant(a.get()), is_constant(b.get())),
        Expr::Choice(condition, a, b) => are_both(
            are_both(is_constant(condition.get()), is_constant(a.get())),
            is_constant(b.get()),
        ),
    }
}

fn are_both(first: bool, second: bool) -> bool
    ensures { result ≡ (first && second) }
{
    first && second
}

#[cycle(constant)]
fn are_constant(exprs: &[Expr]) -> bool
    ensures { result ≡ nat_eq (length (flat_map names_in exprs.now)) 0 }
{
    for expr in exprs {
        if !is_constant(expr) {
            return false;
        }
    }
    true
}

// A number as a word's, where a memory of so many words has it.
fn within(depth: u8, number: u64) -> Option<u8>
    ensures { MatchOption result (depth ≤ number) (λ j. (j ≡ number) × (number < depth)) }
{
    if number < u64::from(depth) {
        Some(number as u8)
    } else {
        None
    }
}

// The word of a memory of so many words that a constant index names, where it names one.
fn fixed_word(alloc: Global, depth: u8, index: &Expr) -> Option<u8>
    requires { IsEvaluable index.now }
    ensures { MatchOption result (is_fixed depth index.now ≡ false) (λ j. (is_fixed depth index.now ≡ true) ×
        (own_value [] index.now ≡ j)) }
{
    if !is_constant(index) {
        return None;
    }
    match checked_own_value(index, &Valuation::new(alloc)) {
        Some((word, _)) => within(depth, word.value()),
        None => unreachable!(),
    }
}

fn all_words(alloc: Global, depth: u8) -> Result<Items<u8>, AllocError>
    ensures { IfOk result (λ r. r ≡ range_with_len 0 depth) }
{
    let mut all = Items::new(alloc);
    for word in 0..depth {
        all.push(word)?;
    }
    Ok(all)
}

fn one_word(alloc: Global, word: u8) -> Result<Items<u8>, AllocError>
    ensures { IfOk result (λ r. r ≡ word ∷ []) }
{
    let mut one = Items::new(alloc);
    one.push(word)?;
    Ok(one)
}

// The words that an index may name which names no single one.
fn unfixed_words(alloc: Global, depth: u8, index: &Expr) -> Result<Items<u8>, AllocError>
    requires { is_fixed depth index.now ≡ false }
    ensures { IfOk result (λ r. r ≡ named_words depth index.now) }
{
    if is_constant(index) {
        Ok(Items::new(alloc))
    } else {
        all_words(alloc, depth)
    }
}

/// The words of a memory of so many words that an index may name.
pub fn named_words(alloc: Global, depth: u8, index: &Expr) -> Result<Items<u8>, AllocError>
    requires { IsEvaluable index.now }
    ensures { IfOk result (λ r. r ≡ named_words depth index.now) }
{
    match fixed_word(alloc, depth, index) {
        Some(word) => one_word(alloc, word),
        None => unfixed_words(alloc, depth, index),
    }
}

/// The words of a memory of so many words that a read with this index looks at.
pub fn read_words(alloc: Global, depth: u8, index: &Expr) -> Result<Items<u8>, AllocError>
    requires { IsEvaluable index.now }
    ensures { IfOk result (λ r. r ≡ read_words depth index.now) }
{
    match fixed_word(alloc, depth, index) {
        Some(word) => one_word(alloc, word),
        None => all_words(alloc, depth),
    }
}
