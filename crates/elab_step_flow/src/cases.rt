// Full case statements (IEEE 1364-2005, section 9.5).

ghost use Rattle.std.specs.Prelude.{◌≡◌, ◌++◌, ℕ, ◌≤◌, ◌<◌, ◌^◌, ◌&&◌, max, map, nat_eq, IfOk, OnOk, MatchBool, true, false};
ghost use Rattle.std.specs.HashSet.{contains};
ghost use Rattle.vlog_tree.specs.declared.expr.Expr.{Expr as Text};
ghost use Rattle.vlog_tree.specs.declared.stmt.CaseKind.TheVariants as kinds;
ghost use Rattle.vlog_tree.specs.Valuation.{IsLength};
ghost use Rattle.vlog_tree.specs.Value.{IsFormed, IsDefined, NamesOnly, extend, width_of, sign_of, value_of};
ghost use Rattle.vlog_tree_values.specs.Shapes.{HasShape};
ghost use Rattle.vlog_tree_runs.specs.Places.{Among};
ghost use Rattle.vlog_tree_runs.specs.Blocks.{exprs_in, is_default, widest, all_signed, case_width, case_sign};
ghost use Rattle.elab_flat_faults.specs.Paths.{IsSimple, CoversAll, IsFull};
ghost use Rattle.elab_step_laws.specs.Laws.{place_over};
ghost use Rattle.elab_flat_drivers.specs.Claims.{nothing};
ghost use Rattle.elab_step_flow.specs.Cases.{expr_meant, labels_of, at_rest, AnyDefault, IsComparable, AreConstant, AreValues, HasAll};

use crate::scope::Scope;
use elab_flat_drivers::reads_of;
use std::alloc::{AllocError, Global};
use std::collections::HashSet;
use vlog_tree::{CaseItem, CaseKind, Expr, Labels, Valuation};
use vlog_tree_values::{evaluated_at, measured};
use word_core::Word;

fn add_exprs<'a>(all: &mut Vec<&'a Expr>, exprs: &'a [Expr]) -> Result<(), AllocError>
    ensures { OnOk result (map expr_meant all.new.items ≡ map expr_meant all.old.items ++ exprs.now) }
{
    for expr in exprs {
        all.push(expr)?;
    }
    Ok(())
}

fn add_labels<'a>(all: &mut Vec<&'a Expr>, labels: &'a Labels) -> Result<(), AllocError>
    ensures { OnOk result (map expr_meant all.new.items ≡ map expr_meant all.old.items ++ exprs_in labels.now) }
{
    match labels {
        Labels::Exprs(exprs) => add_exprs(all, exprs.as_slice()),
        Labels::Default => Ok(()),
    }
}

/// The labels of a case statement, in the order of its text.
pub fn labels_of(alloc: Global, items: &[CaseItem]) -> Result<Vec<&Expr>, AllocError>
    ensures { IfOk result (λ r. map expr_meant r.items ≡ labels_of items.now) }
{
    let mut all = Vec::new(alloc);
    for item in items {
        add_labels(&mut all, &item.labels)?;
    }
    Ok(all)
}

fn is_default(labels: &Labels) -> bool
    ensures { result ≡ is_default labels.now }
{
    match labels {
        Labels::Exprs(_) => false,
        Labels::Default => true,
    }
}

/// Whether one of the items is the default.
pub fn has_default(items: &[CaseItem]) -> bool
    ensures { MatchBool result (AnyDefault items.now) (AnyDefault items.now → ⊥) }
{
    for item in items {
        if is_default(&item.labels) {
            return true;
        }
    }
    false
}

fn is_constant(alloc: Global, expr: &Expr) -> Result<bool, AllocError>
    ensures { IfOk result (λ r. MatchBool r (NamesOnly nothing expr.now) (NamesOnly nothing expr.now → ⊥)) }
{
    let reads = reads_of(alloc, expr)?;
    Ok(reads.as_slice().is_empty())
}

fn are_constant(alloc: Global, labels: &[&Expr]) -> Result<bool, AllocError>
    ensures { IfOk result (λ r. MatchBool r (AreConstant (map expr_meant labels.now))
        (AreConstant (map expr_meant labels.now) → ⊥)) }
{
    for label in labels {
        if !is_constant(alloc, label)? {
            return Ok(false);
        }
    }
    Ok(true)
}

// The length and the sign of an expression.
fn shape(alloc: Global, expr: &Expr, valuation: &Valuation) -> Result<(u8, bool), AllocError>
    requires { IsFormed valuation.now expr.now }
    ensures { IfOk result (λ s. HasShape valuation.now expr.now s.0 s.1) }
{
    let own = measured(alloc, expr, valuation)?;
    match own {
        Some(own) => Ok(own),
        None => unreachable!(),
    }
}

// The longer of two lengths, and whether both are signed.
fn longer(a: (u8, bool), b: (u8, bool)) -> (u8, bool)
    requires first { IsLength a.0 }
    requires second { IsLength b.0 }
    ensures width { result.0 ≡ max a.0 b.0 }
    ensures sign { result.1 ≡ (a.1 && b.1) }
    ensures length { IsLength result.0 }
{
    (a.0.max(b.0), a.1 && b.1)
}

// The greatest of a length and those of labels, and whether all are signed.
fn compared_at(
    alloc: Global,
    own: (u8, bool),
    labels: &[&Expr],
    valuation: &Valuation,
) -> Result<(u8, bool), AllocError>
    requires own { IsLength own.0 }
    requires formed { (b : Text) → Among (map expr_meant labels.now) b → IsFormed valuation.now b }
    ensures width { IfOk result (λ r. r.0 ≡ max own.0 (widest valuation.now (map expr_meant labels.now))) }
    ensures sign { IfOk result (λ r. r.1 ≡ (own.1 && all_signed valuation.now (map expr_meant labels.now))) }
    ensures length { IfOk result (λ r. IsLength r.0) }
{
    let mut longest = own;
    for label in labels {
        let next = shape(alloc, label, valuation)?;
        longest = longer(longest, next);
    }
    Ok(longest)
}

// The value of a label.
fn value_of(
    alloc: Global,
    label: &Expr,
    length: u8,
    signed: bool,
    valuation: &Valuation,
) -> Result<u64, AllocError>
    requires formed { IsFormed valuation.now label.now }
    requires long { width_of valuation.now label.now ≤ length }
    requires defined { IsDefined valuation.now label.now length signed }
    requires most { length ≤ 64 }
    ensures { IfOk result (λ n. n ≡ value_of valuation.now label.now length signed) }
{
    let word = evaluated_at(alloc, label, length, signed, valuation)?;
    match word {
        Some(word) => Ok(word.value()),
        None => unreachable!(),
    }
}

// The values of labels.
fn values_of(
    alloc: Global,
    labels: &[&Expr],
    length: u8,
    signed: bool,
    valuation: &Valuation,
) -> Result<HashSet<u64>, AllocError>
    requires formed { (b : Text) → Among (map expr_meant labels.now) b → IsFormed valuation.now b }
    requires long { (b : Text) → Among (map expr_meant labels.now) b → width_of valuation.now b ≤ length }
    requires defined { (b : Text) → Among (map expr_meant labels.now) b → IsDefined valuation.now b length signed }
    requires most { length ≤ 64 }
    ensures { IfOk result (λ r. AreValues valuation.now length signed (map expr_meant labels.now)
        (λ x. contains nat_eq r x)) }
{
    let mut values = HashSet::new(alloc);
    for label in labels {
        let number = value_of(alloc, label, length, signed, valuation)?;
        values.insert(number)?;
    }
    Ok(values)
}

fn count_of(width: u8) -> u128
    requires { width ≤ 64 }
    ensures { result ≡ 2 ^ width }
{
    1 << width
}

// A number of `width` bits at another length.
fn extended(number: u64, width: u8, length: u8, signed: bool) -> u64
    requires some { 1 ≤ width }
    requires long { width ≤ length }
    requires most { length ≤ 64 }
    requires fits { number < 2 ^ width }
    ensures { result ≡ extend signed width length number }
{
    Word::extend(Word::new(width, number), length, signed).value()
}

// Whether every number of `width` bits stands among others, as it is extended.
fn has_all(values: &HashSet<u64>, width: u8, length: u8, signed: bool) -> bool
    requires some { 1 ≤ width }
    requires long { width ≤ length }
    requires most { length ≤ 64 }
    ensures { MatchBool result (HasAll width length signed (λ x. contains nat_eq values.now x))
        (HasAll width length signed (λ x. contains nat_eq values.now x) → ⊥) }
{
    for number in 0..count_of(width) {
        if !values.contains(&extended(number as u64, width, length, signed)) {
            return false;
        }
    }
    true
}

fn is_simple(expr: &Expr) -> bool
    ensures { MatchBool result (IsSimple expr.now) (IsSimple expr.now → ⊥) }
{
    match expr {
        Expr::Name(_) => true,
        Expr::Select(_, _) => true,
        Expr::Part(_, _, _, _) => true,
        Expr::ConstantSelect(_, _) => true,
        Expr::ConstantPart(_, _, _, _) => true,
        Expr::Concat(_) => true,
        Expr::Number(_) => false,
        Expr::Cast(_, _) => false,
        Expr::Paren(_) => false,
        Expr::Repeat(_, _) => false,
        Expr::Unary(_, _) => false,
        Expr::Binary(_, _, _) => false,
        Expr::Choice(_, _, _) => false,
    }
}

fn covers_all(
    alloc: Global,
    subject: &Expr,
    labels: &[&Expr],
    valuation: &Valuation,
) -> Result<bool, AllocError>
    requires { IsComparable valuation.now subject.now (map expr_meant labels.now) }
    ensures { IfOk result (λ r. MatchBool r (CoversAll valuation.now subject.now (map expr_meant labels.now))
        (CoversAll valuation.now subject.now (map expr_meant labels.now) → ⊥)) }
{
    let own = shape(alloc, subject, valuation)?;
    let common = compared_at(alloc, own, labels, valuation)?;
    let (length, signed) = common;
    let values = values_of(alloc, labels, length, signed, valuation)?;
    if has_all(&values, length, length, false) {
        return Ok(true);
    }
    if !is_simple(subject) {
        return Ok(false);
    }
    Ok(has_all(&values, own.0, length, signed))
}

/// Whether no path leads past the items of a case statement with these labels.
pub fn is_full(
    alloc: Global,
    kind: CaseKind,
    subject: &Expr,
    labels: &[&Expr],
    scope: &Scope<'_>,
) -> Result<bool, AllocError>
    requires { IsComparable (at_rest scope.now) subject.now (map expr_meant labels.now) }
    ensures { IfOk result (λ r. MatchBool r (IsFull (place_over scope.now) kind subject.now (map expr_meant labels.now))
        (IsFull (place_over scope.now) kind subject.now (map expr_meant labels.now) → ⊥)) }
{
    match kind {
        CaseKind::Case => {
            if !are_constant(alloc, labels)? {
                return Ok(false);
            }
            let covered = covers_all(alloc, subject, labels, scope.at_rest())?;
            Ok(covered)
        }
        CaseKind::Casez => Ok(false),
    }
}
