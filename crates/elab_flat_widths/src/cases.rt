// Case expressions with their labels (IEEE 1364-2005, section 9.5).

ghost use Rattle.std.specs.Prelude.{◌≡◌, ◌++◌, ◌∷◌, ◌≤◌, ℕ, Bool, max, map, OnOk, IfOk, IfErr};
ghost use Rattle.std.specs.List.{flat_map};
ghost use Rattle.vlog_tree.specs.declared.expr.Expr.{Expr as Form};
ghost use Rattle.vlog_tree.specs.Value.{width_of, IsFormed, HasConstantParts};
ghost use Rattle.vlog_tree_runs.specs.Places.{Among};
ghost use Rattle.vlog_tree_runs.specs.Blocks.{exprs_in};
ghost use Rattle.elab_flat_params.specs.Constants.{is_known};
ghost use Rattle.elab_flat_faults.specs.Constants.{compared};
ghost use Rattle.elab_flat_widths.specs.Cases.{expr_meant};
ghost use Rattle.elab_flat_widths.specs.Usages.{item_labels};
ghost use Rattle.elab_flat_widths.specs.Taken.{AllSound, IsSound, Breaks, SomeBreaks, Fails, taken_at};
ghost use Rattle.elab_flat_widths.specs.Cases.{HasCommonShape, CanTake};

use crate::taken::{check_at, sound_shape};
use crate::violation::Violation;
use sqlite_items::Items;
use std::alloc::{AllocError, Global};
use vlog_tree::{CaseItem, Expr, Labels, Valuation};

fn add_exprs<'a>(all: &mut Vec<&'a Expr>, exprs: &'a [Expr]) -> Result<(), AllocError>
    ensures { OnOk result (map expr_meant all.new.items ≡ map expr_meant all.old.items ++ exprs.now) }
{
    for expr in exprs {
        all.push(expr)?;
    }
    Ok(())
}

fn add_labels<'a>(all: &mut Vec<&'a Expr>, labels: &'a Labels) -> Result<(), AllocError>
    ensures { OnOk result (map expr_meant all.new.items ≡ map expr_meant all.old.items ++ exprs_in labels.now) }
{
    match labels {
        Labels::Exprs(exprs) => add_exprs(all, exprs.as_slice()),
        Labels::Default => Ok(()),
    }
}

fn add_items<'a>(all: &mut Vec<&'a Expr>, items: &'a [CaseItem]) -> Result<(), AllocError>
    ensures { OnOk result (map expr_meant all.new.items ≡ map expr_meant all.old.items ++ flat_map item_labels items.now) }
{
    for item in items {
        add_labels(all, &item.labels)?;
    }
    Ok(())
}

// A case expression and all its labels.
fn exprs_of<'a>(
    alloc: Global,
    subject: &'a Expr,
    items: &'a [CaseItem],
) -> Result<Vec<&'a Expr>, AllocError>
    ensures { IfOk result (λ r. map expr_meant r.items ≡ subject.now ∷ flat_map item_labels items.now) }
{
    let mut all = Vec::new(alloc);
    all.push(subject)?;
    add_items(&mut all, items)?;
    Ok(all)
}

// The greatest length of some expressions, and whether all are signed.
fn common_shape(
    alloc: Global,
    exprs: &[&Expr],
    params: &Valuation,
    rest: &Valuation,
) -> Result<(u8, bool), Violation>
    ensures ok { IfOk result (λ s. HasCommonShape (is_known params.now) rest.now (map expr_meant exprs.now) s.0 s.1) }
    ensures err { (n : ℕ) (s : Bool) → IfErr result
        (Fails (λ w. (a : Form) × Among (map expr_meant exprs.now) a ×
        Breaks (is_known params.now) rest.now (taken_at a n s) w)) }
{
    let mut longest = 0;
    let mut all_signed = true;
    for expr in exprs {
        match sound_shape(alloc, expr, params, rest) {
            Ok((width, signed)) => {
                longest = width.max(longest);
                all_signed = all_signed && signed;
            }
            Err(violation) => return Err(violation),
        }
    }
    Ok((longest, all_signed))
}

// Expressions keep the rules at a length and a sign.
fn check_all_at(
    alloc: Global,
    exprs: &[&Expr],
    shape: (u8, bool),
    params: &Valuation,
    rest: &Valuation,
) -> Result<(), Violation>
    requires ready { (a : Form) → Among (map expr_meant exprs.now) a →
        CanTake (is_known params.now) rest.now a shape.0 }
    requires most { shape.0 ≤ 64 }
    ensures ok { OnOk result ((a : Form) → Among (map expr_meant exprs.now) a →
        IsSound (is_known params.now) rest.now (taken_at a shape.0 shape.1)) }
    ensures err { IfErr result (Fails (λ w. (a : Form) × Among (map expr_meant exprs.now) a ×
        Breaks (is_known params.now) rest.now (taken_at a shape.0 shape.1) w)) }
{
    for expr in exprs {
        match check_at(alloc, expr, shape, params, rest) {
            Ok(()) => {}
            Err(violation) => return Err(violation),
        }
    }
    Ok(())
}

/// A case expression and its labels keep the rules, where they have one length and one sign.
pub fn check_cases(
    alloc: Global,
    subject: &Expr,
    items: &[CaseItem],
    params: &Valuation,
    rest: &Valuation,
) -> Result<(), Violation>
    ensures ok { OnOk result (AllSound (is_known params.now) rest.now
        (compared rest.now (record { value = subject.now; labels = flat_map item_labels items.now }))) }
    ensures err { IfErr result (Fails (SomeBreaks (is_known params.now) rest.now
        (compared rest.now (record { value = subject.now; labels = flat_map item_labels items.now })))) }
{
    let exprs = exprs_of(alloc, subject, items)?;
    match common_shape(alloc, &exprs, params, rest) {
        Ok(shape) => check_all_at(alloc, &exprs, shape, params, rest),
        Err(violation) => Err(violation),
    }
}
