// Expressions that outputs are connected to, as left sides (IEEE 1364-2005, section 12.3.9.2).

ghost use Rattle.std.specs.Prelude.{◌≡◌, ◌++◌, map, OnOk, IfOk, IfErr};
ghost use Rattle.std.specs.Bool.{MatchBool};
ghost use Rattle.std.specs.List.{flat_map};
ghost use Rattle.vlog_tree_runs.specs.Contents.{signals_in};
ghost use Rattle.vlog_tree_runs.specs.Scopes.{place_of, left_of};
ghost use Rattle.elab_flat_faults.specs.Drivers.{parts_of};
ghost use Rattle.elab_flat_drivers.specs.Parts.{part_meant};
ghost use Rattle.elab_flat_faults.specs.Constants.{at_rest};
ghost use Rattle.elab_flat_scopes.specs.Finding.{decl_name};
ghost use Rattle.elab_flat_instances.specs.Unfolding.{scope_meant};
ghost use Rattle.elab_flat_widths.specs.declared.side.Side.TheVariants as d;
ghost use Rattle.elab_flat_widths.specs.Outputs.{expr_parts, AreOf, IsOf};
ghost use Rattle.elab_flat_widths.specs.Taken.{Fails};
ghost use Rattle.elab_flat_widths.specs.Stores.{IsSoundLeft, BreaksLeft};

use crate::left::{check_numbers, total_bits};
use crate::side::Side;
use crate::violation::Violation;
use elab_flat_drivers::{Part, name_of};
use elab_flat_instances::Scope;
use elab_flat_scopes::Names;
use sqlite_items::{Boxed, Items};
use std::alloc::{AllocError, Global};
use vlog_tree::{Expr, Valuation};

#[cycle(outputs)]
fn add_parts<'a>(all: &mut Vec<Part<'a>>, expr: &'a Expr) -> Result<(), AllocError>
    ensures { OnOk result (map part_meant all.new.items ≡ map part_meant all.old.items ++ expr_parts expr.now) }
{
    match expr {
        Expr::Name(name) => {
            all.push(Part::Whole(&name.text))?;
            Ok(())
        }
        Expr::Select(name, index) => {
            let index = index.get();
            all.push(Part::Bit(&name.text, index))?;
            Ok(())
        }
        Expr::Part(name, span, a, b) => {
            let a = a.get();
            let b = b.get();
            all.push(Part::Bits(&name.text, *span, a, b))?;
            Ok(())
        }
        Expr::Concat(parts) => add_row(all, parts.as_slice()),
        Expr::Number(_) => Ok(()),
        Expr::ConstantSelect(_, _) => Ok(()),
        Expr::ConstantPart(_, _, _, _) => Ok(()),
        Expr::Cast(_, _) => Ok(()),
        Expr::Paren(_) => Ok(()),
        Expr::Repeat(_, _) => Ok(()),
        Expr::Unary(_, _) => Ok(()),
        Expr::Binary(_, _, _) => Ok(()),
        Expr::Choice(_, _, _) => Ok(()),
    }
}

#[cycle(outputs)]
fn add_row<'a>(all: &mut Vec<Part<'a>>, exprs: &'a [Expr]) -> Result<(), AllocError>
    ensures { OnOk result (map part_meant all.new.items ≡ map part_meant all.old.items ++ flat_map expr_parts exprs.now) }
{
    for expr in exprs {
        add_parts(all, expr)?;
    }
    Ok(())
}

// The parts of an expression as a left side.
fn left_parts(alloc: Global, expr: &Expr) -> Result<Vec<Part<'_>>, AllocError>
    ensures { IfOk result (λ r. map part_meant r.items ≡ expr_parts expr.now) }
{
    let mut all = Vec::new(alloc);
    add_parts(&mut all, expr)?;
    Ok(all)
}

fn is_of(part: Part<'_>, names: &Names<'_>) -> bool
    ensures { MatchBool result (IsOf names.now (part_meant part.entry)) (IsOf names.now (part_meant part.entry) → ⊥) }
{
    names.has(name_of(part).bytes())
}

// Whether all parts are of these names.
fn are_of(parts: &[Part<'_>], names: &Names<'_>) -> bool
    ensures { MatchBool result (AreOf names.now (map part_meant parts.now))
        (AreOf names.now (map part_meant parts.now) → ⊥) }
{
    for part in parts {
        if !is_of(*part, names) {
            return false;
        }
    }
    true
}

/// The expression that an output is connected to keeps the rules of a left side.
pub fn check_output(
    alloc: Global,
    scope: &Scope<'_>,
    rest: &Valuation,
    signals: &Names<'_>,
    value: &Expr,
) -> Result<(), Violation>
    requires rest { rest.now ≡ at_rest (place_of (scope_meant scope.now)) }
    requires signals { signals.now ≡ map decl_name (signals_in scope.now.text.now) }
    ensures ok { OnOk result (IsSoundLeft d.Continuous (place_of (scope_meant scope.now)) (left_of value.now)) }
    ensures err { IfErr result (Fails (BreaksLeft d.Continuous (place_of (scope_meant scope.now))
        (left_of value.now))) }
{
    let parts = left_parts(alloc, value)?;
    match check_numbers(alloc, Side::Continuous, &parts, &scope.params, rest) {
        Ok(()) => {}
        Err(violation) => return Err(violation),
    }
    if !are_of(&parts, signals) {
        return Ok(());
    }
    let bits = total_bits(alloc, &parts, rest)?;
    match bits {
        Some(_) => Ok(()),
        None => Err(Violation::Length),
    }
}
