// Formulas that are well formed over the declared names.
ghost use Rattle.std.specs.Prelude.{◌≡◌, IfOk, map};
ghost use Rattle.std.specs.Bool.{MatchBool};
ghost use Rattle.std.specs.List.{flat_map};
ghost use Rattle.std.specs.Option.{option_map, option_to_list};
ghost use Rattle.vlog_tree.specs.Value.{IsFormed};
ghost use Rattle.set_read_lookup.specs.Formed.{formulas_of, formulas_in};
ghost use Rattle.set_read_lookup.specs.Tests.{declared_entries, IsPresent, Judges};

use crate::constant::{both, has_constant_parts};
use crate::looked::{low_of, width_of};
use crate::present::present;
use outside::Text;
use set_tree::{Declaration, PropertyText, RuleText, SetText, Until};
use std::alloc::{AllocError, Global};
use vlog_tree::{Entry, Expr, Valuation};
use vlog_tree_values::measured;

// The declared names whose lengths are good, each with the value 0.
fn valuation_of(alloc: Global, declarations: &[Declaration]) -> Result<Valuation, AllocError>
    ensures { IfOk result (λ v. v ≡ declared_entries declarations.now) }
{
    let mut valuation = Valuation::new(alloc);
    for declaration in declarations {
        if let Some(width) = width_of(declaration.bits) {
            let name = Text::copy(alloc, declaration.name.bytes())?;
            valuation.push(Entry {
                name,
                offset: 0,
                width,
                low: low_of(declaration.bits),
                signed: declaration.signed,
                depth: 0,
                value: 0,
            })?;
        }
    }
    Ok(valuation)
}

// Whether an expression is well formed as it stands.
fn is_measured(alloc: Global, valuation: &Valuation, expr: &Expr) -> Result<bool, AllocError>
    ensures { IfOk result (λ t. MatchBool t (IsFormed valuation.now expr.now) (IsFormed valuation.now expr.now → ⊥)) }
{
    match measured(alloc, expr, valuation)? {
        Some(_) => Ok(true),
        None => Ok(false),
    }
}

// Whether a formula is well formed over the names of a valuation.
fn is_formed(alloc: Global, valuation: &Valuation, formula: &Expr) -> Result<bool, AllocError>
    ensures { IfOk result (λ t. MatchBool t (IsPresent valuation.now formula.now) (IsPresent valuation.now formula.now →
        ⊥)) }
{
    if !has_constant_parts(formula) {
        return Ok(false);
    }
    let present = present(alloc, formula)?;
    let formed = is_measured(alloc, valuation, &present);
    drop(present);
    formed
}

// Whether some formulas are.
fn are_formed(alloc: Global, valuation: &Valuation, formulas: &[Expr]) -> Result<bool, AllocError>
    ensures { IfOk result (Judges (IsPresent valuation.now) formulas.now) }
{
    for formula in formulas {
        if !is_formed(alloc, valuation, formula)? {
            return Ok(false);
        }
    }
    Ok(true)
}

fn option_is(
    alloc: Global,
    valuation: &Valuation,
    formula: &Option<Expr>,
) -> Result<bool, AllocError>
    ensures { IfOk result (Judges (IsPresent valuation.now) (option_to_list formula.now)) }
{
    match formula {
        Some(formula) => is_formed(alloc, valuation, formula),
        None => Ok(true),
    }
}

fn until_is(alloc: Global, valuation: &Valuation, until: &Option<Until>) -> Result<bool, AllocError>
    ensures { IfOk result (Judges (IsPresent valuation.now)
        (option_to_list (option_map (λ u. u.condition) until.now))) }
{
    match until {
        Some(until) => is_formed(alloc, valuation, &until.condition),
        None => Ok(true),
    }
}

fn domains_are(
    alloc: Global,
    valuation: &Valuation,
    declarations: &[Declaration],
) -> Result<bool, AllocError>
    ensures { IfOk result (Judges (IsPresent valuation.now)
        (flat_map (λ d. option_to_list d.domain) declarations.now)) }
{
    for declaration in declarations {
        if !option_is(alloc, valuation, &declaration.domain)? {
            return Ok(false);
        }
    }
    Ok(true)
}

fn rules_are(alloc: Global, valuation: &Valuation, rules: &[RuleText]) -> Result<bool, AllocError>
    ensures { IfOk result (Judges (IsPresent valuation.now) (map (λ r. r.formula) rules.now)) }
{
    for rule in rules {
        if !is_formed(alloc, valuation, &rule.formula)? {
            return Ok(false);
        }
    }
    Ok(true)
}

fn property_is(
    alloc: Global,
    valuation: &Valuation,
    property: &PropertyText,
) -> Result<bool, AllocError>
    ensures { IfOk result (Judges (IsPresent valuation.now) (formulas_of property.now)) }
{
    let until = until_is(alloc, valuation, &property.length.until)?;
    let assume = are_formed(alloc, valuation, property.assume.as_slice())?;
    let commit = are_formed(alloc, valuation, property.commit.as_slice())?;
    let hand = are_formed(alloc, valuation, property.hand.as_slice())?;
    Ok(both(until, both(assume, both(commit, hand))))
}

fn operations_are(
    alloc: Global,
    valuation: &Valuation,
    operations: &[PropertyText],
) -> Result<bool, AllocError>
    ensures { IfOk result (Judges (IsPresent valuation.now) (flat_map formulas_of operations.now)) }
{
    for operation in operations {
        if !property_is(alloc, valuation, operation)? {
            return Ok(false);
        }
    }
    Ok(true)
}

// Whether all formulas of a set are.
fn text_is(alloc: Global, valuation: &Valuation, text: &SetText) -> Result<bool, AllocError>
    ensures { IfOk result (Judges (IsPresent valuation.now) (formulas_in text.now)) }
{
    let domains = domains_are(alloc, valuation, text.declarations.as_slice())?;
    let rules = rules_are(alloc, valuation, text.rules.as_slice())?;
    let first = property_is(alloc, valuation, &text.first)?;
    let operations = operations_are(alloc, valuation, text.operations.as_slice())?;
    Ok(both(domains, both(rules, both(first, operations))))
}

/// Whether all formulas of a set are well formed over the declared names whose lengths are good.
pub fn all_formed(alloc: Global, text: &SetText) -> Result<bool, AllocError>
    ensures { IfOk result (Judges (IsPresent (declared_entries text.now.declarations)) (formulas_in text.now)) }
{
    let valuation = valuation_of(alloc, text.declarations.as_slice())?;
    text_is(alloc, &valuation, text)
}
