// Names that are used as what they aren't declared as.
ghost use Rattle.std.specs.Prelude.{◌≡◌, ◌<◌, ◌^◌, ◌-◌, length, map};
ghost use Rattle.std.specs.List.{find, flat_map};
ghost use Rattle.std.specs.Option.{option_copied, option_map, option_to_list};
ghost use Rattle.set_read_lookup.specs.Faults.{
  names_in,
  names_of,
  names_used,
  is_wanted,
  outputs_of,
  outputs_used,
  successors_used,
  is_no_output,
  is_no_property,
  Finds,
  StandsUnknown,
};

use crate::looked::{output_of, successor_of};
use crate::names::{Wanted, wanted_among, wanted_in};
use outside::Text;
use set_tree::{CoverText, Declaration, PropertyText, RuleText, SetText, Until};
use vlog_tree::{Expr, Name};

// The first wanted name in the domains of outputs.
fn in_domains<'a>(declarations: &'a [Declaration], wanted: &Wanted<'_>) -> Option<&'a Name>
    ensures { option_copied result ≡ find (is_wanted wanted.now)
        (flat_map (λ d. flat_map names_in (option_to_list d.domain)) declarations.now) }
{
    for declaration in declarations {
        if let Some(name) = in_option(&declaration.domain, wanted) {
            return Some(name);
        }
    }
    None
}

fn in_option<'a>(expr: &'a Option<Expr>, wanted: &Wanted<'_>) -> Option<&'a Name>
    ensures { option_copied result ≡ find (is_wanted wanted.now) (flat_map names_in (option_to_list expr.now)) }
{
    match expr {
        Some(expr) => wanted_in(expr, wanted),
        None => None,
    }
}

// The first wanted name in rules.
fn in_rules<'a>(rules: &'a [RuleText], wanted: &Wanted<'_>) -> Option<&'a Name>
    ensures { option_copied result ≡ find (is_wanted wanted.now) (flat_map (λ r. names_in r.formula) rules.now) }
{
    for rule in rules {
        if let Some(name) = wanted_in(&rule.formula, wanted) {
            return Some(name);
        }
    }
    None
}

fn in_until<'a>(until: &'a Option<Until>, wanted: &Wanted<'_>) -> Option<&'a Name>
    ensures { option_copied result ≡ find (is_wanted wanted.now)
        (flat_map names_in (option_to_list (option_map (λ u. u.condition) until.now))) }
{
    match until {
        Some(until) => wanted_in(&until.condition, wanted),
        None => None,
    }
}

// The first wanted name in the formulas of a property.
fn in_property<'a>(property: &'a PropertyText, wanted: &Wanted<'_>) -> Option<&'a Name>
    ensures { option_copied result ≡ find (is_wanted wanted.now) (names_of property.now) }
{
    let until = in_until(&property.length.until, wanted);
    let assume = wanted_among(property.assume.as_slice(), wanted);
    let commit = wanted_among(property.commit.as_slice(), wanted);
    let hand = wanted_among(property.hand.as_slice(), wanted);
    until.or(assume.or(commit.or(hand)))
}

fn in_operations<'a>(operations: &'a [PropertyText], wanted: &Wanted<'_>) -> Option<&'a Name>
    ensures { option_copied result ≡ find (is_wanted wanted.now) (flat_map names_of operations.now) }
{
    for operation in operations {
        if let Some(name) = in_property(operation, wanted) {
            return Some(name);
        }
    }
    None
}

// The first wanted name in the formulas of a set.
fn in_text<'a>(text: &'a SetText, wanted: &Wanted<'_>) -> Option<&'a Name>
    ensures { option_copied result ≡ find (is_wanted wanted.now) (names_used text.now) }
{
    let domains = in_domains(text.declarations.as_slice(), wanted);
    let rules = in_rules(text.rules.as_slice(), wanted);
    let first = in_property(&text.first, wanted);
    let operations = in_operations(text.operations.as_slice(), wanted);
    domains.or(rules.or(first.or(operations)))
}

// The first of some covers' names that is no output.
fn no_output<'a>(declarations: &[Declaration], covers: &'a [CoverText]) -> Option<&'a Text>
    ensures { option_copied result ≡ find (is_no_output declarations.now) (map (λ c. c.output) covers.now) }
{
    for cover in covers {
        if output_of(declarations, cover.output.bytes()).is_none() {
            return Some(&cover.output);
        }
    }
    None
}

fn no_output_in<'a>(
    declarations: &[Declaration],
    operations: &'a [PropertyText],
) -> Option<&'a Text>
    ensures { option_copied result ≡ find (is_no_output declarations.now) (flat_map outputs_of operations.now) }
{
    for operation in operations {
        if let Some(name) = no_output(declarations, operation.covers.as_slice()) {
            return Some(name);
        }
    }
    None
}

// The first of some successors that is no property.
fn no_property<'a>(operations: &[PropertyText], names: &'a [Text]) -> Option<&'a Text>
    requires { length operations.now < 2 ^ 32 - 1 }
    ensures { option_copied result ≡ find (is_no_property operations.now) names.now }
{
    for name in names {
        if successor_of(operations, name.bytes()).is_none() {
            return Some(name);
        }
    }
    None
}

fn no_property_in(operations: &[PropertyText]) -> Option<&Text>
    requires { length operations.now < 2 ^ 32 - 1 }
    ensures { option_copied result ≡ find (is_no_property operations.now) (flat_map (λ p. p.next) operations.now) }
{
    for operation in operations {
        if let Some(name) = no_property(operations, operation.next.as_slice()) {
            return Some(name);
        }
    }
    None
}

fn uncovered(text: &SetText) -> Option<&Text>
    ensures { option_copied result ≡ find (is_no_output text.now.declarations) (outputs_used text.now) }
{
    let declarations = text.declarations.as_slice();
    let first = no_output(declarations, text.first.covers.as_slice());
    first.or(no_output_in(declarations, text.operations.as_slice()))
}

fn nowhere(text: &SetText) -> Option<&Text>
    requires { length text.now.operations < 2 ^ 32 - 1 }
    ensures { option_copied result ≡ find (is_no_property text.now.operations) (successors_used text.now) }
{
    let operations = text.operations.as_slice();
    no_property(operations, text.first.next.as_slice()).or(no_property_in(operations))
}

/// A name that is used as what it isn't declared as.
pub fn unknown_of(text: &SetText) -> Option<&Text>
    requires { length text.now.operations < 2 ^ 32 - 1 }
    ensures { Finds (StandsUnknown text.now) (option_copied result) }
{
    if let Some(name) = in_text(text, &Wanted::Undeclared(text.declarations.as_slice())) {
        return Some(&name.text);
    }
    if let Some(name) = uncovered(text) {
        return Some(name);
    }
    nowhere(text)
}
