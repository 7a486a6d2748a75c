// Quantities and their bounds.
ghost use Rattle.std.specs.Prelude.{◌≡◌, length};
ghost use Rattle.std.specs.List.{list_any};
ghost use Rattle.set_read_lookup.specs.Meaning.{constraints_of, invariants_of};
ghost use Rattle.set_read_lookup.specs.Faults.{
  is_outside,
  leaves_width,
  leaves_length,
  leaves_window,
  leaves_offset,
  leaves_hands,
  leaves,
  Finds,
  Leaves,
};

use crate::looked::{high_of, width_of};
use crate::names::{Wanted, wanted_in};
use crate::quantity::Quantity;
use set_tree::{Declaration, PropertyText, RuleKind, RuleText, SetText};

// The bound that lengths, windows, offsets and most counts have.
const MOST: u64 = 64;

fn is_outside(low: u64, high: u64, number: u64) -> bool
    ensures { result ≡ is_outside low high number }
{
    number < low || high < number
}

fn any_width(declarations: &[Declaration]) -> bool
    ensures { result ≡ list_any leaves_width declarations.now }
{
    for declaration in declarations {
        if width_of(declaration.bits).is_none() {
            return true;
        }
    }
    false
}

fn leaves_length(property: &PropertyText) -> bool
    ensures { result ≡ leaves_length property.now }
{
    let low = property.length.low;
    is_outside(1, MOST, low) || is_outside(low, MOST, high_of(&property.length))
}

fn any_length(operations: &[PropertyText]) -> bool
    ensures { result ≡ list_any leaves_length operations.now }
{
    for operation in operations {
        if leaves_length(operation) {
            return true;
        }
    }
    false
}

fn leaves_window(property: &PropertyText) -> bool
    ensures { result ≡ leaves_window property.now }
{
    let high = high_of(&property.length);
    match property.window {
        None => is_outside(high, MOST, high),
        Some(window) => is_outside(high, MOST, window),
    }
}

fn any_window(operations: &[PropertyText]) -> bool
    ensures { result ≡ list_any leaves_window operations.now }
{
    for operation in operations {
        if leaves_window(operation) {
            return true;
        }
    }
    false
}

fn leaves_offset(rule: &RuleText) -> bool
    ensures { result ≡ leaves_offset rule.now }
{
    match rule.kind {
        RuleKind::Constraint => wanted_in(&rule.formula, &Wanted::Beyond(64)).is_some(),
        RuleKind::Invariant => false,
    }
}

fn any_offset(rules: &[RuleText]) -> bool
    ensures { result ≡ list_any leaves_offset rules.now }
{
    for rule in rules {
        if leaves_offset(rule) {
            return true;
        }
    }
    false
}

fn any_hands(operations: &[PropertyText]) -> bool
    ensures { result ≡ list_any leaves_hands operations.now }
{
    for operation in operations {
        if operation.hand.len() > 64 {
            return true;
        }
    }
    false
}

// How many rules there are of each kind.
#[derive(Drop)]
struct RuleCounts {
    constraints: usize,
    invariants: usize,
}

fn counts_of(rules: &[RuleText]) -> RuleCounts
    ensures constraints { result.constraints ≡ length (constraints_of rules.now) }
    ensures invariants { result.invariants ≡ length (invariants_of rules.now) }
{
    let mut constraints = 0;
    let mut invariants = 0;
    for rule in rules {
        match rule.kind {
            RuleKind::Constraint => constraints += 1,
            RuleKind::Invariant => invariants += 1,
        }
    }
    RuleCounts {
        constraints,
        invariants,
    }
}

// Whether a quantity of a set leaves its bounds.
fn leaves(text: &SetText, quantity: Quantity) -> bool
    ensures { result ≡ leaves text.now quantity }
{
    let operations = text.operations.as_slice();
    let rules = text.rules.as_slice();
    match quantity {
        Quantity::Width => any_width(text.declarations.as_slice()),
        Quantity::Cycles => is_outside(1, 16, text.cycles),
        Quantity::Length => MOST < text.first.length.low || any_length(operations),
        Quantity::Window => {
            leaves_window(&text.first) || any_window(operations) || any_offset(rules)
        }
        Quantity::Operations => is_outside(1, MOST, operations.len() as u64),
        Quantity::Invariants => counts_of(rules).invariants > 64,
        Quantity::Constraints => counts_of(rules).constraints > 64,
        Quantity::Names => is_outside(1, 256, text.declarations.as_slice().len() as u64),
        Quantity::Hands => any_hands(operations),
    }
}

/// A quantity of a set that leaves its bounds, the counts first.
pub fn limit_of(text: &SetText) -> Option<Quantity>
    ensures { Finds (Leaves text.now) result }
{
    if leaves(text, Quantity::Names) {
        return Some(Quantity::Names);
    }
    if leaves(text, Quantity::Operations) {
        return Some(Quantity::Operations);
    }
    if leaves(text, Quantity::Constraints) {
        return Some(Quantity::Constraints);
    }
    if leaves(text, Quantity::Invariants) {
        return Some(Quantity::Invariants);
    }
    if leaves(text, Quantity::Cycles) {
        return Some(Quantity::Cycles);
    }
    if leaves(text, Quantity::Width) {
        return Some(Quantity::Width);
    }
    if leaves(text, Quantity::Length) {
        return Some(Quantity::Length);
    }
    if leaves(text, Quantity::Window) {
        return Some(Quantity::Window);
    }
    if leaves(text, Quantity::Hands) {
        return Some(Quantity::Hands);
    }
    None
}
