// The first fault of a set.

ghost use Rattle.std.specs.Prelude.{◌≡◌, ℕ, suc, ◌+◌, ◌<◌, ◌≤◌, ◌&&◌, not, true, false, Some, None, length, map, slice_get};
ghost use Rattle.std.specs.List.{find, flat_map, Contains};
ghost use Rattle.set_tree.specs.Parts.{IsPosition};
ghost use Rattle.set_tree_structure.specs.declared.fault.GraphFault.TheVariants as GraphFault;
ghost use Rattle.set_tree_structure.specs.Condition.{IsIndexed};
ghost use Rattle.set_tree_structure.specs.Faults.{positions, invariant_faults, domain_faults, cover_faults, property_faults, edge_faults, edges_faults};
ghost use Rattle.set_tree_structure.specs.Tests.{find_property, stands, first_fault};

use crate::cover::{has_cover, is_output_at, leads_to, meets};
use crate::fault::{GraphFault, Place};
use crate::offset::{keeps_window, reads_ahead, reads_within};
use set_tree::{Property, Set};

fn invariant_fault(set: &Set) -> Option<GraphFault>
    requires { IsIndexed set.now }
    ensures { result ≡ find (stands set.now) (invariant_faults set.now) }
{
    for (at, rule) in set.invariants.as_slice().iter().enumerate() {
        if !reads_within(0, &rule.formula) {
            return Some(GraphFault::Offset(Place::Invariant(at as u32)));
        }
    }
    None
}

fn domain_fault(set: &Set) -> Option<GraphFault>
    requires { IsIndexed set.now }
    ensures { result ≡ find (stands set.now) (domain_faults set.now) }
{
    for (at, name) in set.names.as_slice().iter().enumerate() {
        if reads_ahead(&name.domain) {
            return Some(GraphFault::Offset(Place::Output(at as u32)));
        }
    }
    None
}

fn property_at(set: &Set, at: u32) -> &Property
    requires { IsPosition set.now at }
    ensures { find_property set.now at ≡ Some result.now }
{
    if at == 0 {
        &set.first
    } else {
        &set.operations.as_slice()[at as usize - 1]
    }
}

fn lacks_cover(set: &Set, at: u32, output: u32) -> bool
    requires { IsPosition set.now at }
    ensures { result ≡ stands set.now (GraphFault.Cover at output) }
{
    is_output_at(set, output) && !has_cover(at, property_at(set, at), output)
}

fn cover_fault(set: &Set, at: u32) -> Option<GraphFault>
    requires indexed { IsIndexed set.now }
    requires within { IsPosition set.now at }
    ensures { result ≡ find (stands set.now) (cover_faults set.now at) }
{
    for output in 0..set.names.len() as u32 {
        if lacks_cover(set, at, output) {
            return Some(GraphFault::Cover(at, output));
        }
    }
    None
}

// The first fault of a property by itself.
fn property_fault(set: &Set, at: u32) -> Option<GraphFault>
    requires indexed { IsIndexed set.now }
    requires within { IsPosition set.now at }
    ensures { result ≡ find (stands set.now) (property_faults set.now at) }
{
    let property = property_at(set, at);
    if leads_to(0, property) {
        return Some(GraphFault::IntoReset(at));
    }
    if !keeps_window(property) {
        return Some(GraphFault::Offset(Place::Property(at)));
    }
    cover_fault(set, at)
}

fn properties_fault(set: &Set) -> Option<GraphFault>
    requires { IsIndexed set.now }
    ensures { result ≡ find (stands set.now)
        (flat_map (property_faults set.now) (positions 0 (suc (length set.now.operations)))) }
{
    for at in 0..set.operations.len() as u32 + 1 {
        if let Some(fault) = property_fault(set, at) {
            return Some(fault);
        }
    }
    None
}

fn is_apart(set: &Set, from: u32, to: u32, output: u32) -> bool
    requires from { IsPosition set.now from }
    requires to { IsPosition set.now to }
    ensures { result ≡ stands set.now (GraphFault.Tile from to output) }
{
    let property = property_at(set, from);
    leads_to(to, property)
        && is_output_at(set, output)
        && !meets(property, property_at(set, to), output)
}

fn edge_fault(set: &Set, from: u32, to: u32) -> Option<GraphFault>
    requires indexed { IsIndexed set.now }
    requires from { IsPosition set.now from }
    requires to { IsPosition set.now to }
    ensures { result ≡ find (stands set.now) (edge_faults set.now from to) }
{
    for output in 0..set.names.len() as u32 {
        if is_apart(set, from, to, output) {
            return Some(GraphFault::Tile(from, to, output));
        }
    }
    None
}

// The first fault of the edges from a property.
fn edges_fault(set: &Set, at: u32) -> Option<GraphFault>
    requires indexed { IsIndexed set.now }
    requires within { IsPosition set.now at }
    ensures { result ≡ find (stands set.now) (edges_faults set.now at) }
{
    for next in property_at(set, at).next.as_slice() {
        if let Some(fault) = edge_fault(set, at, *next) {
            return Some(fault);
        }
    }
    None
}

fn all_edges_fault(set: &Set) -> Option<GraphFault>
    requires { IsIndexed set.now }
    ensures { result ≡ find (stands set.now)
        (flat_map (edges_faults set.now) (positions 0 (suc (length set.now.operations)))) }
{
    for at in 0..set.operations.len() as u32 + 1 {
        if let Some(fault) = edges_fault(set, at) {
            return Some(fault);
        }
    }
    None
}

/// The first fault of a set's structure, in the order in which `structure` tells them. None: no fault stands.
pub fn first_fault(set: &Set) -> Option<GraphFault>
    requires { IsIndexed set.now }
    ensures { result ≡ first_fault set.now }
{
    if set.first.hand.len() != 0 {
        return Some(GraphFault::HandAtReset);
    }
    if let Some(fault) = invariant_fault(set) {
        return Some(fault);
    }
    if let Some(fault) = domain_fault(set) {
        return Some(fault);
    }
    if let Some(fault) = properties_fault(set) {
        return Some(fault);
    }
    all_edges_fault(set)
}
