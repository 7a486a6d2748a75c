// Continuous assignments (IEEE 1364-2005, section 6.1).

ghost use Rattle.std.specs.Prelude.{◌≡◌, map, OnOk, IfOk, IfErr};
ghost use Rattle.vlog_tree.specs.declared.item.Assign.{Assign as Assignment};
ghost use Rattle.vlog_tree_runs.specs.Places.{Among};
ghost use Rattle.vlog_tree_runs.specs.Contents.{assigns_in};
ghost use Rattle.vlog_tree_runs.specs.Scopes.{place_of};
ghost use Rattle.elab_flat_faults.specs.Drivers.{parts_of};
ghost use Rattle.elab_flat_drivers.specs.Parts.{part_meant};
ghost use Rattle.elab_flat_faults.specs.Constants.{at_rest};
ghost use Rattle.elab_flat_scopes.specs.Borrowed.{target_meant, assigned_meant};
ghost use Rattle.elab_flat_instances.specs.Unfolding.{scope_meant};
ghost use Rattle.elab_flat_widths.specs.declared.side.Side.TheVariants as d;
ghost use Rattle.elab_flat_widths.specs.Taken.{Fails};
ghost use Rattle.elab_flat_widths.specs.Stores.{NamesSignals, IsSoundStore, BreaksStore};

use crate::side::Side;
use crate::store::Store;
use crate::violation::Violation;
use elab_flat_drivers::{Part, parts_of};
use elab_flat_instances::Scope;
use elab_flat_scopes::{Assigned, Target, assigns_in};
use std::alloc::{AllocError, Global};
use vlog_tree::Valuation;

fn target_parts(alloc: Global, target: Target<'_>) -> Result<Vec<Part<'_>>, AllocError>
    ensures { IfOk result (λ r. map part_meant r.items ≡ parts_of (target_meant target.entry)) }
{
    match target {
        Target::Wire(name) => {
            let mut parts = Vec::new(alloc);
            parts.push(Part::Whole(name))?;
            Ok(parts)
        }
        Target::Left(left) => parts_of(alloc, left),
    }
}

// A continuous assignment keeps the rules.
fn check_assigned(
    alloc: Global,
    scope: &Scope<'_>,
    rest: &Valuation,
    assigned: &Assigned<'_>,
) -> Result<(), Violation>
    requires rest { rest.now ≡ at_rest (place_of (scope_meant scope.now)) }
    requires signals { NamesSignals (place_of (scope_meant scope.now)) (target_meant assigned.now.left) }
    ensures ok { OnOk result (IsSoundStore d.Continuous (place_of (scope_meant scope.now))
        (assigned_meant assigned.now)) }
    ensures err { IfErr result (Fails (BreaksStore d.Continuous (place_of (scope_meant scope.now))
        (assigned_meant assigned.now))) }
{
    let parts = target_parts(alloc, assigned.left)?;
    let store = Store {
        side: Side::Continuous,
        parts: &parts,
        right: assigned.right,
    };
    store.check(alloc, &scope.params, rest)
}

fn check_each(
    alloc: Global,
    scope: &Scope<'_>,
    rest: &Valuation,
    assigns: &[Assigned<'_>],
) -> Result<(), Violation>
    requires rest { rest.now ≡ at_rest (place_of (scope_meant scope.now)) }
    requires signals { (a : Assignment) → Among (map assigned_meant assigns.now) a →
        NamesSignals (place_of (scope_meant scope.now)) a.left }
    ensures ok { OnOk result ((a : Assignment) → Among (map assigned_meant assigns.now) a →
        IsSoundStore d.Continuous (place_of (scope_meant scope.now)) a) }
    ensures err { IfErr result (Fails (λ w. (a : Assignment) × Among (map assigned_meant assigns.now) a ×
        BreaksStore d.Continuous (place_of (scope_meant scope.now)) a w)) }
{
    for assigned in assigns {
        match check_assigned(alloc, scope, rest, assigned) {
            Ok(()) => {}
            Err(violation) => return Err(violation),
        }
    }
    Ok(())
}

/// The continuous assignments of a scope's text keep the rules.
pub fn check_assignments(
    alloc: Global,
    scope: &Scope<'_>,
    rest: &Valuation,
) -> Result<(), Violation>
    requires rest { rest.now ≡ at_rest (place_of (scope_meant scope.now)) }
    requires signals { (a : Assignment) → Among (assigns_in scope.now.text.now) a →
        NamesSignals (place_of (scope_meant scope.now)) a.left }
    ensures ok { OnOk result ((a : Assignment) → Among (assigns_in scope.now.text.now) a →
        IsSoundStore d.Continuous (place_of (scope_meant scope.now)) a) }
    ensures err { IfErr result (Fails (λ w. (a : Assignment) × Among (assigns_in scope.now.text.now) a ×
        BreaksStore d.Continuous (place_of (scope_meant scope.now)) a w)) }
{
    let assigns = assigns_in(alloc, scope.text)?;
    check_each(alloc, scope, rest, &assigns)
}
