// What an assignment does to what the paths before it do.

ghost use Rattle.std.specs.Prelude.{[], ◌∷◌, length, map, OnOk};
ghost use Rattle.vlog_tree.specs.declared.stmt.Lval.{Lval as Left};
ghost use Rattle.vlog_tree_runs.specs.Places.{Among};
ghost use Rattle.elab_flat_faults.specs.Drivers.{parts_of};
ghost use Rattle.elab_flat_drivers.specs.Claims.{IsPartReady};
ghost use Rattle.elab_flat_drivers.specs.Parts.{part_meant};
ghost use Rattle.elab_step_flow.specs.Assigned.{PartsSet};
ghost use Rattle.elab_step_flow.specs.Sets.{tables, IsSized};
ghost use Rattle.elab_step_flow.specs.Words.{AreNarrow};

use crate::flow::BlockFlow;
use crate::scope::Scope;
use crate::words::{place_of, set_word, shape_at};
use elab_flat_drivers::{Part, parts_of};
use std::alloc::{AllocError, Global};
use vlog_tree::Lval;

// Sets a part, which depends on the places of a set.
fn assign_part(
    flow: &mut BlockFlow,
    alloc: Global,
    scope: &Scope<'_>,
    part: Part<'_>,
    sources: &[usize],
) -> Result<(), AllocError>
    requires narrow { AreNarrow scope.now }
    requires ready { IsPartReady (part_meant part) }
    requires sized { IsSized (length scope.now) flow.old }
    ensures set { OnOk result (PartsSet scope.now (part_meant part.entry ∷ []) sources.now (tables flow.old)
        (tables flow.new)) }
    ensures sized { OnOk result (IsSized (length scope.now) flow.new) }
{
    if let Some(place) = place_of(scope.list(), scope.names(), part) {
        let word = set_word(alloc, part, shape_at(scope.list(), place))?;
        flow.set(place, word, sources)?;
    }
    Ok(())
}

// Sets parts.
fn assign_parts(
    flow: &mut BlockFlow,
    alloc: Global,
    scope: &Scope<'_>,
    parts: &[Part<'_>],
    sources: &[usize],
) -> Result<(), AllocError>
    requires narrow { AreNarrow scope.now }
    requires ready { (q : Left) → Among (map part_meant parts.now) q → IsPartReady q }
    requires sized { IsSized (length scope.now) flow.old }
    ensures set { OnOk result (PartsSet scope.now (map part_meant parts.now) sources.now (tables flow.old)
        (tables flow.new)) }
    ensures sized { OnOk result (IsSized (length scope.now) flow.new) }
{
    for part in parts {
        assign_part(flow, alloc, scope, *part, sources)?;
    }
    Ok(())
}

/// Sets a left side, which depends on the places of a set.
pub fn assign_left(
    flow: &mut BlockFlow,
    alloc: Global,
    scope: &Scope<'_>,
    left: &Lval,
    sources: &[usize],
) -> Result<(), AllocError>
    requires narrow { AreNarrow scope.now }
    requires ready { (q : Left) → Among (parts_of left.now) q → IsPartReady q }
    requires sized { IsSized (length scope.now) flow.old }
    ensures set { OnOk result (PartsSet scope.now (parts_of left.now) sources.now (tables flow.old) (tables flow.new)) }
    ensures sized { OnOk result (IsSized (length scope.now) flow.new) }
{
    let parts = parts_of(alloc, left)?;
    assign_parts(flow, alloc, scope, &parts, sources)
}
