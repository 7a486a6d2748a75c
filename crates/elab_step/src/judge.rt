// Modules without instances as designs.
ghost use Rattle.std.specs.Prelude.{◌≡◌, ◌⊎◌, IfOk, IfErr, IfSome, IfNone};
ghost use Rattle.vlog_tree_runs.specs.Places.{Name};
ghost use Rattle.vlog_tree_runs.specs.Cycles.{IsInput, IsRegister};
ghost use Rattle.elab_step_design.specs.Designs.{HasRunsOf};
ghost use Rattle.elab_flat_faults.specs.declared.elaborating.ElabFault.TheVariants as f;
ghost use Rattle.elab_step_nets.specs.Asked.{CanElaborate};
ghost use Rattle.elab_flat_faults.specs.Handed.{AreNumbered};
ghost use Rattle.elab_step.specs.Asked.{IsFaultOf, IsCleanButLoops, HasNoFault};
ghost use Rattle.elab_step.specs.Parts.{HasSignals};

use crate::graph::design_by_graph;
use crate::inputs::assigned_input;
use elab_flat_drivers::{driven_twice, undriven, wrongly_assigned};
use elab_flat_faults::ElabFault;
use elab_step_design::Design;
use elab_step_flow::{dependences, latch_of, unlisted_in};
use std::alloc::{AllocError, Global};
use vlog_tree_runs::Flat;

// A fault of a module other than a loop.
#[tactic(auto, using(crate::proofs::Telling::can_drive, crate::proofs::Telling::can_tell, crate::proofs::Passing::can_pass))]
fn fault_of(alloc: Global, flat: &Flat) -> Result<Option<ElabFault>, AllocError>
    requires can { CanElaborate flat.now }
    requires numbers { AreNumbered flat.now }
    ensures some { IfOk result (λ o. IfSome o (λ e. IsFaultOf flat.now e)) }
    ensures clean { IfOk result (λ o. IfNone o (IsCleanButLoops flat.now)) }
    ensures apart { IfOk result (λ o. IfNone o ((x : Name) → IsInput flat.now x → IsRegister flat.now x → ⊥)) }
{
    if let Some(name) = wrongly_assigned(alloc, flat)? {
        return Ok(Some(ElabFault::Kind(name)));
    }
    if let Some(name) = assigned_input(alloc, flat)? {
        return Ok(Some(ElabFault::Kind(name)));
    }
    if let Some((name, bit)) = driven_twice(alloc, flat)? {
        return Ok(Some(ElabFault::Drivers(name, bit)));
    }
    if let Some((name, bit)) = undriven(alloc, flat)? {
        return Ok(Some(ElabFault::Undriven(name, bit)));
    }
    if let Some(name) = latch_of(alloc, flat)? {
        return Ok(Some(ElabFault::Latch(name)));
    }
    if let Some(name) = unlisted_in(alloc, flat)? {
        return Ok(Some(ElabFault::Sensitivity(name)));
    }
    Ok(None)
}

/// The design of a module without instances: it has the module's cycles, and the same cycles follow (IEEE 1364-2005,
/// sections 6.1 and 9.2). It is refused where a fault of the module stands, or where memory runs out. Faults are looked
/// for in this order: wrong forms of assignment, inputs of the top that clocked blocks assign among them; bits with two
/// drivers; bits without one; latches; lists of names that leave one out; and loops.
#[tactic(auto, using(crate::proofs::Passing::can_pass))]
pub fn elaborate(alloc: Global, flat: &Flat) -> Result<Design, ElabFault>
    requires can { CanElaborate flat.now }
    requires numbers { AreNumbered flat.now }
    ensures runs { IfOk result (λ d. HasRunsOf flat.now d) }
    ensures signals { IfOk result (λ d. HasSignals flat.now d) }
    ensures clean { IfOk result (λ d. HasNoFault flat.now) }
    ensures fault { IfErr result (λ e. (e ≡ f.Memory) ⊎ IsFaultOf flat.now e) }
{
    if let Some(fault) = fault_of(alloc, flat)? {
        return Err(fault);
    }
    let graph = dependences(alloc, flat)?;
    let design = design_by_graph(alloc, flat, &graph)?;
    Ok(design)
}
