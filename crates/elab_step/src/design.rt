// From a solved module to a design.
ghost use Rattle.std.specs.Prelude.{◌≡◌, IfOk, map, length};
ghost use Rattle.std.specs.List.{flat_map};
ghost use Rattle.vlog_tree_runs.specs.Places.{Name};
ghost use Rattle.vlog_tree_runs.specs.Cycles.{IsInput, IsRegister};
ghost use Rattle.elab_flat_faults.specs.Drivers.{DependsOn};
ghost use Rattle.elab_step_nets.specs.Asked.{CanElaborate};
ghost use Rattle.elab_step_nets.specs.Boards.{groups_of, IsSolution, IsSolved};
ghost use Rattle.elab_step_nets.specs.Solving.{IsNetOrder, joined};
ghost use Rattle.elab_step.specs.Parts.{HasSignals};
ghost use Rattle.elab_step.specs.Sources.{flags_among};

use crate::flags::{register_flags, signal_names};
use crate::parts::{asyncs_of, clock_of, inputs_of, nets_of, outputs_of, registers_of};
use elab_step_design::Design;
use elab_step_nets::Solution;
use std::alloc::{AllocError, Global};
use vlog_tree_runs::Flat;

/// The design of a module whose nets are solved group after group in an order of their dependences. The flags tell the
/// nets.
pub fn design_of(
    alloc: Global,
    flat: &Flat,
    groups: &[Vec<usize>],
    nets: &[bool],
    solution: Solution,
) -> Result<Design, AllocError>
    requires can { CanElaborate flat.now }
    requires order { IsNetOrder flat.now (DependsOn flat.now) (joined (groups_of flat.now.signals groups.now)) }
    requires nets { nets.now ≡ flags_among (joined (groups_of flat.now.signals groups.now)) flat.now.signals }
    requires apart { (x : Name) → IsInput flat.now x → IsRegister flat.now x → ⊥ }
    requires solution { IsSolution flat.now (groups_of flat.now.signals groups.now) nets.now solution.dag solution.begun solution.now solution.next }
    ensures solved { IfOk result (λ d. IsSolved flat.now (groups_of flat.now.signals groups.now) d) }
    ensures signals { IfOk result (λ d. HasSignals flat.now d) }
{
    // the nodes of a dag fit, and no two are the same
    let _nodes = solution.dag.nodes();
    let names = signal_names(alloc, flat.signals.as_slice())?;
    let registers = register_flags(alloc, flat)?;
    let all_registers = registers_of(alloc, &registers, &solution.begun, &solution.next)?;
    let all_inputs = inputs_of(alloc, flat.ports.as_slice(), &names, &solution.begun)?;
    let all_nets = nets_of(alloc, nets, &solution.begun, &solution.now)?;
    let outputs = outputs_of(alloc, flat.ports.as_slice())?;
    let clock = clock_of(alloc, &flat.clock)?;
    let asyncs = asyncs_of(alloc, flat.asyncs.as_slice())?;
    Ok(Design::new(
        solution.dag,
        all_registers,
        all_inputs,
        all_nets,
        outputs,
        clock,
        asyncs,
    ))
}
