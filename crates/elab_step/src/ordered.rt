// Modules whose nets stand in an order.
ghost use Rattle.std.specs.Prelude.{◌≡◌, ◌<◌, ℕ, IfOk, List, length};
ghost use Rattle.vlog_tree_runs.specs.Places.{Name, Among};
ghost use Rattle.vlog_tree_runs.specs.Cycles.{IsInput, IsRegister};
ghost use Rattle.elab_step_design.specs.Designs.{HasRunsOf};
ghost use Rattle.elab_flat_faults.specs.Drivers.{DependsOn};
ghost use Rattle.elab_step_nets.specs.Asked.{CanElaborate, IsFaultless};
ghost use Rattle.elab_step_nets.specs.Boards.{names_of, ArePlacesOf, IsSolved};
ghost use Rattle.elab_step_nets.specs.Solving.{IsNetOrder, joined};
ghost use Rattle.elab_flat_graphs.specs.Graphs.{graph_of, IsGraph};
ghost use Rattle.elab_step_flow.specs.Edges.{AreDependences};
ghost use Rattle.elab_step.specs.Parts.{HasSignals};

use crate::design::design_of;
use crate::flags::{flags_among, names_at};
use crate::groups::groups_of;
use elab_step_design::Design;
use elab_step_nets::{solve, solved_designs_have_the_modules_runs};
use std::alloc::{AllocError, Global};
use vlog_tree_runs::Flat;

/// The design of a module, from the graph of its dependences, the places of the statements that assign each signal, and
/// the places of its nets among its signals, each after those that it depends on within a cycle. Where no fault of the
/// module stands, the design has the module's cycles, and the same cycles follow (IEEE 1364-2005, sections 6.1 and
/// 9.2).
pub fn design_in_order(
    alloc: Global,
    flat: &Flat,
    graph: &[Vec<usize>],
    places: &[Vec<usize>],
    order: &[usize],
) -> Result<Design, AllocError>
    requires can { CanElaborate flat.now }
    requires size { length graph.now ≡ length flat.now.signals }
    requires vertices { IsGraph (graph_of graph.now) }
    requires depends { AreDependences flat.now (graph_of graph.now) }
    requires places { ArePlacesOf flat.now flat.now.signals places.now }
    requires within { (i : ℕ) → Among order.now i → i < length flat.now.signals }
    requires order { IsNetOrder flat.now (DependsOn flat.now) (names_of flat.now.signals order.now) }
    requires apart { (x : Name) → IsInput flat.now x → IsRegister flat.now x → ⊥ }
    ensures solved { IfOk result (λ d. (xss : List (List Name)) × (joined xss ≡ names_of flat.now.signals order.now) ×
        IsSolved flat.now xss d) }
    ensures runs { IsFaultless flat.now → IfOk result (λ d. HasRunsOf flat.now d) }
    ensures signals { IfOk result (λ d. HasSignals flat.now d) }
{
    solved_designs_have_the_modules_runs();
    let signals = flat.signals.as_slice();
    let net_names = names_at(alloc, signals, order)?;
    let nets = flags_among(alloc, &net_names, signals)?;
    let groups = groups_of(alloc, graph, places, order)?;
    let solution = solve(alloc, flat, places, &groups, &nets)?;
    design_of(alloc, flat, &groups, &nets, solution)
}
