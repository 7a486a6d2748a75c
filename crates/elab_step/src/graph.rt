// Modules by the graph of their dependences.
ghost use Rattle.std.specs.Prelude.{◌≡◌, ◌<◌, ◌⊎◌, ◌++◌, [], ◌∷◌, ℕ, if◌then◌else◌, IfOk, IfErr, OnOk, length, map};
ghost use Rattle.std.specs.List.{flat_map};
ghost use Rattle.vlog_tree_runs.specs.Places.{Name, Among};
ghost use Rattle.vlog_tree_runs.specs.Cycles.{IsInput, IsRegister};
ghost use Rattle.elab_step_design.specs.Designs.{HasRunsOf};
ghost use Rattle.elab_flat_scopes.specs.Borrowed.{name_meant};
ghost use Rattle.elab_flat_faults.specs.declared.elaborating.ElabFault.TheVariants as f;
ghost use Rattle.elab_flat_faults.specs.ElabStands.{Stands};
ghost use Rattle.elab_flat_graphs.specs.Graphs.{graph_of, IsGraph, Among as Lists};
ghost use Rattle.elab_step_flow.specs.Edges.{AreDependences};
ghost use Rattle.elab_step_nets.specs.Asked.{CanElaborate, IsFaultless};
ghost use Rattle.elab_step_nets.specs.Boards.{name_of};
ghost use Rattle.elab_step.specs.Ordering.{source_names, unflagged};
ghost use Rattle.elab_step.specs.Parts.{HasSignals, input_name};
ghost use Rattle.elab_step.specs.Sources.{flags_among};

use crate::flags::{flags_among, name_at};
use crate::ordered::design_in_order;
use crate::places::{first_places, places_of};
use elab_flat_drivers::{Form, block_names};
use elab_flat_faults::ElabFault;
use elab_flat_graphs::{Sorted, order};
use elab_flat_scopes::Names;
use elab_step_design::Design;
use outside::Text;
use std::alloc::{AllocError, Global};
use vlog_tree_runs::{Flat, Signal, TopPort};

// Adds the names of inputs of the top.
fn add_inputs<'a>(all: &mut Vec<&'a Text>, ports: &'a [TopPort]) -> Result<(), AllocError>
    ensures { OnOk result (map name_meant all.new.items ≡ map name_meant all.old.items ++ flat_map input_name ports.now) }
{
    for port in ports {
        if !port.output {
            all.push(&port.name)?;
        }
    }
    Ok(())
}

// Flags that tell the registers and the inputs of the top.
fn source_flags(alloc: Global, flat: &Flat) -> Result<Vec<bool>, AllocError>
    ensures { IfOk result (λ r. r.items ≡ flags_among (source_names flat.now) flat.now.signals) }
{
    let mut all = block_names(alloc, flat.blocks.as_slice(), true, Form::Any)?;
    add_inputs(&mut all, flat.ports.as_slice())?;
    let names = Names::of(alloc, all)?;
    flags_among(alloc, &names, flat.signals.as_slice())
}

// Adds a place, unless it has a flag.
fn add_unflagged(all: &mut Vec<usize>, flag: bool, place: usize) -> Result<(), AllocError>
    ensures { OnOk result (all.new.items ≡ all.old.items ++ (if flag then [] else place ∷ [])) }
{
    if !flag {
        all.push(place)?;
    }
    Ok(())
}

// The places without a flag.
fn unflagged(alloc: Global, flags: &[bool], places: &[usize]) -> Result<Vec<usize>, AllocError>
    requires { (i : ℕ) → Lists places.now i → i < length flags.now }
    ensures { IfOk result (λ r. r.items ≡ unflagged flags.now places.now) }
{
    let mut all = Vec::new(alloc);
    for place in places {
        add_unflagged(&mut all, flags[*place], *place)?;
    }
    Ok(all)
}

// The fault of a signal that depends on itself.
fn looped(alloc: Global, signals: &[Signal], place: usize) -> Result<ElabFault, AllocError>
    requires { place < length signals.now }
    ensures { IfOk result (λ e. e ≡ f.Loop (name_of signals.now place)) }
{
    let name = name_at(signals, place);
    Ok(ElabFault::Loop(Text::copy(alloc, name.bytes())?))
}

/// The design of a module, from the graph of its dependences: for each signal the places of those that it depends on
/// within a cycle. It is refused where a signal depends on itself, or where memory runs out. Where no fault of the
/// module stands, the design has the module's cycles, and the same cycles follow.
pub fn design_by_graph(
    alloc: Global,
    flat: &Flat,
    graph: &[Vec<usize>],
) -> Result<Design, ElabFault>
    requires can { CanElaborate flat.now }
    requires size { length graph.now ≡ length flat.now.signals }
    requires vertices { IsGraph (graph_of graph.now) }
    requires depends { AreDependences flat.now (graph_of graph.now) }
    requires apart { (x : Name) → IsInput flat.now x → IsRegister flat.now x → ⊥ }
    ensures runs { IsFaultless flat.now → IfOk result (λ d. HasRunsOf flat.now d) }
    ensures signals { IfOk result (λ d. HasSignals flat.now d) }
    ensures acyclic { IfOk result (λ d. (x : Name) → Stands flat.now (f.Loop x) → ⊥) }
    ensures fault { IfErr result (λ e. (e ≡ f.Memory) ⊎ Stands flat.now e) }
{
    let places = places_of(alloc, flat)?;
    let firsts = first_places(alloc, &places)?;
    // (nets of one level that the same statements assign stand side by side, so that they are solved at once)
    match order(alloc, graph, &firsts)? {
        Sorted::Order(signals) => {
            let sources = source_flags(alloc, flat)?;
            let nets = unflagged(alloc, &sources, &signals)?;
            let design = design_in_order(alloc, flat, graph, &places, &nets)?;
            Ok(design)
        }
        Sorted::Cycle(cycle) => Err(looped(alloc, flat.signals.as_slice(), cycle[0])?),
    }
}
