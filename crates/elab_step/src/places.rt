// The statements that assign each signal.
ghost use Rattle.std.specs.Prelude.{◌≡◌, ◌<◌, ◌≤◌, ◌+◌, ◌++◌, ◌^◌, [], ◌∷◌, ℕ, Some, false, IfOk, OnOk, length, map, replicate, get_or, slice_index};
ghost use Rattle.vlog_tree.specs.declared.item.Assign.{Assign as Equation};
ghost use Rattle.vlog_tree_runs.specs.Blocks.{left_names};
ghost use Rattle.elab_flat_scopes.specs.Borrowed.{name_meant};
ghost use Rattle.elab_flat_scopes.specs.Finding.{place_in};
ghost use Rattle.elab_flat_drivers.specs.declared.names.Form.TheVariants as m;
ghost use Rattle.elab_flat_drivers.specs.Names.{chosen_names};
ghost use Rattle.elab_flat_graphs.specs.Graphs.{graph_of};
ghost use Rattle.elab_step_nets.specs.Asked.{CanElaborate};
ghost use Rattle.elab_step_nets.specs.Boards.{ArePlacesOf};
ghost use Rattle.elab_step.specs.Placing.{last_of, is_number, ending_in, placed_at, all_placed, assigns_placed, blocks_placed, places_in, first_place};
ghost use Rattle.elab_step.specs.Sources.{signal_names};

use crate::flags::signal_names;
use elab_flat_drivers::{Form, block_names, name_of, parts_of};
use elab_flat_scopes::Names;
use outside::Text;
use std::alloc::{AllocError, Global};
use vlog_tree::{Assign, Lval};
use vlog_tree_runs::{Always, Flat};

// The names that a left side assigns.
fn left_names(alloc: Global, left: &Lval) -> Result<Vec<&Text>, AllocError>
    ensures { IfOk result (λ r. map name_meant r.items ≡ left_names left.now) }
{
    let mut all = Vec::new(alloc);
    let parts = parts_of(alloc, left)?;
    for part in &parts {
        all.push(name_of(*part))?;
    }
    Ok(all)
}

fn is_last(list: &[usize], place: usize) -> bool
    ensures { result ≡ is_number (last_of list.now) place }
{
    let count = list.len();
    if count == 0 {
        return false;
    }
    list[count - 1] == place
}

// Adds a place to a list that doesn't end in it.
fn end_in(list: &mut Vec<usize>, place: usize) -> Result<(), AllocError>
    ensures { OnOk result (list.new.items ≡ ending_in place list.old.items) }
{
    if !is_last(list.as_slice(), place) {
        list.push(place)?;
    }
    Ok(())
}

// Adds the place of a statement to the list of a signal that it assigns.
fn add_place(
    lists: &mut Vec<Vec<usize>>,
    names: &Names<'_>,
    name: &Text,
    place: usize,
) -> Result<(), AllocError>
    requires { length lists.old.items ≡ length names.now }
    ensures same { OnOk result (length lists.new.items ≡ length lists.old.items) }
    ensures placed { OnOk result (graph_of lists.new.items ≡ placed_at (place_in names.now name.now) place
        (graph_of lists.old.items)) }
{
    if let Some(at) = names.place(name.bytes()) {
        end_in(&mut lists[at], place)?;
    }
    Ok(())
}

// Adds the place of a statement to the lists of the signals that it assigns.
fn add_places(
    lists: &mut Vec<Vec<usize>>,
    names: &Names<'_>,
    assigned: &[&Text],
    place: usize,
) -> Result<(), AllocError>
    requires { length lists.old.items ≡ length names.now }
    ensures same { OnOk result (length lists.new.items ≡ length lists.old.items) }
    ensures placed { OnOk result (graph_of lists.new.items ≡ all_placed names.now place (map name_meant assigned.now)
        (graph_of lists.old.items)) }
{
    for name in assigned {
        add_place(lists, names, name, place)?;
    }
    Ok(())
}

fn add_assigns(
    lists: &mut Vec<Vec<usize>>,
    alloc: Global,
    names: &Names<'_>,
    assigns: &[Assign],
) -> Result<(), AllocError>
    requires { length lists.old.items ≡ length names.now }
    ensures same { OnOk result (length lists.new.items ≡ length lists.old.items) }
    ensures placed { OnOk result (graph_of lists.new.items ≡ assigns_placed names.now 0 assigns.now
        (graph_of lists.old.items)) }
{
    for i in 0..assigns.len() {
        let assigned = left_names(alloc, &assigns[i].left)?;
        add_places(lists, names, &assigned, i)?;
    }
    Ok(())
}

fn add_blocks(
    lists: &mut Vec<Vec<usize>>,
    alloc: Global,
    names: &Names<'_>,
    blocks: &[Always],
    first: usize,
) -> Result<(), AllocError>
    requires same { length lists.old.items ≡ length names.now }
    requires room { first + length blocks.now < 2 ^ 64 }
    ensures same { OnOk result (length lists.new.items ≡ length lists.old.items) }
    ensures placed { OnOk result (graph_of lists.new.items ≡ blocks_placed names.now first blocks.now
        (graph_of lists.old.items)) }
{
    for i in 0..blocks.len() {
        let assigned = block_names(alloc, &blocks[i..i + 1], false, Form::Any)?;
        add_places(lists, names, &assigned, first + i)?;
    }
    Ok(())
}

// A list without places for each of so many signals.
fn no_places(alloc: Global, count: usize) -> Result<Vec<Vec<usize>>, AllocError>
    ensures { IfOk result (λ r. graph_of r.items ≡ replicate count []) }
{
    let mut all = Vec::new(alloc);
    for _i in 0..count {
        all.push(Vec::new(alloc))?;
    }
    Ok(all)
}

/// For each signal the places of the continuous assignments and the combinational blocks that assign it, of the
/// assignments first.
pub fn places_of(alloc: Global, flat: &Flat) -> Result<Vec<Vec<usize>>, AllocError>
    requires { CanElaborate flat.now }
    ensures { IfOk result (λ r. ArePlacesOf flat.now flat.now.signals r.items) }
{
    let signals = flat.signals.as_slice();
    let names = signal_names(alloc, signals)?;
    let mut places = no_places(alloc, signals.len())?;
    let assigns = flat.assigns.as_slice();
    let blocks = flat.blocks.as_slice();
    add_assigns(&mut places, alloc, &names, assigns)?;
    add_blocks(&mut places, alloc, &names, blocks, assigns.len())?;
    Ok(places)
}

// The first place of a list: 0 where it has none.
fn first_in(list: &[usize]) -> usize
    ensures { result ≡ slice_index list.now 0 }
{
    list.first().copied().unwrap_or(0)
}

/// The first place of each list: 0 where it has none.
pub fn first_places(alloc: Global, lists: &[Vec<usize>]) -> Result<Vec<usize>, AllocError>
    ensures { IfOk result (λ r. r.items ≡ map first_place lists.now) }
{
    let mut firsts = Vec::new(alloc);
    for list in lists {
        firsts.push(first_in(list))?;
    }
    Ok(firsts)
}
