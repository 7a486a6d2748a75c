// Nets, solved group after group.
ghost use Rattle.std.specs.Prelude.{◌≡◌, ◌<◌, ℕ, true, false, List, None, length, map, get_or, IfOk};
ghost use Rattle.word_dag.specs.Adding.{Keeps};
ghost use Rattle.vlog_tree_runs.specs.declared.flat.Always.{Always};
ghost use Rattle.vlog_tree_runs.specs.Blocks.{run};
ghost use Rattle.vlog_tree_runs.specs.Places.{Among};
ghost use Rattle.vlog_tree_runs.specs.Cycles.{flat_place};
ghost use Rattle.word_dag.specs.declared.node.Node.{Node as OneNode};
ghost use Rattle.elab_step_expr.specs.declared.leaves.Leaf.{Leaf as OneLeaf};
ghost use Rattle.vlog_tree.specs.declared.stmt.Stmt.{Stmt as OneStmt};
ghost use Rattle.elab_step_expr.specs.Leaves.{declared, AreReady};
ghost use Rattle.elab_step_blocks.specs.declared.branches.Saved.{Saved as OneSaved};
ghost use Rattle.elab_step_blocks.specs.Saving.{saved_at, places_of, put_back, AreWithin, IsSaved};
ghost use Rattle.elab_step_blocks.specs.Sparing.{Covers};
ghost use Rattle.elab_step_blocks.specs.Standing.{AreLeavesOf, AreApart};
ghost use Rattle.elab_step_nets.specs.Solving.{settled, solved, processes};
ghost use Rattle.elab_step_nets.specs.Asked.{CanElaborate};
ghost use Rattle.elab_step_nets.specs.Boards.{IsBoard, IsProcess, Shows, driven_by, statements, statement_at, picked, names_of, groups_of, list_in, ArePlacesOf, AreBelow};
ghost use Rattle.elab_step_nets.specs.Outcomes.{IsFound, IsOutcome, IsSource, AreOutcomes, AreRoots, AreProcesses, AreSameProcesses, CanDrive, AreDriven};
ghost use Rattle.elab_step_copies.specs.Copies.{IsSound, AreMoved, list_at};

use crate::edge::copy_of;
use crate::nodes::zero;
use crate::outcomes::{Outcome, outcome_of};
use crate::start::begun;
use elab_step_blocks::{Saved, assign, before_assign, put_back, saved_at};
use elab_step_copies::Copier;
use elab_step_expr::Leaves;
use std::alloc::{AllocError, Global};
use vlog_tree_runs::Flat;
use word_dag::Dag;

/// A module's continuous assignments, and what its combinational blocks leave, with the leaves over which they were
/// run.
#[derive(Drop)]
pub struct Processes<'a> {
    flat: &'a Flat,
    first: Leaves,
    outcomes: Vec<Outcome>,
    copier: Copier,
}

// Runs a continuous assignment on the leaves.
fn run_assign(
    alloc: Global,
    dag: &mut Dag,
    flat: &Flat,
    place: usize,
    state: &mut Leaves,
) -> Result<(), AllocError>
    requires can { CanElaborate flat.now }
    requires board { IsBoard flat.now.signals state.old dag.old }
    requires within { place < length flat.now.assigns }
    ensures keeps { Keeps dag.old dag.new }
    ensures same { declared state.new ≡ declared state.old }
    ensures board { IfOk result (λ u. IsBoard flat.now.signals state.new dag.new) }
    ensures shows { IfOk result (λ u. Shows (λ c. run true (flat_place flat.now)
        (statement_at (statements flat.now) place) c c) state.old dag.old state.new dag.new) }
{
    let text = &flat.assigns.as_slice()[place];
    assign(alloc, dag, &text.left, &text.right, None, state)?;
    Ok(())
}

// The nodes of the leaves that a continuous assignment assigns.
fn saved_for_assign(
    alloc: Global,
    flat: &Flat,
    place: usize,
    state: &Leaves,
) -> Result<Vec<Saved>, AllocError>
    requires can { CanElaborate flat.now }
    requires leaves { AreLeavesOf flat.now.signals state.now }
    requires apart { AreApart state.now }
    requires within { place < length flat.now.assigns }
    ensures saved { IfOk result (λ r. IsSaved state.now r.items) }
    ensures covers { IfOk result (λ r. Covers state.now r.items (statement_at (statements flat.now) place)) }
{
    let text = &flat.assigns.as_slice()[place];
    let before = before_assign(alloc, &text.left, state)?;
    Ok(before)
}

// Puts saved nodes back, but for the leaves of some nets, which keep their own.
fn restore(
    alloc: Global,
    before: &[Saved],
    nets: &[usize],
    state: &mut Leaves,
) -> Result<(), AllocError>
    requires before { AreWithin state.old (places_of before.now) }
    requires nets { AreWithin state.old nets.now }
    ensures { IfOk result (λ u. state.new ≡ put_back (put_back state.old before.now) (saved_at state.old nets.now)) }
{
    let kept = saved_at(alloc, state, nets)?;
    put_back(state, before);
    put_back(state, &kept);
    Ok(())
}

// Gives the leaves of nets what a continuous assignment makes of them, and leaves the others as they are.
fn drive_assign(
    dag: &mut Dag,
    flat: &Flat,
    place: usize,
    nets: &[usize],
    state: &mut Leaves,
) -> Result<(), AllocError>
    requires can { CanElaborate flat.now }
    requires board { IsBoard flat.now.signals state.old dag.old }
    requires within { place < length flat.now.assigns }
    requires nets { AreWithin state.old nets.now }
    ensures keeps { Keeps dag.old dag.new }
    ensures long { IfOk result (λ u. length state.new ≡ length state.old) }
    ensures board { IfOk result (λ u. IsBoard flat.now.signals state.new dag.new) }
    ensures shows { IfOk result (λ u. Shows (driven_by flat.now nets.now
        (statement_at (statements flat.now) place)) state.old dag.old state.new dag.new) }
{
    let alloc = state.allocator();
    let before = saved_for_assign(alloc, flat, place, state)?;
    run_assign(alloc, dag, flat, place, state)?;
    restore(alloc, &before, nets, state)?;
    Ok(())
}

// What the combinational blocks of a module leave over a source.
fn outcomes_of(flat: &Flat, source: &mut Dag, first: &Leaves) -> Result<Vec<Outcome>, AllocError>
    requires can { CanElaborate flat.now }
    requires source { IsSource flat.now.signals first.now source.old }
    ensures source { IfOk result (λ r. IsSource flat.now.signals first.now source.new) }
    ensures outcomes { IfOk result (λ r. AreOutcomes first.now source.new flat.now.blocks r.items) }
{
    let alloc = first.allocator();
    let mut work = copy_of(alloc, first)?;
    let mut all = Vec::new(alloc);
    for block in flat.blocks.as_slice() {
        let outcome = if block.clocked {
            Outcome::none(alloc)
        } else {
            outcome_of(source, &block.body, &mut work)?
        };
        all.push(outcome)?;
    }
    Ok(all)
}

// A module's processes, ready to solve groups of its nets: its combinational blocks are run, once each, over a source
// of their own.
fn processes_of<'a>(alloc: Global, flat: &'a Flat) -> Result<Processes<'a>, AllocError>
    requires { CanElaborate flat.now }
    ensures flat { IfOk result (λ p. p.flat.now ≡ flat.now) }
    ensures ready { IfOk result (λ p. (ls : List OneLeaf) (ns : List OneNode) → IsBoard flat.now.signals ls ns →
        AreProcesses p ls ns) }
{
    let count = flat.signals.len();
    let mut source = Dag::new(alloc);
    let no_nets = vec![in alloc; false; count]?;
    let first = begun(alloc, &mut source, flat.signals.as_slice(), &no_nets)?;
    let outcomes = outcomes_of(flat, &mut source, &first)?;
    let copier = Copier::new(alloc, source, count)?;
    Ok(Processes {
        flat,
        first,
        outcomes,
        copier,
    })
}

// For each of these places the node that a block leaves there: the place's free word where the block doesn't assign it.
fn roots_of(first: &Leaves, outcome: &Outcome, places: &[usize]) -> Result<Vec<u64>, AllocError>
    requires within { AreWithin first.now places.now }
    requires outcome { IsFound outcome.now }
    ensures { IfOk result (λ r. (ns : List OneNode) (body : OneStmt) → AreReady first.now ns →
        IsOutcome first.now ns body outcome.now → AreRoots first.now ns body places.now r.items) }
{
    let mut roots = Vec::new(first.allocator());
    for place in places {
        let root = match outcome.node(*place) {
            Some(node) => node,
            None => first.leaf(*place).node,
        };
        roots.push(root)?;
    }
    Ok(roots)
}

// These nodes for the leaves of these places.
fn saved_for(alloc: Global, places: &[usize], nodes: &[u64]) -> Result<Vec<Saved>, AllocError>
    requires { length nodes.now ≡ length places.now }
    ensures places { IfOk result (λ r. places_of r.items ≡ places.now) }
    ensures nodes { IfOk result (λ r. map (λ (s : OneSaved). s.node) r.items ≡ nodes.now) }
{
    let mut saved = Vec::new(alloc);
    for k in 0..places.len() {
        saved.push(Saved {
            place: places[k],
            node: nodes[k],
        })?;
    }
    Ok(saved)
}

impl Processes<'_> {
    // Forgets what was made of the leaves of nets that have other nodes by now.
    fn renew(&mut self, nets: &[usize], state: &Leaves) -> Result<(), AllocError>
        requires sound { IsSound self.old.copier (length state.now) }
        requires nets { AreWithin state.now nets.now }
        ensures same { IfOk result (λ u. AreSameProcesses self.old self.new) }
        ensures processes { IfOk result (λ u. (ls : List OneLeaf) (a b : List OneNode) → AreProcesses self.old ls a →
            AreMoved nets.now ls a state.now b → AreProcesses self.new state.now b) }
    {
        self.copier.renew(state.allocator(), state, nets)?;
        Ok(())
    }
}

// Gives the leaves of nets what a block makes of them, and leaves the others as they are.
fn drive_block(
    text: &mut Processes<'_>,
    dag: &mut Dag,
    at: usize,
    nets: &[usize],
    state: &mut Leaves,
) -> Result<(), AllocError>
    requires ready { CanDrive text.old state.old dag.old nets.now }
    requires block { (at < length text.old.flat.now.blocks) ×
        ((k : Always) → k ≡ get_or text.old.flat.now.blocks at k → k.clocked ≡ false) }
    ensures keeps { Keeps dag.old dag.new }
    ensures driven { IfOk result (λ u. (k : Always) → k ≡ get_or text.old.flat.now.blocks at k →
        AreDriven (driven_by text.old.flat.now nets.now k.body) text.old text.new state.old dag.old state.new dag.new) }
{
    let alloc = state.allocator();
    let roots = roots_of(&text.first, &text.outcomes[at], nets)?;
    let copies = text.copier.copy_each(alloc, dag, state, &roots)?;
    let after = saved_for(alloc, nets, &copies)?;
    put_back(state, &after);
    text.renew(nets, state)?;
    Ok(())
}

// Gives the leaves of nets what a statement makes of them, and leaves the others as they are.
fn drive(
    text: &mut Processes<'_>,
    dag: &mut Dag,
    place: usize,
    nets: &[usize],
    state: &mut Leaves,
) -> Result<(), AllocError>
    requires ready { CanDrive text.old state.old dag.old nets.now }
    requires process { IsProcess text.old.flat.now place }
    ensures keeps { Keeps dag.old dag.new }
    ensures driven { IfOk result (λ u. AreDriven
        (driven_by text.old.flat.now nets.now (statement_at
        (statements text.old.flat.now) place)) text.old text.new state.old dag.old state.new dag.new) }
{
    let assigns = text.flat.assigns.len();
    if place >= assigns {
        drive_block(text, dag, place - assigns, nets, state)?;
        return Ok(());
    }
    drive_assign(dag, text.flat, place, nets, state)?;
    text.renew(nets, state)?;
    Ok(())
}

// Solves nets together: their leaves are 0 and then in turn what each statement of these places makes of them; the
// others stay as they are.
fn settle(
    text: &mut Processes<'_>,
    dag: &mut Dag,
    places: &[usize],
    nets: &[usize],
    state: &mut Leaves,
) -> Result<(), AllocError>
    requires ready { CanDrive text.old state.old dag.old nets.now }
    requires places { (i : ℕ) → Among places.now i → IsProcess text.old.flat.now i }
    ensures keeps { Keeps dag.old dag.new }
    ensures driven { IfOk result (λ u. AreDriven
        (settled (flat_place text.old.flat.now) (picked (statements text.old.flat.now) places.now)
        (names_of text.old.flat.now.signals nets.now)) text.old text.new state.old dag.old state.new dag.new) }
{
    for net in nets {
        let width = state.leaf(*net).width;
        let node = zero(dag, width)?;
        state.set_node(*net, node);
    }
    text.renew(nets, state)?;
    for place in places {
        drive(text, dag, *place, nets, state)?;
    }
    Ok(())
}

// The list of a net.
#[tactic(auto, using(crate::proofs::Boards::list_get))]
fn list_at(places: &[Vec<usize>], net: usize) -> &[usize]
    requires { net < length places.now }
    ensures { result.now ≡ list_at places.now net }
{
    &places[net]
}

// The list of the first net of a group.
fn list_of<'a>(places: &'a [Vec<usize>], nets: &[usize]) -> &'a [usize]
    requires { (i : ℕ) → Among nets.now i → i < length places.now }
    ensures { result.now ≡ list_in places.now nets.now }
{
    match nets {
        [first, ..] => list_at(places, *first),
        [] => &[],
    }
}

/// Solves groups of nets one after another, in an order of their places, each by the places of the statements that
/// assign it. Each combinational block is run once, over free words, and a group's nodes are made of what it leaves. On
/// an error the leaves are half changed.
pub fn solve_nets(
    dag: &mut Dag,
    flat: &Flat,
    places: &[Vec<usize>],
    groups: &[Vec<usize>],
    state: &mut Leaves,
) -> Result<(), AllocError>
    requires can { CanElaborate flat.now }
    requires board { IsBoard flat.now.signals state.old dag.old }
    requires places { ArePlacesOf flat.now flat.now.signals places.now }
    requires groups { AreBelow (length places.now) groups.now }
    ensures keeps { Keeps dag.old dag.new }
    ensures board { IfOk result (λ u. IsBoard flat.now.signals state.new dag.new) }
    ensures shows { IfOk result (λ u. Shows (solved (flat_place flat.now) (processes flat.now)
        (groups_of flat.now.signals groups.now)) state.old dag.old state.new dag.new) }
{
    let mut text = processes_of(state.allocator(), flat)?;
    for i in 0..groups.len() {
        let nets = groups[i].as_slice();
        settle(&mut text, dag, list_of(places, nets), nets, state)?;
    }
    Ok(())
}
