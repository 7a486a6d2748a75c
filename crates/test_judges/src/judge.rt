// Cycles of a module (IEEE 1364-2005, sections 6.1 and 9.2).

ghost use Rattle.std.specs.Prelude.{◌≡◌, ◌≤◌, ◌↔◌, length, map, IfOk, IsTrue};
ghost use Rattle.std.specs.List.{list_all, All};
ghost use Rattle.vlog_tree_runs.specs.Cycles.{IsCycle, Follows};
ghost use Rattle.elab_step_blocks.specs.Ready.{IsReadyStore, IsReadyStmt};
ghost use Rattle.elab_flat_drivers.specs.Parts.{part_meant};
ghost use Rattle.elab_step_nets.specs.Asked.{CanElaborate, at_rest};
ghost use Rattle.test_judges.specs.Values.{AreValues, held};
ghost use Rattle.test_judges.specs.Driving.{ArePartsReady};
ghost use Rattle.test_judges.specs.Judging.{whole, assign_holds, block_holds, block_gives, is_input, only_driven, each_driven, keeps_rest, each_keeps, is_cycle, follows};

use crate::board::board;
use crate::masks::{bits_in, masks, names, whole};
use crate::numbers::leaves_same;
use crate::parts::{body_parts, clocked_parts, net_parts};
use elab_flat_drivers::Part;
use elab_step_blocks::{assign, run};
use elab_step_laws::bits_stay;
use std::alloc::{AllocError, Global};
use vlog_tree::Assign;
use vlog_tree_runs::{Always, Flat, Signal, TopPort};
use word_dag::Dag;

// Whether a continuous assignment changes nothing.
fn assign_holds(
    alloc: Global,
    flat: &Flat,
    values: &[u64],
    masks: &[u64],
    equation: &Assign,
) -> Result<bool, AllocError>
    requires can { CanElaborate flat.now }
    requires values { AreValues flat.now.signals values.now }
    requires masks { masks.now ≡ whole flat.now.signals }
    requires store { IsReadyStore (at_rest flat.now) equation.now.left equation.now.right }
    ensures { IfOk result (λ b. b ≡ assign_holds flat.now.signals values.now equation.now) }
{
    let mut dag = Dag::new(alloc);
    let mut state = board(alloc, &mut dag, flat, values)?;
    assign(
        alloc,
        &mut dag,
        &equation.left,
        &equation.right,
        None,
        &mut state,
    )?;
    let same = leaves_same(alloc, &mut dag, masks, &state, values)?;
    Ok(same)
}

// Whether a combinational block changes nothing.
fn block_holds(
    alloc: Global,
    flat: &Flat,
    values: &[u64],
    masks: &[u64],
    block: &Always,
) -> Result<bool, AllocError>
    requires can { CanElaborate flat.now }
    requires values { AreValues flat.now.signals values.now }
    requires masks { masks.now ≡ whole flat.now.signals }
    requires body { IsReadyStmt (at_rest flat.now) block.now.body }
    ensures { IfOk result (λ b. b ≡ block_holds flat.now.signals values.now block.now) }
{
    if block.clocked {
        return Ok(true);
    }
    let mut dag = Dag::new(alloc);
    let mut state = board(alloc, &mut dag, flat, values)?;
    run(alloc, &mut dag, &block.body, None, &mut state)?;
    let same = leaves_same(alloc, &mut dag, masks, &state, values)?;
    Ok(same)
}

// Whether each continuous assignment changes nothing.
fn all_assigns_hold(
    alloc: Global,
    flat: &Flat,
    values: &[u64],
    masks: &[u64],
) -> Result<bool, AllocError>
    requires can { CanElaborate flat.now }
    requires values { AreValues flat.now.signals values.now }
    requires masks { masks.now ≡ whole flat.now.signals }
    ensures { IfOk result (λ b. b ≡ list_all (assign_holds flat.now.signals values.now) flat.now.assigns) }
{
    for equation in flat.assigns.as_slice() {
        let holds = assign_holds(alloc, flat, values, masks, equation)?;
        if !holds {
            return Ok(false);
        }
    }
    Ok(true)
}

// Whether each combinational block changes nothing.
fn all_blocks_hold(
    alloc: Global,
    flat: &Flat,
    values: &[u64],
    masks: &[u64],
) -> Result<bool, AllocError>
    requires can { CanElaborate flat.now }
    requires values { AreValues flat.now.signals values.now }
    requires masks { masks.now ≡ whole flat.now.signals }
    ensures { IfOk result (λ b. b ≡ list_all (block_holds flat.now.signals values.now) flat.now.blocks) }
{
    for block in flat.blocks.as_slice() {
        let holds = block_holds(alloc, flat, values, masks, block)?;
        if !holds {
            return Ok(false);
        }
    }
    Ok(true)
}

// Whether a name is an input of the top.
fn is_input(ports: &[TopPort], name: &[u8]) -> bool
    ensures { result ≡ is_input ports.now name.now }
{
    for port in ports {
        if !port.output && port.name.bytes() == name {
            return true;
        }
    }
    false
}

// What drives the bits of a module's signals.
#[derive(Drop)]
struct Drivers<'a> {
    flat: &'a Flat,
    // The parts that continuous assignments and combinational blocks drive.
    nets: &'a [Part<'a>],
    // Those that clocked blocks drive.
    clocked: &'a [Part<'a>],
}

impl Drivers<'_> {
    // Whether a signal is a register, an input, or has only bits that something drives.
    fn only_driven(&self, alloc: Global, signal: &Signal, value: u64) -> Result<bool, AllocError>
        requires narrow { signal.now.width ≤ 64 }
        requires ready { ArePartsReady (map part_meant self.now.nets.now) }
        ensures { IfOk result (λ b. b ≡ only_driven self.now.flat.now.ports (map part_meant self.now.nets.now)
            (map part_meant self.now.clocked.now) signal.now value) }
    {
        let name = signal.name.bytes();
        if names(self.clocked, name) || is_input(self.flat.ports.as_slice(), name) {
            return Ok(true);
        }
        let bits = bits_in(alloc, self.nets, signal)?;
        Ok(value & bits == value)
    }

    // Whether each is.
    fn each_driven(&self, alloc: Global, values: &[u64]) -> Result<bool, AllocError>
        requires narrow { All (λ g. g.width ≤ 64) self.now.flat.now.signals }
        requires ready { ArePartsReady (map part_meant self.now.nets.now) }
        requires each { length values.now ≡ length self.now.flat.now.signals }
        ensures { IfOk result (λ b. b ≡ each_driven self.now.flat.now.ports (map part_meant self.now.nets.now)
            (map part_meant self.now.clocked.now) self.now.flat.now.signals values.now) }
    {
        let signals = self.flat.signals.as_slice();
        for i in 0..signals.len() {
            let driven = self.only_driven(alloc, &signals[i], values[i])?;
            if !driven {
                return Ok(false);
            }
        }
        Ok(true)
    }
}

// Whether values meet each test of a cycle.
fn meets_cycle(alloc: Global, flat: &Flat, values: &[u64]) -> Result<bool, AllocError>
    requires can { CanElaborate flat.now }
    requires values { AreValues flat.now.signals values.now }
    ensures { IfOk result (λ b. b ≡ is_cycle flat.now values.now) }
{
    let masks = whole(alloc, flat.signals.as_slice())?;
    let assigns = all_assigns_hold(alloc, flat, values, &masks)?;
    let blocks = all_blocks_hold(alloc, flat, values, &masks)?;
    let nets = net_parts(alloc, flat)?;
    let clocked = clocked_parts(alloc, flat)?;
    let drivers = Drivers {
        flat,
        nets: &nets,
        clocked: &clocked,
    };
    let driven = drivers.each_driven(alloc, values)?;
    Ok(assigns && (blocks && driven))
}

/// Whether values of a module's signals, one each in their order, are a cycle of it: each continuous assignment and
/// each combinational block holds, and a bit is 0 that nothing drives and that is of no register and no input (IEEE
/// 1364-2005, sections 6.1 and 9.2).
pub fn is_cycle(alloc: Global, flat: &Flat, values: &[u64]) -> Result<bool, AllocError>
    requires can { CanElaborate flat.now }
    requires values { AreValues flat.now.signals values.now }
    ensures { IfOk result (λ b. IsTrue b ↔ IsCycle flat.now (held flat.now.signals values.now)) }
{
    bits_stay();
    let meets = meets_cycle(alloc, flat, values)?;
    Ok(meets)
}

// Whether the bits that a clocked block drives have in the next cycle what it gives.
fn block_gives(
    alloc: Global,
    flat: &Flat,
    now: &[u64],
    next: &[u64],
    block: &Always,
) -> Result<bool, AllocError>
    requires can { CanElaborate flat.now }
    requires now { AreValues flat.now.signals now.now }
    requires next { AreValues flat.now.signals next.now }
    requires body { IsReadyStmt (at_rest flat.now) block.now.body }
    ensures { IfOk result (λ b. b ≡ block_gives flat.now.signals now.now next.now block.now) }
{
    if !block.clocked {
        return Ok(true);
    }
    let parts = body_parts(alloc, &block.body)?;
    let driven = masks(alloc, &parts, flat.signals.as_slice())?;
    let mut dag = Dag::new(alloc);
    let before = board(alloc, &mut dag, flat, now)?;
    let mut state = board(alloc, &mut dag, flat, now)?;
    run(alloc, &mut dag, &block.body, Some(&before), &mut state)?;
    let same = leaves_same(alloc, &mut dag, &driven, &state, next)?;
    Ok(same)
}

// Whether each clocked block gives so.
fn all_blocks_give(
    alloc: Global,
    flat: &Flat,
    now: &[u64],
    next: &[u64],
) -> Result<bool, AllocError>
    requires can { CanElaborate flat.now }
    requires now { AreValues flat.now.signals now.now }
    requires next { AreValues flat.now.signals next.now }
    ensures { IfOk result (λ b. b ≡ list_all (block_gives flat.now.signals now.now next.now) flat.now.blocks) }
{
    for block in flat.blocks.as_slice() {
        let gives = block_gives(alloc, flat, now, next, block)?;
        if !gives {
            return Ok(false);
        }
    }
    Ok(true)
}

// Whether a signal is no register, or its bits that no clocked block drives keep their values.
fn keeps_rest(
    alloc: Global,
    clocked: &[Part<'_>],
    signal: &Signal,
    now: u64,
    next: u64,
) -> Result<bool, AllocError>
    requires narrow { signal.now.width ≤ 64 }
    requires ready { ArePartsReady (map part_meant clocked.now) }
    ensures { IfOk result (λ b. b ≡ keeps_rest (map part_meant clocked.now) signal.now now next) }
{
    if !names(clocked, signal.name.bytes()) {
        return Ok(true);
    }
    let bits = bits_in(alloc, clocked, signal)?;
    Ok(now | bits == next | bits)
}

// Whether each does.
fn each_keeps(
    alloc: Global,
    flat: &Flat,
    clocked: &[Part<'_>],
    now: &[u64],
    next: &[u64],
) -> Result<bool, AllocError>
    requires narrow { All (λ g. g.width ≤ 64) flat.now.signals }
    requires ready { ArePartsReady (map part_meant clocked.now) }
    requires each { length now.now ≡ length flat.now.signals }
    requires each_next { length next.now ≡ length flat.now.signals }
    ensures { IfOk result (λ b. b ≡ each_keeps (map part_meant clocked.now) flat.now.signals now.now next.now) }
{
    let signals = flat.signals.as_slice();
    for i in 0..signals.len() {
        let keeps = keeps_rest(alloc, clocked, &signals[i], now[i], next[i])?;
        if !keeps {
            return Ok(false);
        }
    }
    Ok(true)
}

// Whether values meet each test of a cycle that follows another one.
fn meets_edge(alloc: Global, flat: &Flat, now: &[u64], next: &[u64]) -> Result<bool, AllocError>
    requires can { CanElaborate flat.now }
    requires now { AreValues flat.now.signals now.now }
    requires next { AreValues flat.now.signals next.now }
    ensures { IfOk result (λ b. b ≡ follows flat.now now.now next.now) }
{
    let blocks = all_blocks_give(alloc, flat, now, next)?;
    let clocked = clocked_parts(alloc, flat)?;
    let kept = each_keeps(alloc, flat, &clocked, now, next)?;
    Ok(blocks && kept)
}

/// Whether values of a module's signals, one each in their order, follow others: a bit that a clocked block drives has
/// what this block gives from the cycle before, and each other bit of a register keeps its value (IEEE 1364-2005,
/// section 9.2).
pub fn follows(alloc: Global, flat: &Flat, now: &[u64], next: &[u64]) -> Result<bool, AllocError>
    requires can { CanElaborate flat.now }
    requires now { AreValues flat.now.signals now.now }
    requires next { AreValues flat.now.signals next.now }
    ensures { IfOk result (λ b. IsTrue b ↔ Follows flat.now (held flat.now.signals now.now)
        (held flat.now.signals next.now)) }
{
    let meets = meets_edge(alloc, flat, now, next)?;
    Ok(meets)
}
