// What the blocks with edges of all scopes wait for, in inputs of the top (IEEE 1364-2005, section 9.7.4; IEEE
// 1364.1-2002, section 5.2.2).

ghost use Rattle.std.specs.Prelude.{◌≡◌, ◌++◌, ◌∷◌, [], IfOk, IfErr, OnOk, length, map, option_to_list};
ghost use Rattle.std.specs.Option.{option_map};
ghost use Rattle.vlog_tree_runs.specs.Contents.{blocks_in};
ghost use Rattle.elab_flat_faults.specs.FlatStands.{Refuses};
ghost use Rattle.elab_flat_scopes.specs.Borrowed.{block_meant};
ghost use Rattle.elab_flat_instances.specs.Unfolding.{scope_meant};
ghost use Rattle.elab_flat_clocks.specs.Timings.{reset_meant};
ghost use Rattle.elab_flat_clocks.specs.Driving.{timed_meant, reset_reached, timed_reached, IsDrivenBy, AreTimingsBy, AreTimingsOf, BreaksTiming, BreaksTimings, StandsBy};

use crate::{Reset, Table, Timing, timing_of};
use elab_flat_faults::FlatFault;
use elab_flat_instances::{Scope, full_name};
use elab_flat_scopes::{Block, blocks_in};
use std::alloc::{AllocError, Global};
use vlog_tree::{Edge, Events, Stmt};

// The input of the top that a reset is.
fn reset_reached<'a>(table: &Table<'a>, reset: Reset<'_>) -> Option<Reset<'a>>
    ensures { option_map reset_meant result ≡ reset_reached table.now (reset_meant reset.entry) }
{
    match table.input(reset.name.bytes()) {
        Some(name) => Some(Reset {
            name,
            high: reset.high,
        }),
        None => None,
    }
}

// The inputs of the top that a clock and its reset are.
fn timed_reached<'a>(table: &Table<'a>, timing: Timing<'_>) -> Option<Timing<'a>>
    ensures { option_map timed_meant result ≡ timed_reached table.now (timed_meant timing.entry) }
{
    let clock = match table.input(timing.clock.bytes()) {
        Some(clock) => clock,
        None => return None,
    };
    match timing.reset {
        Some(reset) => match reset_reached(table, reset) {
            Some(reset) => Some(Timing {
                clock,
                reset: Some(reset),
            }),
            None => None,
        },
        None => Some(Timing { clock, reset: None }),
    }
}

// What a block with edges waits for, in inputs of the top.
fn driven<'a>(table: &Table<'a>, edges: &[Edge], body: &Stmt) -> Option<Timing<'a>>
    ensures { IsDrivenBy table.now edges.now body.now (option_map timed_meant result) }
{
    match timing_of(edges, body) {
        Some(timing) => timed_reached(table, timing),
        None => None,
    }
}

// What a block waits for, none where it has no edges. A refusal's fault stands at the scope.
fn block_timing<'a>(
    alloc: Global,
    scope: &Scope<'_>,
    table: &Table<'a>,
    block: &Block<'_>,
) -> Result<Option<Timing<'a>>, FlatFault>
    ensures ok { IfOk result (λ r. AreTimingsBy table.now (block_meant block.now ∷ [])
        (option_to_list (option_map timed_meant r))) }
    ensures err { IfErr result (Refuses (BreaksTiming (scope_meant scope.now) table.now (block_meant block.now))) }
{
    let edges = match block.events {
        Events::Edges(edges) => edges.as_slice(),
        Events::All => return Ok(None),
        Events::Names(_) => return Ok(None),
    };
    if let Some(timing) = driven(table, edges, block.body) {
        return Ok(Some(timing));
    }
    match edges.first() {
        Some(edge) => {
            let name = full_name(alloc, scope.prefix.bytes(), edge.name.bytes())?;
            Err(FlatFault::Clock(name))
        }
        None => Ok(None),
    }
}

fn add_timing<'a>(all: &mut Vec<Timing<'a>>, timing: Option<Timing<'a>>) -> Result<(), AllocError>
    ensures { OnOk result (map timed_meant all.new.items ≡ map timed_meant all.old.items ++ option_to_list
        (option_map timed_meant timing.entry)) }
{
    if let Some(timing) = timing {
        all.push(timing)?;
    }
    Ok(())
}

fn timings_among<'a>(
    alloc: Global,
    scope: &Scope<'_>,
    table: &Table<'a>,
    blocks: &[Block<'_>],
) -> Result<Vec<Timing<'a>>, FlatFault>
    requires { map block_meant blocks.now ≡ blocks_in scope.now.text.now }
    ensures ok { IfOk result (λ r. AreTimingsBy table.now (blocks_in scope.now.text.now) (map timed_meant r.items)) }
    ensures err { IfErr result (Refuses (BreaksTimings (scope_meant scope.now) table.now)) }
{
    let mut all = Vec::new(alloc);
    for block in blocks {
        match block_timing(alloc, scope, table, block) {
            Ok(timing) => add_timing(&mut all, timing)?,
            Err(fault) => return Err(fault),
        }
    }
    Ok(all)
}

// What the blocks with edges of a scope wait for. A refusal's fault stands at the scope.
fn scope_timings<'a>(
    alloc: Global,
    scope: &Scope<'_>,
    table: &Table<'a>,
) -> Result<Vec<Timing<'a>>, FlatFault>
    ensures ok { IfOk result (λ r. AreTimingsBy table.now (blocks_in scope.now.text.now) (map timed_meant r.items)) }
    ensures err { IfErr result (Refuses (BreaksTimings (scope_meant scope.now) table.now)) }
{
    let blocks = blocks_in(alloc, scope.text)?;
    timings_among(alloc, scope, table, &blocks)
}

/// What the blocks with edges of all scopes wait for, each scope with its table. A refusal's fault stands.
pub fn timings_of<'a>(
    alloc: Global,
    scopes: &[Scope<'_>],
    tables: &[Table<'a>],
) -> Result<Vec<Timing<'a>>, FlatFault>
    requires { length tables.now ≡ length scopes.now }
    ensures ok { IfOk result (λ r. AreTimingsOf (map scope_meant scopes.now) tables.now (map timed_meant r.items)) }
    ensures err { IfErr result (Refuses (StandsBy (map scope_meant scopes.now) tables.now)) }
{
    let mut all = Vec::new(alloc);
    let mut at = 0;
    for scope in scopes {
        let mut more = match scope_timings(alloc, scope, &tables[at]) {
            Ok(more) => more,
            Err(fault) => return Err(fault),
        };
        all.append(&mut more)?;
        at += 1;
    }
    Ok(all)
}
