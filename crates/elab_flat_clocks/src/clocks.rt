// The clock of all blocks with edges, and their asynchronous resets.

ghost use Rattle.std.specs.Prelude.{◌≡◌, ◌↔◌, Bool, Some, IfOk, IfErr, OnOk, length, map};
ghost use Rattle.std.specs.Option.{option_copied};
ghost use Rattle.vlog_tree_runs.specs.Places.{Name, Among};
ghost use Rattle.elab_flat_faults.specs.declared.flattening.FlatFault.TheVariants as f;
ghost use Rattle.elab_flat_faults.specs.FlatStands.{Stands, Refuses, IsClockOf};
ghost use Rattle.elab_flat_instances.specs.Unfolding.{scope_meant, AreUnfolded};
ghost use Rattle.elab_flat_faults.specs.Handed.{IsResetOf};
ghost use Rattle.elab_flat_clocks.specs.Driving.{timed_meant};
ghost use Rattle.elab_flat_clocks.specs.Passing.{exprs_meant};
ghost use Rattle.elab_flat_clocks.specs.Unread.{IsUnread, IsReadBy};
ghost use Rattle.elab_flat_clocks.specs.Clocking.{async_at, IsClockAmong, HasTwoClocks};

use crate::Timing;
use crate::asyncs::asyncs_of;
use crate::reads::check_reads;
use crate::timings::timings_of;
use crate::ways::{Ways, ways_of};
use elab_flat_faults::FlatFault;
use elab_flat_instances::Scope;
use elab_flat_scopes::Modules;
use outside::Text;
use sqlite_items::Items;
use std::alloc::{AllocError, Global};
use vlog_tree_runs::Async;

/// The inputs of the top that all blocks with edges wait for.
#[derive(Drop)]
pub struct Clocks {
    /// None: no block waits for an edge.
    pub clock: Option<Text>,
    /// The asynchronous resets, each once.
    pub asyncs: Items<Async>,
}

// The only clock that blocks wait for; none where there are no such blocks. A refusal has one of two clocks.
fn one_clock<'a>(alloc: Global, timings: &[Timing<'a>]) -> Result<Option<&'a Text>, FlatFault>
    ensures ok { IfOk result (λ r. IsClockAmong (map timed_meant timings.now) (option_copied r)) }
    ensures err { IfErr result (Refuses (HasTwoClocks (map timed_meant timings.now))) }
{
    let clock = match timings.first() {
        Some(timing) => timing.clock,
        None => return Ok(None),
    };
    for timing in timings {
        if timing.clock.bytes() != clock.bytes() {
            return Err(FlatFault::Clock(Text::copy(alloc, timing.clock.bytes())?));
        }
    }
    Ok(Some(clock))
}

fn copied(alloc: Global, name: Option<&Text>) -> Result<Option<Text>, AllocError>
    ensures { IfOk result (λ r. r ≡ option_copied name.entry) }
{
    match name {
        Some(name) => Ok(Some(Text::copy(alloc, name.bytes())?)),
        None => Ok(None),
    }
}

// No scope reads the clock, where there is one. A refusal has the name by which one does.
fn check_clock(
    alloc: Global,
    scopes: &[Scope<'_>],
    ways: &Ways<'_>,
    clock: Option<&Text>,
) -> Result<(), FlatFault>
    requires tables { length ways.now.tables.items ≡ length scopes.now }
    requires kept { length ways.now.kept.items ≡ length scopes.now }
    ensures ok { OnOk result (IsUnread (map scope_meant scopes.now) ways.now.tables.items
        (map exprs_meant ways.now.kept.items) (option_copied clock.entry)) }
    ensures err { IfErr result (Refuses (IsReadBy (map scope_meant scopes.now) ways.now.tables.items
        (map exprs_meant ways.now.kept.items) (option_copied clock.entry))) }
{
    match clock {
        Some(clock) => check_reads(alloc, scopes, &ways.tables, &ways.kept, clock),
        None => Ok(()),
    }
}

/// The clock and the asynchronous resets of the instances of a list of modules, which stand in the order of their paths
/// (IEEE 1364-2005, sections 9.7.4 and 9.9; IEEE 1364.1-2002, section 5.2.2). A block with one edge waits for the
/// rising edge of the clock. One with two waits for that and for an edge of a reset, and its body is one `if` with an
/// `else` whose condition tests the reset: `r` and `r == 1'b1` go with its rising edge, `!r`, `~r` and `r == 1'b0` with
/// the falling one. Clock and resets are inputs of the top of one bit, reached through connections to inputs of one bit
/// whose expression is a name alone. `FlatFault::Clock` stands where a block waits otherwise, where two blocks have two
/// clocks, and where the clock is read. A refusal's fault stands; it is `Constant` or `Width` where an input's range
/// declares nothing. The time is linear in the texts of the scopes.
pub fn clocks_of(
    alloc: Global,
    modules: &Modules<'_>,
    scopes: &[Scope<'_>],
    top: &[u8],
) -> Result<Clocks, FlatFault>
    requires { AreUnfolded modules.now top.now (map scope_meant scopes.now) }
    ensures clock { IfOk result (λ r. (y : Name) → (r.clock ≡ Some y) ↔ IsClockOf modules.now top.now y) }
    ensures asyncs { IfOk result (λ r. (y : Name) (high : Bool) → Among r.asyncs (async_at high y) ↔
        IsResetOf modules.now top.now y high) }
    ensures none { OnOk result ((n : Name) → Stands modules.now top.now (f.Clock n) → ⊥) }
    ensures err { IfErr result (Refuses (Stands modules.now top.now)) }
{
    let ways = match ways_of(alloc, scopes) {
        Ok(ways) => ways,
        Err(fault) => return Err(fault),
    };
    let timings = match timings_of(alloc, scopes, &ways.tables) {
        Ok(timings) => timings,
        Err(fault) => return Err(fault),
    };
    let clock = match one_clock(alloc, &timings) {
        Ok(clock) => clock,
        Err(fault) => return Err(fault),
    };
    match check_clock(alloc, scopes, &ways, clock) {
        Ok(()) => {}
        Err(fault) => return Err(fault),
    }
    Ok(Clocks {
        clock: copied(alloc, clock)?,
        asyncs: asyncs_of(alloc, &timings)?,
    })
}
