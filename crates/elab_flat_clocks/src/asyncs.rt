// The asynchronous resets that blocks wait for.

ghost use Rattle.std.specs.Prelude.{◌≡◌, ◌++◌, [], true, false, IfOk, OnOk, map};
ghost use Rattle.elab_flat_scopes.specs.Borrowed.{name_meant};
ghost use Rattle.elab_flat_clocks.specs.Timings.{reset_meant};
ghost use Rattle.elab_flat_clocks.specs.Driving.{timed_meant};
ghost use Rattle.elab_flat_clocks.specs.Clocking.{is_at, resets_at, fresh, async_at, asyncs_at};

use crate::{Reset, Timing};
use outside::Text;
use sqlite_items::Items;
use std::alloc::{AllocError, Global};
use std::collections::HashSet;
use vlog_tree_runs::Async;

fn is_at(reset: Reset<'_>, high: bool) -> bool
    ensures { result ≡ is_at high (reset_meant reset.entry) }
{
    if high { reset.high } else { !reset.high }
}

// The names of the resets that are active at a level.
fn resets_at<'a>(
    alloc: Global,
    timings: &[Timing<'a>],
    high: bool,
) -> Result<Vec<&'a Text>, AllocError>
    ensures { IfOk result (λ r. map name_meant r.items ≡ resets_at high (map timed_meant timings.now)) }
{
    let mut all = Vec::new(alloc);
    for timing in timings {
        if let Some(reset) = timing.reset {
            if is_at(reset, high) {
                all.push(reset.name)?;
            }
        }
    }
    Ok(all)
}

// Each name once.
fn fresh<'a>(alloc: Global, names: &[&'a Text]) -> Result<Vec<&'a Text>, AllocError>
    ensures { IfOk result (λ r. map name_meant r.items ≡ fresh [] (map name_meant names.now)) }
{
    let mut done = HashSet::new(alloc);
    let mut all = Vec::new(alloc);
    for name in names {
        if done.insert(name.bytes())? {
            all.push(*name)?;
        }
    }
    Ok(all)
}

fn add_asyncs(
    all: &mut Items<Async>,
    alloc: Global,
    names: &[&Text],
    high: bool,
) -> Result<(), AllocError>
    ensures { OnOk result (all.new ≡ all.old ++ map (async_at high) (map name_meant names.now)) }
{
    for name in names {
        let name = Text::copy(alloc, name.bytes())?;
        all.push(Async { name, high })?;
    }
    Ok(())
}

fn add_at(
    all: &mut Items<Async>,
    alloc: Global,
    timings: &[Timing<'_>],
    high: bool,
) -> Result<(), AllocError>
    ensures { OnOk result (all.new ≡ all.old ++ asyncs_at high (map timed_meant timings.now)) }
{
    let names = resets_at(alloc, timings, high)?;
    let names = fresh(alloc, &names)?;
    add_asyncs(all, alloc, &names, high)
}

/// The asynchronous resets that blocks wait for, each once: those that are active high come first.
pub fn asyncs_of(alloc: Global, timings: &[Timing<'_>]) -> Result<Items<Async>, AllocError>
    ensures { IfOk result (λ r. r ≡ asyncs_at true (map timed_meant timings.now) ++ asyncs_at false
        (map timed_meant timings.now)) }
{
    let mut all = Items::new(alloc);
    add_at(&mut all, alloc, timings, true)?;
    add_at(&mut all, alloc, timings, false)?;
    Ok(all)
}
