// Runs of a module.

ghost use Rattle.std.specs.Prelude.{◌≡◌, ℕ, ◌+◌, ◌<◌, ◌↔◌, length, IfOk, IsTrue};
ghost use Rattle.std.specs.List.{All};
ghost use Rattle.vlog_tree_runs.specs.Cycles.{IsCycle, Follows, IsRun};
ghost use Rattle.elab_step_nets.specs.Asked.{CanElaborate};
ghost use Rattle.test_judges.specs.Values.{AreValues, cycle_at};

use crate::judge::{follows, is_cycle};
use set_tree::Rows;
use std::alloc::{AllocError, Global};
use vlog_tree_runs::Flat;

// Whether each is a cycle.
fn all_cycles(alloc: Global, flat: &Flat, cycles: &[Rows<u64>]) -> Result<bool, AllocError>
    requires can { CanElaborate flat.now }
    requires values { All (AreValues flat.now.signals) cycles.now }
    ensures { IfOk result (λ b. IsTrue b ↔
        ((t : ℕ) → t < length cycles.now → IsCycle flat.now (cycle_at flat.now.signals cycles.now t))) }
{
    for i in 0..cycles.len() {
        let holds = is_cycle(alloc, flat, cycles[i].as_slice())?;
        if !holds {
            return Ok(false);
        }
    }
    Ok(true)
}

// Whether each follows the one before.
fn all_follow(alloc: Global, flat: &Flat, cycles: &[Rows<u64>]) -> Result<bool, AllocError>
    requires can { CanElaborate flat.now }
    requires values { All (AreValues flat.now.signals) cycles.now }
    ensures { IfOk result (λ b. IsTrue b ↔
        ((t : ℕ) → t + 1 < length cycles.now → Follows flat.now (cycle_at flat.now.signals cycles.now t)
        (cycle_at flat.now.signals cycles.now (t + 1)))) }
{
    for i in 1..cycles.len() {
        let holds = follows(alloc, flat, cycles[i - 1].as_slice(), cycles[i].as_slice())?;
        if !holds {
            return Ok(false);
        }
    }
    Ok(true)
}

/// Whether rows of values of a module's signals are a run of it: each is a cycle, and follows the one before.
pub fn is_run(alloc: Global, flat: &Flat, cycles: &[Rows<u64>]) -> Result<bool, AllocError>
    requires can { CanElaborate flat.now }
    requires values { All (AreValues flat.now.signals) cycles.now }
    ensures { IfOk result (λ b. IsTrue b ↔ IsRun flat.now (length cycles.now) (cycle_at flat.now.signals cycles.now)) }
{
    let cycles_hold = all_cycles(alloc, flat, cycles)?;
    let steps_hold = all_follow(alloc, flat, cycles)?;
    Ok(cycles_hold && steps_hold)
}
