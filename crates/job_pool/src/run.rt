// Obligations decided by workers.
ghost use Rattle.std.specs.Prelude.{◌≡◌, ◌+◌, ◌^◌, ◌<◌, length, IfOk};
ghost use Rattle.std.specs.List.{AllZip, range_with_len};
ghost use Rattle.job_pool.specs.Ample.{DecidesIfAmple};
ghost use Rattle.job_pool.specs.Shown.{IsShown};

use crate::crew::{Crew, Ran};
use crate::evidence::{Deciding, Evidence};
use outside::Gate;
use std::alloc::AllocError;
use std::thread::Threads;
use word_dag::Ob;

/// Decides each obligation once, by these workers, each drawing numbers of jobs from one shared word until its number
/// is past the last job. A job is to find `budget` conflicts at most, and with `3 ^ v` of them, v being the number of
/// variables of its clauses, it is decided. A worker enters the gate before each job that it drew. Refused where a
/// worker, or what is made of their ends, wants memory; each worker is joined first.
pub fn run_jobs<R: Threads + Sync, G: Gate + Sync>(
    crew: &Crew<'_, R>,
    obs: &[Ob],
    budget: u64,
    gate: &G,
) -> Result<Ran<Evidence>, AllocError>
    requires budget { 0 < budget }
    requires jobs { (0 < length obs.now) × (length obs.now < 2 ^ 32) }
    ensures ends { IfOk result (λ ran. AllZip (IsShown budget) obs.now ran.ends.items) }
    ensures ample { IfOk result (λ ran. AllZip (DecidesIfAmple budget) obs.now ran.ends.items) }
    ensures draws { IfOk result (λ ran. ran.draws.items ≡ range_with_len 0 (length obs.now + crew.now.workers)) }
{
    let deciding = Deciding {
        alloc: crew.alloc,
        budget,
        gate,
    };
    crew.run(obs, &deciding)
}
