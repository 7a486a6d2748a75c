// Rows of kept proofs, for which a keeper is asked in order. The texts under which they stand are made by workers side
// by side.
ghost use Rattle.std.specs.Prelude.{◌≡◌, ◌^◌, ◌<◌, Err, IfOk, length};
ghost use Rattle.std.specs.List.{AllZip};
ghost use Rattle.proof_store.specs.Lookups.{HasRow, IsKeyed, IsLookup, IsObOf, Looks};
ghost use Rattle.proof_store.specs.Provers.{Rises};

use crate::crews::fewer;
use crate::fault::StoreFault;
use crate::goal::Goal;
use crate::weight::{Weighs, few_at_a_time};
use job_pool::{Crew, Task};
use outside::Keeper;
use std::alloc::{AllocError, Global};
use std::thread::Threads;
use word_dag::{Ob, text};

/// An obligation, and what is known of the proof that is kept of it: nothing yet, its key, its row, or its steps.
#[derive(Drop)]
pub struct Known<'a, X> {
    pub ob: &'a Ob,
    pub known: X,
}

// Texts are made.
#[derive(Drop)]
struct Keying {
    alloc: Global,
}

impl<'a> Task<Known<'a, ()>, Known<'a, Vec<u8>>> for Keying {
    ghost use Rattle.proof_store.specs.Lookups.{IsKeyed};

    ghost ends = { λ _. IsKeyed };

    fn end(&self, _number: u64, sought: &Known<'a, ()>) -> Result<Known<'a, Vec<u8>>, AllocError> {
        let known = text(self.alloc, sought.ob)?;
        Ok(Known {
            ob: sought.ob,
            known,
        })
    }
}

impl Weighs for Known<'_, ()> {
    fn weight(&self) -> u64 {
        self.ob.nodes().len() as u64
    }
}

// The obligations of goals.
fn obs_of<'a, L: Drop>(
    alloc: Global,
    goals: &'a [Goal<L>],
) -> Result<Vec<Known<'a, ()>>, AllocError>
    ensures { IfOk result (λ obs. AllZip IsObOf goals.now obs.items) }
{
    let mut obs = Vec::new(alloc);
    for goal in goals {
        obs.push(Known {
            ob: &goal.ob,
            known: (),
        })?;
    }
    Ok(obs)
}

// Makes the texts of obligations side by side.
fn keyed_all<'a, R: Threads + Sync>(
    crew: &Crew<'_, R>,
    obs: &[Known<'a, ()>],
) -> Result<Vec<Known<'a, Vec<u8>>>, AllocError>
    requires { length obs.now < 2 ^ 32 }
    ensures { IfOk result (λ all. AllZip IsKeyed obs.now all.items) }
{
    let few = fewer(crew, obs.len());
    let ran = few.run(obs, &Keying { alloc: crew.alloc })?;
    Ok(ran.ends)
}

// The rows under texts, for which the keeper is asked in order.
fn rows_under<'a, K: Keeper>(
    alloc: Global,
    keeper: &mut K,
    all: Vec<Known<'a, Vec<u8>>>,
) -> Result<Vec<Known<'a, Option<Vec<u8>>>>, StoreFault>
    ensures lookups { IfOk result (λ lookups. AllZip (HasRow (K.tables keeper.old)) all.entry.items lookups.items) }
    ensures same { K.tables keeper.new ≡ K.tables keeper.old }
    ensures faults { Rises (result ≡ Err StoreFault.Keeper) (K.faults keeper.old) (K.faults keeper.new) }
{
    let mut lookups = Vec::new(alloc);
    for keyed in all {
        let row = keeper.proof(alloc, keyed.known.as_slice())?;
        lookups.push(Known {
            ob: keyed.ob,
            known: row,
        })?;
    }
    Ok(lookups)
}

// The rows of obligations.
fn look_up_each<'a, R: Threads + Sync, K: Keeper>(
    crew: &Crew<'_, R>,
    keeper: &mut K,
    obs: &[Known<'a, ()>],
) -> Result<Vec<Known<'a, Option<Vec<u8>>>>, StoreFault>
    requires { length obs.now < 2 ^ 32 }
    ensures lookups { IfOk result (λ lookups. AllZip (Looks (K.tables keeper.old)) obs.now lookups.items) }
    ensures same { K.tables keeper.new ≡ K.tables keeper.old }
    ensures faults { Rises (result ≡ Err StoreFault.Keeper) (K.faults keeper.old) (K.faults keeper.new) }
{
    let mut lookups = Vec::new(crew.alloc);
    for few in few_at_a_time(crew, obs)? {
        let keyed = keyed_all(crew, few)?;
        let mut more = rows_under(crew.alloc, keeper, keyed)?;
        lookups.append(&mut more)?;
    }
    Ok(lookups)
}

/// The obligations of goals with their rows, for which the keeper is asked in the order of the goals.
pub(crate) fn look_up_all<'a, R: Threads + Sync, K: Keeper, L: Drop>(
    crew: &Crew<'_, R>,
    keeper: &mut K,
    goals: &'a [Goal<L>],
) -> Result<Vec<Known<'a, Option<Vec<u8>>>>, StoreFault>
    requires { length goals.now < 2 ^ 32 }
    ensures lookups { IfOk result (λ lookups. AllZip (IsLookup (K.tables keeper.old)) goals.now lookups.items) }
    ensures same { K.tables keeper.new ≡ K.tables keeper.old }
    ensures faults { Rises (result ≡ Err StoreFault.Keeper) (K.faults keeper.old) (K.faults keeper.new) }
{
    let obs = obs_of(crew.alloc, goals)?;
    look_up_each(crew, keeper, obs.as_slice())
}
