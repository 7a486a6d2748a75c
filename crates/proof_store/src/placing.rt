// How goals stand before any is solved.
ghost use Rattle.std.specs.Prelude.{◌≡◌, ◌^◌, ◌<◌, true, Err, IfOk, sum_by, length, filter};
ghost use Rattle.std.specs.List.{AllZip};
ghost use Rattle.std.specs.Vec.Iter.{into_iter_items, into_iter_len};
ghost use Rattle.proof_store.specs.Counts.{FirstRose};
ghost use Rattle.proof_store.specs.Lookups.{IsChecked};
ghost use Rattle.proof_store.specs.Places.{FindsOf, IsPlaced, Takes, asked_about, asked_for, filled, found_each, found_of, is_open, open_of, opened, place_of, places_of};
ghost use Rattle.proof_store.specs.Provers.{IsSame, Proceeds, Rises, asked_by, counts, kept_by};

use crate::checking::checked_all;
use crate::crews::fewer;
use crate::fault::StoreFault;
use crate::goal::{Decided, Goal, Source};
use crate::helping::help_all;
use crate::looking::{Known, look_up_all};
use crate::prover::Prover;
use clause_check::Step;
use helper_box::Helper;
use job_pool::{Crew, Evidence};
use outside::{Gate, Keeper};
use std::alloc::{AllocError, Global};
use std::thread::Threads;
use std::vec::IntoIter;
use word_dag::Ob;

/// What is found of an obligation without solving.
#[derive(Drop)]
pub struct Found {
    pub evidence: Evidence,
    pub source: Source,
}

/// How a goal stands before any is solved.
#[derive(Drop)]
pub enum Place<L> {
    /// Shown by a proof that was kept or by a helper's claim.
    Done(Decided<L>),
    /// Not shown yet. Its line is left here, and its obligation stands among those that are open.
    Open(L),
}

/// The places of goals, and the obligations of the open ones, in order.
#[derive(Drop)]
pub struct Placed<L> {
    pub places: Vec<Place<L>>,
    pub rest: Vec<Ob>,
}

// What is found of an obligation: the steps that are kept, or else what a helper's claim shows.
fn found_of(kept: Option<Vec<Step>>, helped: Option<Evidence>) -> Option<Found>
    ensures { result ≡ found_of kept helped }
{
    if let Some(steps) = kept {
        return Some(Found {
            evidence: Evidence::Derivation(steps),
            source: Source::Kept,
        });
    }
    match helped {
        Some(evidence) => Some(Found {
            evidence,
            source: Source::Helped,
        }),
        None => None,
    }
}

// What is found of obligations, in order.
fn found_each(
    alloc: Global,
    obs: Vec<Known<'_, Option<Vec<Step>>>>,
    helped: Vec<Option<Evidence>>,
) -> Result<Vec<Option<Found>>, AllocError>
    ensures { IfOk result (λ found. found.items ≡ found_each obs.entry.items helped.items) }
{
    let mut found = Vec::new(alloc);
    for (one, evidence) in obs.into_iter().zip(helped) {
        found.push(found_of(one.known, evidence))?;
    }
    Ok(found)
}

// The place of a goal of which this is found. The obligation of an open one goes to the end of those that are open.
fn place_one<L: Drop>(
    goal: Goal<L>,
    found: Option<Found>,
    rest: &mut Vec<Ob>,
) -> Result<Place<L>, AllocError>
    ensures place { IfOk result (λ place. place ≡ place_of goal found) }
    ensures rest { IfOk result (λ place. rest.new.items ≡ opened place goal.ob rest.old.items) }
{
    match found {
        Some(Found { evidence, source }) => Ok(Place::Done(Decided {
            goal,
            evidence,
            source,
        })),
        None => {
            let Goal { line, ob } = goal;
            rest.push(ob)?;
            Ok(Place::Open(line))
        }
    }
}

// The places of goals of which this is found, in order.
fn place_each<L: Drop>(
    alloc: Global,
    goals: Vec<Goal<L>>,
    found: Vec<Option<Found>>,
) -> Result<Placed<L>, AllocError>
    ensures places { IfOk result (λ p. p.places.items ≡ places_of goals.items found.items) }
    ensures rest { IfOk result (λ p. p.rest.items ≡ open_of goals.items p.places.items) }
{
    let mut places = Vec::new(alloc);
    let mut rest = Vec::new(alloc);
    for (goal, found) in goals.into_iter().zip(found) {
        let place = place_one(goal, found, &mut rest)?;
        places.push(place)?;
    }
    Ok(Placed { places, rest })
}

impl<'a, 'k, 'h, R: Threads + Sync, K: Keeper, H: Helper, G: Gate + Sync> Prover<
    'a,
    'k,
    'h,
    R,
    K,
    H,
    G,
> {
    /// All workers that the settings allow.
    pub(crate) fn crew(&self) -> Crew<'a, R> {
        Crew {
            rt: self.rt,
            alloc: self.alloc,
            workers: self.settings.workers,
        }
    }

    // The obligations of goals in order, each with its proof that is kept: the keeper is asked for one row after
    // another, under texts that workers make, and then workers check the rows side by side.
    fn look_up<'g, L: Drop>(
        &mut self,
        goals: &'g [Goal<L>],
    ) -> Result<Vec<Known<'g, Option<Vec<Step>>>>, StoreFault>
        requires jobs { length goals.now < 2 ^ 32 }
        ensures found { IfOk result (λ all. AllZip (IsChecked (kept_by K.tables self.old)) goals.now all.items) }
        ensures tables { kept_by K.tables self.new ≡ kept_by K.tables self.old }
        ensures faults { Rises (result ≡ Err StoreFault.Keeper) (K.faults self.old.keeper.now)
            (K.faults self.new.keeper.now) }
        ensures asked { asked_by H.asked self.new ≡ asked_by H.asked self.old }
        ensures same { IsSame self.old self.new }
    {
        let crew = self.crew();
        let lookups = look_up_all(&crew, self.keeper, goals)?;
        let rows = lookups
            .iter()
            .filter(|lookup| lookup.known.is_some())
            .count();
        Ok(checked_all(&fewer(&crew, rows), lookups.as_slice())?)
    }

    // What is found of goals without solving, in order: proofs that are kept, or else what the helpers claim.
    fn find_all<L: Drop>(&mut self, goals: &[Goal<L>]) -> Result<Vec<Option<Found>>, StoreFault>
        requires jobs { length goals.now < 2 ^ 32 }
        ensures finds { IfOk result (λ found. AllZip (FindsOf (kept_by K.tables self.old)) goals.now found.items) }
        ensures tables { kept_by K.tables self.new ≡ kept_by K.tables self.old }
        ensures proceeds { Proceeds (result ≡ Err StoreFault.Keeper) (counts K.faults H.asked self.old)
            (counts K.faults H.asked self.new) }
        ensures first { IfOk result (λ found. FirstRose (sum_by asked_about found.items) (asked_by H.asked self.old)
            (asked_by H.asked self.new)) }
        ensures same { IsSame self.old self.new }
    {
        let obs = self.look_up(goals)?;
        let crew = self.crew();
        let helped = help_all(&crew, self.helpers, obs.as_slice())?;
        Ok(found_each(self.alloc, obs, helped)?)
    }

    /// The places of goals, in order.
    pub(crate) fn place_all<L: Drop>(
        &mut self,
        goals: Vec<Goal<L>>,
    ) -> Result<Placed<L>, StoreFault>
        requires jobs { length goals.items < 2 ^ 32 }
        ensures placed { IfOk result (λ p. AllZip (IsPlaced (kept_by K.tables self.old)) goals.items p.places.items) }
        ensures rest { IfOk result (λ p. p.rest.items ≡ open_of goals.items p.places.items) }
        ensures tables { kept_by K.tables self.new ≡ kept_by K.tables self.old }
        ensures proceeds { Proceeds (result ≡ Err StoreFault.Keeper) (counts K.faults H.asked self.old)
            (counts K.faults H.asked self.new) }
        ensures first { IfOk result (λ p. FirstRose (sum_by asked_for p.places.items) (asked_by H.asked self.old)
            (asked_by H.asked self.new)) }
        ensures same { IsSame self.old self.new }
    {
        let found = self.find_all(goals.as_slice())?;
        Ok(place_each(self.alloc, goals, found)?)
    }
}

// What stands at a place, or where it is open the first of these.
fn taken<L: Drop>(
    place: Place<L>,
    obs: &mut IntoIter<Ob>,
    ends: &mut IntoIter<Evidence>,
) -> Decided<L>
    requires obs { is_open place ≡ true → 0 < into_iter_len obs.old }
    requires ends { is_open place ≡ true → 0 < into_iter_len ends.old }
    ensures { Takes place result (into_iter_items obs.old) (into_iter_items ends.old) (into_iter_items obs.new)
        (into_iter_items ends.new) }
{
    match place {
        Place::Done(decided) => decided,
        Place::Open(line) => {
            let ob = obs.next().unwrap();
            let evidence = ends.next().unwrap();
            Decided {
                goal: Goal { line, ob },
                evidence,
                source: Source::Solved,
            }
        }
    }
}

/// The open places filled by obligations and what shows how they ended, in order.
pub(crate) fn filled<L: Drop>(
    alloc: Global,
    placed: Placed<L>,
    ends: Vec<Evidence>,
) -> Result<Vec<Decided<L>>, AllocError>
    requires rest { length placed.rest.items ≡ length (filter is_open placed.places.items) }
    requires ends { length ends.items ≡ length placed.rest.items }
    ensures { IfOk result (λ all. all.items ≡ filled placed.places.items placed.rest.items ends.items) }
{
    let Placed { places, rest } = placed;
    let mut all = Vec::with_capacity(alloc, places.len())?;
    let mut obs = rest.into_iter();
    let mut ends = ends.into_iter();
    for place in places {
        let one = taken(place, &mut obs, &mut ends);
        all.push(one)?;
    }
    Ok(all)
}
