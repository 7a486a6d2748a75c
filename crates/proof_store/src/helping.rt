// What helpers claim of obligations of which no proof is kept. Their clauses are built, and claims that helpers make
// out of turn are checked, by workers side by side; then the helpers are asked in order.
ghost use Rattle.std.specs.Prelude.{◌^◌, ◌<◌, All, IfOk, count_by, length, map, sum_by};
ghost use Rattle.std.specs.List.{AllZip};
ghost use Rattle.proof_store.specs.Counts.{FirstRose, NoneFalls};
ghost use Rattle.proof_store.specs.Helping.{Helps, IfReady, Readies, ShownOf, turns_of};
ghost use Rattle.proof_store.specs.Lookups.{lacks_proof};
ghost use Rattle.proof_store.specs.Places.{Tells};

use crate::crews::fewer;
use crate::looking::Known;
use crate::weight::{Weighs, few_at_a_time, gates_of};
use clause_check::{Cnf, Step};
use cnf_build::{Built, build};
use helper_box::{Claim, Claims, Helper, claims_of, offer_ready};
use job_pool::{Crew, Evidence, Task};
use std::alloc::{AllocError, Global};
use std::thread::Threads;
use word_dag::Ob;

/// An obligation that stands ready for the helpers: its clauses, and claims of it that were made out of turn and pass.
#[derive(Drop)]
pub struct Ready<'a> {
    pub ob: &'a Ob,
    pub cnf: Cnf,
    pub claims: Vec<Option<Claim>>,
}

// Makes an obligation ready, where no proof of it is kept.
fn made_ready<'a, C: Claims>(
    alloc: Global,
    helpers: &[C],
    checked: &Known<'a, Option<Vec<Step>>>,
) -> Result<Option<Ready<'a>>, AllocError>
    ensures { IfOk result (Readies checked.now) }
{
    if checked.known.is_some() {
        return Ok(None);
    }
    let Built { cnf, .. } = build(alloc, checked.ob)?;
    let claims = claims_of(helpers, alloc, checked.ob, &cnf)?;
    Ok(Some(Ready {
        ob: checked.ob,
        cnf,
        claims,
    }))
}

// Obligations are made ready for these helpers.
#[derive(Drop)]
struct Readying<'h, C> {
    alloc: Global,
    helpers: &'h [C],
}

impl<'a, 'h, C: Claims> Task<Known<'a, Option<Vec<Step>>>, Option<Ready<'a>>> for Readying<'h, C> {
    ghost use Rattle.proof_store.specs.Helping.{Readies};

    ghost ends = { λ _. Readies };

    fn end(
        &self,
        _number: u64,
        checked: &Known<'a, Option<Vec<Step>>>,
    ) -> Result<Option<Ready<'a>>, AllocError> {
        made_ready(self.alloc, self.helpers, checked)
    }
}

// Makes obligations ready side by side.
fn ready_all<'a, R: Threads + Sync, H: Helper>(
    crew: &Crew<'_, R>,
    helpers: &[H],
    obs: &[Known<'a, Option<Vec<Step>>>],
) -> Result<Vec<Option<Ready<'a>>>, AllocError>
    requires { length obs.now < 2 ^ 32 }
    ensures { IfOk result (λ all. AllZip Readies obs.now all.items) }
{
    let jobs = obs.iter().filter(|one| one.known.is_none()).count();
    let readying = Readying {
        alloc: crew.alloc,
        helpers,
    };
    let ran = fewer(crew, jobs).run(obs, &readying)?;
    Ok(ran.ends)
}

// What a claim shows.
fn evidence_of(claim: Claim) -> Option<Evidence>
    ensures { Tells claim result }
{
    match claim {
        Claim::Nothing => None,
        Claim::Unsat(steps) => Some(Evidence::Derivation(steps)),
        Claim::Values(values) => Some(Evidence::Values(values)),
    }
}

// Asks the helpers about an obligation that stands ready.
fn ask<H: Helper>(
    alloc: Global,
    helpers: &mut Vec<H>,
    ready: Option<Ready<'_>>,
) -> Result<Option<Evidence>, AllocError>
    requires ready { IfReady ready }
    ensures shown { IfOk result (ShownOf ready.entry) }
    ensures first { IfOk result (λ _. FirstRose (turns_of ready.entry) (map H.asked helpers.old.items)
        (map H.asked helpers.new.items)) }
    ensures asked { NoneFalls (map H.asked helpers.old.items) (map H.asked helpers.new.items) }
{
    let Some(Ready { ob, cnf, claims }) = ready else {
        return Ok(None);
    };
    let claim = offer_ready(helpers, alloc, ob, &cnf, claims)?;
    Ok(evidence_of(claim))
}

// Asks the helpers about one obligation after another.
fn ask_each<H: Helper>(
    alloc: Global,
    helpers: &mut Vec<H>,
    all: Vec<Option<Ready<'_>>>,
) -> Result<Vec<Option<Evidence>>, AllocError>
    requires ready { All IfReady all.items }
    ensures shown { IfOk result (λ helped. AllZip ShownOf all.entry.items helped.items) }
    ensures first { IfOk result (λ _. FirstRose (sum_by turns_of all.entry.items) (map H.asked helpers.old.items)
        (map H.asked helpers.new.items)) }
    ensures asked { NoneFalls (map H.asked helpers.old.items) (map H.asked helpers.new.items) }
{
    let mut helped = Vec::new(alloc);
    for ready in all {
        let evidence = ask(alloc, helpers, ready)?;
        helped.push(evidence)?;
    }
    Ok(helped)
}

// What is shown of obligations without helpers.
fn help_none(
    alloc: Global,
    obs: &[Known<'_, Option<Vec<Step>>>],
) -> Result<Vec<Option<Evidence>>, AllocError>
    ensures { IfOk result (λ helped. AllZip Helps obs.now helped.items) }
{
    let mut helped = Vec::new(alloc);
    for _ in obs {
        helped.push(None)?;
    }
    Ok(helped)
}

// What helpers' claims show of few obligations.
fn help_few<R: Threads + Sync, H: Helper>(
    crew: &Crew<'_, R>,
    helpers: &mut Vec<H>,
    obs: &[Known<'_, Option<Vec<Step>>>],
) -> Result<Vec<Option<Evidence>>, AllocError>
    requires { length obs.now < 2 ^ 32 }
    ensures helped { IfOk result (λ helped. AllZip Helps obs.now helped.items) }
    ensures first { IfOk result (λ _. FirstRose (count_by lacks_proof obs.now) (map H.asked helpers.old.items)
        (map H.asked helpers.new.items)) }
    ensures asked { NoneFalls (map H.asked helpers.old.items) (map H.asked helpers.new.items) }
{
    let all = ready_all(crew, helpers.as_slice(), obs)?;
    ask_each(crew.alloc, helpers, all)
}

impl Weighs for Known<'_, Option<Vec<Step>>> {
    fn weight(&self) -> u64 {
        if self.known.is_some() {
            0
        } else {
            gates_of(self.ob)
        }
    }
}

/// What helpers' claims show of obligations of which no proof is kept: they are made ready side by side, and the
/// helpers are asked in order. Where there is no helper, no clauses are built.
pub(crate) fn help_all<R: Threads + Sync, H: Helper>(
    crew: &Crew<'_, R>,
    helpers: &mut Vec<H>,
    obs: &[Known<'_, Option<Vec<Step>>>],
) -> Result<Vec<Option<Evidence>>, AllocError>
    requires { length obs.now < 2 ^ 32 }
    ensures helped { IfOk result (λ helped. AllZip Helps obs.now helped.items) }
    ensures first { IfOk result (λ _. FirstRose (count_by lacks_proof obs.now) (map H.asked helpers.old.items)
        (map H.asked helpers.new.items)) }
    ensures asked { NoneFalls (map H.asked helpers.old.items) (map H.asked helpers.new.items) }
{
    if helpers.is_empty() {
        return help_none(crew.alloc, obs);
    }
    let mut helped = Vec::new(crew.alloc);
    for few in few_at_a_time(crew, obs)? {
        let mut more = help_few(crew, helpers, few)?;
        helped.append(&mut more)?;
    }
    Ok(helped)
}
