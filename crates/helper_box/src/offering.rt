// Helpers that are asked in turn, and their claims out of turn.
ghost use Rattle.std.specs.Prelude.{◌≡◌, IfOk, IfSome, Ok, length, map};
ghost use Rattle.std.specs.Vec.Iter.{into_iter_items};
ghost use Rattle.helper_box.specs.Asked.{one_more, AreReady, AsksSome, Passes};

use crate::claim::{Claim, Claims, Helper};
use crate::passing::passes;
use clause_check::Cnf;
use std::alloc::{AllocError, Global};
use std::vec::IntoIter;
use word_dag::Ob;

// The claim, where it passes.
fn passed(alloc: Global, ob: &Ob, cnf: &Cnf, claim: Claim) -> Result<Claim, AllocError>
    ensures { IfOk result (Passes ob.now cnf.now) }
{
    if passes(alloc, ob, cnf, &claim)? {
        Ok(claim)
    } else {
        Ok(Claim::Nothing)
    }
}

// Asks one helper, or counts it where it makes its claims out of turn and one is ready. A claim that doesn't pass is
// none, and so is a helper without memory.
fn ask<H: Helper>(
    helper: &mut H,
    alloc: Global,
    ob: &Ob,
    cnf: &Cnf,
    ready: Option<Claim>,
) -> Result<Claim, AllocError>
    requires ready { IfSome ready (Passes ob.now cnf.now) }
    ensures asked { H.asked helper.new ≡ one_more (H.asked helper.old) }
    ensures passes { IfOk result (Passes ob.now cnf.now) }
{
    if let Some(claim) = ready {
        if helper.count() {
            return Ok(claim);
        }
    }
    match helper.offer(alloc, ob, cnf) {
        Ok(claim) => passed(alloc, ob, cnf, claim),
        Err(_) => Ok(Claim::Nothing),
    }
}

fn ask_each<H: Helper>(
    helpers: &mut [H],
    alloc: Global,
    ob: &Ob,
    cnf: &Cnf,
    ready: Vec<Option<Claim>>,
) -> Result<Claim, AllocError>
    requires ready { AreReady ob.now cnf.now ready.items }
    ensures asked { AsksSome (map H.asked helpers.old) (map H.asked helpers.new) }
    ensures nothing { result ≡ Ok Claim.Nothing → map H.asked helpers.new ≡ map one_more (map H.asked helpers.old) }
    ensures passes { IfOk result (Passes ob.now cnf.now) }
{
    let mut ready = ready.into_iter();
    for helper in helpers.iter_mut() {
        let made = ready.next().unwrap_or(None);
        let claim = ask(helper, alloc, ob, cnf, made)?;
        if !matches!(claim, Claim::Nothing) {
            return Ok(claim);
        }
    }
    Ok(Claim::Nothing)
}

/// Asks the helpers in order about an obligation, of which these are the clauses, and gives the first claim that
/// passes; the helpers after that one aren't asked. It is refused only where a check of a claim wants memory; a helper
/// that wants memory has claimed nothing.
pub fn offer_all<H: Helper>(
    helpers: &mut Vec<H>,
    alloc: Global,
    ob: &Ob,
    cnf: &Cnf,
) -> Result<Claim, AllocError>
    ensures asked { AsksSome (map H.asked helpers.old.items) (map H.asked helpers.new.items) }
    ensures nothing { result ≡ Ok Claim.Nothing →
        map H.asked helpers.new.items ≡ map one_more (map H.asked helpers.old.items) }
    ensures passes { IfOk result (Passes ob.now cnf.now) }
{
    ask_each(helpers.as_mut_slice(), alloc, ob, cnf, Vec::new(alloc))
}

/// Asks the helpers as `offer_all` does, but for those that make their claims out of turn and whose claims are ready,
/// one for each helper in their order: these are counted in their turn, and their claims taken. A helper that makes its
/// claims in its turn is asked, whatever is ready.
pub fn offer_ready<H: Helper>(
    helpers: &mut Vec<H>,
    alloc: Global,
    ob: &Ob,
    cnf: &Cnf,
    ready: Vec<Option<Claim>>,
) -> Result<Claim, AllocError>
    requires ready { AreReady ob.now cnf.now ready.items }
    ensures asked { AsksSome (map H.asked helpers.old.items) (map H.asked helpers.new.items) }
    ensures nothing { result ≡ Ok Claim.Nothing →
        map H.asked helpers.new.items ≡ map one_more (map H.asked helpers.old.items) }
    ensures passes { IfOk result (Passes ob.now cnf.now) }
{
    ask_each(helpers.as_mut_slice(), alloc, ob, cnf, ready)
}

// A helper's claim out of turn. One that doesn't pass claims nothing; a helper that wants memory for one is asked in
// its turn.
fn claim_of<C: Claims>(
    helper: &C,
    alloc: Global,
    ob: &Ob,
    cnf: &Cnf,
) -> Result<Option<Claim>, AllocError>
    ensures { IfOk result (λ ready. IfSome ready (Passes ob.now cnf.now)) }
{
    match helper.claim(alloc, ob, cnf) {
        Ok(Some(claim)) => Ok(Some(passed(alloc, ob, cnf, claim)?)),
        Ok(None) => Ok(None),
        Err(_) => Ok(None),
    }
}

/// The claims of an obligation that the helpers make out of turn, one entry for each helper in their order: none for a
/// helper that is asked in its turn. It is refused only where a check of a claim, or the list, wants memory.
pub fn claims_of<C: Claims>(
    helpers: &[C],
    alloc: Global,
    ob: &Ob,
    cnf: &Cnf,
) -> Result<Vec<Option<Claim>>, AllocError>
    ensures count { IfOk result (λ ready. length ready.items ≡ length helpers.now) }
    ensures pass { IfOk result (λ ready. AreReady ob.now cnf.now ready.items) }
{
    let mut ready = Vec::new(alloc);
    for helper in helpers {
        let claim = claim_of(helper, alloc, ob, cnf)?;
        ready.push(claim)?;
    }
    Ok(ready)
}
