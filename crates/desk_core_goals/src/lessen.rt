// The least counterexample.
ghost use Rattle.std.specs.Prelude.{◌≡◌, ◌≤◌, IfOk};
ghost use Rattle.std.specs.List.{All, AllZip};
ghost use Rattle.job_pool.specs.Shown.{IsShown};
ghost use Rattle.desk_core_goals.specs.Least.{IsLeastOf, IsLessened, IsReplaced, Lessens, asks_least, values_of};

use desk_core_commands::Which;
use job_pool::Evidence;
use least_trace::{LeastEnd, least};
use proof_store::Decided;
use set_tree::Line;
use std::alloc::{AllocError, Global};
use word_dag::Ob;

/// Goals as they were decided, and where the least counterexample of the only one was asked for, how the search for it
/// ended.
#[derive(Drop)]
pub(crate) struct WithLeast {
    pub decided: Vec<Decided<Line>>,
    pub least: Option<LeastEnd>,
}

// The values that a search ended with.
fn values_of(alloc: Global, end: &LeastEnd) -> Result<Vec<u64>, AllocError>
    ensures { IfOk result (λ us. us.items ≡ values_of end.now) }
{
    match end {
        LeastEnd::Found { values, .. } => values.to_vec(alloc),
        LeastEnd::Stopped { values, .. } => values.to_vec(alloc),
    }
}

// Evidence with the least values in place of those that it has.
fn least_evidence(
    alloc: Global,
    budget: u64,
    ob: &Ob,
    evidence: Evidence,
) -> Result<(Evidence, Option<LeastEnd>), AllocError>
    requires budget { 1 ≤ budget }
    requires shown { IsShown budget ob.now evidence }
    ensures { IfOk result (λ r. IsLessened budget ob.now evidence r.0 r.1) }
{
    match evidence {
        Evidence::Values(values) => {
            let end = least(alloc, ob, &values, budget)?;
            let values = values_of(alloc, &end)?;
            Ok((Evidence::Values(values), Some(end)))
        }
        Evidence::Derivation(steps) => Ok((Evidence::Derivation(steps), None)),
        Evidence::Chain(steps) => Ok((Evidence::Chain(steps), None)),
    }
}

// A goal with the least values that refute it.
fn least_goal(
    alloc: Global,
    budget: u64,
    one: Decided<Line>,
) -> Result<(Decided<Line>, Option<LeastEnd>), AllocError>
    requires budget { 1 ≤ budget }
    requires shown { IsShown budget one.goal.ob one.evidence }
    ensures replaced { IfOk result (λ r. IsReplaced budget one r.0) }
    ensures least { IfOk result (λ r. IsLeastOf budget r.0.goal.ob r.0.evidence r.1) }
{
    let Decided {
        goal,
        evidence,
        source,
    } = one;
    let (evidence, least) = least_evidence(alloc, budget, &goal.ob, evidence)?;
    let one = Decided {
        goal,
        evidence,
        source,
    };
    Ok((one, least))
}

fn asks_least(which: &Which) -> bool
    ensures { result ≡ asks_least which.now }
{
    match which {
        Which::Ops | Which::All | Which::One(_) => false,
        Which::Least(_) => true,
    }
}

/// The goals, of which the only one has the least values where they are asked for and it is refuted.
pub(crate) fn with_least(
    alloc: Global,
    which: &Which,
    budget: u64,
    decided: Vec<Decided<Line>>,
) -> Result<WithLeast, AllocError>
    requires budget { 1 ≤ budget }
    requires shown { All (λ d. IsShown budget d.goal.ob d.evidence) decided.items }
    ensures replaced { IfOk result (λ l. AllZip (IsReplaced budget) decided.items l.decided.items) }
    ensures least { IfOk result (λ l. Lessens which.now budget l.decided.items l.least) }
{
    if !asks_least(which) || decided.len() != 1 {
        return Ok(WithLeast {
            decided,
            least: None,
        });
    }
    let mut decided = decided;
    match decided.pop() {
        Some(one) => {
            let (one, least) = least_goal(alloc, budget, one)?;
            decided.push(one)?;
            Ok(WithLeast { decided, least })
        }
        None => Ok(WithLeast {
            decided,
            least: None,
        }),
    }
}
