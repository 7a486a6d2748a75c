// Obligations decided.
ghost use Rattle.std.specs.Prelude.{◌<◌, IfOk};
ghost use Rattle.job_pool.specs.Shown.{IsShown};

use crate::task::Task;
use cdcl::End;
use cdcl_presolve::solve;
use clause_check::Step;
use cnf_build::build;
use outside::Gate;
use std::alloc::{AllocError, Global};
use word_dag::Ob;

/// What shows how an obligation ended. Steps are over its clauses.
#[derive(Debug, Drop)]
pub enum Evidence {
    /// A derivation of the empty clause: no values make the root 1.
    Derivation(Vec<Step>),
    /// Values of the free nodes in number order, at which the root is 1.
    Values(Vec<u64>),
    /// An honest chain of as many steps as the budget has.
    Chain(Vec<Step>),
}

// Decides an obligation within a budget of steps.
fn decide(alloc: Global, ob: &Ob, budget: u64) -> Result<Evidence, AllocError>
    requires { 0 < budget }
    ensures { IfOk result (IsShown budget ob.now) }
{
    let built = build(alloc, ob)?;
    match solve(alloc, &built.cnf, budget)? {
        End::Unsat(steps) => Ok(Evidence::Derivation(steps)),
        End::Sat(assignment) => {
            let values = built.values(alloc, assignment.as_slice())?;
            Ok(Evidence::Values(values))
        }
        End::Spent(steps) => Ok(Evidence::Chain(steps)),
    }
}

/// Obligations are decided, each within this budget of steps. The gate is entered before each.
#[derive(Drop)]
pub(crate) struct Deciding<'a, G> {
    pub alloc: Global,
    pub budget: u64,
    pub gate: &'a G,
    ghost some: { 0 < budget },
}

impl<'a, G: Gate> Task<Ob, Evidence> for Deciding<'a, G> {
    ghost use Rattle.job_pool.specs.Shown.{IsShown};

    ghost ends = { λ deciding. IsShown deciding.budget };

    fn end(&self, number: u64, ob: &Ob) -> Result<Evidence, AllocError> {
        self.gate.enter(number);
        decide(self.alloc, ob, self.budget)
    }
}
