// Rows of kept proofs, checked side by side.
ghost use Rattle.std.specs.Prelude.{◌^◌, ◌<◌, IfOk, length};
ghost use Rattle.std.specs.List.{AllZip};
ghost use Rattle.proof_store.specs.Lookups.{Checks, ChecksRow};

use crate::keeping::accepted;
use crate::looking::Known;
use clause_check::Step;
use cnf_build::build;
use job_pool::{Crew, Task};
use std::alloc::{AllocError, Global};
use std::thread::Threads;
use word_dag::Ob;

// The steps of a row, where it is a record of a proof of its obligation.
fn steps_of_row(
    alloc: Global,
    lookup: &Known<'_, Option<Vec<u8>>>,
) -> Result<Option<Vec<Step>>, AllocError>
    ensures { IfOk result (ChecksRow lookup.now.ob.now lookup.now.known) }
{
    let Some(bytes) = &lookup.known else {
        return Ok(None);
    };
    let built = build(alloc, lookup.ob)?;
    accepted(alloc, &built.cnf, bytes.as_slice())
}

// Rows are read and checked.
#[derive(Drop)]
struct Checking {
    alloc: Global,
}

impl<'a> Task<Known<'a, Option<Vec<u8>>>, Known<'a, Option<Vec<Step>>>> for Checking {
    ghost use Rattle.proof_store.specs.Lookups.{Checks};

    ghost ends = { λ _. Checks };

    fn end(
        &self,
        _number: u64,
        lookup: &Known<'a, Option<Vec<u8>>>,
    ) -> Result<Known<'a, Option<Vec<Step>>>, AllocError> {
        let known = steps_of_row(self.alloc, lookup)?;
        Ok(Known {
            ob: lookup.ob,
            known,
        })
    }
}

/// The obligations in order, each with the steps of its row where this is a record of a proof of it. The rows are
/// checked by these workers.
pub(crate) fn checked_all<'a, R: Threads + Sync>(
    crew: &Crew<'_, R>,
    lookups: &[Known<'a, Option<Vec<u8>>>],
) -> Result<Vec<Known<'a, Option<Vec<Step>>>>, AllocError>
    requires { length lookups.now < 2 ^ 32 }
    ensures { IfOk result (λ all. AllZip Checks lookups.now all.items) }
{
    let ran = crew.run(lookups, &Checking { alloc: crew.alloc })?;
    Ok(ran.ends)
}
