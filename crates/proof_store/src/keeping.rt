// Proofs that a keeper holds under the texts of obligations.
ghost use Rattle.std.specs.Prelude.{◌≡◌, ◌↔◌, Err, IfOk, IsTrue, OnErr, OnOk};
ghost use Rattle.proof_store.specs.Rows.{IsAccepted, IsRowOf};
ghost use Rattle.proof_store.specs.Goals.{ended};
ghost use Rattle.proof_store.specs.Provers.{Rises};
ghost use Rattle.proof_store.specs.Stored.{MayKeep, Puts, Told};

use crate::fault::StoreFault;
use crate::goal::Decided;
use clause_check::{Cnf, Marks, Step, accept};
use job_pool::Evidence;
use outside::Keeper;
use proof_store_records::{read_steps, record_fits, write_steps};
use std::alloc::{AllocError, Global};
use word_dag::{Ob, text};

// The most bytes that a key or the bytes of a kept proof may have.
const LONGEST: usize = 16_777_216;

/// The steps of these bytes, where they are a record of a derivation of the empty clause from the formula.
pub(crate) fn accepted(
    alloc: Global,
    cnf: &Cnf,
    bytes: &[u8],
) -> Result<Option<Vec<Step>>, AllocError>
    ensures { IfOk result (IsAccepted cnf.now bytes.now) }
{
    let Some(steps) = read_steps(alloc, bytes)? else {
        return Ok(None);
    };
    let mut marks = Marks::new(alloc, cnf.vars)?;
    if accept(cnf, steps.as_slice(), &mut marks) {
        Ok(Some(steps))
    } else {
        Ok(None)
    }
}

/// What is put for a proof.
#[derive(Drop)]
pub struct Row {
    pub key: Vec<u8>,
    pub bytes: Vec<u8>,
}

/// The row of a proof: its obligation's text and its record, where it may be kept.
pub(crate) fn row_of(alloc: Global, ob: &Ob, evidence: &Evidence) -> Result<Option<Row>, AllocError>
    ensures { IfOk result (IsRowOf (record { ob = ob.now; evidence = evidence.now })) }
{
    let Evidence::Derivation(steps) = evidence else {
        return Ok(None);
    };
    if !record_fits(steps.as_slice()) {
        return Ok(None);
    }
    let key = text(alloc, ob)?;
    let bytes = write_steps(alloc, steps.as_slice())?;
    if key.len() > LONGEST || bytes.len() > LONGEST {
        return Ok(None);
    }
    Ok(Some(Row { key, bytes }))
}

/// Puts a derivation that shows how a goal ended under the text of its obligation, where a record can be made of it and
/// neither it nor the text has more than 16,777,216 bytes, and says whether that was so. It is refused with `Keeper`
/// only where the keeper's count of faults rose in this call, or stands at its last value, and with `Memory` where
/// memory runs out; then nothing is new at the keeper.
pub fn keep<K: Keeper, L: Drop>(
    alloc: Global,
    keeper: &mut K,
    one: &Decided<L>,
) -> Result<bool, StoreFault>
    ensures ok { OnOk result (Told (Puts (ended one.now)) (K.tables keeper.old) (K.tables keeper.new)) }
    ensures kept { IfOk result (λ kept. IsTrue kept ↔ MayKeep (ended one.now)) }
    ensures err { OnErr result (K.tables keeper.new ≡ K.tables keeper.old) }
    ensures faults { Rises (result ≡ Err StoreFault.Keeper) (K.faults keeper.old) (K.faults keeper.new) }
{
    match row_of(alloc, &one.goal.ob, &one.evidence)? {
        Some(row) => {
            keeper.put_proof(alloc, row.key.as_slice(), row.bytes.as_slice())?;
            Ok(true)
        }
        None => Ok(false),
    }
}
