// Rows of a keeper's proofs put again as records of version 2.
ghost use Rattle.std.specs.Prelude.{◌≡◌, ◌<◌, ◌≤◌, ◌+◌, ◌↔◌, ℕ, List, Err, IfOk, IfSome, IsTrue, OnErr, false, length, option_map, take};
ghost use Rattle.std.specs.FinMap.{keys};
ghost use Rattle.outside.specs.Faults.{Rose};
ghost use Rattle.proof_store_records.specs.Layout.{mark};
ghost use Rattle.proof_store_records.specs.declared.version.Version.TheVariants.{First};
ghost use Rattle.proof_store.specs.Moves.{CouldMove, IsSecondOf, MovesRow, MovesRows, Walks};
ghost use Rattle.proof_store.specs.Stored.{Told};

use crate::fault::StoreFault;
use outside::{Keeper, Text};
use proof_store_records::{read_steps, record_fits, write_steps};
use std::alloc::{AllocError, Global};

/// What became of the rows of proofs that a walk came to.
#[derive(Clone, Copy, Debug, PartialEq, Eq)]
pub struct Moved {
    /// How many rows were put again as records of version 2.
    pub moved: u64,
    /// How many rows stayed as they were.
    pub left: u64,
    /// Whether the walk ended since it had come to as many rows as it might.
    pub more: bool,
}

// Whether these bytes begin as a record of version 1 does.
fn begins_first(bytes: &[u8]) -> bool
    ensures { IsTrue result ↔ (take 2 bytes.now ≡ mark First) }
{
    bytes.len() >= 2 && bytes[0] == 0x44 && bytes[1] == 0x31
}

// The record of version 2 of the steps of which these bytes are a record of version 1, where they fit and it isn't
// longer.
fn second_of(alloc: Global, bytes: &[u8]) -> Result<Option<Vec<u8>>, AllocError>
    ensures { IfOk result (IsSecondOf bytes.now) }
{
    if !begins_first(bytes) {
        return Ok(None);
    }
    let Some(steps) = read_steps(alloc, bytes)? else {
        return Ok(None);
    };
    if !record_fits(steps.as_slice()) {
        return Ok(None);
    }
    let second = write_steps(alloc, steps.as_slice())?;
    if second.len() > bytes.len() {
        return Ok(None);
    }
    Ok(Some(second))
}

// Puts the row under a key as a record of version 2, where it can be moved, and answers whether it was.
fn move_row<K: Keeper>(alloc: Global, keeper: &mut K, key: &[u8]) -> Result<bool, StoreFault>
    ensures ok { IfOk result (λ flag. Told (MovesRow key.now flag) (K.tables keeper.old) (K.tables keeper.new)) }
    ensures err { OnErr result (K.tables keeper.new ≡ K.tables keeper.old) }
    ensures later { K.faults keeper.old ≤ K.faults keeper.new }
    ensures keeper { result ≡ Err StoreFault.Keeper → Rose (K.faults keeper.old) (K.faults keeper.new) }
{
    let Some(bytes) = keeper.proof(alloc, key)? else {
        return Ok(false);
    };
    let Some(second) = second_of(alloc, bytes.as_slice())? else {
        return Ok(false);
    };
    keeper.put_proof(alloc, key, second.as_slice())?;
    Ok(true)
}

// The bytes of a text, where there is one.
fn bytes_of(text: &Option<Text>) -> Option<&[u8]>
    ensures { option_map (λ bytes. bytes.now) result ≡ text.now }
{
    match text {
        Some(text) => Some(text.bytes()),
        None => None,
    }
}

/// Puts rows of proofs that are records of version 1 again as records of version 2 of the same steps, in ascending
/// order of their keys, and comes to at most so many of them. A row stays as it is where it isn't a record of version
/// 1, where its steps don't fit version 2, or where the record of version 2 is longer. Blocks and sign-offs stay.
///
/// It is refused with `Keeper` only where the keeper's count of faults rose in this call, or stands at its last value,
/// and with `Memory` where memory runs out. Then too each row is as before or was moved, so that a further call goes
/// on.
pub fn migrate<K: Keeper>(alloc: Global, keeper: &mut K, most: u64) -> Result<Moved, StoreFault>
    requires { 0 < most }

    // The rows that it came to.
    ensures walks { IfOk result (λ m. Told (Walks most m) (K.tables keeper.old) (K.tables keeper.new)) }
    ensures few { IfOk result (λ m. m.moved + m.left ≤ most) }
    ensures more { IfOk result (λ m. IsTrue m.more ↔ (m.moved + m.left ≡ most)) }
    ensures whole { IfOk result (λ m. m.more ≡ false →
        IfSome (K.tables keeper.new) (λ t. (key : List ℕ) → CouldMove t key → ⊥)) }

    // What the keeper holds afterwards, also after a refusal.
    ensures rows { Told MovesRows (K.tables keeper.old) (K.tables keeper.new) }

    // Its count of faults.
    ensures later { K.faults keeper.old ≤ K.faults keeper.new }
    ensures keeper { result ≡ Err StoreFault.Keeper → Rose (K.faults keeper.old) (K.faults keeper.new) }
{
    let mut moved = 0;
    let mut left = 0;
    let mut last: Option<Text> = None;
    for _ in 0..most {
        let Some(key) = keeper.proof_key_after(alloc, bytes_of(&last))? else {
            return Ok(Moved {
                moved,
                left,
                more: false,
            });
        };
        if move_row(alloc, keeper, key.bytes())? {
            moved += 1;
        } else {
            left += 1;
        }
        last = Some(key);
    }
    Ok(Moved {
        moved,
        left,
        more: true,
    })
}
