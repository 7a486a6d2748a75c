// What is answered where rows of kept proofs are moved.
ghost use Rattle.std.specs.Prelude.{◌≡◌, ◌++◌, ℕ, List, [], IfOk, OnOk};
ghost use Rattle.std.specs.Fmt.{decimal};
ghost use Rattle.outside.specs.Faults.{Rose};
ghost use Rattle.proof_store.specs.Moves.{MovesRows};
ghost use Rattle.proof_store.specs.Stored.{Told};
ghost use Rattle.signoff_call.specs.Answers.{moved_line, moved_text};
ghost use Rattle.signoff_call.specs.Run.{AnswersMove};
ghost use Rattle.signoff_call.specs.Tasks.{stores};

use crate::answer::{Answer, done, refusal};
use desk_core_reports::Book;
use outside::{Keeper, Text};
use proof_store::{Moved, StoreFault, migrate};
use std::alloc::{AllocError, Global};

// The most rows that are come to.
const MOST: u64 = 1_099_511_627_776;

// Adds a number and a word.
fn add_number(alloc: Global, text: &mut Vec<u8>, number: u64, word: &[u8]) -> Result<(), AllocError>
    ensures { OnOk result (text.new.items ≡ text.old.items ++ (decimal number ++ word.now)) }
{
    text.extend_from_slice(number.to_string(alloc)?.as_bytes())?;
    text.extend_from_slice(word)?;
    Ok(())
}

// What became of the rows.
fn moved_text(alloc: Global, moved: Moved) -> Result<Text, AllocError>
    ensures { IfOk result (λ text. text ≡ moved_text moved) }
{
    let mut text = b"migrated ".to_vec(alloc)?;
    add_number(alloc, &mut text, moved.moved, b", left ")?;
    add_number(alloc, &mut text, moved.left, b"\n")?;
    if moved.more {
        text.extend_from_slice(b"more\n")?;
    }
    Ok(Text::new(text))
}

/// Moves the rows of the keeper's proofs, and says what became of them.
pub fn moved<K: Keeper>(alloc: Global, keeper: &mut K, book: &Book) -> Result<Answer, AllocError>
    requires { book.now.lines.items ≡ [] }
    ensures answer { IfOk result (λ a. (asked : List ℕ) →
        AnswersMove book.now (stores (K.tables keeper.old) (K.tables keeper.new) asked) a) }
    ensures left { Told MovesRows (K.tables keeper.old) (K.tables keeper.new) }
    ensures keeper { IfOk result (λ a. a.status ≡ 8 → Rose (K.faults keeper.old) (K.faults keeper.new)) }
{
    match migrate(alloc, keeper, MOST) {
        Ok(moved) => Ok(done(moved_text(alloc, moved)?)),
        Err(StoreFault::Keeper) => refusal(alloc, 8, b"keeper", b""),
        Err(StoreFault::Memory) => Err(AllocError),
    }
}
