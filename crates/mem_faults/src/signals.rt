// Signals, and the words of memories (IEEE 1364-2005, section 4.9).

ghost use Rattle.std.specs.Prelude.{◌≡◌, ◌++◌, [], ◌∷◌, codes, decimal, IfOk};
ghost use Rattle.std.specs.List.{flat_map};
ghost use Rattle.vlog_tree_runs.specs.Places.{holders, words_from};
ghost use Rattle.mem_faults.specs.Held.{word_signal};

use outside::Text;
use sqlite_items::Items;
use std::alloc::{AllocError, Global};
use vlog_tree_runs::Signal;

/// The text of a memory's word.
pub fn word_text(alloc: Global, name: &[u8], word: u8) -> Result<Text, AllocError>
    ensures { IfOk result (λ r. r ≡ name.now ++ codes "$" ++ decimal word) }
{
    let mut text = Text::copy(alloc, name)?;
    let digits = format!(in alloc; "{word}")?;
    text.append(b"$")?;
    text.append(digits.as_bytes())?;
    Ok(text)
}

fn copied_signal(alloc: Global, signal: &Signal) -> Result<Signal, AllocError>
    ensures { IfOk result (λ r. r ≡ signal.now) }
{
    Ok(Signal {
        name: Text::copy(alloc, signal.name.bytes())?,
        width: signal.width,
        low: signal.low,
        signed: signal.signed,
        reg: signal.reg,
        depth: signal.depth,
    })
}

// A word as a register of its own.
fn word_signal(alloc: Global, memory: &Signal, word: u8) -> Result<Signal, AllocError>
    ensures { IfOk result (λ r. r ≡ word_signal memory.now word) }
{
    Ok(Signal {
        name: word_text(alloc, memory.name.bytes(), word)?,
        width: memory.width,
        low: 0,
        signed: false,
        reg: true,
        depth: 0,
    })
}

/// The words of a memory.
pub fn words(alloc: Global, memory: &Signal) -> Result<Items<Signal>, AllocError>
    ensures { IfOk result (λ r. r ≡ words_from memory.now 0 memory.now.depth) }
{
    let mut all = Items::new(alloc);
    for word in 0..memory.depth {
        all.push(word_signal(alloc, memory, word)?)?;
    }
    Ok(all)
}

fn one_signal(alloc: Global, signal: &Signal) -> Result<Items<Signal>, AllocError>
    ensures { IfOk result (λ r. r ≡ signal.now ∷ []) }
{
    let mut one = Items::new(alloc);
    one.push(copied_signal(alloc, signal)?)?;
    Ok(one)
}

// A signal, or the words of a memory.
fn holders(alloc: Global, signal: &Signal) -> Result<Items<Signal>, AllocError>
    ensures { IfOk result (λ r. r ≡ holders signal.now) }
{
    if signal.depth == 0 {
        one_signal(alloc, signal)
    } else {
        words(alloc, signal)
    }
}

/// The signals without memories: in the place of each memory its words.
pub fn all_holders(alloc: Global, signals: &[Signal]) -> Result<Items<Signal>, AllocError>
    ensures { IfOk result (λ r. r ≡ flat_map holders signals.now) }
{
    let mut all = Items::new(alloc);
    for signal in signals {
        all.append(holders(alloc, signal)?)?;
    }
    Ok(all)
}
