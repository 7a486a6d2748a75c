// What the names of a module stand for where its signals are 0 (IEEE 1364-2005, sections 3.2 and 4.9).

ghost use Rattle.std.specs.Prelude.{◌≡◌, [], ◌∷◌, ◌++◌, map, OnOk, IfOk};
ghost use Rattle.std.specs.List.{flat_map};
ghost use Rattle.vlog_tree.specs.Valuation.{IsLength};
ghost use Rattle.vlog_tree_runs.specs.declared.flat.Signal.{Signal as Declared};
ghost use Rattle.vlog_tree_runs.specs.Places.{Among, words_from};
ghost use Rattle.vlog_tree_runs.specs.Cycles.{flat_place};
ghost use Rattle.elab_flat_faults.specs.Constants.{at_rest};
ghost use Rattle.mem_faults.specs.Held.{resting, resting_word};

use crate::signals::words;
use outside::Text;
use std::alloc::{AllocError, Global};
use vlog_tree::{Entry, Valuation};
use vlog_tree_runs::{Flat, Signal};

fn add_entry(rest: &mut Valuation, alloc: Global, signal: &Signal) -> Result<(), AllocError>
    requires { IsLength signal.now.width }
    ensures { OnOk result (rest.new ≡ rest.old ++ resting_word signal.now ∷ []) }
{
    let name = Text::copy(alloc, signal.name.bytes())?;
    rest.push(Entry {
        name,
        offset: 0,
        width: signal.width,
        low: signal.low,
        signed: signal.signed,
        depth: signal.depth,
        value: 0,
    })
}

// The words of a memory.
fn add_words(rest: &mut Valuation, alloc: Global, words: &[Signal]) -> Result<(), AllocError>
    requires { (g : Declared) → Among words.now g → IsLength g.width }
    ensures { OnOk result (rest.new ≡ rest.old ++ map resting_word words.now) }
{
    for word in words {
        add_entry(rest, alloc, word)?;
    }
    Ok(())
}

// A signal, and its words.
fn add_signal(rest: &mut Valuation, alloc: Global, signal: &Signal) -> Result<(), AllocError>
    requires { IsLength signal.now.width }
    ensures { OnOk result (rest.new ≡ rest.old ++ resting signal.now) }
{
    add_entry(rest, alloc, signal)?;
    let words = words(alloc, signal)?;
    add_words(rest, alloc, words.as_slice())
}

fn all_at_rest(alloc: Global, signals: &[Signal]) -> Result<Valuation, AllocError>
    requires { (g : Declared) → Among signals.now g → IsLength g.width }
    ensures { IfOk result (λ v. v ≡ flat_map resting signals.now) }
{
    let mut rest = Valuation::new(alloc);
    for signal in signals {
        add_signal(&mut rest, alloc, signal)?;
    }
    Ok(rest)
}

/// What the names of a module stand for where each is 0: its signals and the words of its memories.
pub fn at_rest(alloc: Global, flat: &Flat) -> Result<Valuation, AllocError>
    requires { (g : Declared) → Among flat.now.signals g → IsLength g.width }
    ensures { IfOk result (λ v. v ≡ at_rest (flat_place flat.now)) }
{
    all_at_rest(alloc, flat.signals.as_slice())
}
