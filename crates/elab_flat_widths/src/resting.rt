// What the names of a scope stand for where its signals are 0 (IEEE 1364-2005, sections 3.2 and 4.9).

ghost use Rattle.std.specs.Prelude.{◌≡◌, ◌++◌, codes, decimal, map, OnOk, IfOk, IfErr};
ghost use Rattle.vlog_tree.specs.Valuation.{IsLength};
ghost use Rattle.vlog_tree_runs.specs.Places.{words_from};
ghost use Rattle.vlog_tree_runs.specs.Scopes.{place_of};
ghost use Rattle.elab_flat_faults.specs.Constants.{at_rest};
ghost use Rattle.elab_flat_instances.specs.Unfolding.{scope_meant};
ghost use Rattle.elab_flat_widths.specs.declared.violation.Violation.TheVariants.{Memory};
ghost use Rattle.elab_flat_widths.specs.Ranges.{AreDeclared, resting, resting_word};

use crate::declared::declared;
use crate::violation::Violation;
use elab_flat_instances::Scope;
use elab_flat_scopes::signals_in;
use outside::Text;
use std::alloc::{AllocError, Global};
use vlog_tree::{Entry, Valuation};
use vlog_tree_runs::Signal;

fn word_name(alloc: Global, name: &[u8], index: u8) -> Result<Text, AllocError>
    ensures { IfOk result (λ text. text ≡ name.now ++ codes "$" ++ decimal index) }
{
    let mut text = Text::copy(alloc, name)?;
    let digits = format!(in alloc; "{index}")?;
    text.append(b"$")?;
    text.append(digits.as_bytes())?;
    Ok(text)
}

// The words of a memory.
fn add_words(rest: &mut Valuation, alloc: Global, signal: &Signal) -> Result<(), AllocError>
    requires { IsLength signal.now.width }
    ensures { OnOk result (rest.new ≡ rest.old ++ map resting_word (words_from signal.now 0 signal.now.depth)) }
{
    for index in 0..signal.depth {
        rest.push(Entry {
            name: word_name(alloc, signal.name.bytes(), index)?,
            offset: 0,
            width: signal.width,
            low: 0,
            signed: false,
            depth: 0,
            value: 0,
        })?;
    }
    Ok(())
}

// A signal, and its words.
fn add_signal(rest: &mut Valuation, alloc: Global, signal: &Signal) -> Result<(), AllocError>
    requires { IsLength signal.now.width }
    ensures { OnOk result (rest.new ≡ rest.old ++ resting signal.now) }
{
    rest.push(Entry {
        name: Text::copy(alloc, signal.name.bytes())?,
        offset: 0,
        width: signal.width,
        low: signal.low,
        signed: signal.signed,
        depth: signal.depth,
        value: 0,
    })?;
    add_words(rest, alloc, signal)
}

// The same entries once more.
fn copied(alloc: Global, params: &Valuation) -> Result<Valuation, AllocError>
    ensures { IfOk result (λ v. v ≡ params.now) }
{
    let mut all = Valuation::new(alloc);
    for entry in params.entries() {
        all.push(Entry {
            name: Text::copy(alloc, entry.name.bytes())?,
            offset: entry.offset,
            width: entry.width,
            low: entry.low,
            signed: entry.signed,
            depth: entry.depth,
            value: entry.value,
        })?;
    }
    Ok(all)
}

/// What the names of a scope stand for where its signals are 0: its parameters, its signals, and the words of its
/// memories.
pub fn at_rest(alloc: Global, scope: &Scope<'_>) -> Result<Valuation, Violation>
    requires { AreDeclared (scope_meant scope.now) }
    ensures ok { IfOk result (λ v. v ≡ at_rest (place_of (scope_meant scope.now))) }
    ensures err { IfErr result (λ w. w ≡ Memory) }
{
    let signals = signals_in(alloc, scope.text)?;
    let mut rest = copied(alloc, &scope.params)?;
    for decl in &signals {
        match declared(alloc, decl, &scope.params) {
            Ok(signal) => add_signal(&mut rest, alloc, &signal)?,
            Err(violation) => return Err(violation),
        }
    }
    Ok(rest)
}
