// Words of memories whose names are declared already.

ghost use Rattle.std.specs.Prelude.{◌≡◌, IfOk, IfSome, IfNone, map};
ghost use Rattle.std.specs.List.{flat_map};
ghost use Rattle.vlog_tree.specs.Valuation.{IsLength};
ghost use Rattle.vlog_tree_runs.specs.declared.flat.Signal.{Signal as Declared};
ghost use Rattle.vlog_tree_runs.specs.Places.{Name, Among};
ghost use Rattle.elab_flat_faults.specs.Declaring.{words_of};
ghost use Rattle.elab_flat_scopes.specs.Borrowed.{name_meant};
ghost use Rattle.mem_laws.specs.Stands.{IsDeclaredTwice};
ghost use Rattle.mem_faults.specs.Repeated.{entry_name, is_before, later_names};

use crate::rest::at_rest;
use crate::signals::words;
use elab_flat_scopes::Names;
use outside::Text;
use std::alloc::{AllocError, Global};
use vlog_tree::Entry;
use vlog_tree_runs::{Flat, Signal};

fn names_of(alloc: Global, entries: &[Entry]) -> Result<Names<'_>, AllocError>
    ensures { IfOk result (λ r. r ≡ map entry_name entries.now) }
{
    let mut all = Vec::new(alloc);
    for entry in entries {
        all.push(&entry.name)?;
    }
    Names::of(alloc, all)
}

// Whether a place comes before another one.
fn is_before(first: Option<usize>, place: usize) -> bool
    ensures { result ≡ is_before first place }
{
    match first {
        Some(first) => first < place,
        None => false,
    }
}

// Those of the names of entries that stand in a list before their places.
fn later_names<'a>(
    alloc: Global,
    entries: &'a [Entry],
    names: &Names<'_>,
) -> Result<Vec<&'a Text>, AllocError>
    ensures { IfOk result (λ r. map name_meant r.items ≡ later_names names.now 0 (map entry_name entries.now)) }
{
    let mut all = Vec::new(alloc);
    for place in 0..entries.len() {
        let name = &entries[place].name;
        if is_before(names.place(name.bytes()), place) {
            all.push(name)?;
        }
    }
    Ok(all)
}

// The names that stand a second time.
fn repeated(alloc: Global, entries: &[Entry]) -> Result<Names<'_>, AllocError>
    ensures { IfOk result (λ r. r ≡ later_names (map entry_name entries.now) 0 (map entry_name entries.now)) }
{
    let names = names_of(alloc, entries)?;
    Names::of(alloc, later_names(alloc, entries, &names)?)
}

// The first of these names that stands among others.
fn first_named<'a>(signals: &'a [Signal], names: &Names<'_>) -> Option<&'a Text>
    ensures some { IfSome result (λ x. Among (map (λ g. g.name) signals.now) x.now × Among names.now x.now) }
    ensures none { IfNone result ((x : Name) → Among (map (λ g. g.name) signals.now) x → Among names.now x → ⊥) }
{
    for signal in signals {
        if names.has(signal.name.bytes()) {
            return Some(&signal.name);
        }
    }
    None
}

// A memory's word of one of these names.
fn word_among(
    alloc: Global,
    signals: &[Signal],
    names: &Names<'_>,
) -> Result<Option<Text>, AllocError>
    ensures some { IfOk result (λ o. IfSome o (λ x. Among (flat_map words_of signals.now) x × Among names.now x)) }
    ensures none { IfOk result (λ o. IfNone o ((x : Name) → Among (flat_map words_of signals.now) x →
        Among names.now x → ⊥)) }
{
    for signal in signals {
        let words = words(alloc, signal)?;
        if let Some(name) = first_named(words.as_slice(), names) {
            return Ok(Some(Text::copy(alloc, name.bytes())?));
        }
    }
    Ok(None)
}

/// A word of a memory whose name is declared already: a signal's, or another word's.
pub fn declared_twice(alloc: Global, flat: &Flat) -> Result<Option<Text>, AllocError>
    requires { (g : Declared) → Among flat.now.signals g → IsLength g.width }
    ensures some { IfOk result (λ o. IfSome o (IsDeclaredTwice flat.now)) }
    ensures none { IfOk result (λ o. IfNone o ((x : Name) → IsDeclaredTwice flat.now x → ⊥)) }
{
    let rest = at_rest(alloc, flat)?;
    let repeated = repeated(alloc, rest.entries())?;
    word_among(alloc, flat.signals.as_slice(), &repeated)
}
