// What names stand for.

ghost use Rattle.std.specs.Prelude.{◌≡◌, ℕ, ◌<◌, ◌++◌, ◌≤◌, [], ◌∷◌, drop, nat_eq, OnOk, OnErr, IfSome, IfNone, Some, None, length, if◌then◌else◌};
ghost use Rattle.std.specs.HashMap.{get};
ghost use Rattle.std.specs.List.{position_from};
ghost use Rattle.std.specs.Option.{option_or};
ghost use Rattle.vlog_tree.specs.Fingerprints.{fingerprint as print_of};
ghost use Rattle.vlog_tree.specs.Valuation.{is_named};

use outside::Text;
use std::alloc::{AllocError, Global};
use std::collections::HashMap;
use std::hash::{FoldHasher, Hasher};
use std::marker::Model;

/// What a name stands for at an offset: its length in bits, the number of its lowest bit, its sign and its value.
#[derive(Drop)]
pub struct Entry {
    pub name: Text,
    /// The row in which the name is read, in cycles. It is 0 in a module.
    pub offset: u32,
    /// For a memory the length of a word.
    pub width: u8,
    pub low: u64,
    pub signed: bool,
    /// The number of words of a memory; 0 for every other name. The word j of a memory `m` is the entry `m$j`.
    pub depth: u8,
    pub value: u64,
}

/// A list of entries, each with a length from 1 to 64 and a value of that length. Entries are found by fingerprints
/// of their names and offsets.
#[derive(Drop)]
pub struct Valuation {
    entries: Vec<Entry>,
    // for each fingerprint the place of the first entry that has it
    first: HashMap<u64, usize>,
}

impl Model for Valuation {
    ghost use Rattle.std.specs.Prelude.{List, nat_eq};
    ghost use Rattle.std.specs.HashMap.{get};
    ghost use Rattle.vlog_tree.specs.declared.valuation.Entry.{Entry};
    ghost use Rattle.vlog_tree.specs.Valuation.{AllFit};
    ghost use Rattle.vlog_tree.specs.Fingerprints.{IsIndex};

    ghost Value = { List Entry };

    ghost view = { λ v. v.entries.items };

    ghost invariant = { λ v. AllFit v.entries.items × IsIndex v.entries.items (get nat_eq v.first) };
}

// A number that tells most names at offsets apart. Where two share it, the search goes on from the first.
fn fingerprint(name: &[u8], offset: u32) -> u64
    ensures { result ≡ print_of name.now offset }
{
    let mut state = FoldHasher::default();
    state.write(name);
    state.write_u32(offset);
    state.finish()
}

// Puts in the place of a fingerprint that has none yet. On an error nothing changes.
fn note(first: &mut HashMap<u64, usize>, print: u64, place: usize) -> Result<(), AllocError>
    ensures ok { OnOk result ((p : ℕ) → get nat_eq first.new p ≡ option_or (get nat_eq first.old p)
        (if nat_eq print p then Some place else None)) }
    ensures err { OnErr result ((p : ℕ) → get nat_eq first.new p ≡ get nat_eq first.old p) }
{
    if !first.contains_key(&print) {
        first.insert(print, place)?;
    }
    Ok(())
}

// The place of the first entry of this name and offset, from a place on.
fn place_from(entries: &[Entry], start: usize, name: &[u8], offset: u32) -> Option<usize>
    ensures { result ≡ position_from (is_named name.now offset) start (drop start entries.now) }
{
    for place in start..entries.len() {
        let entry = &entries[place];
        if entry.offset == offset && entry.name.bytes() == name {
            return Some(place);
        }
    }
    None
}

impl Valuation {
    ghost use Rattle.vlog_tree.specs.Valuation.{entry_at, place_at, written, AllFit, EntryFits};

    /// A valuation of no names.
    pub fn new(alloc: Global) -> Valuation
        ensures { result ≡ [] }
    {
        Valuation {
            entries: Vec::new(alloc),
            first: HashMap::new(alloc),
        }
    }

    /// Adds an entry at the end. On an error nothing changes.
    pub fn push(&mut self, entry: Entry) -> Result<(), AllocError>
        requires { EntryFits entry }
        ensures ok { OnOk result (self.new ≡ self.old ++ entry ∷ []) }
        ensures err { OnErr result (self.new ≡ self.old) }
    {
        let print = fingerprint(entry.name.bytes(), entry.offset);
        self.entries.reserve(1)?;
        note(&mut self.first, print, self.entries.len())?;
        self.entries.push(entry)?;
        Ok(())
    }

    /// The place of the first entry of this name and offset.
    pub fn place(&self, name: &[u8], offset: u32) -> Option<usize>
        ensures { result ≡ place_at self.now name.now offset }
    {
        let print = fingerprint(name, offset);
        match self.first.get(&print).copied() {
            Some(start) => place_from(&self.entries, start, name, offset),
            None => None,
        }
    }

    /// The first entry of this name and offset.
    pub fn find(&self, name: &[u8], offset: u32) -> Option<&Entry>
        ensures found { IfSome result (λ e. entry_at self.now name.now offset ≡ Some e.now) }
        ensures none { IfNone result (entry_at self.now name.now offset ≡ None) }
        ensures fits { IfSome result (λ e. EntryFits e.now) }
    {
        match self.place(name, offset) {
            Some(place) => Some(&self.entries[place]),
            None => None,
        }
    }

    /// The entries, in order.
    pub fn entries(&self) -> &[Entry]
        ensures same { result.now ≡ self.now }
        ensures fit { AllFit self.now }
    {
        self.entries.as_slice()
    }

    /// Writes these values in place of those of the first entries, each at its entry's length.
    pub fn write(&mut self, values: &[u64])
        requires few { length values.now ≤ length self.old }
        requires fit { AllFit (written self.old values.now) }
        ensures { self.new ≡ written self.old values.now }
    {
        for i in 0..values.len() {
            self.entries[i].value = values[i];
        }
    }
}
