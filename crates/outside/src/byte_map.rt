// A map from bytes, in the order of its keys.
ghost use Rattle.std.specs.Prelude.{◌≡◌, IfOk, OnOk, OnErr, find, map, option_map};
ghost use Rattle.std.specs.FinMap.{empty, get, insert, keys};
ghost use Rattle.std.specs.Cmp.Lexicographic.{slice_cmp};
ghost use Rattle.std.specs.Ordering.{is_lt, nat_cmp};
ghost use Rattle.outside.specs.Keys.{is_above};

use crate::Text;
use std::alloc::{AllocError, Global};
use std::collections::BTreeMap;
use std::marker::Model;
use std::ops::Bound;

/// A map whose keys are bytes. Contracts see it as a finite map with its keys in byte order.
#[derive(Drop)]
pub struct ByteMap<T> {
    rows: BTreeMap<Vec<u8>, T>,
}

impl<T> Model for ByteMap<T> {
    ghost use Rattle.std.specs.Prelude.{IsTrue};
    ghost use Rattle.std.specs.Ordering.{nat_cmp};
    ghost use Rattle.std.specs.Cmp.Lexicographic.{slice_cmp};
    ghost use Rattle.std.specs.Coded.{coded_ℕ, coded_list};
    ghost use Rattle.std.specs.FinMap.{FinMap, code, from_sorted, is_sorted};
    ghost use Rattle.outside.specs.Keys.{rows_of};

    ghost Value = { FinMap (slice_cmp nat_cmp) T };

    ghost coded = { code (coded_list coded_ℕ) T.code };

    ghost view = { λ t. from_sorted (rows_of t.rows.entries) };

    ghost invariant = { λ t. IsTrue (is_sorted (slice_cmp nat_cmp) (rows_of t.rows.entries)) };
}

impl<T: Drop> ByteMap<T> {
    pub fn new(alloc: Global) -> ByteMap<T>
        ensures { result ≡ empty }
    {
        ByteMap {
            rows: BTreeMap::new(alloc),
        }
    }

    pub fn get(&self, key: &[u8]) -> Option<&T>
        ensures { option_map (λ v. v.now) result ≡ get self.now key.now }
    {
        self.rows.get(key)
    }

    /// Puts or replaces the value of a key.
    pub fn put(&mut self, alloc: Global, key: &[u8], value: T) -> Result<(), AllocError>
        ensures ok { OnOk result (self.new ≡ insert self.old key.now value) }
        ensures err { OnErr result (self.new ≡ self.old) }
    {
        let key = owned(alloc, key)?;
        match self.rows.insert(key, value) {
            Ok(_) => Ok(()),
            Err(_) => Err(AllocError),
        }
    }

    /// The keys, in byte order.
    pub fn names(&self, alloc: Global) -> Result<Vec<Text>, AllocError>
        ensures { IfOk result (λ names. names.items ≡ keys self.now) }
    {
        copies(alloc, &self.rows)
    }

    /// The least key above this one, or the least of all.
    pub fn key_after(&self, alloc: Global, low: Option<&[u8]>) -> Result<Option<Text>, AllocError>
        ensures { IfOk result (λ key. key ≡ find (is_above (option_map (λ k. k.now) low.entry)) (keys self.now)) }
    {
        match low {
            Some(low) => {
                let low = owned(alloc, low)?;
                copy_of(alloc, first_above(&self.rows, low))
            }
            None => copy_of(alloc, first_of(&self.rows)),
        }
    }
}

fn owned(alloc: Global, bytes: &[u8]) -> Result<Vec<u8>, AllocError>
    ensures { IfOk result (λ v. v.items ≡ bytes.now) }
{
    bytes.to_vec(alloc)
}

// Copies of the keys, in their order.
fn copies<T>(alloc: Global, rows: &BTreeMap<Vec<u8>, T>) -> Result<Vec<Text>, AllocError>
    ensures { IfOk result (λ names. names.items ≡ map (λ e. e.0.items) rows.now.entries) }
{
    let mut names = Vec::new(alloc);
    for key in rows.keys() {
        names.push(Text::copy(alloc, key)?)?;
    }
    Ok(names)
}

fn copy_of(alloc: Global, key: Option<&Vec<u8>>) -> Result<Option<Text>, AllocError>
    ensures { IfOk result (λ text. text ≡ option_map (λ k. k.now.items) key.entry) }
{
    match key {
        Some(key) => Ok(Some(Text::copy(alloc, key)?)),
        None => Ok(None),
    }
}

fn first_above<T>(rows: &BTreeMap<Vec<u8>, T>, low: Vec<u8>) -> Option<&Vec<u8>>
    ensures { option_map (λ k. k.now.items) result
        ≡ find (λ k. is_lt (slice_cmp nat_cmp low.items k)) (map (λ e. e.0.items) rows.now.entries) }
{
    let mut above = rows.range((Bound::Excluded(low), Bound::Unbounded));
    match above.next() {
        Some((key, _)) => Some(key),
        None => None,
    }
}

fn first_of<T>(rows: &BTreeMap<Vec<u8>, T>) -> Option<&Vec<u8>>
    ensures { option_map (λ k. k.now.items) result ≡ find (is_above None) (map (λ e. e.0.items) rows.now.entries) }
{
    rows.keys().next()
}
