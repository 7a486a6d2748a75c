// The lines of a set.

ghost use Rattle.std.specs.Prelude.{◌≡◌, ◌+◌, ◌-◌, ◌<◌, ◌≤◌, ◌^◌, ◌&&◌, ◌||◌, ◌==◌, ◌↔◌, not, length, drop, IfOk, IsTrue, None, max};
ghost use Rattle.std.specs.List.{list_any, All};
ghost use Rattle.set_tree.specs.Formulas.{meaning_of};
ghost use Rattle.set_tree.specs.Parts.{property_at, IsPosition, window_of, assumed, end_of, cover_end, in_domain, value_of};
ghost use Rattle.set_tree.specs.Traces.{IsTrace, IsConstrained, SameInputs};
ghost use Rattle.set_tree.specs.Lines.{last_row, ViolatesEnd, ViolatesSplit, ViolatesSameEnd, ViolatesChoose, ViolatesHand};
ghost use Rattle.twin_tests_laws.specs.Tests.{any_from, determined, same, is_number, opens, ends_at, pairs, pairs_to, violates_choose, violates_hand, violates_split, violates_determine};
ghost use Rattle.twin_tests.specs.Ordering.{line_of};
ghost use Rattle.twin_tests.specs.Reading.{FollowsWithin};
ghost use Rattle.replay_eval.specs.Judging.{is_same, endless, ends_apart, covers_apart, IsSized, AreSized, Undetermines, NamesProperties, AreViolating};

use crate::formula::{holds, rows_from};
use crate::property::{end_of, is_assumed, meets_constraints, property_at, same_hands, starts};
use crate::trace::{all_agree, is_trace};
use set_tree::{Rows, To};
use set_tree_structure::Sound;
use std::alloc::{AllocError, Global};
use twin_tests::SetLine;

/// A set, and the rows of two windows that may violate its lines.
#[derive(Clone, Copy)]
pub struct Windows<'a> {
    pub set: &'a Sound,
    pub one: &'a [Rows<u64>],
    pub other: &'a [Rows<u64>],
}

/// Whether rows are a trace of a set at each cycle of which the constraints hold that fit.
pub fn is_constrained(alloc: Global, set: &Sound, rows: &[Rows<u64>]) -> Result<bool, AllocError>
    ensures { IfOk result (λ b. IsTrue b ↔ IsConstrained (meaning_of set.now) set.now rows.now) }
{
    if !fits(set, rows) {
        return Ok(false);
    }
    meets_constraints(alloc, set, rows)
}

// Whether rows are a trace of a set.
fn fits(set: &Sound, rows: &[Rows<u64>]) -> bool
    ensures { IsTrue result ↔ IsTrace set.now rows.now }
{
    is_trace(set.set().names.as_slice(), rows)
}

// Whether rows are a trace of a set, with the row of number `end` as the last one.
fn is_sized(set: &Sound, end: usize, rows: &[Rows<u64>]) -> bool
    requires { end ≤ 1000 }
    ensures { IsTrue result ↔ IsSized set.now end rows.now }
{
    rows.len() == end + 1 && fits(set, rows)
}

// Whether the property at a position starts in the first row of a trace that meets the constraints.
fn opens(alloc: Global, set: &Sound, at: u32, rows: &[Rows<u64>]) -> Result<bool, AllocError>
    requires trace { IsTrace set.now rows.now }
    requires position { IsPosition set.now at }
    requires window { window_of set.now at < length rows.now }
    ensures { IfOk result (λ b. b ≡ opens (meaning_of set.now) set.now at rows.now) }
{
    let met = meets_constraints(alloc, set, rows)?;
    let starts = starts(alloc, set, at, rows)?;
    Ok(met && starts)
}

fn is_same(one: Option<u8>, other: Option<u8>) -> bool
    ensures { result ≡ is_same one other }
{
    one == other
}

fn is_number(one: Option<u8>, n: u8) -> bool
    ensures { result ≡ is_number one n }
{
    one == Some(n)
}

fn is_endless(alloc: Global, set: &Sound, at: u32, rows: &[Rows<u64>]) -> Result<bool, AllocError>
    requires trace { IsTrace set.now rows.now }
    requires position { IsPosition set.now at }
    requires window { window_of set.now at < length rows.now }
    ensures { IfOk result (λ b. b ≡ endless (meaning_of set.now) set.now at rows.now) }
{
    let opens = opens(alloc, set, at, rows)?;
    let end = end_of(alloc, set, at, rows)?;
    Ok(opens && is_same(end, None))
}

// Whether one of the properties is assumed in the first row.
fn any_assumed(
    alloc: Global,
    set: &Sound,
    next: &[u32],
    rows: &[Rows<u64>],
) -> Result<bool, AllocError>
    requires trace { IsTrace set.now rows.now }
    requires follow { All (FollowsWithin set.now (length rows.now)) next.now }
    ensures { IfOk result (λ b. b ≡ list_any (λ q. assumed (meaning_of set.now) set.now q rows.now) next.now) }
{
    for successor in next {
        let assumed = is_assumed(alloc, set, *successor, rows)?;
        if assumed {
            return Ok(true);
        }
    }
    Ok(false)
}

// The offset at which a cover ends, where its property ends at n.
fn cover_end(to: To, n: u8) -> u64
    ensures end { result ≡ cover_end to n }
    ensures small { result < 2 ^ 33 }
{
    match to {
        To::At(offset) => u64::from(offset),
        To::AfterEnd(distance) => u64::from(n) + u64::from(distance),
    }
}

// The number of the last row that a property reads which starts in the first one.
fn window(set: &Sound, at: u32) -> usize
    requires { IsPosition set.now at }
    ensures window { result ≡ window_of set.now at }
    ensures small { result ≤ 64 }
{
    let property = property_at(set, at);
    usize::from(property.window)
}

// The number of the last row that the property at a position and a successor read which starts at n.
fn edge(set: &Sound, at: u32, next: u32, n: u8) -> usize
    requires position { IsPosition set.now at }
    requires next { IsPosition set.now next }
    ensures edge { result ≡ max (window_of set.now at) (n + window_of set.now next) }
    ensures small { result ≤ 1000 }
{
    window(set, at).max(usize::from(n) + window(set, next))
}

// `end P`.
fn violates_end(alloc: Global, set: &Sound, at: u32, rows: &[Rows<u64>]) -> Result<bool, AllocError>
    requires { IsPosition set.now at }
    ensures { IfOk result (λ b. IsTrue b ↔ ViolatesEnd (meaning_of set.now) set.now at rows.now) }
{
    let end = window(set, at);
    if !is_sized(set, end, rows) {
        return Ok(false);
    }
    is_endless(alloc, set, at, rows)
}

// Whether the property at a position starts and ends at n, and no successor is assumed there.
fn is_split(
    alloc: Global,
    set: &Sound,
    at: u32,
    n: u8,
    rows: &[Rows<u64>],
) -> Result<bool, AllocError>
    requires trace { IsTrace set.now rows.now }
    requires position { IsPosition set.now at }
    requires size { length rows.now ≡ last_row set.now (window_of set.now at) n (property_at set.now at).next + 1 }
    requires end { n ≤ (property_at set.now at).length.high }
    ensures { IfOk result (λ b. b ≡ violates_split (meaning_of set.now) set.now at n rows.now) }
{
    let property = property_at(set, at);
    let opens = opens(alloc, set, at, rows)?;
    let end = end_of(alloc, set, at, rows)?;
    let later = rows_from(rows, usize::from(n));
    let follows = any_assumed(alloc, set, property.next.as_slice(), later)?;
    Ok(opens && is_number(end, n) && !follows)
}

// The number of the last row that a property with this window and the properties read which start at n.
fn last_row(set: &Sound, window: u8, n: u8, next: &[u32]) -> usize
    requires positions { All (IsPosition set.now) next.now }
    requires small { window ≤ 64 }
    ensures last { result ≡ last_row set.now window n next.now }
    ensures small { result ≤ 1000 }
{
    let mut last = usize::from(window);
    for successor in next {
        last = last.max(usize::from(n) + self::window(set, *successor));
    }
    last
}

// `split P`, where P ends at n.
fn violates_split(
    alloc: Global,
    set: &Sound,
    at: u32,
    n: u8,
    rows: &[Rows<u64>],
) -> Result<bool, AllocError>
    requires { IsPosition set.now at }
    ensures { IfOk result (λ b. IsTrue b ↔ ViolatesSplit (meaning_of set.now) set.now at n rows.now) }
{
    let property = property_at(set, at);
    if n > property.length.high {
        return Ok(false);
    }
    let end = last_row(set, property.window, n, property.next.as_slice());
    if !is_sized(set, end, rows) {
        return Ok(false);
    }
    is_split(alloc, set, at, n, rows)
}

fn same(one: bool, other: bool) -> bool
    ensures { result ≡ same one other }
{
    if one { other } else { !other }
}

// Whether an output is claimed in the first row.
fn in_domain(
    alloc: Global,
    set: &Sound,
    output: u32,
    rows: &[Rows<u64>],
) -> Result<bool, AllocError>
    requires trace { IsTrace set.now rows.now }
    requires some { 0 < length rows.now }
    ensures { IfOk result (λ b. b ≡ in_domain (meaning_of set.now) set.now output rows.now) }
{
    let Some(name) = set.set().names.get(output as usize) else {
        return Ok(true);
    };
    let Some(domain) = &name.domain else {
        return Ok(true);
    };
    holds(alloc, set, domain, rows)
}

// The value of the name at a position in the first row.
fn value_of(output: u32, rows: &[Rows<u64>]) -> u64
    ensures { result ≡ value_of output rows.now }
{
    let Some(row) = rows.first() else {
        return 0;
    };
    row.as_slice().get(output as usize).copied().unwrap_or(0)
}

// Whether an output is determined in the first row.
fn determined(
    alloc: Global,
    set: &Sound,
    output: u32,
    one: &[Rows<u64>],
    other: &[Rows<u64>],
) -> Result<bool, AllocError>
    requires one { IsTrace set.now one.now }
    requires other { IsTrace set.now other.now }
    requires some { 0 < length one.now }
    requires other_some { 0 < length other.now }
    ensures { IfOk result (λ b. b ≡ determined (meaning_of set.now) set.now output one.now other.now) }
{
    let first = in_domain(alloc, set, output, one)?;
    let second = in_domain(alloc, set, output, other)?;
    let equal = value_of(output, one) == value_of(output, other);
    Ok(same(first, second) && (!first || equal))
}

fn is_position(set: &Sound, at: u32) -> bool
    ensures { IsTrue result ↔ IsPosition set.now at }
{
    at as usize <= set.set().operations.len()
}

fn names_properties(set: &Sound, line: SetLine) -> bool
    ensures { IsTrue result ↔ NamesProperties set.now (line_of line) }
{
    match line {
        SetLine::End(at) | SetLine::Split(at) | SetLine::SameEnd(at) | SetLine::Determine(at) => {
            is_position(set, at)
        }
        SetLine::Choose(at, next) | SetLine::Hand(at, next) => {
            is_position(set, at) && is_position(set, next)
        }
    }
}

impl Windows<'_> {
    // Whether both are sized so, with the same inputs.
    fn are_sized(&self, end: usize) -> bool
        requires { end ≤ 1000 }
        ensures { IsTrue result ↔ AreSized self.now.set.now end self.now.one.now self.now.other.now }
    {
        if !is_sized(self.set, end, self.one) {
            return false;
        }
        if !is_sized(self.set, end, self.other) {
            return false;
        }
        all_agree(self.set.set().names.as_slice(), self.one, self.other)
    }

    // Whether the property at a position starts in the first row of both traces, and hands over the same.
    fn pairs(&self, alloc: Global, at: u32) -> Result<bool, AllocError>
        requires one { IsTrace self.now.set.now self.now.one.now }
        requires other { IsTrace self.now.set.now self.now.other.now }
        requires position { IsPosition self.now.set.now at }
        requires window { window_of self.now.set.now at < length self.now.one.now }
        requires other_window { window_of self.now.set.now at < length self.now.other.now }
        ensures { IfOk result (λ b. b ≡ pairs (meaning_of self.now.set.now) self.now.set.now at self.now.one.now self.now.other.now) }
    {
        let first = opens(alloc, self.set, at, self.one)?;
        let second = opens(alloc, self.set, at, self.other)?;
        let hands = same_hands(alloc, self.set, at, self.one, self.other)?;
        Ok(first && second && hands)
    }

    // Whether it does so, and ends at n in both.
    fn pairs_to(&self, alloc: Global, at: u32, n: u8) -> Result<bool, AllocError>
        requires one { IsTrace self.now.set.now self.now.one.now }
        requires other { IsTrace self.now.set.now self.now.other.now }
        requires position { IsPosition self.now.set.now at }
        requires window { window_of self.now.set.now at < length self.now.one.now }
        requires other_window { window_of self.now.set.now at < length self.now.other.now }
        ensures { IfOk result (λ b. b ≡ pairs_to
            (meaning_of self.now.set.now) self.now.set.now at n self.now.one.now self.now.other.now) }
    {
        let pairs = self.pairs(alloc, at)?;
        let first = end_of(alloc, self.set, at, self.one)?;
        let second = end_of(alloc, self.set, at, self.other)?;
        Ok(pairs && is_number(first, n) && is_number(second, n))
    }

    fn end_apart(&self, alloc: Global, at: u32) -> Result<bool, AllocError>
        requires one { IsTrace self.now.set.now self.now.one.now }
        requires other { IsTrace self.now.set.now self.now.other.now }
        requires position { IsPosition self.now.set.now at }
        requires window { window_of self.now.set.now at < length self.now.one.now }
        requires other_window { window_of self.now.set.now at < length self.now.other.now }
        ensures { IfOk result (λ b. b ≡ ends_apart
            (meaning_of self.now.set.now) self.now.set.now at self.now.one.now self.now.other.now) }
    {
        let pairs = self.pairs(alloc, at)?;
        let first = end_of(alloc, self.set, at, self.one)?;
        let second = end_of(alloc, self.set, at, self.other)?;
        Ok(pairs && !is_same(first, second))
    }

    // Whether a successor of the property at a position, which starts and ends at n, isn't assumed there in the second
    // trace alone.
    fn is_chosen_once(&self, alloc: Global, at: u32, next: u32, n: u8) -> Result<bool, AllocError>
        requires one { IsTrace self.now.set.now self.now.one.now }
        requires other { IsTrace self.now.set.now self.now.other.now }
        requires position { IsPosition self.now.set.now at }
        requires next { IsPosition self.now.set.now next }
        requires size { length self.now.one.now ≡ max (window_of self.now.set.now at)
            (n + window_of self.now.set.now next) + 1 }
        requires other_size { length self.now.other.now ≡ max (window_of self.now.set.now at)
            (n + window_of self.now.set.now next) + 1 }
        ensures { IfOk result (λ b. b ≡ violates_choose
            (meaning_of self.now.set.now) self.now.set.now at next n self.now.one.now self.now.other.now) }
    {
        let pairs = self.pairs_to(alloc, at, n)?;
        let chosen = is_assumed(alloc, self.set, next, rows_from(self.one, usize::from(n)))?;
        let also = is_assumed(alloc, self.set, next, rows_from(self.other, usize::from(n)))?;
        Ok(pairs && chosen && !also)
    }

    // Whether both traces go on with a successor that doesn't hand over the same.
    fn hands_apart(&self, alloc: Global, at: u32, next: u32, n: u8) -> Result<bool, AllocError>
        requires one { IsTrace self.now.set.now self.now.one.now }
        requires other { IsTrace self.now.set.now self.now.other.now }
        requires position { IsPosition self.now.set.now at }
        requires next { IsPosition self.now.set.now next }
        requires size { length self.now.one.now ≡ max (window_of self.now.set.now at)
            (n + window_of self.now.set.now next) + 1 }
        requires other_size { length self.now.other.now ≡ max (window_of self.now.set.now at)
            (n + window_of self.now.set.now next) + 1 }
        ensures { IfOk result (λ b. b ≡ violates_hand
            (meaning_of self.now.set.now) self.now.set.now at next n self.now.one.now self.now.other.now) }
    {
        let pairs = self.pairs_to(alloc, at, n)?;
        let one = rows_from(self.one, usize::from(n));
        let other = rows_from(self.other, usize::from(n));
        let first = starts(alloc, self.set, next, one)?;
        let second = starts(alloc, self.set, next, other)?;
        let same = same_hands(alloc, self.set, next, one, other)?;
        Ok(pairs && first && second && !same)
    }

    // `same-end P`.
    fn violates_same_end(&self, alloc: Global, at: u32) -> Result<bool, AllocError>
        requires { IsPosition self.now.set.now at }
        ensures { IfOk result (λ b. IsTrue b ↔ ViolatesSameEnd
            (meaning_of self.now.set.now) self.now.set.now at self.now.one.now self.now.other.now) }
    {
        let end = window(self.set, at);
        if !self.are_sized(end) {
            return Ok(false);
        }
        self.end_apart(alloc, at)
    }

    // `choose P Q`, where P ends at n.
    fn violates_choose(&self, alloc: Global, at: u32, next: u32, n: u8) -> Result<bool, AllocError>
        requires position { IsPosition self.now.set.now at }
        requires next { IsPosition self.now.set.now next }
        ensures { IfOk result (λ b. IsTrue b ↔ ViolatesChoose
            (meaning_of self.now.set.now) self.now.set.now at next n self.now.one.now self.now.other.now) }
    {
        let end = edge(self.set, at, next, n);
        if !self.are_sized(end) {
            return Ok(false);
        }
        self.is_chosen_once(alloc, at, next, n)
    }

    // `hand P Q`, where P ends at n.
    fn violates_hand(&self, alloc: Global, at: u32, next: u32, n: u8) -> Result<bool, AllocError>
        requires position { IsPosition self.now.set.now at }
        requires next { IsPosition self.now.set.now next }
        ensures { IfOk result (λ b. IsTrue b ↔ ViolatesHand
            (meaning_of self.now.set.now) self.now.set.now at next n self.now.one.now self.now.other.now) }
    {
        let end = edge(self.set, at, next, n);
        if !self.are_sized(end) {
            return Ok(false);
        }
        self.hands_apart(alloc, at, next, n)
    }

    // Whether an output isn't determined in one of the rows from one up to another.
    fn any_apart(
        &self,
        alloc: Global,
        output: u32,
        from: usize,
        to: usize,
    ) -> Result<bool, AllocError>
        requires one { IsTrace self.now.set.now self.now.one.now }
        requires other { IsTrace self.now.set.now self.now.other.now }
        requires within { to ≤ length self.now.one.now }
        requires other_within { to ≤ length self.now.other.now }
        ensures { IfOk result (λ b. b ≡ any_from from (to - from)
            (λ at. not (determined (meaning_of self.now.set.now) self.now.set.now output (drop at self.now.one.now)
            (drop at self.now.other.now)))) }
    {
        for at in from..to {
            let first = rows_from(self.one, at);
            let second = rows_from(self.other, at);
            let determined = determined(alloc, self.set, output, first, second)?;
            if !determined {
                return Ok(true);
            }
        }
        Ok(false)
    }

    // Whether the property at a position, which ends at n, covers an output at an offset where it isn't determined.
    fn any_covered_apart(&self, alloc: Global, at: u32, n: u8) -> Result<bool, AllocError>
        requires one { IsTrace self.now.set.now self.now.one.now }
        requires other { IsTrace self.now.set.now self.now.other.now }
        requires position { IsPosition self.now.set.now at }
        requires window { window_of self.now.set.now at < length self.now.one.now }
        requires other_window { window_of self.now.set.now at < length self.now.other.now }
        requires end { n ≤ (property_at self.now.set.now at).length.high }
        ensures { IfOk result (λ b. b ≡ covers_apart
            (meaning_of self.now.set.now) self.now.set.now at n self.now.one.now self.now.other.now) }
    {
        let property = property_at(self.set, at);
        for cover in property.covers.as_slice() {
            let from = cover.from as usize;
            let end = cover_end(cover.to, n) as usize;
            let apart = self.any_apart(alloc, cover.output, from, end)?;
            if apart {
                return Ok(true);
            }
        }
        Ok(false)
    }

    // Whether it starts and ends at n in both traces, and covers such an output.
    fn ends_undetermined(&self, alloc: Global, at: u32, n: u8) -> Result<bool, AllocError>
        requires one { IsTrace self.now.set.now self.now.one.now }
        requires other { IsTrace self.now.set.now self.now.other.now }
        requires position { IsPosition self.now.set.now at }
        requires window { window_of self.now.set.now at < length self.now.one.now }
        requires other_window { window_of self.now.set.now at < length self.now.other.now }
        requires end { n ≤ (property_at self.now.set.now at).length.high }
        ensures { IfOk result (λ b. b ≡ violates_determine
            (meaning_of self.now.set.now) self.now.set.now at n self.now.one.now self.now.other.now) }
    {
        let pairs = self.pairs_to(alloc, at, n)?;
        let apart = self.any_covered_apart(alloc, at, n)?;
        Ok(pairs && apart)
    }

    // `determine P`, where P ends at n.
    fn violates_determine(&self, alloc: Global, at: u32, n: u8) -> Result<bool, AllocError>
        requires { IsPosition self.now.set.now at }
        ensures { IfOk result (λ b. IsTrue b ↔ Undetermines
            (meaning_of self.now.set.now) self.now.set.now at n self.now.one.now self.now.other.now) }
    {
        let property = property_at(self.set, at);
        if n > property.length.high {
            return Ok(false);
        }
        let end = window(self.set, at);
        if !self.are_sized(end) {
            return Ok(false);
        }
        self.ends_undetermined(alloc, at, n)
    }

    // Whether they violate a line whose properties are there.
    fn violate_known(&self, alloc: Global, line: SetLine, n: u8) -> Result<bool, AllocError>
        requires { NamesProperties self.now.set.now (line_of line) }
        ensures { IfOk result (λ b. IsTrue b ↔ AreViolating (meaning_of self.now.set.now) self.now.set.now
            (line_of line) n self.now.one.now self.now.other.now) }
    {
        match line {
            SetLine::End(at) => violates_end(alloc, self.set, at, self.one),
            SetLine::Split(at) => violates_split(alloc, self.set, at, n, self.one),
            SetLine::SameEnd(at) => self.violates_same_end(alloc, at),
            SetLine::Choose(at, next) => self.violates_choose(alloc, at, next, n),
            SetLine::Hand(at, next) => self.violates_hand(alloc, at, next, n),
            SetLine::Determine(at) => self.violates_determine(alloc, at, n),
        }
    }

    /// Whether the windows violate a line of the set; where the line speaks of an end of its property, that is n cycles
    /// after its start. No windows violate a line that names a property which isn't there; a line on one window reads
    /// the first.
    pub fn violate(&self, alloc: Global, line: SetLine, n: u8) -> Result<bool, AllocError>
        ensures { IfOk result (λ b. IsTrue b ↔
            (NamesProperties self.now.set.now (line_of line) ×
            AreViolating (meaning_of self.now.set.now) self.now.set.now
            (line_of line) n self.now.one.now self.now.other.now)) }
    {
        if !names_properties(self.set, line) {
            return Ok(false);
        }
        self.violate_known(alloc, line, n)
    }
}
