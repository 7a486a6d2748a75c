// Where the names of a set are declared and used.
ghost use Rattle.std.specs.Prelude.{◌≡◌, count_by, slice_get};
ghost use Rattle.std.specs.Option.{option_copied, option_map, option_and_then};
ghost use Rattle.signoff_places.specs.Tokens.{byte_of, word_at, first_where, is_word};
ghost use Rattle.signoff_places.specs.Sets.{
  block_of,
  declares,
  width_of_item,
  property_in,
  clause_behind,
  clause_before,
  covers,
  again_in,
  next_again,
  begins_above,
  window_of,
};

use crate::modules::Pick;
use crate::tokens::{
    around, behind, behind_word, byte_at, first, number_at, spells, stands, up_to, width_at,
    word_at, word_of,
};
use vlog_read_lex::is;
use vlog_tree::Token;

/// The name of the set's block.
pub fn block_of(set: &[Token]) -> &[u8]
    ensures { result.now ≡ block_of set.now }
{
    match first(set, b"block") {
        Some(here) => word_at(here, 1),
        None => b"",
    }
}

/// Whether a word begins a declaration.
pub fn declares(word: &[u8]) -> bool
    ensures { result ≡ declares word.now }
{
    is(word, b"input") || is(word, b"output") || is(word, b"state")
}

/// A declaration of a set: its item, and its name's place.
#[derive(Clone, Copy)]
pub struct DeclaredInSet<'a> {
    pub item: &'a [Token],
    pub named: &'a [Token],
}

impl<'a> DeclaredInSet<'a> {
    /// `input`, `output` or `state`.
    pub fn role(&self) -> &'a [u8]
        ensures { result.now ≡ word_at self.now.item.now 0 }
    {
        word_at(self.item, 0)
    }

    /// The declared width, where it is well formed.
    pub fn width(&self) -> Option<u64>
        ensures { result ≡ width_of_item self.now.item.now }
    {
        let range = if stands(self.item, 1, b"signed") {
            behind(self.item, 2)
        } else {
            behind(self.item, 1)
        };
        width_at(range)
    }
}

// Where the name of a declaration stands: behind its words and its range.
fn name_of(item: &[Token]) -> &[Token] {
    let rest = if stands(item, 1, b"signed") && !stands(item, 2, b";") {
        behind(item, 2)
    } else {
        behind(item, 1)
    };
    if stands(rest, 0, b"[") {
        behind(rest, 5)
    } else {
        rest
    }
}

/// The first or the last declaration of a name.
pub fn declared_in_set<'a>(set: &'a [Token], name: &[u8], pick: Pick) -> Option<DeclaredInSet<'a>> {
    let mut found = None;
    for at in 0..set.len() {
        let item = &set[at..];
        if declares(word_at(item, 0)) {
            let named = name_of(item);
            if spells(named, name) {
                found = Some(DeclaredInSet { item, named });
                if pick == Pick::First {
                    return found;
                }
            }
        }
    }
    found
}

/// Where a name stands first, and no longer one.
pub fn used_in_set<'a>(set: &'a [Token], name: &[u8]) -> Option<&'a [Token]> {
    let mut dotted = false;
    for at in 0..set.len() {
        let here = &set[at..];
        if !dotted && spells(here, name) {
            return Some(here);
        }
        dotted = stands(here, 0, b".");
    }
    None
}

/// A property by its name, from the name up to the next operation.
#[tactic(auto, using(crate::proofs::Copies::copied_or))]
pub fn property_in<'a>(set: &'a [Token], name: &[u8]) -> Option<&'a [Token]>
    ensures { option_copied result ≡ property_in set.now name.now }
{
    let place = behind_word(set, b"operation", name).or(behind_word(set, b"property", name))?;
    Some(up_to(place, b"operation"))
}

// Whether a cover of an output stands at a place.
fn covers(here: &[Token], output: &[u8]) -> bool
    ensures { result ≡ covers output.now here.now }
{
    stands(here, 0, b"cover") && spells(behind(here, 1), output)
}

/// The place of the cover of an output in a property.
pub fn cover_in<'a>(property: &'a [Token], output: &[u8]) -> Option<&'a [Token]>
    ensures { option_copied result ≡ first_where (covers output.now) property.now }
{
    for at in 0..property.len() {
        let here = &property[at..];
        if covers(here, output) {
            return Some(here);
        }
    }
    None
}

/// How many covers of an output a property has.
pub fn count_of_covers(property: &[Token], output: &[u8]) -> usize {
    let mut rest = property;
    for count in 0..property.len() {
        match cover_in(rest, output) {
            Some(cover) => rest = behind(cover, 1),
            None => return count,
        }
    }
    property.len()
}

// The word of the clause that goes on behind a token.
fn clause_behind<'a>(clause: &'a [u8], token: &'a Token) -> &'a [u8]
    ensures { result.now ≡ clause_behind clause.now token.now }
{
    let word = word_of(token);
    if is(word, b"next") || is(word, b"cover") || is(word, b";") {
        word
    } else {
        clause
    }
}

/// The word of the clause that goes on at a place, where it names properties or outputs: `next` or `cover`.
pub fn clause_before<'a>(set: &'a [Token], byte: usize) -> &'a [u8]
    ensures { result.now ≡ clause_before set.now byte }
{
    let mut clause: &[u8] = b"";
    let (before, _) = around(set, byte);
    for token in before {
        clause = clause_behind(clause, token);
    }
    clause
}

// The second place of a name in the list of successors that begins at a place.
fn again_in<'a>(list: &'a [Token], name: &[u8]) -> Option<&'a [Token]>
    ensures { option_copied result ≡ again_in name.now list.now }
{
    if !stands(list, 0, b"next") {
        return None;
    }
    let once = first(up_to(list, b";"), name)?;
    first(behind(once, 1), name)
}

/// The second place of a name in one list of successors.
pub fn next_again<'a>(set: &'a [Token], name: &[u8]) -> Option<&'a [Token]>
    ensures { option_copied result ≡ next_again set.now name.now }
{
    for at in 0..set.len() {
        let again = again_in(&set[at..], name);
        if again.is_some() {
            return again;
        }
    }
    None
}

// Whether an offset above a bound stands at a place.
fn begins_above(here: &[Token], bound: u64) -> bool
    ensures { result ≡ begins_above bound here.now }
{
    match number_at(here, 1) {
        Some(offset) => stands(here, 0, b"@") && bound < offset,
        None => false,
    }
}

/// The first offset above a bound.
pub fn offset_above(tokens: &[Token], bound: u64) -> Option<usize>
    ensures { result ≡ option_and_then (λ here. option_map byte_of (slice_get here 0))
        (first_where (begins_above bound) tokens.now) }
{
    for at in 0..tokens.len() {
        let here = &tokens[at..];
        if begins_above(here, bound) {
            return byte_at(here);
        }
    }
    None
}

/// The window of a property: the number behind `window`, else its greatest length.
pub fn window_of(property: &[Token]) -> Option<u64>
    ensures { result ≡ window_of property.now }
{
    if let Some(window) = first(property, b"window") {
        return number_at(window, 1);
    }
    let length = first(property, b"length")?;
    number_at(length, 3).or(number_at(length, 1))
}

/// How many tokens of a list are this word or sign.
pub fn count_of(tokens: &[Token], word: &[u8]) -> usize
    ensures { result ≡ count_by (is_word word.now) tokens.now }
{
    tokens
        .iter()
        .filter(|token| is(word_of(token), word))
        .count()
}
