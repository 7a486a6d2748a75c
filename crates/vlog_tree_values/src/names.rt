// Numbers and names.

ghost use Rattle.std.specs.Prelude.{◌≡◌, ◌^◌, ◌<◌, ◌≤◌, IfSome, IfNone, Some, None, codes, decimal, ◌++◌, [], ◌∷◌};
ghost use Rattle.std.specs.Str.{bytes_eq};
ghost use Rattle.std.specs.Bool.{MatchBool};
ghost use Rattle.vlog_tree.specs.Valuation.{IsLength, meaning_of, meant, named, depth_of, word_name};
ghost use Rattle.vlog_tree.specs.Value.{number_width, Stands};

use vlog_tree::{Constant, Entry, Name, Number, Valuation};

/// A number's length, which may be none from 1 to 64.
pub fn number_width(number: &Number) -> u8
    ensures { result ≡ number_width number.now.size }
{
    match number.size {
        Some(size) => size,
        None => 32,
    }
}

/// Whether a length is from 1 to 64.
pub fn is_length(width: u8) -> bool
    ensures { MatchBool result (IsLength width) (IsLength width → ⊥) }
{
    1 <= width && width <= 64
}

fn meant(entry: &Entry) -> Constant
    ensures { result ≡ meant entry.now }
{
    Constant {
        width: entry.width,
        low: entry.low,
        signed: entry.signed,
        value: entry.value,
    }
}

/// What a name stands for, where it stands in the valuation.
pub fn standing(name: &Name, valuation: &Valuation) -> Option<Constant>
    ensures some { IfSome result (λ k. Stands valuation.now name.now × (k ≡ named valuation.now name.now)) }
    ensures fits { IfSome result (λ k. IsLength k.width × (k.value < 2 ^ k.width)) }
    ensures none { IfNone result (Stands valuation.now name.now → ⊥) }
{
    match valuation.find(name.text.bytes(), name.offset) {
        Some(entry) => Some(meant(entry)),
        None => None,
    }
}

/// The number of words of a memory, and 0 of any other name.
pub fn depth_of(name: &Name, valuation: &Valuation) -> u8
    ensures { result ≡ depth_of valuation.now name.now }
{
    match valuation.find(name.text.bytes(), name.offset) {
        Some(entry) => entry.depth,
        None => 0,
    }
}

// Whether bytes spell a number in decimal digits.
fn is_decimal(bytes: &[u8], number: u64) -> bool
    ensures { result ≡ bytes_eq bytes.now (decimal number) }
{
    let length = bytes.len();
    if length == 0 {
        return false;
    }
    let last = length - 1;
    if u64::from(bytes[last]) != 48 + number % 10 {
        return false;
    }
    if number < 10 {
        return last == 0;
    }
    is_decimal(&bytes[..last], number / 10)
}

fn is_same(a: &[u8], b: &[u8]) -> bool
    ensures { result ≡ bytes_eq a.now b.now }
{
    a == b
}

// Whether bytes are the name of a memory's word.
fn is_word_name(bytes: &[u8], name: &[u8], index: u64) -> bool
    ensures { result ≡ bytes_eq bytes.now (name.now ++ codes "$" ++ decimal index) }
{
    let split = name.len();
    if bytes.len() <= split {
        return false;
    }
    if !is_same(&bytes[..split], name) {
        return false;
    }
    if bytes[split] != b'$' {
        return false;
    }
    is_decimal(&bytes[split + 1..], index)
}

/// The value of a memory's word, and 0 where it doesn't stand in the valuation.
pub fn word_value(name: &Name, index: u64, valuation: &Valuation) -> u64
    ensures { result ≡ (named valuation.now (word_name name.now index)).value }
{
    for entry in valuation.entries() {
        if entry.offset == name.offset
            && is_word_name(entry.name.bytes(), name.text.bytes(), index)
        {
            return entry.value;
        }
    }
    0
}
