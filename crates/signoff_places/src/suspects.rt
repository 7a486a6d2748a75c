// Expressions that a rule on an instance's text is likely to be broken by: the fault names the instance alone.
use crate::modules::{Pick, declared_in};
use crate::tokens::{Bits, behind, bits_at, byte_at, word_at, word_of};
use vlog_read_lex::is;
use vlog_tree::Token;

// Whether a name is that of a signal.
fn is_signal(body: &[Token], name: &[u8]) -> bool {
    match declared_in(body, name, Pick::First) {
        Some(declared) => !declared.is_parameter(),
        None => false,
    }
}

/// A division with a signal beside its sign.
pub fn divided_signal(body: &[Token]) -> Option<usize> {
    let mut previous: &[u8] = b"";
    for at in 0..body.len() {
        let here = &body[at..];
        let word = word_at(here, 0);
        if (is(word, b"/") || is(word, b"%"))
            && (is_signal(body, previous) || is_signal(body, word_at(here, 1)))
        {
            return byte_at(here);
        }
        previous = word;
    }
    None
}

// The declared range of a name, where it has plain numbers.
fn declared_bits(body: &[Token], name: &[u8]) -> Option<Bits> {
    bits_at(declared_in(body, name, Pick::First)?.range())
}

// How many tokens of a module are looked through for selects, each of which is looked up in the whole module.
const NEAR: usize = 20_000;

/// A select with plain numbers that leaves its vector, or whose bounds stand the wrong way round.
pub fn leaving_select(body: &[Token]) -> Option<usize> {
    for at in 0..body.len().min(NEAR) {
        let range = behind(body, at.saturating_add(1));
        if let Some(part) = bits_at(range) {
            if let Some(whole) = declared_bits(body, word_of(&body[at])) {
                if part.high < part.low || part.high > whole.high || part.low < whole.low {
                    return byte_at(range);
                }
            }
        }
    }
    None
}
