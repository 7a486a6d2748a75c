// Tokens of a module text or of a set text.

use outside::Text;

/// The number that a token spells, by IEEE 1364-2005 section 3.5.1.
#[derive(Clone, Copy, PartialEq, Eq)]
pub struct Number {
    /// The size in bits, from 1 to 64, where one is written; else it has 32 bits.
    pub size: Option<u8>,
    /// A decimal number without base is signed, a based one only with the letter `s`.
    pub signed: bool,
    /// The digits' value, cut to the size; a digit `?` or `z` counts 0.
    pub value: u64,
    /// The bits that its digits `?` and `z` stand for, cut to the size.
    pub wild: u64,
    /// It has a digit `?` or `z`, also where the cut leaves no bit of it.
    pub wildcard: bool,
    /// It is spelt by decimal digits alone.
    pub plain: bool,
}

/// What a token is.
#[derive(Drop)]
pub enum Kind {
    /// An identifier, a word of the grammar, or `$signed` or `$unsigned`.
    Word(Text),
    Number(Number),
    /// An operator or a punctuation mark.
    Sign(Text),
    /// In a set text alone: what the subset of the language leaves out by name.
    Outside,
}

/// A token and the bytes `at..end` that spell it.
#[derive(Drop)]
pub struct Token {
    pub at: usize,
    pub end: usize,
    pub kind: Kind,
}
