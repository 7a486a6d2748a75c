// The options and the plain words among words.
ghost use Rattle.std.specs.Prelude.{◌≡◌, ◌<◌, ◌≤◌, drop, length, map, option_map, string_bytes, IfOk, IfSome};
ghost use Rattle.signoff_words.specs.Options.{AreBounded, has_hyphen, name_in, nothing, place_in, read, value_in, was_given, with_any, with_option, with_plain, with_word};
ghost use Rattle.signoff_words.specs.Seen.{seen};

use crate::choice::Choice;
use crate::options::Options;
use outside::Text;
use std::alloc::{AllocError, Global};

/// What the next word may be.
#[derive(Clone, Copy)]
pub enum Next {
    /// An option or a plain word.
    Any,
    /// The value of an option.
    ValueOf(Choice),
    /// A plain word, as all that follow it.
    Plain,
}

/// What was read of words: what options say and which ones were given, the plain words, and what the next word may be.
#[derive(Drop)]
pub struct Reading {
    pub options: Options,
    pub given: Vec<Choice>,
    pub plain: Vec<Text>,
    pub next: Next,
}

// Where the first `=` stands in a word.
fn place_in(word: &[u8]) -> Option<usize>
    ensures is { result ≡ place_in word.now }
    ensures within { IfSome result (λ at. at < length word.now) }
{
    word.iter().position(|byte| *byte == b'=')
}

fn behind(word: &[u8], at: usize) -> &[u8]
    requires { at ≤ length word.now }
    ensures { result.now ≡ drop at word.now }
{
    &word[at..]
}

// A word up to its first `=`, and what stands behind that.
fn parts_of(word: &[u8]) -> (&[u8], Option<&[u8]>)
    ensures name { result.0.now ≡ name_in word.now }
    ensures value { option_map (λ v. v.now) result.1 ≡ value_in word.now }
{
    match place_in(word) {
        Some(at) => (&word[..at], Some(behind(word, at + 1))),
        None => (word, None),
    }
}

fn was_given(given: &[Choice], choice: Choice) -> bool
    ensures { result ≡ was_given given.now choice }
{
    given.iter().any(|old| old.is(choice))
}

fn has_hyphen(word: &[u8]) -> bool
    ensures { result ≡ has_hyphen word.now }
{
    word.starts_with(b"-")
}

impl Reading {
    fn nothing(alloc: Global) -> Reading
        ensures { seen result ≡ nothing }
    {
        Reading {
            options: Options::defaults(),
            given: Vec::new(alloc),
            plain: Vec::new(alloc),
            next: Next::Any,
        }
    }

    // An option with its value; none where it was given before, or the word is none of its values.
    fn with_option(
        self,
        alloc: Global,
        choice: Choice,
        value: &[u8],
    ) -> Result<Option<Reading>, AllocError>
        requires { AreBounded self.options }
        ensures is { IfOk result (λ o. option_map seen o ≡ with_option choice value.now (seen self)) }
        ensures bounded { IfOk result (λ o. IfSome o (λ r. AreBounded r.options)) }
    {
        let Reading {
            options,
            mut given,
            plain,
            next: _,
        } = self;
        if was_given(&given, choice) {
            return Ok(None);
        }
        given.push(choice)?;
        match options.with_value(alloc, choice, value)? {
            Some(options) => Ok(Some(Reading {
                options,
                given,
                plain,
                next: Next::Any,
            })),
            None => Ok(None),
        }
    }

    fn with_plain(self, alloc: Global, word: &[u8]) -> Result<Reading, AllocError>
        ensures is { IfOk result (λ r. seen r ≡ with_plain word.now (seen self)) }
        ensures same { IfOk result (λ r. r.options ≡ self.options) }
    {
        let mut reading = self;
        reading.plain.push(Text::copy(alloc, word)?)?;
        Ok(reading)
    }

    // A word where any may stand that doesn't end the options; none where it is wrong.
    fn with_any(self, alloc: Global, word: &[u8]) -> Result<Option<Reading>, AllocError>
        requires { AreBounded self.options }
        ensures is { IfOk result (λ o. option_map seen o ≡ with_any word.now (seen self)) }
        ensures bounded { IfOk result (λ o. IfSome o (λ r. AreBounded r.options)) }
    {
        let (name, value) = parts_of(word);
        match (Choice::named(name), value) {
            (Some(choice), Some(value)) if choice.has_value() => self.with_option(
                alloc, choice, value,
            ),
            (Some(choice), None) if choice.has_value() => Ok(Some(Reading {
                next: Next::ValueOf(choice),
                ..self
            })),
            (Some(choice), None) => self.with_option(alloc, choice, b""),
            (Some(_), Some(_)) => Ok(None),
            (None, _) if has_hyphen(word) && word != b"-".as_slice() => Ok(None),
            (None, _) => Ok(Some(self.with_plain(alloc, word)?)),
        }
    }

    // One more word; none where it is wrong.
    fn with_word(self, alloc: Global, word: &[u8]) -> Result<Option<Reading>, AllocError>
        requires { AreBounded self.options }
        ensures is { IfOk result (λ o. option_map seen o ≡ with_word word.now (seen self)) }
        ensures bounded { IfOk result (λ o. IfSome o (λ r. AreBounded r.options)) }
    {
        match self.next {
            Next::Any if word == b"--".as_slice() => Ok(Some(Reading {
                next: Next::Plain,
                ..self
            })),
            Next::Any => self.with_any(alloc, word),
            Next::ValueOf(_) if has_hyphen(word) => Ok(None),
            Next::ValueOf(choice) => self.with_option(alloc, choice, word),
            Next::Plain => Ok(Some(self.with_plain(alloc, word)?)),
        }
    }
}

/// What words say. None: one is wrong, or the value of an option is wanting.
#[tactic(auto, using(crate::proofs::Steps::read_step))]
pub fn read(alloc: Global, words: &[String]) -> Result<Option<Reading>, AllocError>
    ensures is { IfOk result (λ o. option_map seen o ≡ read (map string_bytes words.now) nothing) }
    ensures bounded { IfOk result (λ o. IfSome o (λ r. AreBounded r.options)) }
{
    let mut reading = Reading::nothing(alloc);
    for word in words {
        reading = match reading.with_word(alloc, word.as_bytes())? {
            Some(reading) => reading,
            None => return Ok(None),
        };
    }
    match reading.next {
        Next::ValueOf(_) => Ok(None),
        Next::Any | Next::Plain => Ok(Some(reading)),
    }
}
