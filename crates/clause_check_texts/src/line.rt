// What a line of LRAT says.
ghost use Rattle.std.specs.Prelude.{◌≡◌, List, ℕ, IfOk, not, option_map};
ghost use Rattle.std.specs.List.{list_all, position_or_len};
ghost use Rattle.clause_check_texts.specs.Words.{is_size, words};
ghost use Rattle.clause_check_texts.specs.Lines.{addition_of, are_ended, content, content_of, deletion_of, is_comment, is_delete, is_zero, numbers_of, rest_of};

use crate::words::{Number, first_word, number_of, size_of};
use std::alloc::{AllocError, Global};

/// What a line says.
#[derive(Debug, Drop)]
pub enum Entry {
    /// Nothing that matters: it is empty, a comment or a deletion.
    Nothing,
    /// It adds a step.
    Addition(Addition),
}

/// A step, as its line has it.
#[derive(Debug, Drop)]
pub struct Addition {
    pub id: u64,
    pub lits: Vec<Number>,
    pub hints: Vec<Number>,
}

fn is_zero(number: Number) -> bool
    ensures { result ≡ is_zero number }
{
    number.size == 0
}

// How many numbers stand before the first 0.
fn count_before_zero(numbers: &[Number]) -> usize
    ensures { result ≡ position_or_len is_zero numbers.now }
{
    for (i, number) in numbers.iter().enumerate() {
        if is_zero(*number) {
            return i;
        }
    }
    numbers.len()
}

// Whether the numbers end in the first 0 among them.
fn are_ended(numbers: &[Number]) -> bool
    ensures { result ≡ are_ended numbers.now }
{
    let count = count_before_zero(numbers);
    if count >= numbers.len() {
        return false;
    }
    count + 1 == numbers.len()
}

// The numbers that the words of a text are.
fn numbers_of(alloc: Global, text: &[u8]) -> Result<Option<Vec<Number>>, AllocError>
    ensures { IfOk result (λ read. option_map (λ v. v.items) read ≡ numbers_of (words text.now)) }
{
    let mut numbers = Vec::new(alloc);
    let mut rest = text;
    while let Some(first) = first_word(rest) {
        let Some(number) = number_of(first.word) else {
            return Ok(None);
        };
        numbers.push(number)?;
        rest = first.rest;
    }
    Ok(Some(numbers))
}

// Whether no number is negative.
fn are_positive(numbers: &[Number]) -> bool
    ensures { result ≡ list_all (λ n. not n.negative) numbers.now }
{
    numbers.iter().all(|n| !n.negative)
}

// The deletion whose IDs stand behind its `d`.
fn deletion_of(numbers: &[Number]) -> Option<Entry>
    ensures { option_map content result ≡ deletion_of numbers.now }
{
    if are_ended(numbers) && are_positive(numbers) {
        Some(Entry::Nothing)
    } else {
        None
    }
}

// The step with this ID whose literals and hints are these numbers.
fn addition_of(alloc: Global, id: u64, numbers: &[Number]) -> Result<Option<Entry>, AllocError>
    ensures { IfOk result (λ read. option_map content read ≡ addition_of id numbers.now) }
{
    let end = count_before_zero(numbers);
    if end >= numbers.len() {
        return Ok(None);
    }
    let more = &numbers[end + 1..];
    if !are_ended(more) {
        return Ok(None);
    }
    let lits = numbers[..end].to_vec(alloc)?;
    let hints = more[..count_before_zero(more)].to_vec(alloc)?;
    Ok(Some(Entry::Addition(Addition { id, lits, hints })))
}

fn is_delete(word: &[u8]) -> bool
    ensures { result ≡ is_delete word.now }
{
    match word {
        [only] => *only == b'd',
        _ => false,
    }
}

// What a line says whose first word is this ID.
fn rest_of(alloc: Global, id: u64, rest: &[u8]) -> Result<Option<Entry>, AllocError>
    ensures { IfOk result (λ read. option_map content read ≡ rest_of id (words rest.now)) }
{
    let Some(second) = first_word(rest) else {
        return Ok(None);
    };
    if is_delete(second.word) {
        let Some(numbers) = numbers_of(alloc, second.rest)? else {
            return Ok(None);
        };
        return Ok(deletion_of(numbers.as_slice()));
    }
    let Some(numbers) = numbers_of(alloc, rest)? else {
        return Ok(None);
    };
    addition_of(alloc, id, numbers.as_slice())
}

fn is_comment(line: &[u8]) -> bool
    ensures { result ≡ is_comment line.now }
{
    match line {
        [first, ..] => *first == b'c',
        [] => false,
    }
}

/// What a line says; none where it is no line of LRAT.
pub fn content_of(alloc: Global, line: &[u8]) -> Result<Option<Entry>, AllocError>
    ensures { IfOk result (λ read. option_map content read ≡ content_of line.now) }
{
    if is_comment(line) {
        return Ok(Some(Entry::Nothing));
    }
    let Some(first) = first_word(line) else {
        return Ok(Some(Entry::Nothing));
    };
    match size_of(first.word) {
        Some(id) => rest_of(alloc, id, first.rest),
        None => Ok(None),
    }
}
