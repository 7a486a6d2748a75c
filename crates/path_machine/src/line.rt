// A line with the values of a set's inputs.
ghost use Rattle.std.specs.Prelude.{◌≡◌, ◌≢◌, ◌<◌, length, List, ℕ, IfOk, [], map};
ghost use Rattle.std.specs.List.{All};
ghost use Rattle.std.specs.Option.{IfSome, MatchOption};
ghost use Rattle.set_tree.specs.declared.set.Name.{Name};
ghost use Rattle.vlog_tree.specs.Valuation.{IsLength};
ghost use Rattle.path_machine.specs.Rows.{BeginsBadly, Begins, row_of, width_of};

use crate::words::{count_before, first_word, value_of, words_of};
use set_tree::Rows;
use std::alloc::{AllocError, Global};

// The row that a line spells, for inputs of these lengths.
fn row_of(alloc: Global, widths: &[u8], line: &[u8]) -> Result<Option<Rows<u64>>, AllocError>
    requires { All IsLength widths.now }
    ensures { IfOk result (λ row. (inputs : List Name) → widths.now ≡ map width_of inputs →
        row ≡ row_of inputs line.now) }
{
    let mut row = Rows::new(alloc);
    let mut left = words_of(line);
    for width in widths {
        let Some(words) = left else {
            return Ok(None);
        };
        let split = first_word(words);
        let Some(value) = value_of(*width, split.word) else {
            return Ok(None);
        };
        row.push(value)?;
        left = split.left;
    }
    if left.is_some() {
        return Ok(None);
    }
    Ok(Some(row))
}

/// A row, and the text behind its line.
#[derive(Drop)]
pub struct First<'a> {
    pub row: Rows<u64>,
    pub rest: &'a [u8],
}

/// The row that the first line of a text spells, where it is ended and spells one.
pub fn first_row<'a>(
    alloc: Global,
    widths: &[u8],
    text: &'a [u8],
) -> Result<Option<First<'a>>, AllocError>
    requires widths { All IsLength widths.now }
    requires some { text.now ≢ [] }
    ensures shorter { IfOk result (λ first. IfSome first (λ f. length f.rest.now < length text.now)) }
    ensures row { IfOk result (λ first. (inputs : List Name) → widths.now ≡ map width_of inputs →
        MatchOption first (BeginsBadly inputs text.now) (λ f. Begins inputs text.now f.row f.rest.now)) }
{
    let end = count_before(10, text);
    if end == text.len() {
        return Ok(None);
    }
    match row_of(alloc, widths, &text[..end])? {
        Some(row) => Ok(Some(First {
            row,
            rest: &text[end + 1..],
        })),
        None => Ok(None),
    }
}
