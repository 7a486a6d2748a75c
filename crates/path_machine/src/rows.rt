// The rows of a stimulus.
ghost use Rattle.std.specs.Prelude.{◌≡◌, ◌≢◌, ◌<◌, ◌≤◌, List, ℕ, IfOk, IfErr, length, map};
ghost use Rattle.std.specs.List.{All};
ghost use Rattle.set_tree.specs.declared.set.Name.{Name};
ghost use Rattle.vlog_tree.specs.Valuation.{IsLength};
ghost use Rattle.path_machine.specs.Rows.{IsBadRow, IsRead, SpellsRows, Stands, inputs_of, width_of};
ghost use Rattle.path_machine.specs.Runs.{IsInputRow};
ghost use Rattle.path_machine.specs.declared.rows.RowFault.TheVariants.{Memory};

use crate::line::first_row;
use set_tree::{Role, Rows, Set};
use std::alloc::{AllocError, Global};
use std::error::Error;
use std::fmt;
use unroll_binding::Bound;

/// Why a stimulus is refused.
#[derive(Debug, Drop, PartialEq, Eq)]
pub enum RowFault {
    /// It has more than 1,048,576 bytes.
    Long,
    /// The line of this number, counted from 1, isn't ended, or hasn't one value for each input that fits the input's
    /// length.
    Row(u64),
    /// It has fewer rows than a run has reset cycles.
    Short,
    /// There is no memory.
    Memory,
}

impl fmt::Display for RowFault {
    fn fmt<W: fmt::Write>(&self, f: &mut fmt::Formatter<W>) -> fmt::Result {
        match self {
            RowFault::Long => write!(f, "the stimulus has more than 1,048,576 bytes"),
            RowFault::Row(line) => write!(f, "line {line} isn't a row of values of the inputs"),
            RowFault::Short => write!(f, "the stimulus has fewer rows than there are reset cycles"),
            RowFault::Memory => write!(f, "out of memory"),
        }
    }
}

impl Error for RowFault {}

impl From<AllocError> for RowFault {
    ghost from_gives = { λ _ fault. fault ≡ Memory };

    fn from(_error: AllocError) -> RowFault {
        RowFault::Memory
    }
}

// The lengths of the inputs, in declared order.
fn widths_of(alloc: Global, set: &Set) -> Result<Vec<u8>, AllocError>
    ensures { IfOk result (λ widths. widths.items ≡ map width_of (inputs_of set.now)) }
{
    let mut widths = Vec::new(alloc);
    for name in set.names.as_slice() {
        if name.role == Role::Input {
            widths.push(name.width)?;
        }
    }
    Ok(widths)
}

/// The rows that the lines of a text spell, for inputs of these lengths.
pub(crate) fn rows_of(
    alloc: Global,
    widths: &[u8],
    text: &[u8],
) -> Result<Rows<Rows<u64>>, RowFault>
    requires { All IsLength widths.now }
    ensures ok { IfOk result (λ rows. (inputs : List Name) → widths.now ≡ map width_of inputs →
        SpellsRows inputs text.now rows) }
    ensures err { IfErr result (λ fault. (inputs : List Name) → widths.now ≡ map width_of inputs →
        IsBadRow inputs text.now fault) }
{
    let mut rows = Rows::new(alloc);
    let mut rest = text;
    while !rest.is_empty() {
        match first_row(alloc, widths, rest)? {
            Some(first) => {
                rows.push(first.row)?;
                rest = first.rest;
            }
            None => return Err(RowFault::Row(rows.as_slice().len() as u64 + 1)),
        }
    }
    Ok(rows)
}

/// The rows of a text of at most 1,048,576 bytes, one a line: the values of the set's inputs in declared order, in
/// decimal, with single spaces between them, each line ended by a line feed. The first rows are those of the reset
/// cycles. Of what stands against a text the first is answered: `Long`, then `Row`, then `Short`. `Memory` can come at
/// any of them.
pub fn read_rows(alloc: Global, bytes: &[u8], bound: &Bound) -> Result<Rows<Rows<u64>>, RowFault>
    ensures ok { IfOk result (IsRead bound.now.set bytes.now) }
    ensures fit { IfOk result (λ rows. All (IsInputRow bound.now.set) rows) }
    ensures err { IfErr result (Stands bound.now.set bytes.now) }
{
    if bytes.len() > 1_048_576 {
        return Err(RowFault::Long);
    }
    let set = bound.set().set();
    let widths = widths_of(alloc, set)?;
    let rows = rows_of(alloc, &widths, bytes)?;
    if rows.as_slice().len() < usize::from(set.cycles) {
        return Err(RowFault::Short);
    }
    Ok(rows)
}
