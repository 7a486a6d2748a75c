// Formulas in rows.

ghost use Rattle.std.specs.Prelude.{◌≡◌, ◌++◌, ◌≤◌, drop, length, IfOk, OnOk};
ghost use Rattle.std.specs.List.{All};
ghost use Rattle.vlog_tree.specs.Valuation.{IsLength, EntryFits};
ghost use Rattle.vlog_tree.specs.Value.{IsFormed, IsDefined, width_of, sign_of, own_value};
ghost use Rattle.set_tree.specs.Formulas.{entry_of, row_entries, entries_from, meaning_of};
ghost use Rattle.set_tree.specs.Meaning.{holds, all_hold};
ghost use Rattle.set_tree.specs.Traces.{IsRow, IsTrace};
ghost use Rattle.twin_tests.specs.Building.{IsReadable};

use outside::Text;
use set_tree::{Name, Rows};
use set_tree_structure::{Sound, largest};
use std::alloc::{AllocError, Global};
use vlog_tree::{Entry, Expr, Valuation};
use vlog_tree_values::evaluated;

// What a name stands for in a row.
fn entry(alloc: Global, name: &Name, offset: u32, value: u64) -> Result<Entry, AllocError>
    ensures { IfOk result (λ e. e ≡ entry_of name.now offset value) }
{
    Ok(Entry {
        name: Text::copy(alloc, name.name.bytes())?,
        offset,
        width: name.width,
        low: u64::from(name.low),
        signed: name.signed,
        depth: 0,
        value,
    })
}

// Adds what the names stand for in a row.
fn add_row(
    alloc: Global,
    entries: &mut Valuation,
    names: &[Name],
    offset: u32,
    row: &[u64],
) -> Result<(), AllocError>
    requires widths { All (λ n. IsLength n.width) names.now }
    requires row { IsRow names.now row.now }
    ensures { OnOk result (entries.new ≡ entries.old ++ row_entries names.now offset row.now) }
{
    for i in 0..names.len() {
        let entry = entry(alloc, &names[i], offset, row[i])?;
        entries.push(entry)?;
    }
    Ok(())
}

// What the names stand for in rows.
fn entries_of(alloc: Global, names: &[Name], rows: &[Rows<u64>]) -> Result<Valuation, AllocError>
    requires widths { All (λ n. IsLength n.width) names.now }
    requires rows { All (IsRow names.now) rows.now }
    requires few { length rows.now ≤ 4294967296 }
    ensures { IfOk result (λ v. v ≡ entries_from names.now 0 rows.now) }
{
    let mut entries = Valuation::new(alloc);
    for i in 0..rows.len() {
        add_row(alloc, &mut entries, names, i as u32, rows[i].as_slice())?;
    }
    Ok(entries)
}

/// The rows from one on.
pub fn rows_from(rows: &[Rows<u64>], at: usize) -> &[Rows<u64>]
    requires { at ≤ length rows.now }
    ensures { result.now ≡ drop at rows.now }
{
    &rows[at..]
}

// The value of an expression by itself, each count in it being taken once.
fn own_number(alloc: Global, expr: &Expr, entries: &Valuation) -> Result<u64, AllocError>
    requires formed { IsFormed entries.now expr.now }
    requires defined { IsDefined entries.now expr.now (width_of entries.now expr.now) (sign_of entries.now expr.now) }
    ensures { IfOk result (λ v. v ≡ own_value entries.now expr.now) }
{
    let Some((word, _)) = evaluated(alloc, expr, entries)? else {
        unreachable!()
    };
    Ok(word.value())
}

/// The value of a formula of a set in the first of some rows, the names being read in the rows of their offsets.
pub fn formula_value(
    alloc: Global,
    set: &Sound,
    formula: &Expr,
    rows: &[Rows<u64>],
) -> Result<u64, AllocError>
    requires trace { IsTrace set.now rows.now }
    requires readable { IsReadable set.now (length rows.now) formula.now }
    ensures { IfOk result (λ v. v ≡ (meaning_of set.now).value formula.now rows.now) }
{
    let last = largest(formula) as usize;
    let entries = entries_of(alloc, set.set().names.as_slice(), &rows[..last + 1])?;
    own_number(alloc, formula, &entries)
}

/// Whether a formula of a set holds in the first of some rows, which reach its largest offset.
pub fn holds(
    alloc: Global,
    set: &Sound,
    formula: &Expr,
    rows: &[Rows<u64>],
) -> Result<bool, AllocError>
    requires trace { IsTrace set.now rows.now }
    requires readable { IsReadable set.now (length rows.now) formula.now }
    ensures { IfOk result (λ b. b ≡ holds (meaning_of set.now) formula.now rows.now) }
{
    let value = formula_value(alloc, set, formula, rows)?;
    Ok(value != 0)
}

/// Whether each formula does.
pub fn all_hold(
    alloc: Global,
    set: &Sound,
    formulas: &[Expr],
    rows: &[Rows<u64>],
) -> Result<bool, AllocError>
    requires trace { IsTrace set.now rows.now }
    requires readable { All (IsReadable set.now (length rows.now)) formulas.now }
    ensures { IfOk result (λ b. b ≡ all_hold (meaning_of set.now) formulas.now rows.now) }
{
    for formula in formulas {
        let holds = holds(alloc, set, formula, rows)?;
        if !holds {
            return Ok(false);
        }
    }
    Ok(true)
}
