// Where the clock is read: in the expressions of a text outside its instances, and in those of connections that pass
// nothing on.

ghost use Rattle.std.specs.Prelude.{◌≡◌, ◌↔◌, IsTrue, Some, IfOk, IfErr, OnOk, length, map};
ghost use Rattle.std.specs.Option.{option_copied};
ghost use Rattle.vlog_tree_runs.specs.Places.{Among};
ghost use Rattle.elab_flat_faults.specs.FlatStands.{Refuses};
ghost use Rattle.elab_flat_faults.specs.Texts.{names_in};
ghost use Rattle.elab_flat_instances.specs.Unfolding.{scope_meant};
ghost use Rattle.elab_flat_names.specs.Searching.{Finds};
ghost use Rattle.elab_flat_scopes.specs.Borrowed.{name_meant};
ghost use Rattle.elab_flat_names.specs.Exprs.{expr_meant};
ghost use Rattle.elab_flat_clocks.specs.Tables.{input_at};
ghost use Rattle.elab_flat_clocks.specs.Clocking.{IsReadAmong, IsClockRead, NoneReads, SomeReads};
ghost use Rattle.elab_flat_clocks.specs.Passing.{exprs_meant};

use crate::Table;
use elab_flat_faults::FlatFault;
use elab_flat_instances::{Scope, full_name};
use elab_flat_names::{names_in, own_exprs_in};
use outside::Text;
use std::alloc::{AllocError, Global};
use vlog_tree::{Expr, Module};

// Whether the clock reaches a name.
fn is_clock(table: &Table<'_>, clock: &Text, name: &Text) -> bool
    ensures { IsTrue result ↔ (input_at table.now name.now ≡ Some clock.now) }
{
    match table.input(name.bytes()) {
        Some(input) => input.bytes() == clock.bytes(),
        None => false,
    }
}

// A name among some that the clock reaches.
fn clock_among<'a>(names: &[&'a Text], table: &Table<'_>, clock: &Text) -> Option<&'a Text>
    ensures { Finds (λ x. Among (map name_meant names.now) x ×
        (input_at table.now x ≡ Some clock.now)) (option_copied result) }
{
    for name in names {
        if is_clock(table, clock, name) {
            return Some(name);
        }
    }
    None
}

// A name in an expression that the clock reaches.
fn clock_in<'a>(
    alloc: Global,
    expr: &'a Expr,
    table: &Table<'_>,
    clock: &Text,
) -> Result<Option<&'a Text>, AllocError>
    ensures { IfOk result (λ r. Finds (λ x. Among (names_in expr.now) x ×
        (input_at table.now x ≡ Some clock.now)) (option_copied r)) }
{
    let names = names_in(alloc, expr)?;
    Ok(clock_among(&names, table, clock))
}

// A name by which one of some expressions reads the clock.
fn read_among<'a>(
    alloc: Global,
    exprs: &[&'a Expr],
    table: &Table<'_>,
    clock: &Text,
) -> Result<Option<&'a Text>, AllocError>
    ensures { IfOk result (λ r. Finds (IsReadAmong (map expr_meant exprs.now) table.now clock.now) (option_copied r)) }
{
    for expr in exprs {
        if let Some(name) = clock_in(alloc, expr, table, clock)? {
            return Ok(Some(name));
        }
    }
    Ok(None)
}

// A name by which a text reads the clock, or one of the expressions of its connections that pass nothing on.
fn clock_read<'a>(
    alloc: Global,
    text: &'a Module,
    kept: &[&'a Expr],
    table: &Table<'_>,
    clock: &Text,
) -> Result<Option<&'a Text>, AllocError>
    ensures { IfOk result (λ r. Finds (IsClockRead text.now (map expr_meant kept.now) table.now clock.now)
        (option_copied r)) }
{
    let own = own_exprs_in(alloc, text)?;
    if let Some(name) = read_among(alloc, &own, table, clock)? {
        return Ok(Some(name));
    }
    let found = read_among(alloc, kept, table, clock)?;
    Ok(found)
}

/// No scope reads the clock. A refusal has the name by which one does.
pub fn check_reads(
    alloc: Global,
    scopes: &[Scope<'_>],
    tables: &[Table<'_>],
    kept: &[Vec<&Expr>],
    clock: &Text,
) -> Result<(), FlatFault>
    requires tables { length tables.now ≡ length scopes.now }
    requires kept { length kept.now ≡ length scopes.now }
    ensures ok { OnOk result (NoneReads (map scope_meant scopes.now) tables.now (map exprs_meant kept.now) clock.now) }
    ensures err { IfErr result (Refuses (SomeReads (map scope_meant scopes.now) tables.now
        (map exprs_meant kept.now) clock.now)) }
{
    let mut at = 0;
    for scope in scopes {
        if let Some(name) = clock_read(alloc, scope.text, &kept[at], &tables[at], clock)? {
            let name = full_name(alloc, scope.prefix.bytes(), name.bytes())?;
            return Err(FlatFault::Clock(name));
        }
        at += 1;
    }
    Ok(())
}
