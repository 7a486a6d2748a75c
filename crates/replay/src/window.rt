// The rows of windows.
ghost use Rattle.std.specs.Prelude.{◌≡◌, ℕ, ◌%◌, ◌^◌, map, IfOk};
ghost use Rattle.std.specs.List.{All};
ghost use Rattle.vlog_tree.specs.Valuation.{IsLength};
ghost use Rattle.word_dag.specs.Nodes.{Naming};
ghost use Rattle.twin_tests_laws.specs.Windows.{side_of, named_value, rows_from};
ghost use Rattle.replay.specs.Values.{AreOf};

use crate::values::{Values, value_at};
use set_tree::{Name, Role, Rows};
use std::alloc::{AllocError, Global};

// Inputs have side 0 in both windows.
fn side_of(role: Role, side: u8) -> u8
    ensures { result ≡ side_of role side }
{
    match role {
        Role::Input => 0,
        Role::Output | Role::State => side,
    }
}

/// The low bits of a value.
pub fn cut(value: u64, width: u8) -> u64
    requires { IsLength width }
    ensures { result ≡ value % 2 ^ width }
{
    if width == 64 {
        value
    } else {
        value % (1u64 << width)
    }
}

// The value of a name at a cycle of one side.
fn named_value(values: &Values<'_>, name: &Name, side: u8, cycle: u8) -> u64
    requires { IsLength name.now.width }
    ensures { (e : Naming) → AreOf e values.now → result ≡ named_value e side cycle name.now }
{
    let value = value_at(
        values,
        name.name.bytes(),
        side_of(name.role, side),
        i16::from(cycle),
    );
    cut(value, name.width)
}

// The values of the names at a cycle of one side.
fn row_of(
    alloc: Global,
    values: &Values<'_>,
    names: &[Name],
    side: u8,
    cycle: u8,
) -> Result<Rows<u64>, AllocError>
    requires { All (λ n. IsLength n.width) names.now }
    ensures { IfOk result (λ row. (e : Naming) → AreOf e values.now → row ≡ map (named_value e side cycle) names.now) }
{
    let mut row = Rows::new(alloc);
    for name in names {
        row.push(named_value(values, name, side, cycle))?;
    }
    Ok(row)
}

/// The first rows of one side, which values name.
pub fn rows_of(
    alloc: Global,
    values: &Values<'_>,
    names: &[Name],
    side: u8,
    count: u8,
) -> Result<Rows<Rows<u64>>, AllocError>
    requires { All (λ n. IsLength n.width) names.now }
    ensures { IfOk result (λ rows. (e : Naming) → AreOf e values.now → rows ≡ rows_from names.now e side 0 count) }
{
    let mut rows = Rows::new(alloc);
    for cycle in 0..count {
        let row = row_of(alloc, values, names, side, cycle)?;
        rows.push(row)?;
    }
    Ok(rows)
}
