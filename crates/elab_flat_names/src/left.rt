// The numbers and the names of left sides (IEEE 1364-2005, section 9.2).

ghost use Rattle.std.specs.Prelude.{◌≡◌, ◌++◌, OnOk, map};
ghost use Rattle.std.specs.List.{flat_map};
ghost use Rattle.vlog_tree_runs.specs.Blocks.{left_names};
ghost use Rattle.elab_flat_faults.specs.Texts.{numbers_in};
ghost use Rattle.elab_flat_scopes.specs.Borrowed.{name_meant};
ghost use Rattle.elab_flat_drivers.specs.Parts.{part_meant};
ghost use Rattle.elab_flat_names.specs.Exprs.{expr_meant};

use elab_flat_drivers::{Part, name_of, parts_of};
use outside::Text;
use std::alloc::{AllocError, Global};
use vlog_tree::{Expr, Lval};

fn add_part_numbers<'a>(all: &mut Vec<&'a Expr>, part: Part<'a>) -> Result<(), AllocError>
    ensures { OnOk result (map expr_meant all.new.items ≡ map expr_meant all.old.items ++ numbers_in
        (part_meant part.entry)) }
{
    match part {
        Part::Whole(_) => Ok(()),
        Part::Bit(_, index) => {
            all.push(index)?;
            Ok(())
        }
        Part::Bits(_, _, a, b) => {
            all.push(a)?;
            all.push(b)?;
            Ok(())
        }
    }
}

/// Adds the numbers of a left side.
pub fn add_numbers<'a>(
    all: &mut Vec<&'a Expr>,
    alloc: Global,
    left: &'a Lval,
) -> Result<(), AllocError>
    ensures { OnOk result (map expr_meant all.new.items ≡ map expr_meant all.old.items ++ numbers_in left.now) }
{
    let parts = parts_of(alloc, left)?;
    for part in &parts {
        add_part_numbers(all, *part)?;
    }
    Ok(())
}

/// Adds the names of the signals that a left side assigns.
pub fn add_left_names<'a>(
    all: &mut Vec<&'a Text>,
    alloc: Global,
    left: &'a Lval,
) -> Result<(), AllocError>
    ensures { OnOk result (map name_meant all.new.items ≡ map name_meant all.old.items ++ left_names left.now) }
{
    let parts = parts_of(alloc, left)?;
    for part in &parts {
        all.push(name_of(*part))?;
    }
    Ok(())
}
