// The expressions of declarations, parameters and instances (IEEE 1364-2005, sections 4.2, 4.9, 4.10 and 12).

ghost use Rattle.std.specs.Prelude.{◌≡◌, ◌++◌, ◌∷◌, [], OnOk, map};
ghost use Rattle.std.specs.List.{flat_map};
ghost use Rattle.std.specs.Option.{option_copied};
ghost use Rattle.elab_flat_faults.specs.Texts.{range_exprs, decl_exprs, param_exprs, named_expr, args_in, inner_exprs};
ghost use Rattle.elab_flat_scopes.specs.Borrowed.{shape_meant, decl_meant, param_meant, inner_meant};
ghost use Rattle.elab_flat_names.specs.Exprs.{expr_meant};

use elab_flat_scopes::{Decl, Inner, Param};
use std::alloc::AllocError;
use vlog_tree::{Args, Connection, Expr, Range, Shape};

fn add_range<'a>(all: &mut Vec<&'a Expr>, range: Option<&'a Range>) -> Result<(), AllocError>
    ensures { OnOk result (map expr_meant all.new.items ≡ map expr_meant all.old.items ++ range_exprs
        (option_copied range.entry)) }
{
    match range {
        Some(range) => {
            all.push(&range.high)?;
            all.push(&range.low)?;
            Ok(())
        }
        None => Ok(()),
    }
}

fn range_of(shape: Option<&Shape>) -> Option<&Range>
    ensures { option_copied result ≡ (shape_meant shape.entry).range }
{
    match shape {
        Some(shape) => match &shape.range {
            Some(range) => Some(range),
            None => None,
        },
        None => None,
    }
}

/// Adds the bounds of a declaration's ranges.
pub fn add_decl<'a>(all: &mut Vec<&'a Expr>, decl: &Decl<'a>) -> Result<(), AllocError>
    ensures { OnOk result (map expr_meant all.new.items ≡ map expr_meant all.old.items ++ decl_exprs
        (decl_meant decl.now)) }
{
    add_range(all, range_of(decl.shape))?;
    add_range(all, decl.words)?;
    Ok(())
}

/// Adds the bounds of a parameter's range, and its value.
pub fn add_param<'a>(all: &mut Vec<&'a Expr>, param: &Param<'a>) -> Result<(), AllocError>
    ensures { OnOk result (map expr_meant all.new.items ≡ map expr_meant all.old.items ++ param_exprs
        (param_meant param.now)) }
{
    add_range(all, range_of(param.shape))?;
    all.push(param.value)?;
    Ok(())
}

fn add_exprs<'a>(all: &mut Vec<&'a Expr>, exprs: &'a [Expr]) -> Result<(), AllocError>
    ensures { OnOk result (map expr_meant all.new.items ≡ map expr_meant all.old.items ++ exprs.now) }
{
    for expr in exprs {
        all.push(expr)?;
    }
    Ok(())
}

fn add_named<'a>(all: &mut Vec<&'a Expr>, connections: &'a [Connection]) -> Result<(), AllocError>
    ensures { OnOk result (map expr_meant all.new.items ≡ map expr_meant all.old.items ++ flat_map named_expr connections.now) }
{
    for connection in connections {
        if let Some(value) = &connection.value {
            all.push(value)?;
        }
    }
    Ok(())
}

fn add_args<'a>(all: &mut Vec<&'a Expr>, args: &'a Option<Args>) -> Result<(), AllocError>
    ensures { OnOk result (map expr_meant all.new.items ≡ map expr_meant all.old.items ++ args_in args.now) }
{
    match args {
        Some(Args::Exprs(exprs)) => add_exprs(all, exprs.as_slice()),
        Some(Args::Named(connections)) => add_named(all, connections.as_slice()),
        None => Ok(()),
    }
}

/// Adds the overrides and the connections of an instance.
pub fn add_inner<'a>(all: &mut Vec<&'a Expr>, inner: &Inner<'a>) -> Result<(), AllocError>
    ensures { OnOk result (map expr_meant all.new.items ≡ map expr_meant all.old.items ++ inner_exprs
        (inner_meant inner.now)) }
{
    add_args(all, inner.overrides)?;
    add_args(all, inner.args)?;
    Ok(())
}
