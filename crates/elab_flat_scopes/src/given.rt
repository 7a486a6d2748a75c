// Names that are given expressions: overrides of parameters, and connections of ports (IEEE 1364-2005, sections 12.2
// and 12.3).

ghost use Rattle.std.specs.Prelude.{◌≡◌, ◌++◌, IfOk, OnOk, map, filter};
ghost use Rattle.std.specs.List.{flat_map};
ghost use Rattle.vlog_tree_runs.specs.Contents.{is_open, params_in};
ghost use Rattle.vlog_tree_runs.specs.Scopes.{named_given, by_order, given_to, overriding};
ghost use Rattle.elab_flat_scopes.specs.Borrowed.{name_meant, param_meant, given_meant, param_name};

use crate::param::{Param, is_open, params_in};
use outside::Text;
use std::alloc::{AllocError, Global};
use vlog_tree::{Args, Connection, Expr, Module};

/// A name that is given an expression.
#[derive(Clone, Copy)]
pub struct Given<'a> {
    pub name: &'a Text,
    pub value: &'a Expr,
}

fn by_order<'a>(
    alloc: Global,
    names: &[&'a Text],
    exprs: &'a [Expr],
) -> Result<Vec<Given<'a>>, AllocError>
    ensures { IfOk result (λ r. map given_meant r.items ≡ by_order (map name_meant names.now) exprs.now) }
{
    let mut all = Vec::new(alloc);
    let mut at = 0;
    for value in exprs {
        if names.len() <= at {
            return Ok(all);
        }
        all.push(Given {
            name: names[at],
            value,
        })?;
        at += 1;
    }
    Ok(all)
}

fn by_name<'a>(alloc: Global, connections: &'a [Connection]) -> Result<Vec<Given<'a>>, AllocError>
    ensures { IfOk result (λ r. map given_meant r.items ≡ flat_map named_given connections.now) }
{
    let mut all = Vec::new(alloc);
    for connection in connections {
        if let Some(value) = &connection.value {
            all.push(Given {
                name: &connection.port,
                value,
            })?;
        }
    }
    Ok(all)
}

/// What names in this order are given, by their positions or by their names.
pub fn given_to<'a>(
    alloc: Global,
    names: &[&'a Text],
    args: &'a Option<Args>,
) -> Result<Vec<Given<'a>>, AllocError>
    ensures { IfOk result (λ r. map given_meant r.items ≡ given_to (map name_meant names.now) args.now) }
{
    match args {
        Some(Args::Exprs(exprs)) => by_order(alloc, names, exprs.as_slice()),
        Some(Args::Named(connections)) => by_name(alloc, connections.as_slice()),
        None => Ok(Vec::new(alloc)),
    }
}

fn open_names<'a>(
    alloc: Global,
    text: &Module,
    params: &[Param<'a>],
) -> Result<Vec<&'a Text>, AllocError>
    ensures { IfOk result (λ r. map name_meant r.items ≡ map param_name
        (filter (is_open text.now) (map param_meant params.now))) }
{
    let mut all = Vec::new(alloc);
    for param in params {
        if is_open(text, param) {
            all.push(param.name)?;
        }
    }
    Ok(all)
}

/// An instance's overrides, by the names of the parameters of its module that can be overridden.
pub fn overriding<'a>(
    alloc: Global,
    text: &'a Module,
    args: &'a Option<Args>,
) -> Result<Vec<Given<'a>>, AllocError>
    ensures { IfOk result (λ r. map given_meant r.items ≡ overriding text.now args.now) }
{
    let params = params_in(alloc, text)?;
    let names = open_names(alloc, text, &params)?;
    given_to(alloc, &names, args)
}
