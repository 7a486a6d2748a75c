// The parameters of a module (IEEE 1364-2005, sections 4.10 and 12.2).

ghost use Rattle.std.specs.Prelude.{◌≡◌, ◌++◌, ◌∷◌, List, IfOk, OnOk, false, map};
ghost use Rattle.std.specs.List.{flat_map};
ghost use Rattle.vlog_tree.specs.declared.module.HeaderParameter.{HeaderParameter};
ghost use Rattle.vlog_tree_runs.specs.Contents.{bare, param, header_params, listed_params, item_params, params_in, has_list, is_open};
ghost use Rattle.elab_flat_scopes.specs.Borrowed.{shape_meant, param_meant};

use outside::Text;
use sqlite_items::Items;
use std::alloc::{AllocError, Global};
use vlog_tree::{Expr, HeaderParameter, Item, Module, Parameter, Shape};

/// A parameter of a module.
#[derive(Clone, Copy)]
pub struct Param<'a> {
    pub name: &'a Text,
    /// None: neither a sign nor a range.
    pub shape: Option<&'a Shape>,
    pub value: &'a Expr,
    /// It stands in the list of the header.
    pub in_header: bool,
    pub is_local: bool,
}

// A parameter of a header's list, `shape` being that of the group before it.
fn header_param<'a>(shape: Option<&'a Shape>, parameter: &'a HeaderParameter) -> Param<'a>
    ensures { (rest : List HeaderParameter) →
        param_meant result ∷ header_params (shape_meant result.shape) rest ≡ header_params (shape_meant shape.entry) (parameter.now ∷ rest) }
{
    match parameter {
        HeaderParameter::Group(group, parameter) => Param {
            name: &parameter.name,
            shape: Some(group),
            value: &parameter.value,
            in_header: true,
            is_local: false,
        },
        HeaderParameter::Again(parameter) => Param {
            name: &parameter.name,
            shape,
            value: &parameter.value,
            in_header: true,
            is_local: false,
        },
    }
}

fn header_list<'a>(alloc: Global, list: &'a [HeaderParameter]) -> Result<Vec<Param<'a>>, AllocError>
    ensures { IfOk result (λ r. map param_meant r.items ≡ header_params bare list.now) }
{
    let mut all = Vec::new(alloc);
    let mut shape = None;
    for parameter in list {
        let next = header_param(shape, parameter);
        shape = next.shape;
        all.push(next)?;
    }
    Ok(all)
}

fn listed<'a>(
    alloc: Global,
    list: &'a Option<Items<HeaderParameter>>,
) -> Result<Vec<Param<'a>>, AllocError>
    ensures { IfOk result (λ r. map param_meant r.items ≡ listed_params list.now) }
{
    match list {
        Some(list) => header_list(alloc, list.as_slice()),
        None => Ok(Vec::new(alloc)),
    }
}

fn add_params<'a>(
    all: &mut Vec<Param<'a>>,
    is_local: bool,
    shape: &'a Shape,
    params: &'a [Parameter],
) -> Result<(), AllocError>
    ensures { OnOk result (map param_meant all.new.items ≡ map param_meant all.old.items ++ map
        (param false is_local shape.now) params.now) }
{
    for param in params {
        all.push(Param {
            name: &param.name,
            shape: Some(shape),
            value: &param.value,
            in_header: false,
            is_local,
        })?;
    }
    Ok(())
}

fn add_item_params<'a>(all: &mut Vec<Param<'a>>, item: &'a Item) -> Result<(), AllocError>
    ensures { OnOk result (map param_meant all.new.items ≡ map param_meant all.old.items ++ item_params item.now) }
{
    match item {
        Item::Parameters(shape, params) => add_params(all, false, shape, params.as_slice()),
        Item::LocalParameters(shape, params) => add_params(all, true, shape, params.as_slice()),
        _ => Ok(()),
    }
}

/// The parameters of a module, in the order of its text.
pub fn params_in(alloc: Global, text: &Module) -> Result<Vec<Param<'_>>, AllocError>
    ensures { IfOk result (λ r. map param_meant r.items ≡ params_in text.now) }
{
    let mut all = listed(alloc, &text.parameters)?;
    for item in text.items.as_slice() {
        add_item_params(&mut all, item)?;
    }
    Ok(all)
}

/// Whether an instance may override a parameter of its module: with a list in the header those of the list alone, and
/// never a local one.
pub fn is_open(text: &Module, param: &Param<'_>) -> bool
    ensures { result ≡ is_open text.now (param_meant param.now) }
{
    if param.in_header {
        return true;
    }
    if param.is_local {
        return false;
    }
    match &text.parameters {
        Some(_) => false,
        None => true,
    }
}
