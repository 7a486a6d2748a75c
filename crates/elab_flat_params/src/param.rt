// The parameters of an instance (IEEE 1364-2005, sections 4.10 and 12.2).

ghost use Rattle.std.specs.Prelude.{◌≡◌, ◌<◌, ◌^◌, IfOk, IfErr, map};
ghost use Rattle.std.specs.Option.{option_copied};
ghost use Rattle.vlog_tree.specs.Valuation.{IsLength, EntryFits, meant};
ghost use Rattle.vlog_tree_runs.specs.Contents.{is_open};
ghost use Rattle.vlog_tree_runs.specs.Scopes.{given_at};
ghost use Rattle.elab_flat_scopes.specs.Borrowed.{name_meant, param_meant, given_meant};
ghost use Rattle.elab_flat_params.specs.Values.{override_of};
ghost use Rattle.elab_flat_params.specs.Parameters.{HasParams, IsFault, given_name};

use crate::unfit::BadParam;
use crate::value::value_of;
use elab_flat_scopes::{Given, Names, Param, is_open, params_in};
use outside::Text;
use std::alloc::{AllocError, Global};
use vlog_tree::{Constant, Entry, Expr, Module, Valuation};

/// Why an instance's parameters have no values.
#[derive(Drop)]
pub enum ParamFault {
    /// The parameter with this place among those of the module has none, for this cause.
    Bad(usize, BadParam),
    /// Out of memory.
    Memory,
}

impl From<AllocError> for ParamFault {
    ghost use Rattle.std.specs.Prelude.{◌≡◌};
    ghost use Rattle.elab_flat_params.specs.declared.param.ParamFault.TheVariants.{Memory};

    ghost from_gives = { λ _ fault. fault ≡ Memory };

    fn from(_error: AllocError) -> ParamFault {
        ParamFault::Memory
    }
}

fn entry_of(alloc: Global, name: &Text, constant: Constant) -> Result<Entry, AllocError>
    ensures { IfOk result (λ e. e ≡ record {
      name = name.now;
      offset = 0;
      width = constant.width;
      low = constant.low;
      signed = constant.signed;
      depth = 0;
      value = constant.value;
    }) }
{
    Ok(Entry {
        name: Text::copy(alloc, name.bytes())?,
        offset: 0,
        width: constant.width,
        low: constant.low,
        signed: constant.signed,
        depth: 0,
        value: constant.value,
    })
}

fn names_of<'a>(alloc: Global, given: &[Given<'a>]) -> Result<Vec<&'a Text>, AllocError>
    ensures { IfOk result (λ names. map name_meant names.items ≡ map given_name (map given_meant given.now)) }
{
    let mut names = Vec::new(alloc);
    for gift in given {
        names.push(gift.name)?;
    }
    Ok(names)
}

// What a name is given.
fn given_at<'a>(names: &Names<'_>, given: &[Given<'a>], name: &Text) -> Option<&'a Expr>
    requires { names.now ≡ map given_name (map given_meant given.now) }
    ensures { option_copied result ≡ given_at (map given_meant given.now) name.now }
{
    match names.place(name.bytes()) {
        Some(place) => match given.get(place) {
            Some(gift) => Some(gift.value),
            None => None,
        },
        None => None,
    }
}

// What overrides a parameter, if it can be overridden.
fn override_of<'a>(text: &Module, param: &Param<'_>, given: Option<&'a Expr>) -> Option<&'a Expr>
    ensures { option_copied result ≡ override_of (is_open text.now (param_meant param.now))
        (option_copied given.entry) }
{
    if is_open(text, param) { given } else { None }
}

/// What the parameters of an instance of a module stand for, `given` its overrides, which are read over the outer
/// parameters. The parameters stand in the order of their declarations, each over those before it. A refusal names one
/// that has no value.
pub fn params_of(
    alloc: Global,
    text: &Module,
    given: &[Given<'_>],
    outer: &Valuation,
) -> Result<Valuation, ParamFault>
    ensures ok { IfOk result (HasParams text.now (map given_meant given.now) outer.now) }
    ensures err { IfErr result (IsFault text.now (map given_meant given.now) outer.now) }
{
    let params = params_in(alloc, text)?;
    let names = Names::of(alloc, names_of(alloc, given)?)?;
    let mut done = Valuation::new(alloc);
    let mut at = 0;
    for param in &params {
        let expr = override_of(text, param, given_at(&names, given, param.name));
        let value = value_of(alloc, param, expr, outer, &done)?;
        let constant = match value {
            Ok(constant) => constant,
            Err(cause) => return Err(ParamFault::Bad(at, cause)),
        };
        done.push(entry_of(alloc, param.name, constant)?)?;
        at += 1;
    }
    Ok(done)
}
