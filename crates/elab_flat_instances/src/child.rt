// One instance in another one.

ghost use Rattle.std.specs.Prelude.{◌≡◌, ◌++◌, ◌<◌, length, Some, IfOk, IfErr, slice_get};
ghost use Rattle.vlog_tree_runs.specs.Places.{Among};
ghost use Rattle.vlog_tree_runs.specs.Contents.{Param as Parameter, params_in, instances_in};
ghost use Rattle.elab_flat_faults.specs.FlatStands.{Refuses};
ghost use Rattle.elab_flat_scopes.specs.Borrowed.{inner_meant};
ghost use Rattle.elab_flat_instances.specs.Unfolding.{scope_meant, unfit_fault, range_fault, param_fault, StandsNear, IsChild};

use crate::recursion::inner_prefix;
use crate::scope::Scope;
use elab_flat_faults::FlatFault;
use elab_flat_params::{BadParam, BadRange, ParamFault, Unfit, params_of};
use elab_flat_scopes::{Inner, Modules, overriding, params_in};
use outside::Text;
use std::alloc::{AllocError, Global};
use vlog_tree::Module;

/// The fault of a constant, by its cause.
pub fn unfit_fault(name: Text, cause: Unfit) -> FlatFault
    ensures { result ≡ unfit_fault name cause }
{
    match cause {
        Unfit::Name => FlatFault::Constant(name),
        Unfit::Length => FlatFault::Width(name),
        Unfit::Divisor => FlatFault::Constant(name),
    }
}

/// The fault of a range, by its cause.
pub fn range_fault(name: Text, cause: BadRange) -> FlatFault
    ensures { result ≡ range_fault name cause }
{
    match cause {
        BadRange::High(cause) => unfit_fault(name, cause),
        BadRange::Low(cause) => unfit_fault(name, cause),
        BadRange::Order => FlatFault::Constant(name),
        BadRange::Long => FlatFault::Width(name),
    }
}

fn cause_fault(name: Text, cause: BadParam) -> FlatFault
    ensures { result ≡ param_fault name cause }
{
    match cause {
        BadParam::Range(cause) => range_fault(name, cause),
        BadParam::Value(cause) => unfit_fault(name, cause),
        BadParam::Given(cause) => unfit_fault(name, cause),
    }
}

/// The name of something in an instance.
pub fn full_name(alloc: Global, prefix: &[u8], name: &[u8]) -> Result<Text, AllocError>
    ensures { IfOk result (λ text. text ≡ prefix.now ++ name.now) }
{
    let mut full = Text::copy(alloc, prefix)?;
    full.append(name)?;
    Ok(full)
}

/// The fault of the parameter at a place that has no value.
pub fn param_fault(
    alloc: Global,
    text: &Module,
    prefix: &[u8],
    at: usize,
    cause: BadParam,
) -> Result<FlatFault, AllocError>
    requires { at < length (params_in text.now) }
    ensures { IfOk result (λ fault. (p : Parameter) → slice_get (params_in text.now) at ≡ Some p →
        fault ≡ param_fault (prefix.now ++ p.name) cause) }
{
    let params = params_in(alloc, text)?;
    let name = full_name(alloc, prefix, params[at].name.bytes())?;
    Ok(cause_fault(name, cause))
}

/// An instance in a scope. A refusal has a fault that stands at the scope or at the instance.
pub fn child_of<'a>(
    alloc: Global,
    modules: &Modules<'a>,
    outer: &Scope<'a>,
    inner: &Inner<'a>,
) -> Result<Scope<'a>, FlatFault>
    requires { Among (instances_in outer.now.text.now) (inner_meant inner.now) }
    ensures ok { IfOk result (λ t. IsChild modules.now (scope_meant outer.now) (inner_meant inner.now)
        (scope_meant t)) }
    ensures err { IfErr result (Refuses (StandsNear modules.now (scope_meant outer.now) (inner_meant inner.now))) }
{
    match modules.at(inner.of_module.bytes()) {
        Some(text) => {
            let prefix = inner_prefix(alloc, outer.prefix.bytes(), inner.name.bytes())?;
            let given = overriding(alloc, text, inner.overrides)?;
            match params_of(alloc, text, &given, &outer.params) {
                Ok(params) => Ok(Scope {
                    prefix,
                    text,
                    params,
                }),
                Err(ParamFault::Bad(at, cause)) => {
                    Err(param_fault(alloc, text, prefix.bytes(), at, cause)?)
                }
                Err(ParamFault::Memory) => Err(FlatFault::Memory),
            }
        }
        None => Err(FlatFault::Unknown(full_name(
            alloc,
            outer.prefix.bytes(),
            inner.name.bytes(),
        )?)),
    }
}
