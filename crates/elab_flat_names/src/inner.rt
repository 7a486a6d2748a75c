// The overrides and the connections of an instance (IEEE 1364-2005, sections 12.2 and 12.3).

ghost use Rattle.std.specs.Prelude.{◌≡◌, ◌↔◌, ◌++◌, List, IsTrue, IfOk, IfErr, OnOk, Some, false, true, length, map};
ghost use Rattle.std.specs.Option.{option_copied};
ghost use Rattle.vlog_tree_runs.specs.Places.{Name, Among};
ghost use Rattle.vlog_tree_runs.specs.Contents.{port_names, instances_in, signals_in};
ghost use Rattle.elab_flat_faults.specs.Declaring.{Repeats, MissesPorts, Overshoots, open_params};
ghost use Rattle.elab_flat_faults.specs.Texts.{arg_names};
ghost use Rattle.elab_flat_faults.specs.FlatStands.{Refuses, inside};
ghost use Rattle.elab_flat_scopes.specs.Borrowed.{name_meant, inner_meant, given_meant};
ghost use Rattle.elab_flat_scopes.specs.Finding.{decl_name};
ghost use Rattle.elab_flat_instances.specs.Unfolding.{scope_meant, StandsIn};
ghost use Rattle.elab_flat_names.specs.Searching.{Finds, IsAbsent};
ghost use Rattle.elab_flat_names.specs.Rows.{connection_name, IsBadGiven, IsBadOutput, FitsInner, HasFitOverrides, HasFitConnections, HasFitOutputs, StandsInside};

use crate::assignable::is_assignable;
use crate::declared::open_names;
use crate::search::{absent, repeated};
use elab_flat_faults::FlatFault;
use elab_flat_instances::{Scope, full_name, inner_prefix};
use elab_flat_scopes::{Given, Inner, Modules, Names, Signals, given_to, port_names};
use outside::Text;
use std::alloc::{AllocError, Global};
use vlog_tree::{Args, Connection, Module};

fn connection_names<'a>(
    alloc: Global,
    connections: &'a [Connection],
) -> Result<Vec<&'a Text>, AllocError>
    ensures { IfOk result (λ r. map name_meant r.items ≡ map connection_name connections.now) }
{
    let mut all = Vec::new(alloc);
    for connection in connections {
        all.push(&connection.port)?;
    }
    Ok(all)
}

// The names that arguments give something to, where they go by names.
fn arg_names<'a>(alloc: Global, args: &'a Option<Args>) -> Result<Vec<&'a Text>, AllocError>
    ensures { IfOk result (λ r. map name_meant r.items ≡ arg_names args.now) }
{
    match args {
        Some(Args::Named(connections)) => connection_names(alloc, connections.as_slice()),
        Some(Args::Exprs(_)) => Ok(Vec::new(alloc)),
        None => Ok(Vec::new(alloc)),
    }
}

// Whether arguments by position are more than so many names.
fn overshoots(count: usize, args: &Option<Args>) -> bool
    ensures { (names : List Name) → length names ≡ count → (IsTrue result ↔ Overshoots names args.now) }
{
    match args {
        Some(Args::Exprs(exprs)) => count < exprs.as_slice().len(),
        Some(Args::Named(_)) => false,
        None => false,
    }
}

// Whether arguments by position are more or fewer than so many names.
fn misses(count: usize, args: &Option<Args>) -> bool
    ensures { (names : List Name) → length names ≡ count → (IsTrue result ↔ MissesPorts names args.now) }
{
    match args {
        Some(Args::Exprs(exprs)) => count != exprs.as_slice().len(),
        Some(Args::Named(_)) => false,
        None => false,
    }
}

// The full name of something of an instance's module.
fn inside(
    alloc: Global,
    scope: &Scope<'_>,
    inner: &Inner<'_>,
    name: &[u8],
) -> Result<Text, AllocError>
    ensures { IfOk result (λ text. text ≡ inside (scope_meant scope.now) (inner_meant inner.now) name.now) }
{
    let prefix = inner_prefix(alloc, scope.prefix.bytes(), inner.name.bytes())?;
    let text = full_name(alloc, prefix.bytes(), name)?;
    Ok(text)
}

// Whether an output is connected to an expression that can't be assigned.
fn is_bad(gift: &Given<'_>, ports: &Signals<'_>, signals: &Names<'_>) -> bool
    ensures { IsTrue result ↔ IsBadGiven ports.now signals.now (given_meant gift.now) }
{
    match ports.at(gift.name.bytes()) {
        Some(port) => {
            if port.input {
                return false;
            }
            if !port.output {
                return false;
            }
            !is_assignable(gift.value, signals)
        }
        None => false,
    }
}

// An output that is connected to an expression that can't be assigned.
fn bad_output<'a>(given: &[Given<'a>], ports: &Signals<'_>, signals: &Names<'_>) -> Option<&'a Text>
    ensures { Finds (IsBadOutput (map given_meant given.now) ports.now signals.now) (option_copied result) }
{
    for gift in given {
        if is_bad(gift, ports, signals) {
            return Some(gift.name);
        }
    }
    None
}

/// The overrides of an instance fit its module. A refusal's fault stands at the scope.
pub fn check_overrides(
    alloc: Global,
    scope: &Scope<'_>,
    inner: &Inner<'_>,
    text: &Module,
) -> Result<(), FlatFault>
    requires { Among (instances_in scope.now.text.now) (inner_meant inner.now) }
    ensures ok { OnOk result (HasFitOverrides (inner_meant inner.now) text.now) }
    ensures err { IfErr result (Refuses (StandsInside (scope_meant scope.now) (inner_meant inner.now) text.now)) }
{
    let names = arg_names(alloc, inner.overrides)?;
    let open = open_names(alloc, text)?;
    if overshoots(open.len(), inner.overrides) {
        let name = full_name(alloc, scope.prefix.bytes(), inner.name.bytes())?;
        return Err(FlatFault::Unknown(name));
    }
    if let Some(name) = repeated(alloc, &names)? {
        let name = inside(alloc, scope, inner, name.bytes())?;
        return Err(FlatFault::Twice(name));
    }
    let open = Names::of(alloc, open)?;
    if let Some(name) = absent(&names, &open) {
        let name = inside(alloc, scope, inner, name.bytes())?;
        return Err(FlatFault::Unknown(name));
    }
    Ok(())
}

/// The connections of an instance by their names fit the ports of its module. A refusal's fault stands at the scope.
pub fn check_named(
    alloc: Global,
    scope: &Scope<'_>,
    inner: &Inner<'_>,
    text: &Module,
) -> Result<(), FlatFault>
    requires { Among (instances_in scope.now.text.now) (inner_meant inner.now) }
    ensures ok { OnOk result (HasFitConnections (inner_meant inner.now) text.now) }
    ensures err { IfErr result (Refuses (StandsInside (scope_meant scope.now) (inner_meant inner.now) text.now)) }
{
    let names = arg_names(alloc, inner.args)?;
    let ports = port_names(alloc, text)?;
    if misses(ports.len(), inner.args) {
        let name = full_name(alloc, scope.prefix.bytes(), inner.name.bytes())?;
        return Err(FlatFault::Port(name));
    }
    if let Some(name) = repeated(alloc, &names)? {
        let name = inside(alloc, scope, inner, name.bytes())?;
        return Err(FlatFault::Port(name));
    }
    let ports = Names::of(alloc, ports)?;
    if let Some(name) = absent(&names, &ports) {
        let name = inside(alloc, scope, inner, name.bytes())?;
        return Err(FlatFault::Unknown(name));
    }
    Ok(())
}

/// Each output of an instance is connected to an expression that can be assigned. A refusal's fault stands at the
/// scope.
pub fn check_outputs(
    alloc: Global,
    scope: &Scope<'_>,
    signals: &Names<'_>,
    inner: &Inner<'_>,
    text: &Module,
) -> Result<(), FlatFault>
    requires inner { Among (instances_in scope.now.text.now) (inner_meant inner.now) }
    requires signals { signals.now ≡ map decl_name (signals_in scope.now.text.now) }
    ensures ok { OnOk result (HasFitOutputs (scope_meant scope.now) (inner_meant inner.now) text.now) }
    ensures err { IfErr result (Refuses (StandsInside (scope_meant scope.now) (inner_meant inner.now) text.now)) }
{
    let names = port_names(alloc, text)?;
    let given = given_to(alloc, &names, inner.args)?;
    let ports = Signals::of(alloc, text)?;
    if let Some(name) = bad_output(&given, &ports, signals) {
        let name = inside(alloc, scope, inner, name.bytes())?;
        return Err(FlatFault::Port(name));
    }
    Ok(())
}

/// An instance in a scope has a module, which its overrides and its connections fit. A refusal's fault stands at the
/// scope.
pub fn check_inner(
    alloc: Global,
    modules: &Modules<'_>,
    scope: &Scope<'_>,
    signals: &Names<'_>,
    inner: &Inner<'_>,
) -> Result<(), FlatFault>
    requires inner { Among (instances_in scope.now.text.now) (inner_meant inner.now) }
    requires signals { signals.now ≡ map decl_name (signals_in scope.now.text.now) }
    ensures ok { OnOk result (FitsInner modules.now (scope_meant scope.now) (inner_meant inner.now)) }
    ensures err { IfErr result (Refuses (StandsIn modules.now (scope_meant scope.now))) }
{
    let text = match modules.at(inner.of_module.bytes()) {
        Some(text) => text,
        None => {
            let name = full_name(alloc, scope.prefix.bytes(), inner.name.bytes())?;
            return Err(FlatFault::Unknown(name));
        }
    };
    match check_overrides(alloc, scope, inner, text) {
        Ok(()) => {}
        Err(fault) => return Err(fault),
    }
    match check_named(alloc, scope, inner, text) {
        Ok(()) => {}
        Err(fault) => return Err(fault),
    }
    match check_outputs(alloc, scope, signals, inner, text) {
        Ok(()) => Ok(()),
        Err(fault) => Err(fault),
    }
}
