// What is connected to the ports of instances (IEEE 1364-2005, section 12.3).

ghost use Rattle.std.specs.Prelude.{◌≡◌, ◌≤◌, ◌++◌, Some, map, OnOk, IfOk, IfErr, IfSome};
ghost use Rattle.vlog_tree_runs.specs.Places.{Among};
ghost use Rattle.vlog_tree_runs.specs.Contents.{Inner as Instance, instances_in, port_names, signals_in};
ghost use Rattle.vlog_tree_runs.specs.Scopes.{place_of, given_to, child, decl_at};
ghost use Rattle.elab_flat_faults.specs.Constants.{at_rest};
ghost use Rattle.elab_flat_faults.specs.FlatStands.{Refuses};
ghost use Rattle.elab_flat_scopes.specs.Borrowed.{name_meant, decl_meant, given_meant, inner_meant};
ghost use Rattle.elab_flat_scopes.specs.Finding.{decl_name};
ghost use Rattle.elab_flat_instances.specs.Unfolding.{scope_meant, IsSoundInner, HasSoundInners};
ghost use Rattle.elab_flat_widths.specs.declared.violation.Violation.TheVariants.{Memory};
ghost use Rattle.elab_flat_widths.specs.Ranges.{fault_of, StandsAlone};
ghost use Rattle.elab_flat_widths.specs.Taken.{Fails};
ghost use Rattle.elab_flat_widths.specs.Texts.{taking, IsSoundGiven, BreaksGiven, IsSoundConnection, BreaksConnection, AreSoundConnections, SomeConnectionBreaks, HasSoundConnections, IsConnectionFault, IsInnerFault, IsSomeInnerFault};

use crate::declared::{declared, fault_of};
use crate::output::check_output;
use crate::taken::check_stored;
use crate::violation::Violation;
use elab_flat_faults::FlatFault;
use elab_flat_instances::{Scope, full_name, inner_prefix};
use elab_flat_params::{ParamFault, params_of};
use elab_flat_scopes::{
    Decl, Given, Inner, Modules, Names, Signals, given_to, instances_in, overriding, port_names,
    signals_in,
};
use outside::Text;
use std::alloc::{AllocError, Global};
use vlog_tree::{Expr, Module, Valuation};

// The scope that instances stand in, with what its names stand for.
#[derive(Drop)]
struct Parent<'a, 'b> {
    alloc: Global,
    modules: &'b Modules<'a>,
    scope: &'b Scope<'a>,
    // What its names stand for where its signals are 0.
    rest: &'b Valuation,
    // The names of its signals.
    signals: &'b Names<'a>,
    // The name that faults have for it.
    path: &'b [u8],
}

// The length of an input of an instance's scope; none for any other port. A refusal's fault stands at that scope.
fn port_width(alloc: Global, child: &Scope<'_>, port: &Decl<'_>) -> Result<Option<u8>, FlatFault>
    requires { Among (signals_in child.now.text.now) (decl_meant port.now) }
    ensures ok { IfOk result (λ o. o ≡ taking (scope_meant child.now) (decl_meant port.now)) }
    ensures most { IfOk result (λ o. IfSome o (λ n. n ≤ 64)) }
    ensures err { IfErr result (Refuses (StandsAlone (scope_meant child.now))) }
{
    if !port.input {
        return Ok(None);
    }
    match declared(alloc, port, &child.params) {
        Ok(signal) => Ok(Some(signal.width)),
        Err(violation) => {
            let name = full_name(alloc, child.prefix.bytes(), port.name.bytes())?;
            Err(fault_of(name, violation))
        }
    }
}

fn connections_of<'a>(
    alloc: Global,
    child: &Scope<'a>,
    inner: &Inner<'a>,
) -> Result<Vec<Given<'a>>, AllocError>
    ensures { IfOk result (λ r. map given_meant r.items ≡ given_to (port_names child.now.text.now) inner.now.args.now) }
{
    let names = port_names(alloc, child.text)?;
    given_to(alloc, &names, inner.args)
}

/// The fault of what breaks a rule at a scope of this name.
pub fn named_fault(
    alloc: Global,
    path: &[u8],
    violation: Violation,
) -> Result<FlatFault, AllocError>
    ensures { IfOk result (λ fault. fault ≡ fault_of path.now violation) }
{
    let name = Text::copy(alloc, path)?;
    Ok(fault_of(name, violation))
}

impl<'a> Parent<'a, '_> {
    // The scope of an instance.
    fn inner_scope(&self, inner: &Inner<'a>) -> Result<Scope<'a>, Violation>
        requires { IsSoundInner self.now.modules.now (scope_meant self.now.scope.now) (inner_meant inner.now) }
        ensures ok { IfOk result (λ t. child self.now.modules.now (scope_meant self.now.scope.now)
            (inner_meant inner.now) ≡ Some (scope_meant t)) }
        ensures err { IfErr result (λ w. w ≡ Memory) }
    {
        match self.modules.at(inner.of_module.bytes()) {
            Some(text) => {
                let prefix = inner_prefix(
                    self.alloc,
                    self.scope.prefix.bytes(),
                    inner.name.bytes(),
                )?;
                let given = overriding(self.alloc, text, inner.overrides)?;
                match params_of(self.alloc, text, &given, &self.scope.params) {
                    Ok(params) => Ok(Scope {
                        prefix,
                        text,
                        params,
                    }),
                    Err(ParamFault::Bad(_, _)) => unreachable!(),
                    Err(ParamFault::Memory) => Err(Violation::Memory),
                }
            }
            None => unreachable!(),
        }
    }

    // What an input of so many bits takes, or else what an output is assigned to, keeps the rules.
    fn check_value(&self, width: Option<u8>, value: &Expr) -> Result<(), Violation>
        requires rest { self.now.rest.now ≡ at_rest (place_of (scope_meant self.now.scope.now)) }
        requires signals { self.now.signals.now ≡ map decl_name (signals_in self.now.scope.now.text.now) }
        requires most { IfSome width (λ n. n ≤ 64) }
        ensures ok { OnOk result (IsSoundGiven (place_of (scope_meant self.now.scope.now)) value.now width) }
        ensures err { IfErr result (Fails (BreaksGiven (place_of (scope_meant self.now.scope.now)) value.now width)) }
    {
        match width {
            Some(least) => check_stored(self.alloc, value, least, &self.scope.params, self.rest),
            None => check_output(self.alloc, self.scope, self.rest, self.signals, value),
        }
    }

    // What is connected to one port of an instance keeps the rules.
    fn check_connection(
        &self,
        child: &Scope<'_>,
        ports: &Signals<'_>,
        connection: &Given<'_>,
    ) -> Result<(), FlatFault>
        requires rest { self.now.rest.now ≡ at_rest (place_of (scope_meant self.now.scope.now)) }
        requires signals { self.now.signals.now ≡ map decl_name (signals_in self.now.scope.now.text.now) }
        requires ports { ports.now ≡ signals_in child.now.text.now }
        ensures ok { OnOk result (IsSoundConnection (place_of (scope_meant self.now.scope.now)) (scope_meant child.now)
            (given_meant connection.now) (decl_at (signals_in child.now.text.now) connection.now.name.now)) }
        ensures err { IfErr result (Refuses (IsConnectionFault self.now.path.now (scope_meant child.now)
            (BreaksConnection (place_of (scope_meant self.now.scope.now)) (scope_meant child.now)
            (given_meant connection.now) (decl_at (signals_in child.now.text.now) connection.now.name.now)))) }
    {
        let port = match ports.at(connection.name.bytes()) {
            Some(port) => port,
            None => return Ok(()),
        };
        let width = match port_width(self.alloc, child, port) {
            Ok(width) => width,
            Err(fault) => return Err(fault),
        };
        match self.check_value(width, connection.value) {
            Ok(()) => Ok(()),
            Err(violation) => Err(named_fault(self.alloc, self.path, violation)?),
        }
    }

    // What is connected to the ports of an instance keeps the rules.
    fn check_connections(&self, child: &Scope<'a>, inner: &Inner<'a>) -> Result<(), FlatFault>
        requires rest { self.now.rest.now ≡ at_rest (place_of (scope_meant self.now.scope.now)) }
        requires signals { self.now.signals.now ≡ map decl_name (signals_in self.now.scope.now.text.now) }
        ensures ok { OnOk result (AreSoundConnections (place_of (scope_meant self.now.scope.now))
            (scope_meant child.now) (inner_meant inner.now)) }
        ensures err { IfErr result (Refuses (IsConnectionFault self.now.path.now (scope_meant child.now)
            (SomeConnectionBreaks (place_of (scope_meant self.now.scope.now)) (scope_meant child.now)
            (inner_meant inner.now)))) }
    {
        let ports = Signals::of(self.alloc, child.text)?;
        let given = connections_of(self.alloc, child, inner)?;
        for connection in &given {
            match self.check_connection(child, &ports, connection) {
                Ok(()) => {}
                Err(fault) => return Err(fault),
            }
        }
        Ok(())
    }

    // What is connected to an instance keeps the rules.
    fn check_inner(&self, inner: &Inner<'a>) -> Result<(), FlatFault>
        requires sound { IsSoundInner self.now.modules.now (scope_meant self.now.scope.now) (inner_meant inner.now) }
        requires rest { self.now.rest.now ≡ at_rest (place_of (scope_meant self.now.scope.now)) }
        requires signals { self.now.signals.now ≡ map decl_name (signals_in self.now.scope.now.text.now) }
        ensures ok { OnOk result (HasSoundConnections self.now.modules.now (scope_meant self.now.scope.now)
            (inner_meant inner.now)) }
        ensures err { IfErr result (Refuses (IsInnerFault self.now.modules.now self.now.path.now
            (scope_meant self.now.scope.now) (inner_meant inner.now))) }
    {
        let child = match self.inner_scope(inner) {
            Ok(child) => child,
            Err(_) => return Err(FlatFault::Memory),
        };
        match self.check_connections(&child, inner) {
            Ok(()) => Ok(()),
            Err(fault) => Err(fault),
        }
    }

    fn check_each(&self, instances: &[Inner<'a>]) -> Result<(), FlatFault>
        requires sound { HasSoundInners self.now.modules.now (scope_meant self.now.scope.now) }
        requires rest { self.now.rest.now ≡ at_rest (place_of (scope_meant self.now.scope.now)) }
        requires signals { self.now.signals.now ≡ map decl_name (signals_in self.now.scope.now.text.now) }
        requires instances { map inner_meant instances.now ≡ instances_in self.now.scope.now.text.now }
        ensures ok { OnOk result ((i : Instance) → Among (map inner_meant instances.now) i →
            HasSoundConnections self.now.modules.now (scope_meant self.now.scope.now) i) }
        ensures err { IfErr result (Refuses (IsSomeInnerFault self.now.modules.now self.now.path.now
            (scope_meant self.now.scope.now))) }
    {
        for inner in instances {
            match self.check_inner(inner) {
                Ok(()) => {}
                Err(fault) => return Err(fault),
            }
        }
        Ok(())
    }
}

// The names of declarations.
fn add_names<'a>(all: &mut Vec<&'a Text>, decls: &[Decl<'a>]) -> Result<(), AllocError>
    ensures { OnOk result (map name_meant all.new.items ≡ map name_meant all.old.items ++ map decl_name
        (map decl_meant decls.now)) }
{
    for decl in decls {
        all.push(decl.name)?;
    }
    Ok(())
}

// The names of a module's signals.
fn signal_names(alloc: Global, text: &Module) -> Result<Vec<&Text>, AllocError>
    ensures { IfOk result (λ r. map name_meant r.items ≡ map decl_name (signals_in text.now)) }
{
    let signals = signals_in(alloc, text)?;
    let mut all = Vec::new(alloc);
    add_names(&mut all, &signals)?;
    Ok(all)
}

/// What is connected to the instances of a scope keeps the rules. A refusal's fault is of a connection, or of a range
/// in an instance's scope.
pub fn check_inners<'a>(
    alloc: Global,
    modules: &Modules<'a>,
    scope: &Scope<'a>,
    rest: &Valuation,
    path: &[u8],
) -> Result<(), FlatFault>
    requires sound { HasSoundInners modules.now (scope_meant scope.now) }
    requires rest { rest.now ≡ at_rest (place_of (scope_meant scope.now)) }
    ensures ok { OnOk result ((i : Instance) → Among (instances_in scope.now.text.now) i →
        HasSoundConnections modules.now (scope_meant scope.now) i) }
    ensures err { IfErr result (Refuses (IsSomeInnerFault modules.now path.now (scope_meant scope.now))) }
{
    let signals = Names::of(alloc, signal_names(alloc, scope.text)?)?;
    let instances = instances_in(alloc, scope.text)?;
    let parent = Parent {
        alloc,
        modules,
        scope,
        rest,
        signals: &signals,
        path,
    };
    parent.check_each(&instances)
}
