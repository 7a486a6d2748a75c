// The expressions of connections that don't pass a name on to an input of one bit (IEEE 1364-2005, section 12.3).

ghost use Rattle.std.specs.Prelude.{◌≡◌, ◌++◌, IfOk, IfErr, OnOk, map, length};
ghost use Rattle.std.specs.List.{flat_map};
ghost use Rattle.vlog_tree_runs.specs.Contents.{signals_in};
ghost use Rattle.vlog_tree_runs.specs.Scopes.{decl_at};
ghost use Rattle.elab_flat_faults.specs.FlatStands.{Refuses};
ghost use Rattle.elab_flat_scopes.specs.Borrowed.{given_meant, inner_meant};
ghost use Rattle.elab_flat_instances.specs.Unfolding.{scope_meant};
ghost use Rattle.elab_flat_names.specs.Rows.{StandsAlone};
ghost use Rattle.elab_flat_names.specs.Exprs.{expr_meant};
ghost use Rattle.elab_flat_clocks.specs.Passing.{is_name, is_bit_decl, passes_on, kept_given, kept_to, kept_into, StandsAmong};

use elab_flat_faults::FlatFault;
use elab_flat_instances::Scope;
use elab_flat_names::declared_signal;
use elab_flat_scopes::{Given, Inner, Signals, given_to, port_names};
use std::alloc::Global;
use vlog_tree::Expr;

fn is_name(expr: &Expr) -> bool
    ensures { result ≡ is_name expr.now }
{
    match expr {
        Expr::Name(_) => true,
        _ => false,
    }
}

// Whether a name is that of an input of one bit. A refusal's fault stands at the scope.
fn is_bit_input(
    alloc: Global,
    scope: &Scope<'_>,
    signals: &Signals<'_>,
    name: &[u8],
) -> Result<bool, FlatFault>
    requires { signals.now ≡ signals_in scope.now.text.now }
    ensures ok { IfOk result (λ b. b ≡ is_bit_decl scope.now.params (decl_at signals.now name.now)) }
    ensures err { IfErr result (Refuses (StandsAlone (scope_meant scope.now))) }
{
    let decl = match signals.at(name) {
        Some(decl) => decl,
        None => return Ok(false),
    };
    if !decl.input {
        return Ok(false);
    }
    match declared_signal(alloc, scope, decl) {
        Ok(signal) => Ok(signal.width == 1),
        Err(fault) => Err(fault),
    }
}

// Whether a connection passes a name on to an input of one bit of a scope. A refusal's fault stands at the scope.
fn passes_on(
    alloc: Global,
    gift: &Given<'_>,
    scope: &Scope<'_>,
    signals: &Signals<'_>,
) -> Result<bool, FlatFault>
    requires { signals.now ≡ signals_in scope.now.text.now }
    ensures ok { IfOk result (λ b. b ≡ passes_on (scope_meant scope.now) (given_meant gift.now)) }
    ensures err { IfErr result (Refuses (StandsAlone (scope_meant scope.now))) }
{
    if !is_name(gift.value) {
        return Ok(false);
    }
    is_bit_input(alloc, scope, signals, gift.name.bytes())
}

fn add_given<'a>(
    all: &mut Vec<&'a Expr>,
    alloc: Global,
    given: &[Given<'a>],
    scope: &Scope<'_>,
    signals: &Signals<'_>,
) -> Result<(), FlatFault>
    requires { signals.now ≡ signals_in scope.now.text.now }
    ensures ok { OnOk result (map expr_meant all.new.items ≡ map expr_meant all.old.items ++ flat_map
        (kept_given (scope_meant scope.now)) (map given_meant given.now)) }
    ensures err { IfErr result (Refuses (StandsAlone (scope_meant scope.now))) }
{
    for gift in given {
        match passes_on(alloc, gift, scope, signals) {
            Ok(true) => {}
            Ok(false) => all.push(gift.value)?,
            Err(fault) => return Err(fault),
        }
    }
    Ok(())
}

// Adds the expressions of an instance's connections that pass nothing on. A refusal's fault stands at the instance.
fn add_kept<'a>(
    all: &mut Vec<&'a Expr>,
    alloc: Global,
    inner: &Inner<'a>,
    scope: &Scope<'a>,
) -> Result<(), FlatFault>
    ensures ok { OnOk result (map expr_meant all.new.items ≡ map expr_meant all.old.items ++ kept_to
        (inner_meant inner.now) (scope_meant scope.now)) }
    ensures err { IfErr result (Refuses (StandsAlone (scope_meant scope.now))) }
{
    let ports = port_names(alloc, scope.text)?;
    let given = given_to(alloc, &ports, inner.args)?;
    let signals = Signals::of(alloc, scope.text)?;
    add_given(all, alloc, &given, scope, &signals)
}

/// The expressions of the connections of some instances with their scopes that pass nothing on. A refusal's fault
/// stands at one of these.
pub fn kept_into<'a>(
    alloc: Global,
    instances: &[Inner<'a>],
    scopes: &[Scope<'a>],
) -> Result<Vec<&'a Expr>, FlatFault>
    requires { length scopes.now ≡ length instances.now }
    ensures ok { IfOk result (λ r. map expr_meant r.items ≡ kept_into (map inner_meant instances.now)
        (map scope_meant scopes.now)) }
    ensures err { IfErr result (Refuses (StandsAmong (map scope_meant scopes.now))) }
{
    let mut all = Vec::new(alloc);
    let mut at = 0;
    for inner in instances {
        match add_kept(&mut all, alloc, inner, &scopes[at]) {
            Ok(()) => {}
            Err(fault) => return Err(fault),
        }
        at += 1;
    }
    Ok(all)
}
