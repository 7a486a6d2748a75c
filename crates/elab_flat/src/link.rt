// Continuous assignments and connections of ports (IEEE 1364-2005, sections 6.1 and 12.3). A left side whose right side
// fails is dropped by a call: dropped in place, its parts would be proved anew there.

ghost use Rattle.std.specs.Prelude.{◌≡◌, ◌++◌, List, Some, IfOk, OnOk, map, length};
ghost use Rattle.std.specs.List.{flat_map};
ghost use Rattle.std.specs.Option.{option_to_list};
ghost use Rattle.vlog_tree.specs.declared.module.Module.{Module as Design};
ghost use Rattle.vlog_tree_runs.specs.declared.flat.Signal.{Signal};
ghost use Rattle.vlog_tree_runs.specs.Contents.{assigns_in};
ghost use Rattle.vlog_tree.specs.declared.expr.Expr.TheVariants as e;
ghost use Rattle.vlog_tree_runs.specs.Places.{read};
ghost use Rattle.vlog_tree_runs.specs.Scopes.{own_link, port_link, port_links, connections, inner_links, place_of, decl_at, child};
ghost use Rattle.elab_flat_laws.specs.Moved.{moved, moved_left};
ghost use Rattle.elab_flat_laws.specs.Flattened.{moved_link, flat_assigns};
ghost use Rattle.elab_flat_scopes.specs.Borrowed.{target_meant, assigned_meant, given_meant, decl_meant, inner_meant};
ghost use Rattle.elab_flat_instances.specs.Unfolding.{scope_meant};
ghost use Rattle.elab_flat.specs.Following.{AreFollowed};
ghost use Rattle.elab_flat.specs.Scoped.{placed};

use crate::left::left_of;
use crate::scope::mover;
use elab_flat_instances::Scope;
use elab_flat_move::Mover;
use elab_flat_scopes::{
    Assigned, Decl, Given, Inner, Signals, Target, assigns_in, given_to, instances_in, port_names,
};
use outside::Text;
use sqlite_items::Items;
use std::alloc::{AllocError, Global};
use vlog_tree::{Assign, Expr, Lval, Name};

fn moved_target(mover: &Mover<'_>, target: &Target<'_>) -> Result<Lval, AllocError>
    ensures { IfOk result (λ r. r ≡ moved_left mover.now.prefix.now mover.now.params.now (target_meant target.now)) }
{
    match target {
        Target::Wire(name) => Ok(Lval::Name(mover.text(name.bytes())?)),
        Target::Left(left) => mover.left(left),
    }
}

// A continuous assignment of a scope.
fn own_assign(mover: &Mover<'_>, assigned: &Assigned<'_>) -> Result<Assign, AllocError>
    ensures { IfOk result (λ a. (gs : List Signal) →
        a ≡ moved_link (own_link (placed mover.now.prefix.now gs mover.now.params.now) (assigned_meant assigned.now))) }
{
    let left = moved_target(mover, &assigned.left)?;
    let right = match mover.expr(assigned.right) {
        Ok(right) => right,
        Err(fault) => {
            drop(left);
            return Err(fault);
        }
    };
    Ok(Assign { left, right })
}

// The name of a port of an instance as an expression.
fn port_value(inner: &Mover<'_>, name: &Text) -> Result<Expr, AllocError>
    ensures { IfOk result (λ r. r ≡ moved inner.now.prefix.now inner.now.params.now (e.Name (read name.now))) }
{
    let port = Expr::Name(Name {
        text: Text::copy(inner.alloc, name.bytes())?,
        offset: 0,
    });
    inner.expr(&port)
}

// The connection of a port: to an input what is connected is assigned, and an output is assigned to it.
fn port_assign(
    outer: &Mover<'_>,
    inner: &Mover<'_>,
    given: &Given<'_>,
    port: &Decl<'_>,
) -> Result<Option<Assign>, AllocError>
    ensures { IfOk result (λ a. (gs hs : List Signal) → option_to_list a ≡
        map moved_link (port_link (placed outer.now.prefix.now gs outer.now.params.now) (placed inner.now.prefix.now hs inner.now.params.now) (given_meant given.now) (decl_meant port.now))) }
{
    if port.input {
        let name = inner.text(given.name.bytes())?;
        let right = outer.expr(given.value)?;
        let left = Lval::Name(name);
        return Ok(Some(Assign { left, right }));
    }
    if port.output {
        let left = left_of(outer, given.value)?;
        let right = match port_value(inner, given.name) {
            Ok(right) => right,
            Err(fault) => {
                drop(left);
                return Err(fault);
            }
        };
        return Ok(Some(Assign { left, right }));
    }
    Ok(None)
}

// Adds the continuous assignments of a scope.
fn add_own(all: &mut Items<Assign>, alloc: Global, scope: &Scope<'_>) -> Result<(), AllocError>
    ensures { OnOk result (all.new ≡ all.old ++ map moved_link
        (map (own_link (place_of (scope_meant scope.now))) (assigns_in scope.now.text.now))) }
{
    let mover = mover(alloc, scope);
    let assigns = assigns_in(alloc, scope.text)?;
    for assigned in &assigns {
        all.push(own_assign(&mover, assigned)?)?;
    }
    Ok(())
}

fn add_port(
    all: &mut Items<Assign>,
    outer: &Mover<'_>,
    inner: &Mover<'_>,
    given: &Given<'_>,
    signals: &Signals<'_>,
) -> Result<(), AllocError>
    ensures { OnOk result ((gs hs : List Signal) →
        all.new ≡ all.old ++ map moved_link (port_links (placed outer.now.prefix.now gs outer.now.params.now)
        (placed inner.now.prefix.now hs inner.now.params.now) (given_meant given.now) (decl_at signals.now given.now.name.now))) }
{
    if let Some(port) = signals.at(given.name.bytes()) {
        if let Some(assign) = port_assign(outer, inner, given, port)? {
            all.push(assign)?;
        }
    }
    Ok(())
}

// Adds the connections of an instance in a scope.
fn add_connections(
    all: &mut Items<Assign>,
    alloc: Global,
    outer: &Scope<'_>,
    instance: &Inner<'_>,
    inner: &Scope<'_>,
) -> Result<(), AllocError>
    ensures { OnOk result (all.new ≡ all.old ++ map moved_link
        (connections (place_of (scope_meant outer.now)) (inner_meant instance.now) (Some (scope_meant inner.now)))) }
{
    let outer_mover = mover(alloc, outer);
    let inner_mover = mover(alloc, inner);
    let signals = Signals::of(alloc, inner.text)?;
    let ports = port_names(alloc, inner.text)?;
    let given = given_to(alloc, &ports, instance.args)?;
    for gift in &given {
        add_port(all, &outer_mover, &inner_mover, gift, &signals)?;
    }
    Ok(())
}

// Adds the connections of the instances of a scope, each with its scope.
fn add_inners(
    all: &mut Items<Assign>,
    alloc: Global,
    outer: &Scope<'_>,
    instances: &[Inner<'_>],
    inners: &[Scope<'_>],
) -> Result<(), AllocError>
    requires { length inners.now ≡ length instances.now }
    ensures { OnOk result ((ms : List Design) →
        map Some (map scope_meant inners.now) ≡ map (child ms (scope_meant outer.now)) (map inner_meant instances.now) →
        all.new ≡ all.old ++ map moved_link (flat_map (inner_links ms (scope_meant outer.now)) (map inner_meant instances.now))) }
{
    let mut at = 0;
    for instance in instances {
        add_connections(all, alloc, outer, instance, &inners[at])?;
        at += 1;
    }
    Ok(())
}

/// The continuous assignments of scopes and the connections of their instances, one scope's after another's. The scopes
/// of the instances stand behind the first scope in this order too.
pub fn assigns_of(alloc: Global, scopes: &[Scope<'_>]) -> Result<Items<Assign>, AllocError>
    requires { (ms : List Design) × AreFollowed ms (map scope_meant scopes.now) }
    ensures { IfOk result (λ all. (ms : List Design) → AreFollowed ms (map scope_meant scopes.now) →
        all ≡ flat_map (flat_assigns ms) (map scope_meant scopes.now)) }
{
    let mut all = Items::new(alloc);
    let mut next = 1;
    for scope in scopes {
        let instances = instances_in(alloc, scope.text)?;
        let past = next + instances.len();
        add_own(&mut all, alloc, scope)?;
        add_inners(&mut all, alloc, scope, &instances, &scopes[next..past])?;
        next = past;
    }
    Ok(all)
}
