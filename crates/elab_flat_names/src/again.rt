// Signals that are declared more than once (IEEE 1364-2005, sections 4.2 and 12.3.3).

ghost use Rattle.std.specs.Prelude.{◌≡◌, ◌↔◌, [], IsTrue, IfOk, IfErr, is_some, map};
ghost use Rattle.std.specs.Option.{option_copied, option_map};
ghost use Rattle.vlog_tree_runs.specs.Contents.{decls_in};
ghost use Rattle.vlog_tree_runs.specs.Scopes.{decl_at};
ghost use Rattle.elab_flat_faults.specs.Declaring.{is_port, SameShape};
ghost use Rattle.elab_flat_faults.specs.FlatStands.{Refuses};
ghost use Rattle.elab_flat_scopes.specs.Borrowed.{name_meant, decl_meant};
ghost use Rattle.elab_flat_scopes.specs.Finding.{decl_name};
ghost use Rattle.elab_flat_instances.specs.Unfolding.{scope_meant};
ghost use Rattle.elab_flat_names.specs.Searching.{Finds};
ghost use Rattle.elab_flat_names.specs.Rows.{again, headed_names, AreDeclaredAs, IsDeclaredAs, MayGoWith, GoesWith, IsMisfit, IsWronglyAgain, StandsAlone};

use crate::declared::decl_names;
use crate::search::repeated;
use crate::signal::declared_signal;
use elab_flat_faults::FlatFault;
use elab_flat_instances::Scope;
use elab_flat_scopes::{Decl, Names, decls_in, port_names};
use outside::Text;
use std::alloc::{AllocError, Global};
use std::collections::HashSet;
use vlog_tree::{Module, Ports};

// The declarations of names that an earlier one declares.
fn again<'a>(alloc: Global, decls: &[Decl<'a>]) -> Result<Vec<Decl<'a>>, AllocError>
    ensures { IfOk result (λ r. map decl_meant r.items ≡ again [] (map decl_meant decls.now)) }
{
    let mut done = HashSet::new(alloc);
    let mut all = Vec::new(alloc);
    for decl in decls {
        if !done.insert(decl.name.bytes())? {
            all.push(*decl)?;
        }
    }
    Ok(all)
}

// The names that a header declares itself.
fn headed_names(alloc: Global, text: &Module) -> Result<Vec<&Text>, AllocError>
    ensures { IfOk result (λ r. map name_meant r.items ≡ headed_names text.now) }
{
    match &text.ports {
        Some(ports) => match ports {
            Ports::Groups(_) => {
                let names = port_names(alloc, text)?;
                Ok(names)
            }
            Ports::Names(_) => Ok(Vec::new(alloc)),
        },
        None => Ok(Vec::new(alloc)),
    }
}

fn is_port(decl: &Decl<'_>) -> bool
    ensures { result ≡ is_port (decl_meant decl.now) }
{
    decl.input || decl.output
}

fn has_words(decl: &Decl<'_>) -> bool
    ensures { result ≡ is_some (decl_meant decl.now).words }
{
    match decl.words {
        Some(_) => true,
        None => false,
    }
}

// Whether a second declaration may go with the first one, their shapes apart.
fn may_go(headed: &Names<'_>, first: &Decl<'_>, second: &Decl<'_>) -> bool
    ensures { IsTrue result ↔ MayGoWith headed.now (decl_meant first.now) (decl_meant second.now) }
{
    if headed.has(second.name.bytes()) || has_words(first) || has_words(second) {
        return false;
    }
    if is_port(first) {
        !is_port(second)
    } else {
        is_port(second)
    }
}

fn is_same(a: bool, b: bool) -> bool
    ensures { IsTrue result ↔ (a ≡ b) }
{
    if a { b } else { !b }
}

fn same_shape(
    alloc: Global,
    scope: &Scope<'_>,
    first: &Decl<'_>,
    second: &Decl<'_>,
) -> Result<bool, FlatFault>
    requires first { IsDeclaredAs scope.now.text.now (decl_meant first.now) }
    requires second { IsDeclaredAs scope.now.text.now (decl_meant second.now) }
    ensures ok { IfOk result (λ b. IsTrue b ↔ SameShape scope.now.params (decl_meant first.now)
        (decl_meant second.now)) }
    ensures err { IfErr result (Refuses (StandsAlone (scope_meant scope.now))) }
{
    let one = match declared_signal(alloc, scope, first) {
        Ok(signal) => signal,
        Err(fault) => return Err(fault),
    };
    let other = match declared_signal(alloc, scope, second) {
        Ok(signal) => signal,
        Err(fault) => return Err(fault),
    };
    Ok(is_same(one.signed, other.signed) && one.width == other.width && one.low == other.low)
}

fn goes_with(
    alloc: Global,
    scope: &Scope<'_>,
    headed: &Names<'_>,
    first: &Decl<'_>,
    second: &Decl<'_>,
) -> Result<bool, FlatFault>
    requires headed { headed.now ≡ headed_names scope.now.text.now }
    requires first { IsDeclaredAs scope.now.text.now (decl_meant first.now) }
    requires second { IsDeclaredAs scope.now.text.now (decl_meant second.now) }
    ensures ok { IfOk result (λ b. IsTrue b ↔ GoesWith scope.now.text.now scope.now.params (decl_meant first.now)
        (decl_meant second.now)) }
    ensures err { IfErr result (Refuses (StandsAlone (scope_meant scope.now))) }
{
    if may_go(headed, first, second) {
        same_shape(alloc, scope, first, second)
    } else {
        Ok(false)
    }
}

// The first declaration of a name.
fn first_of<'d, 'a>(places: &Names<'_>, decls: &'d [Decl<'a>], name: &[u8]) -> Option<&'d Decl<'a>>
    requires { places.now ≡ map decl_name (map decl_meant decls.now) }
    ensures { option_map (λ d. decl_meant d.now) result ≡ decl_at (map decl_meant decls.now) name.now }
{
    match places.place(name) {
        Some(place) => decls.get(place),
        None => None,
    }
}

// The name of a declaration that doesn't go with the first one of its name.
fn misfit<'a>(
    alloc: Global,
    scope: &Scope<'_>,
    headed: &Names<'_>,
    decls: &[Decl<'_>],
    seconds: &[Decl<'a>],
) -> Result<Option<&'a Text>, FlatFault>
    requires headed { headed.now ≡ headed_names scope.now.text.now }
    requires decls { AreDeclaredAs scope.now.text.now (map decl_meant decls.now) }
    requires seconds { AreDeclaredAs scope.now.text.now (map decl_meant seconds.now) }
    ensures ok { IfOk result (λ r. Finds (IsMisfit scope.now.text.now scope.now.params (map decl_meant decls.now)
        (map decl_meant seconds.now)) (option_copied r)) }
    ensures err { IfErr result (Refuses (StandsAlone (scope_meant scope.now))) }
{
    let places = Names::of(alloc, decl_names(alloc, decls)?)?;
    for second in seconds {
        if let Some(first) = first_of(&places, decls, second.name.bytes()) {
            match goes_with(alloc, scope, headed, first, second) {
                Ok(true) => {}
                Ok(false) => return Ok(Some(second.name)),
                Err(fault) => return Err(fault),
            }
        }
    }
    Ok(None)
}

/// A name that is declared more than once and not as a port of the body once more there. A refusal's fault stands at
/// the scope.
pub fn declared_again<'a>(alloc: Global, scope: &Scope<'a>) -> Result<Option<&'a Text>, FlatFault>
    ensures ok { IfOk result (λ r. Finds (IsWronglyAgain scope.now.text.now scope.now.params) (option_copied r)) }
    ensures err { IfErr result (Refuses (StandsAlone (scope_meant scope.now))) }
{
    let decls = decls_in(alloc, scope.text)?;
    let seconds = again(alloc, &decls)?;
    let names = decl_names(alloc, &seconds)?;
    if let Some(name) = repeated(alloc, &names)? {
        return Ok(Some(name));
    }
    let headed = Names::of(alloc, headed_names(alloc, scope.text)?)?;
    misfit(alloc, scope, &headed, &decls, &seconds)
}
