// Tables of what reaches the one-bit inputs of a scope.

ghost use Rattle.std.specs.Prelude.{◌≡◌, List, [], Some, IfOk, IfErr, map};
ghost use Rattle.std.specs.Option.{option_copied};
ghost use Rattle.vlog_tree.specs.declared.module.Module.{Module as Design};
ghost use Rattle.vlog_tree_runs.specs.Places.{Name};
ghost use Rattle.vlog_tree_runs.specs.Scopes.{scope_at, given_at};
ghost use Rattle.elab_flat_faults.specs.FlatStands.{Refuses};
ghost use Rattle.elab_flat_scopes.specs.Borrowed.{name_meant, given_meant, inner_meant};
ghost use Rattle.elab_flat_instances.specs.Unfolding.{scope_meant};
ghost use Rattle.elab_flat_names.specs.Rows.{StandsAlone};
ghost use Rattle.elab_flat_params.specs.Parameters.{given_name};
ghost use Rattle.elab_flat_clocks.specs.Tables.{link_meant, link_name, input_at, itself, reached, links, IsTable, IsTableBelow};

use crate::bits::bit_inputs;
use elab_flat_faults::FlatFault;
use elab_flat_instances::Scope;
use elab_flat_scopes::{Given, Inner, Names, given_to, port_names};
use outside::Text;
use std::alloc::{AllocError, Global};
use std::marker::Model;
use vlog_tree::Expr;

/// A name of a scope, and the input of the top that reaches it.
#[derive(Clone, Copy)]
pub struct Link<'a> {
    pub name: &'a Text,
    pub input: &'a Text,
}

/// What reaches the names of a scope, of which that of one name is found at once. Contracts see it as its list.
#[derive(Drop)]
pub struct Table<'a> {
    list: Vec<Link<'a>>,
    names: Names<'a>,
}

impl<'a> Model for Table<'a> {
    ghost use Rattle.std.specs.Prelude.{◌≡◌, List, map};
    ghost use Rattle.elab_flat_clocks.specs.Tables.{Link, link_meant, link_name};

    ghost Value = { List Link };

    ghost view = { λ x. map link_meant x.list.items };

    ghost invariant = { λ x. x.names ≡ map link_name (map link_meant x.list.items) };
}

fn names_of<'a>(alloc: Global, list: &[Link<'a>]) -> Result<Vec<&'a Text>, AllocError>
    ensures { IfOk result (λ r. map name_meant r.items ≡ map link_name (map link_meant list.now)) }
{
    let mut all = Vec::new(alloc);
    for link in list {
        all.push(link.name)?;
    }
    Ok(all)
}

impl<'a> Table<'a> {
    fn of(alloc: Global, list: Vec<Link<'a>>) -> Result<Table<'a>, AllocError>
        ensures { IfOk result (λ t. t ≡ map link_meant list.entry.items) }
    {
        let names = Names::of(alloc, names_of(alloc, &list)?)?;
        Ok(Table { list, names })
    }

    /// The input of the top that reaches a name; none where no input does.
    pub fn input(&self, name: &[u8]) -> Option<&'a Text>
        ensures { option_copied result ≡ input_at self.now name.now }
    {
        match self.names.place(name) {
            Some(place) => match self.list.get(place) {
                Some(link) => Some(link.input),
                None => None,
            },
            None => None,
        }
    }
}

fn themselves<'a>(alloc: Global, names: &[&'a Text]) -> Result<Vec<Link<'a>>, AllocError>
    ensures { IfOk result (λ r. map link_meant r.items ≡ map itself (map name_meant names.now)) }
{
    let mut all = Vec::new(alloc);
    for name in names {
        all.push(Link { name, input: name })?;
    }
    Ok(all)
}

/// The table of the top. A refusal's fault stands there.
pub fn top_table<'a>(alloc: Global, scope: &Scope<'a>) -> Result<Table<'a>, FlatFault>
    ensures ok { IfOk result (λ t. (ms : List Design) (top : Name) → scope_at ms top [] ≡ Some (scope_meant scope.now) →
        IsTable ms top [] t) }
    ensures err { IfErr result (Refuses (StandsAlone (scope_meant scope.now))) }
{
    let names = match bit_inputs(alloc, scope) {
        Ok(names) => names,
        Err(fault) => return Err(fault),
    };
    let table = Table::of(alloc, themselves(alloc, &names)?)?;
    Ok(table)
}

fn given_names<'a>(alloc: Global, given: &[Given<'a>]) -> Result<Vec<&'a Text>, AllocError>
    ensures { IfOk result (λ r. map name_meant r.items ≡ map given_name (map given_meant given.now)) }
{
    let mut all = Vec::new(alloc);
    for gift in given {
        all.push(gift.name)?;
    }
    Ok(all)
}

// What a name is given.
fn given_at<'a>(names: &Names<'_>, given: &[Given<'a>], name: &Text) -> Option<&'a Expr>
    requires { names.now ≡ map given_name (map given_meant given.now) }
    ensures { option_copied result ≡ given_at (map given_meant given.now) name.now }
{
    match names.place(name.bytes()) {
        Some(place) => match given.get(place) {
            Some(gift) => Some(gift.value),
            None => None,
        },
        None => None,
    }
}

// The input of the top that reaches an expression of the outer scope, which must be a name.
fn reached<'a>(outer: &Table<'a>, value: Option<&Expr>) -> Option<&'a Text>
    ensures { option_copied result ≡ reached outer.now (option_copied value.entry) }
{
    match value {
        Some(expr) => match expr {
            Expr::Name(name) => {
                if name.offset == 0 {
                    outer.input(name.text.bytes())
                } else {
                    None
                }
            }
            _ => None,
        },
        None => None,
    }
}

fn links<'a>(
    alloc: Global,
    outer: &Table<'a>,
    given: &[Given<'_>],
    bits: &[&'a Text],
) -> Result<Vec<Link<'a>>, AllocError>
    ensures { IfOk result (λ r. map link_meant r.items ≡ links outer.now (map given_meant given.now)
        (map name_meant bits.now)) }
{
    let names = Names::of(alloc, given_names(alloc, given)?)?;
    let mut all = Vec::new(alloc);
    for name in bits {
        if let Some(input) = reached(outer, given_at(&names, given, name)) {
            all.push(Link { name, input })?;
        }
    }
    Ok(all)
}

/// The table of an instance by that of its outer scope. A refusal's fault stands at the instance.
pub fn child_table<'a>(
    alloc: Global,
    outer: &Table<'a>,
    inner: &Inner<'_>,
    scope: &Scope<'a>,
) -> Result<Table<'a>, FlatFault>
    ensures ok { IfOk result (IsTableBelow outer.now (inner_meant inner.now) (scope_meant scope.now)) }
    ensures err { IfErr result (Refuses (StandsAlone (scope_meant scope.now))) }
{
    let bits = match bit_inputs(alloc, scope) {
        Ok(bits) => bits,
        Err(fault) => return Err(fault),
    };
    let ports = port_names(alloc, scope.text)?;
    let given = given_to(alloc, &ports, inner.args)?;
    let table = Table::of(alloc, links(alloc, outer, &given, &bits)?)?;
    Ok(table)
}
