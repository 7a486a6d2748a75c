// How the inputs of the top reach those of all instances.

ghost use Rattle.std.specs.Prelude.{◌≡◌, IfOk, IfErr, length, map};
ghost use Rattle.elab_flat_faults.specs.FlatStands.{Refuses};
ghost use Rattle.elab_flat_scopes.specs.Borrowed.{inner_meant};
ghost use Rattle.elab_flat_instances.specs.Unfolding.{scope_meant};
ghost use Rattle.elab_flat_clocks.specs.Passing.{exprs_meant, StandsAmong};
ghost use Rattle.elab_flat_clocks.specs.Tabled.{AreTablesBelow, AreAllScopes, AreWaysOf};

use crate::kept::kept_into;
use crate::{Table, child_table, top_table};
use elab_flat_faults::FlatFault;
use elab_flat_instances::Scope;
use elab_flat_scopes::{Inner, instances_in};
use std::alloc::Global;
use vlog_tree::Expr;

/// For each scope what reaches its names, and the expressions of its connections that pass nothing on.
#[derive(Drop)]
pub struct Ways<'a> {
    pub tables: Vec<Table<'a>>,
    pub kept: Vec<Vec<&'a Expr>>,
}

// The tables of some instances with their scopes, by that of the scope that they stand in. A refusal's fault stands at
// one of them.
fn tables_below<'a>(
    alloc: Global,
    outer: &Table<'a>,
    instances: &[Inner<'_>],
    scopes: &[Scope<'a>],
) -> Result<Vec<Table<'a>>, FlatFault>
    requires { length scopes.now ≡ length instances.now }
    ensures ok { IfOk result (λ r. AreTablesBelow outer.now (map inner_meant instances.now)
        (map scope_meant scopes.now) r.items) }
    ensures err { IfErr result (Refuses (StandsAmong (map scope_meant scopes.now))) }
{
    let mut all = Vec::new(alloc);
    let mut at = 0;
    for inner in instances {
        match child_table(alloc, outer, inner, &scopes[at]) {
            Ok(table) => all.push(table)?,
            Err(fault) => return Err(fault),
        }
        at += 1;
    }
    Ok(all)
}

/// The ways through all scopes, which stand in the order of their paths. A refusal's fault stands at one of them.
pub fn ways_of<'a>(alloc: Global, scopes: &[Scope<'a>]) -> Result<Ways<'a>, FlatFault>
    requires { AreAllScopes (map scope_meant scopes.now) }
    ensures ok { IfOk result (λ w. AreWaysOf (map scope_meant scopes.now) w.tables.items
        (map exprs_meant w.kept.items)) }
    ensures err { IfErr result (Refuses (StandsAmong (map scope_meant scopes.now))) }
{
    let mut tables = Vec::new(alloc);
    let mut kept = Vec::new(alloc);
    match top_table(alloc, &scopes[0]) {
        Ok(table) => tables.push(table)?,
        Err(fault) => return Err(fault),
    }
    let (_, mut rest) = scopes.split_at(1);
    let mut at = 0;
    while at < scopes.len() {
        let instances = instances_in(alloc, scopes[at].text)?;
        let (inner, after) = rest.split_at(instances.len());
        match kept_into(alloc, &instances, inner) {
            Ok(exprs) => kept.push(exprs)?,
            Err(fault) => return Err(fault),
        }
        let mut more = match tables_below(alloc, &tables[at], &instances, inner) {
            Ok(more) => more,
            Err(fault) => return Err(fault),
        };
        tables.append(&mut more)?;
        rest = after;
        at += 1;
    }
    Ok(Ways { tables, kept })
}
