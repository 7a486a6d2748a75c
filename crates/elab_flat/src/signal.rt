// The signals of instances (IEEE 1364-2005, sections 3.2, 4.3.1 and 4.9).

ghost use Rattle.std.specs.Prelude.{◌≡◌, ◌++◌, IfOk, IfErr, OnOk, map};
ghost use Rattle.std.specs.List.{flat_map};
ghost use Rattle.elab_flat_laws.specs.Flattened.{flat_signals};
ghost use Rattle.elab_flat_faults.specs.FlatStands.{Refuses};
ghost use Rattle.elab_flat_instances.specs.Unfolding.{scope_meant};
ghost use Rattle.elab_flat_names.specs.Rows.{StandsAlone};
ghost use Rattle.elab_flat_clocks.specs.Passing.{StandsAmong};

use elab_flat_faults::FlatFault;
use elab_flat_instances::Scope;
use elab_flat_move::moved_signal;
use elab_flat_names::declared_signal;
use elab_flat_scopes::signals_in;
use sqlite_items::Items;
use std::alloc::Global;
use vlog_tree_runs::Signal;

// Adds the signals of a scope, in the order of their first declarations. A refusal's fault is that of one whose ranges
// declare nothing.
fn add_signals(all: &mut Items<Signal>, alloc: Global, scope: &Scope<'_>) -> Result<(), FlatFault>
    ensures ok { OnOk result (all.new ≡ all.old ++ flat_signals (scope_meant scope.now)) }
    ensures err { IfErr result (Refuses (StandsAlone (scope_meant scope.now))) }
{
    let prefix = scope.prefix.bytes();
    let decls = signals_in(alloc, scope.text)?;
    for decl in &decls {
        let signal = match declared_signal(alloc, scope, decl) {
            Ok(signal) => signal,
            Err(fault) => return Err(fault),
        };
        let signal = moved_signal(alloc, prefix, &signal)?;
        all.push(signal)?;
    }
    Ok(())
}

/// The signals of scopes, one scope's after another's.
pub fn signals_of(alloc: Global, scopes: &[Scope<'_>]) -> Result<Items<Signal>, FlatFault>
    ensures ok { IfOk result (λ all. all ≡ flat_map flat_signals (map scope_meant scopes.now)) }
    ensures err { IfErr result (Refuses (StandsAmong (map scope_meant scopes.now))) }
{
    let mut all = Items::new(alloc);
    for scope in scopes {
        match add_signals(&mut all, alloc, scope) {
            Ok(()) => {}
            Err(fault) => return Err(fault),
        }
    }
    Ok(all)
}
