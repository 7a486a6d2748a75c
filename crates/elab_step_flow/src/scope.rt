// Signals, by their names and as they stand at rest.

ghost use Rattle.std.specs.Prelude.{◌≡◌, IfOk, map, ◌++◌, ◌∷◌, [], OnOk};
ghost use Rattle.vlog_tree.specs.Valuation.{IsLength};
ghost use Rattle.vlog_tree_runs.specs.declared.flat.Signal.{Signal as Declared};
ghost use Rattle.vlog_tree_runs.specs.Places.{Among, entry_of};
ghost use Rattle.elab_step_laws.specs.Laws.{AreVectors};
ghost use Rattle.elab_flat_drivers.specs.Spots.{signal_name};
ghost use Rattle.elab_step_flow.specs.Cases.{at_rest};
ghost use Rattle.elab_step_flow.specs.Words.{AreWide};

use elab_flat_drivers::names_of;
use elab_flat_scopes::Names;
use outside::Text;
use std::alloc::{AllocError, Global};
use std::marker::Model;
use vlog_tree::{Entry, Valuation};
use vlog_tree_runs::Signal;

/// Declared signals, of which one is found at once by its name, and what their names stand for at rest, where each is
/// 0. Contracts see them as their list.
#[derive(Drop)]
pub struct Scope<'a> {
    list: &'a [Signal],
    names: Names<'a>,
    resting: Valuation,
}

impl<'a> Model for Scope<'a> {
    ghost use Rattle.std.specs.Prelude.{◌≡◌, List, map};
    ghost use Rattle.std.specs.Coded.{codes};
    ghost use Rattle.vlog_tree_runs.specs.declared.flat.Signal.{Signal};
    ghost use Rattle.elab_flat_drivers.specs.Spots.{signal_name};
    ghost use Rattle.elab_step_flow.specs.Cases.{at_rest};

    ghost Value = { List Signal };

    ghost coded = { Prim.hlevel codes };

    ghost view = { λ x. x.list.now };

    ghost invariant = { λ x. (x.names ≡ map signal_name x.list.now) × (x.resting ≡ at_rest x.list.now) };
}

fn entry_at_rest(alloc: Global, signal: &Signal) -> Result<Entry, AllocError>
    ensures { IfOk result (λ r. r ≡ record (entry_of signal.now 0) { depth = 0 }) }
{
    Ok(Entry {
        name: Text::copy(alloc, signal.name.bytes())?,
        offset: 0,
        width: signal.width,
        low: signal.low,
        signed: signal.signed,
        depth: 0,
        value: 0,
    })
}

fn all_at_rest(alloc: Global, signals: &[Signal]) -> Result<Valuation, AllocError>
    requires vectors { AreVectors signals.now }
    requires wide { AreWide signals.now }
    ensures { IfOk result (λ r. r ≡ at_rest signals.now) }
{
    let mut all = Valuation::new(alloc);
    for signal in signals {
        all.push(entry_at_rest(alloc, signal)?)?;
    }
    Ok(all)
}

impl<'a> Scope<'a> {
    /// The signals of a list.
    pub fn of(alloc: Global, list: &'a [Signal]) -> Result<Scope<'a>, AllocError>
        requires vectors { AreVectors list.now }
        requires wide { AreWide list.now }
        ensures { IfOk result (λ scope. scope ≡ list.now) }
    {
        let names = Names::of(alloc, names_of(alloc, list)?)?;
        let resting = all_at_rest(alloc, list)?;
        Ok(Scope {
            list,
            names,
            resting,
        })
    }

    /// The signals, in their order.
    pub fn list(&self) -> &'a [Signal]
        ensures { result.now ≡ self.now }
    {
        self.list
    }

    /// Their names.
    pub fn names(&self) -> &Names<'a>
        ensures { result.now ≡ map signal_name self.now }
    {
        &self.names
    }

    /// What their names stand for, each being 0.
    pub fn at_rest(&self) -> &Valuation
        ensures { result.now ≡ at_rest self.now }
    {
        &self.resting
    }
}
