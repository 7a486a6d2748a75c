// Signals by their names.

ghost use Rattle.std.specs.Prelude.{◌≡◌, ◌<◌, IfOk, map, length};
ghost use Rattle.vlog_tree_runs.specs.Places.{Name};
ghost use Rattle.elab_flat_scopes.specs.Borrowed.{name_meant};
ghost use Rattle.elab_flat_drivers.specs.Claims.{spot_in};
ghost use Rattle.elab_flat_drivers.specs.Spots.{signal_name};

use crate::claims::Spot;
use elab_flat_scopes::Names;
use outside::Text;
use std::alloc::{AllocError, Global};
use std::marker::Model;
use vlog_tree_runs::Signal;

/// Declared signals, of which the first one with a name is found at once. Contracts see them as their list.
#[derive(Drop)]
pub struct Declared<'a> {
    list: &'a [Signal],
    names: Names<'a>,
}

impl<'a> Model for Declared<'a> {
    ghost use Rattle.std.specs.Prelude.{◌≡◌, List, map};
    ghost use Rattle.std.specs.Coded.{codes};
    ghost use Rattle.vlog_tree_runs.specs.declared.flat.Signal.{Signal};
    ghost use Rattle.elab_flat_drivers.specs.Spots.{signal_name};

    ghost Value = { List Signal };

    ghost coded = { Prim.hlevel codes };

    ghost view = { λ x. x.list.now };

    ghost invariant = { λ x. x.names ≡ map signal_name x.list.now };
}

/// The names of signals, in their order.
pub fn names_of<'a>(alloc: Global, signals: &'a [Signal]) -> Result<Vec<&'a Text>, AllocError>
    ensures { IfOk result (λ names. map name_meant names.items ≡ map signal_name signals.now) }
{
    let mut names = Vec::new(alloc);
    for signal in signals {
        names.push(&signal.name)?;
    }
    Ok(names)
}

impl<'a> Declared<'a> {
    /// The signals of a list.
    pub fn of(alloc: Global, list: &'a [Signal]) -> Result<Declared<'a>, AllocError>
        ensures { IfOk result (λ signals. signals ≡ list.now) }
    {
        let names = Names::of(alloc, names_of(alloc, list)?)?;
        Ok(Declared { list, names })
    }

    /// Where the first signal of a name stands; none where no signal has it.
    pub fn spot(&self, name: &[u8]) -> Option<Spot>
        ensures { result ≡ spot_in self.now name.now }
    {
        match self.names.place(name) {
            Some(place) => match self.list.get(place) {
                Some(signal) => Some(Spot {
                    place,
                    width: signal.width,
                    low: signal.low,
                }),
                None => None,
            },
            None => None,
        }
    }

    /// The signals, in their order.
    pub fn list(&self) -> &'a [Signal]
        ensures { result.now ≡ self.now }
    {
        self.list
    }
}
