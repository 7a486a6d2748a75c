// All nets of a module and what its clocked blocks leave, as nodes.
ghost use Rattle.std.specs.Prelude.{◌≡◌, length, IfOk};
ghost use Rattle.elab_step_nets.specs.Asked.{CanElaborate};
ghost use Rattle.elab_step_nets.specs.Boards.{groups_of, ArePlacesOf, AreBelow, IsSolution};

use crate::edge::{copy_of, run_clocked};
use crate::nets::solve_nets;
use crate::start::begun;
use elab_step_expr::Leaves;
use std::alloc::{AllocError, Global};
use vlog_tree_runs::Flat;
use word_dag::Dag;

/// The signals of a module as nodes of a dag: as they are begun, in a cycle, and after the edge that ends it.
#[derive(Drop)]
pub struct Solution {
    pub dag: Dag,
    pub begun: Leaves,
    pub now: Leaves,
    pub next: Leaves,
}

/// Solves groups of a module's nets in an order of their places, each by the places of the statements that assign it,
/// and runs its clocked blocks. The flags tell the nets; every other signal is a free word.
pub fn solve(
    alloc: Global,
    flat: &Flat,
    places: &[Vec<usize>],
    groups: &[Vec<usize>],
    nets: &[bool],
) -> Result<Solution, AllocError>
    requires can { CanElaborate flat.now }
    requires places { ArePlacesOf flat.now flat.now.signals places.now }
    requires groups { AreBelow (length places.now) groups.now }
    requires nets { length nets.now ≡ length flat.now.signals }
    ensures { IfOk result (λ s. IsSolution flat.now
        (groups_of flat.now.signals groups.now) nets.now s.dag s.begun s.now s.next) }
{
    let mut dag = Dag::new(alloc);
    let begun = begun(alloc, &mut dag, flat.signals.as_slice(), nets)?;
    let mut now = copy_of(alloc, &begun)?;
    solve_nets(&mut dag, flat, places, groups, &mut now)?;
    let mut next = copy_of(alloc, &now)?;
    run_clocked(alloc, &mut dag, flat, &now, &mut next)?;
    Ok(Solution {
        dag,
        begun,
        now,
        next,
    })
}
