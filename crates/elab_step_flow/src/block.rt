// What the paths through a block do (IEEE 1364-2005, sections 9.4 and 9.5).

ghost use Rattle.std.specs.Prelude.{length, IfOk};
ghost use Rattle.elab_step_laws.specs.Flows.{block_flow};
ghost use Rattle.elab_step_laws.specs.Laws.{place_over};
ghost use Rattle.elab_step_flow.specs.Asked.{AreVectors, IsPassable};
ghost use Rattle.elab_step_flow.specs.Sets.{tables, IsSized};
ghost use Rattle.elab_step_flow.specs.Shows.{Shows};

use crate::flow::BlockFlow;
use crate::pass::pass;
use crate::scope::Scope;
use std::alloc::{AllocError, Global};
use vlog_tree::Stmt;

/// What the paths through a combinational block do, from its beginning to its end.
pub fn flow_of(alloc: Global, scope: &Scope<'_>, body: &Stmt) -> Result<BlockFlow, AllocError>
    requires signals { AreVectors scope.now }
    requires body { IsPassable scope.now body.now }
    ensures shows { IfOk result (λ r. Shows scope.now (tables r) (block_flow (place_over scope.now) body.now)) }
    ensures sized { IfOk result (λ r. IsSized (length scope.now) r) }
{
    let mut flow = BlockFlow::start(alloc, scope.list())?;
    let around = Vec::new(alloc);
    pass(&mut flow, scope, &around, body)?;
    Ok(flow)
}
