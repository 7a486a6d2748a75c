// Nodes of a dag: constants and free words.
ghost use Rattle.std.specs.Prelude.{◌≡◌, ◌%◌, ◌^◌, ◌<◌, ◌≤◌, pos, [], map, IfOk};
ghost use Rattle.word_dag.specs.Nodes.{FitFrom, FitsNode, width_of};
ghost use Rattle.word_dag.specs.Adding.{Adds, Grows, IsAt, Keeps};
ghost use Rattle.elab_step_design.specs.Designs.{free};
ghost use Rattle.elab_step_expr.specs.Nodes.{AddsFrees, Makes, IsNode, number_at};

use outside::Text;
use std::alloc::{AllocError, Global};
use word_core::Word;
use word_dag::{Dag, Node};

/// The number 0.
#[tactic(auto, using(elab_step_expr::proofs::Making::made_const))]
pub fn zero(dag: &mut Dag, width: u8) -> Result<u64, AllocError>
    requires some { 1 ≤ width }
    requires most { width ≤ 64 }
    ensures keeps { Keeps dag.old dag.new }
    ensures makes { IfOk result (λ r. Makes dag.new r width (λ e. 0)) }
{
    // the nodes of a dag fit
    let _fit = dag.nodes();
    let number = dag.add(Node::Const(Word::new(width, 0)))?;
    Ok(number)
}

/// A free word.
pub fn free(alloc: Global, dag: &mut Dag, name: &[u8], width: u8) -> Result<u64, AllocError>
    requires some { 1 ≤ width }
    requires most { width ≤ 64 }
    ensures grows { Grows dag.old dag.new }
    ensures frees { IfOk result (λ r. AddsFrees (λ n. n ≡ free name.now width) dag.old dag.new) }
    ensures at { IfOk result (λ r. IsAt dag.new r (free name.now width)) }
    ensures makes { IfOk result (λ r. Makes dag.new r width (λ e. e name.now 0 (pos 0) % 2 ^ width)) }
{
    let number = dag.add(Node::Free {
        name: Text::copy(alloc, name)?,
        width,
        side: 0,
        cycle: 0,
    })?;
    Ok(number)
}
