// Which item of a case statement is run, as bits.
ghost use Rattle.std.specs.Prelude.{◌≡◌, IfOk, nat_eq, if◌then◌else◌};
ghost use Rattle.std.specs.Option.{option_copied};
ghost use Rattle.word_dag.specs.Nodes.{Naming};
ghost use Rattle.word_dag.specs.Adding.{Keeps};
ghost use Rattle.elab_step_expr.specs.Nodes.{IsNode, number_at};
ghost use Rattle.elab_step_blocks.specs.Runs.{AreSet};

use elab_step_expr::{Leaves, Wire, choice, constant};
use std::alloc::AllocError;
use word_dag::Dag;

/// A test where none before it is 1, else 0.
#[tactic(auto, using(crate::proofs::Storing::set_kept, elab_step_expr::proofs::Kept::keeps_then, elab_step_expr::proofs::Kept::keeps_same, elab_step_expr::proofs::Kept::made_node, elab_step_expr::proofs::Kept::node_kept))]
pub fn first_of(
    dag: &mut Dag,
    matched: u64,
    test: u64,
    reads: Option<&Leaves>,
    state: &Leaves,
) -> Result<u64, AllocError>
    requires set { AreSet (option_copied reads) state.now dag.old }
    requires matched { IsNode dag.old matched 1 }
    requires test { IsNode dag.old test 1 }
    ensures keeps { Keeps dag.old dag.new }
    ensures set { AreSet (option_copied reads.entry) state.now dag.new }
    ensures node { IfOk result (λ r. IsNode dag.new r 1) }
    ensures number { IfOk result (λ r. (e : Naming) →
        number_at e dag.new r ≡ (if nat_eq (number_at e dag.old matched) 1 then 0 else number_at e dag.old test)) }
{
    let _reads = reads;
    let _state = state;
    let none = constant(dag, 1, 0)?;
    let number = choice(
        dag,
        matched,
        Wire {
            node: none,
            width: 1,
        },
        Wire {
            node: test,
            width: 1,
        },
    )?;
    Ok(number)
}

/// A bit that is 1 where a test is or one before it.
#[tactic(auto, using(elab_step_expr::proofs::Kept::keeps_then, elab_step_expr::proofs::Kept::keeps_same, elab_step_expr::proofs::Kept::made_node, elab_step_expr::proofs::Kept::node_kept))]
pub fn or_matched(dag: &mut Dag, matched: u64, test: u64) -> Result<u64, AllocError>
    requires matched { IsNode dag.old matched 1 }
    requires test { IsNode dag.old test 1 }
    ensures keeps { Keeps dag.old dag.new }
    ensures node { IfOk result (λ r. IsNode dag.new r 1) }
    ensures number { IfOk result (λ r. (e : Naming) →
        number_at e dag.new r ≡ (if nat_eq (number_at e dag.old test) 1 then 1 else number_at e dag.old matched)) }
{
    let one = constant(dag, 1, 1)?;
    let number = choice(
        dag,
        test,
        Wire {
            node: one,
            width: 1,
        },
        Wire {
            node: matched,
            width: 1,
        },
    )?;
    Ok(number)
}

/// A bit that is 1 where no test is.
#[tactic(auto, using(crate::proofs::Storing::set_kept, elab_step_expr::proofs::Kept::keeps_then, elab_step_expr::proofs::Kept::keeps_same, elab_step_expr::proofs::Kept::made_node, elab_step_expr::proofs::Kept::node_kept))]
pub fn unmatched(
    dag: &mut Dag,
    matched: u64,
    reads: Option<&Leaves>,
    state: &Leaves,
) -> Result<u64, AllocError>
    requires set { AreSet (option_copied reads) state.now dag.old }
    requires matched { IsNode dag.old matched 1 }
    ensures keeps { Keeps dag.old dag.new }
    ensures set { AreSet (option_copied reads.entry) state.now dag.new }
    ensures node { IfOk result (λ r. IsNode dag.new r 1) }
    ensures number { IfOk result (λ r. (e : Naming) →
        number_at e dag.new r ≡ (if nat_eq (number_at e dag.old matched) 1 then 0 else 1)) }
{
    let one = constant(dag, 1, 1)?;
    let number = first_of(dag, matched, one, reads, state)?;
    Ok(number)
}
