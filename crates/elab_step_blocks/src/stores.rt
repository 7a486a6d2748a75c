// Assignments and conditions.
ghost use Rattle.std.specs.Prelude.{◌≡◌, ◌∷◌, ◌≤◌, Option, IfOk, not};
ghost use Rattle.std.specs.Option.{option_copied};
ghost use Rattle.word_dag.specs.Adding.{Keeps};
ghost use Rattle.vlog_tree_runs.specs.Places.{store};
ghost use Rattle.vlog_tree_runs.specs.Blocks.{seen, is_false, case_width, case_sign};
ghost use Rattle.elab_step_expr.specs.Leaves.{AreReady, declared};
ghost use Rattle.elab_step_blocks.specs.Standing.{flat};
ghost use Rattle.elab_step_blocks.specs.Targets.{bits_in};
ghost use Rattle.elab_step_expr.specs.Nodes.{IsNode};
ghost use Rattle.elab_step_blocks.specs.Ready.{IsSingle, IsReadyStore, ArePlaced};
ghost use Rattle.elab_step_blocks.specs.Runs.{seen_by, is_at_once, AreSet, Runs, Tests, AreBits, AreTests};
ghost use Rattle.elab_step_blocks.specs.Cases.{each_labels, case_test};

use crate::items::{Case, item_tests};
use crate::left::targets_of;
use crate::targets::{Target, give};
use elab_step_expr::{Leaves, Wire, assigned_node, holds_node};
use std::alloc::{AllocError, Global};
use vlog_tree::{Expr, Lval};
use word_dag::Dag;

// The leaves that expressions are read from.
fn seen<'a>(dag: &Dag, reads: Option<&'a Leaves>, state: &'a Leaves) -> &'a Leaves
    requires { AreSet (option_copied reads) state.now dag.now }
    ensures value { result.now ≡ seen_by (option_copied reads.entry) state.now }
    ensures ready { AreReady result.now dag.now }
    ensures same { declared result.now ≡ declared state.now }
{
    let _dag = dag;
    match reads {
        Some(leaves) => leaves,
        None => state,
    }
}

// How many bits targets have.
fn bits(targets: &[Target]) -> u8
    requires { bits_in targets.now ≤ 64 }
    ensures { result ≡ bits_in targets.now }
{
    match targets {
        [first, rest @ ..] => first.count + bits(rest),
        [] => 0,
    }
}

/// Runs an assignment: the leaves then have the nodes of what their names hold after it, whatever the free words are.
/// Both sides are read from the leaves of the cycle before the edge, and where there are none, from those that stand
/// now. On an error the leaves are half changed.
#[tactic(auto, using(crate::proofs::Storing::set_kept, elab_step_expr::proofs::Kept::keeps_then, elab_step_expr::proofs::Kept::ready_kept, elab_step_expr::proofs::Kept::made_node))]
pub fn assign(
    alloc: Global,
    dag: &mut Dag,
    left: &Lval,
    right: &Expr,
    reads: Option<&Leaves>,
    state: &mut Leaves,
) -> Result<(), AllocError>
    requires set { AreSet (option_copied reads) state.old dag.old }
    requires store { IsReadyStore (declared state.old) left.now right.now }
    ensures keeps { Keeps dag.old dag.new }
    ensures same { declared state.new ≡ declared state.old }
    ensures set { IfOk result (λ u. AreSet (option_copied reads.entry) state.new dag.new) }
    ensures runs { IfOk result (λ u. Runs (option_copied reads.entry)
        (λ gs c d. store (flat gs) (seen (is_at_once
        (option_copied reads.entry)) c d) left.now right.now d) state.old dag.old state.new dag.new) }
{
    let targets = targets_of(alloc, dag, left, seen(dag, reads, state))?;
    let width = bits(&targets);
    let node = assigned_node(dag, right, width, seen(dag, reads, state))?;
    give(dag, &targets, Wire { node, width }, state)?;
    Ok(())
}

/// Whether a condition holds, as one bit.
#[tactic(auto, using(crate::proofs::Storing::set_kept, crate::proofs::Sides::single_alone, elab_step_expr::proofs::Kept::made_node))]
pub fn condition_node(
    dag: &mut Dag,
    condition: &Expr,
    reads: Option<&Leaves>,
    state: &Leaves,
) -> Result<u64, AllocError>
    requires set { AreSet (option_copied reads) state.now dag.old }
    requires single { IsSingle (declared state.now) condition.now }
    ensures keeps { Keeps dag.old dag.new }
    ensures set { AreSet (option_copied reads.entry) state.now dag.new }
    ensures node { IfOk result (λ i. IsNode dag.new i 1) }
    ensures tests { IfOk result (λ i. Tests (option_copied reads.entry)
        (λ gs p q. not (is_false (flat gs) (seen
        (is_at_once (option_copied reads.entry)) p q) condition.now)) state.now dag.old dag.new i) }
{
    let leaves = seen(dag, reads, state);
    let number = holds_node(dag, condition, leaves)?;
    Ok(number)
}

/// For each item of a case statement a bit that is 1 where one of its labels matches.
#[tactic(auto, using(crate::proofs::Storing::set_kept))]
pub fn case_tests(
    dag: &mut Dag,
    case: Case<'_>,
    reads: Option<&Leaves>,
    state: &Leaves,
) -> Result<Vec<u64>, AllocError>
    requires set { AreSet (option_copied reads) state.now dag.old }
    requires placed { ArePlaced (declared state.now) (case.subject.now ∷ each_labels case.items.now)
        (case_width (declared state.now) case.subject.now (each_labels case.items.now))
        (case_sign (declared state.now) case.subject.now (each_labels case.items.now)) }
    ensures keeps { Keeps dag.old dag.new }
    ensures set { AreSet (option_copied reads.entry) state.now dag.new }
    ensures bits { IfOk result (λ r. AreBits case.entry.items.now r.items dag.new) }
    ensures tests { IfOk result (λ r. AreTests (option_copied reads.entry)
        (λ gs. case_test (is_at_once (option_copied reads.entry))
        (flat gs) case.entry.kind case.entry.subject.now case.entry.items.now) state.now dag.old dag.new case.entry.items.now r.items) }
{
    let leaves = seen(dag, reads, state);
    let tests = item_tests(dag, case, leaves)?;
    Ok(tests)
}
