// The labels of a case statement.
ghost use Rattle.std.specs.Prelude.{◌≡◌, ◌≤◌, ◌%◌, ◌^◌, IfOk, bit_or, nat_eq};
ghost use Rattle.std.specs.List.{list_any};
ghost use Rattle.word_dag.specs.Adding.{Keeps};
ghost use Rattle.vlog_tree.specs.declared.stmt.Labels.TheVariants as b;
ghost use Rattle.vlog_tree.specs.Value.{bit, value_of};
ghost use Rattle.vlog_tree_runs.specs.Blocks.{ignored};
ghost use Rattle.elab_step_expr.specs.Leaves.{AreReady, declared, valued};
ghost use Rattle.elab_step_expr.specs.Nodes.{Makes, IsNode, number_at, words, IsWire};
ghost use Rattle.elab_step_blocks.specs.Ready.{IsPlaced, ArePlaced};
ghost use Rattle.elab_step_blocks.specs.Cases.{is_same_but, is_match, is_chosen};

use elab_step_expr::{Leaves, Wire, constant, length_of, node_of, two};
use std::alloc::AllocError;
use vlog_tree::{CaseKind, Expr, Labels};
use vlog_tree_values::low_bits;
use word_dag::{Dag, Op};

/// What the labels of a case statement of some kind are compared with: its case expression, at the length and the sign
/// at which they are compared.
#[derive(Clone, Copy)]
pub struct Subject {
    pub kind: CaseKind,
    pub wire: Wire,
    pub signed: bool,
}

// The bits of a label that aren't compared.
fn ignored(kind: CaseKind, label: &Expr) -> u64
    ensures { result ≡ ignored kind label.now }
{
    match kind {
        CaseKind::Case => 0,
        CaseKind::Casez => match label {
            Expr::Number(number) => number.wild,
            _ => 0,
        },
    }
}

// A word with bits set.
#[tactic(auto, using(elab_step_expr::proofs::Kept::keeps_then, elab_step_expr::proofs::Kept::made_node, elab_step_expr::proofs::Kept::node_kept))]
fn with_bits(dag: &mut Dag, a: Wire, bits: u64) -> Result<u64, AllocError>
    requires { IsWire dag.old a }
    ensures keeps { Keeps dag.old dag.new }
    ensures makes { IfOk result (λ r. Makes dag.new r a.width
        (λ e. bit_or (number_at e dag.old a.node) (bits % 2 ^ a.width))) }
{
    let width = length_of(dag, a);
    let node = constant(dag, width, low_bits(bits, width).value())?;
    let number = two(dag, Op::Or, width, a, Wire { node, width })?;
    Ok(number)
}

// Whether two words of one length are the same but for some bits.
#[tactic(auto, using(elab_step_expr::proofs::Kept::keeps_then, elab_step_expr::proofs::Kept::made_node, elab_step_expr::proofs::Kept::node_kept))]
fn same_but(dag: &mut Dag, a: Wire, b: Wire, bits: u64) -> Result<u64, AllocError>
    requires left { IsWire dag.old a }
    requires right { IsWire dag.old b }
    requires same { a.width ≡ b.width }
    ensures keeps { Keeps dag.old dag.new }
    ensures makes { IfOk result (λ r. Makes dag.new r 1
        (λ e. bit (is_same_but bits (number_at e dag.old a.node) (number_at e dag.old b.node)))) }
{
    // a node has from 1 to 64 bits
    let _length = length_of(dag, a);
    if bits == 0 {
        let number = two(dag, Op::Eq, 1, a, b)?;
        return Ok(number);
    }
    let left = with_bits(dag, a, bits)?;
    let right = with_bits(dag, b, bits)?;
    let left = Wire {
        node: left,
        width: a.width,
    };
    let right = Wire {
        node: right,
        width: b.width,
    };
    let number = two(dag, Op::Eq, 1, left, right)?;
    Ok(number)
}

// Whether a label matches the case expression.
#[tactic(auto, using(crate::proofs::Sides::placed_taken, elab_step_expr::proofs::Kept::keeps_then, elab_step_expr::proofs::Kept::made_node, elab_step_expr::proofs::Kept::node_kept))]
fn label_node(
    dag: &mut Dag,
    subject: Subject,
    label: &Expr,
    leaves: &Leaves,
) -> Result<u64, AllocError>
    requires ready { AreReady leaves.now dag.old }
    requires subject { IsWire dag.old subject.wire }
    requires label { IsPlaced (declared leaves.now) label.now subject.wire.width subject.signed }
    ensures keeps { Keeps dag.old dag.new }
    ensures makes { IfOk result (λ r. Makes dag.new r 1
        (λ e. bit (is_match subject.kind (valued leaves.now (words e dag.old)) subject.wire.width subject.signed
        (number_at e dag.old subject.wire.node) label.now))) }
{
    let width = subject.wire.width;
    let node = node_of(dag, label, width, subject.signed, leaves)?;
    let unlike = ignored(subject.kind, label);
    let number = same_but(dag, subject.wire, Wire { node, width }, unlike)?;
    Ok(number)
}

// One bit or another.
#[tactic(auto, using(elab_step_expr::proofs::Kept::made_node))]
fn either(dag: &mut Dag, a: u64, b: u64) -> Result<u64, AllocError>
    requires left { IsNode dag.old a 1 }
    requires right { IsNode dag.old b 1 }
    ensures keeps { Keeps dag.old dag.new }
    ensures makes { IfOk result (λ r. Makes dag.new r 1 (λ e. bit_or (number_at e dag.old a) (number_at e dag.old b))) }
{
    let number = two(
        dag,
        Op::Or,
        1,
        Wire { node: a, width: 1 },
        Wire { node: b, width: 1 },
    )?;
    Ok(number)
}

/// Whether one of some labels matches.
#[tactic(auto, using(elab_step_expr::proofs::Kept::keeps_then, elab_step_expr::proofs::Kept::keeps_same, elab_step_expr::proofs::Kept::made_node, elab_step_expr::proofs::Kept::node_kept, elab_step_expr::proofs::Kept::ready_kept))]
pub fn any_node(
    dag: &mut Dag,
    subject: Subject,
    labels: &[Expr],
    leaves: &Leaves,
) -> Result<u64, AllocError>
    requires ready { AreReady leaves.now dag.old }
    requires subject { IsWire dag.old subject.wire }
    requires labels { ArePlaced (declared leaves.now) labels.now subject.wire.width subject.signed }
    ensures keeps { Keeps dag.old dag.new }
    ensures makes { IfOk result (λ r. Makes dag.new r 1
        (λ e. bit (list_any (is_match subject.kind
        (valued leaves.now (words e dag.old)) subject.wire.width subject.signed
        (number_at e dag.old subject.wire.node)) labels.now))) }
{
    let mut any = constant(dag, 1, 0)?;
    for label in labels {
        let one = label_node(dag, subject, label, leaves)?;
        any = either(dag, any, one)?;
    }
    Ok(any)
}
