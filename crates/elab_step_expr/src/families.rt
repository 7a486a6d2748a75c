// Operators by their families.
ghost use Rattle.std.specs.Prelude.{◌≡◌, ◌≤◌, IfOk, true, false, nat_eq, if◌then◌else◌};
ghost use Rattle.word_dag.specs.Adding.{Keeps};
ghost use Rattle.vlog_tree_values.specs.declared.operators.Family.TheVariants as family;
ghost use Rattle.vlog_tree_values.specs.Operators.{family_of, is_reduction, joined_number, made_number, PlacesFit};
ghost use Rattle.elab_step_expr.specs.Nodes.{Makes, IsNode, IsWire, number_at};

use crate::nodes::{Wire, choice, extended};
use crate::operators::{arithmetic, equal, is_zero, logic, ordered, shifted};
use crate::reductions::{reduction, sign_change};
use std::alloc::AllocError;
use vlog_tree::{Binary, Unary};
use vlog_tree_values::{Family, family_of, is_reduction};
use word_dag::Dag;

// One bit at a length.
fn one_bit(dag: &mut Dag, bit: u64, length: u8) -> Result<u64, AllocError>
    requires node { IsNode dag.old bit 1 }
    requires some { 1 ≤ length }
    requires most { length ≤ 64 }
    ensures keeps { Keeps dag.old dag.new }
    ensures makes { IfOk result (λ r. Makes dag.new r length (λ e. number_at e dag.old bit)) }
{
    let number = extended(
        dag,
        Wire {
            node: bit,
            width: 1,
        },
        length,
        false,
    )?;
    Ok(number)
}

/// The node of an operator that doesn't divide, at the length and the sign of its expression, from those of its
/// operands, which are compared by the sign `sign`.
#[tactic(auto, using(crate::proofs::Kept::keeps_then, crate::proofs::Kept::made_node))]
pub fn joined(
    dag: &mut Dag,
    op: Binary,
    here: (u8, bool),
    sign: bool,
    a: Wire,
    b: Wire,
) -> Result<u64, AllocError>
    requires left { IsWire dag.old a }
    requires right { IsWire dag.old b }
    requires some { 1 ≤ here.0 }
    requires most { here.0 ≤ 64 }
    requires fits { PlacesFit (family_of op) here.0 a.width b.width }
    requires divides { family_of op ≡ family.Division → ⊥ }
    ensures keeps { Keeps dag.old dag.new }
    ensures makes { IfOk result (λ r. Makes dag.new r here.0
        (λ e. joined_number (family_of op) op here.0 here.1 a.width sign (number_at e dag.old a.node)
        (number_at e dag.old b.node))) }
{
    match family_of(op) {
        Family::Arithmetic => {
            let number = arithmetic(dag, op, a, b)?;
            Ok(number)
        }
        Family::Division => unreachable!(),
        Family::Shift => {
            let number = shifted(dag, op, a, b, here.1)?;
            Ok(number)
        }
        Family::Order => {
            let bit = ordered(dag, op, a, b, sign)?;
            let number = one_bit(dag, bit, here.0)?;
            Ok(number)
        }
        Family::Equality => {
            let bit = equal(dag, op, a, b)?;
            let number = one_bit(dag, bit, here.0)?;
            Ok(number)
        }
        Family::Logic => {
            let bit = logic(dag, op, a, b)?;
            let number = one_bit(dag, bit, here.0)?;
            Ok(number)
        }
    }
}

/// The node of a unary operator at a length.
#[tactic(auto, using(crate::proofs::Kept::keeps_then, crate::proofs::Kept::made_node))]
pub fn made(dag: &mut Dag, op: Unary, length: u8, inner: Wire) -> Result<u64, AllocError>
    requires node { IsWire dag.old inner }
    requires some { 1 ≤ length }
    requires most { length ≤ 64 }
    requires fits { is_reduction op ≡ false → inner.width ≡ length }
    ensures keeps { Keeps dag.old dag.new }
    ensures makes { IfOk result (λ r. Makes dag.new r length
        (λ e. made_number op inner.width (number_at e dag.old inner.node))) }
{
    if is_reduction(op) {
        let bit = reduction(dag, op, inner)?;
        let number = one_bit(dag, bit, length)?;
        return Ok(number);
    }
    let number = sign_change(dag, op, inner)?;
    Ok(number)
}

/// One of two words of a length: the first where a word isn't 0.
#[tactic(auto, using(crate::proofs::Kept::keeps_then, crate::proofs::Kept::made_node, crate::proofs::Kept::node_kept))]
pub fn chosen(dag: &mut Dag, condition: Wire, a: Wire, b: Wire) -> Result<u64, AllocError>
    requires condition { IsWire dag.old condition }
    requires left { IsWire dag.old a }
    requires right { IsWire dag.old b }
    requires same { a.width ≡ b.width }
    ensures keeps { Keeps dag.old dag.new }
    ensures makes { IfOk result (λ r. Makes dag.new r b.width
        (λ e. if nat_eq (number_at e dag.old condition.node) 0 then number_at e dag.old b.node else number_at e dag.old a.node)) }
{
    let zero = is_zero(dag, condition)?;
    let number = choice(dag, zero, b, a)?;
    Ok(number)
}
