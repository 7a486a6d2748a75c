// Operators as nodes.
ghost use Rattle.std.specs.Prelude.{◌≡◌, ◌≢◌, ◌+◌, ◌-◌, ◌*◌, ◌/◌, ◌%◌, ◌^◌, ◌<◌, ◌≤◌, min, [], IfOk, nat_eq, not, true, false, Bool, int_lt, if◌then◌else◌};
ghost use Rattle.word_core.specs.Words.{flag};
ghost use Rattle.word_dag.specs.Nodes.{FitFrom, FitsOp, op_value};
ghost use Rattle.word_dag.specs.Adding.{Keeps};
ghost use Rattle.vlog_tree.specs.Valuation.{IsLength};
ghost use Rattle.vlog_tree.specs.Value.{bit, integer};
ghost use Rattle.vlog_tree_values.specs.declared.operators.Family.TheVariants as family;
ghost use Rattle.vlog_tree_values.specs.Operators.{family_of, arithmetic_of, shift_of, order_of, equality_of, logic_of};
ghost use Rattle.elab_step_expr.specs.Nodes.{Makes, IsNode, IsWire, number_at, wire_word};

use crate::nodes::{Wire, constant, turned, two};
use std::alloc::AllocError;
use vlog_tree::Binary;
use word_dag::{Dag, Op};

/// The length of a node, which is from 1 to 64.
#[tactic(auto, using(crate::proofs::Kept::node_long))]
pub fn length_of(dag: &Dag, a: Wire) -> u8
    requires { IsWire dag.now a }
    ensures same { result ≡ a.width }
    ensures long { IsLength a.width }
    ensures fit { FitFrom [] dag.now }
{
    // the nodes of a dag fit
    let _fit = dag.nodes();
    a.width
}

/// Whether a word is 0.
#[tactic(auto, using(crate::proofs::Kept::keeps_then, crate::proofs::Kept::node_kept))]
pub fn is_zero(dag: &mut Dag, a: Wire) -> Result<u64, AllocError>
    requires { IsWire dag.old a }
    ensures keeps { Keeps dag.old dag.new }
    ensures makes { IfOk result (λ r. Makes dag.new r 1 (λ e. bit (nat_eq (number_at e dag.old a.node) 0))) }
{
    let width = length_of(dag, a);
    let zero = constant(dag, width, 0)?;
    let number = two(dag, Op::Eq, 1, a, Wire { node: zero, width })?;
    Ok(number)
}

/// One bit turned.
pub fn inverse(dag: &mut Dag, bit: u64) -> Result<u64, AllocError>
    requires { IsNode dag.old bit 1 }
    ensures keeps { Keeps dag.old dag.new }
    ensures makes { IfOk result (λ r. Makes dag.new r 1 (λ e. 1 - number_at e dag.old bit)) }
{
    let number = turned(
        dag,
        Wire {
            node: bit,
            width: 1,
        },
    )?;
    Ok(number)
}

// The difference of two words of one length.
fn difference(dag: &mut Dag, a: Wire, b: Wire) -> Result<u64, AllocError>
    requires left { IsWire dag.old a }
    requires right { IsWire dag.old b }
    requires same { a.width ≡ b.width }
    ensures keeps { Keeps dag.old dag.new }
    ensures makes { IfOk result (λ r. Makes dag.new r a.width
        (λ e. (number_at e dag.old a.node + 2 ^ a.width - number_at e dag.old b.node) % 2 ^ a.width)) }
{
    let number = two(dag, Op::Sub, a.width, a, b)?;
    Ok(number)
}

// The bits in which two words of one length are the same.
#[tactic(auto, using(crate::proofs::Kept::keeps_then, crate::proofs::Kept::made_node))]
fn same_bits(dag: &mut Dag, a: Wire, b: Wire) -> Result<u64, AllocError>
    requires left { IsWire dag.old a }
    requires right { IsWire dag.old b }
    requires same { a.width ≡ b.width }
    ensures keeps { Keeps dag.old dag.new }
    ensures makes { IfOk result (λ r. Makes dag.new r a.width
        (λ e. arithmetic_of Binary.BitXnor a.width (number_at e dag.old a.node) (number_at e dag.old b.node))) }
{
    let other = two(dag, Op::Xor, a.width, a, b)?;
    let number = turned(
        dag,
        Wire {
            node: other,
            width: a.width,
        },
    )?;
    Ok(number)
}

/// The result of an operator on two words of one length.
pub fn arithmetic(dag: &mut Dag, op: Binary, a: Wire, b: Wire) -> Result<u64, AllocError>
    requires left { IsWire dag.old a }
    requires right { IsWire dag.old b }
    requires family { family_of op ≡ family.Arithmetic }
    requires same { a.width ≡ b.width }
    ensures keeps { Keeps dag.old dag.new }
    ensures makes { IfOk result (λ r. Makes dag.new r a.width
        (λ e. arithmetic_of op a.width (number_at e dag.old a.node) (number_at e dag.old b.node))) }
{
    match op {
        Binary::Mul => two(dag, Op::Mul, a.width, a, b),
        Binary::Add => two(dag, Op::Add, a.width, a, b),
        Binary::Sub => difference(dag, a, b),
        Binary::BitAnd => two(dag, Op::And, a.width, a, b),
        Binary::BitXor => two(dag, Op::Xor, a.width, a, b),
        Binary::BitXnor => same_bits(dag, a, b),
        Binary::BitOr => two(dag, Op::Or, a.width, a, b),
        _ => unreachable!(),
    }
}

// A word moved down; its top bit is repeated where it is signed.
fn moved_down(dag: &mut Dag, a: Wire, b: Wire, signed: bool) -> Result<u64, AllocError>
    requires left { IsWire dag.old a }
    requires right { IsWire dag.old b }
    ensures keeps { Keeps dag.old dag.new }
    ensures makes { IfOk result (λ r. Makes dag.new r a.width
        (λ e. shift_of Binary.ArithmeticShr a.width signed (number_at e dag.old a.node)
        (min (number_at e dag.old b.node) a.width))) }
{
    if signed {
        let number = two(dag, Op::Sar, a.width, a, b)?;
        return Ok(number);
    }
    let number = two(dag, Op::Shr, a.width, a, b)?;
    Ok(number)
}

/// A word moved by the number of another, which has any length; `>>>` repeats the top bit where the word is signed.
pub fn shifted(dag: &mut Dag, op: Binary, a: Wire, b: Wire, signed: bool) -> Result<u64, AllocError>
    requires left { IsWire dag.old a }
    requires right { IsWire dag.old b }
    requires family { family_of op ≡ family.Shift }
    ensures keeps { Keeps dag.old dag.new }
    ensures makes { IfOk result (λ r. Makes dag.new r a.width
        (λ e. shift_of op a.width signed (number_at e dag.old a.node) (min (number_at e dag.old b.node) a.width))) }
{
    match op {
        Binary::Shl => two(dag, Op::Shl, a.width, a, b),
        Binary::ArithmeticShl => two(dag, Op::Shl, a.width, a, b),
        Binary::Shr => two(dag, Op::Shr, a.width, a, b),
        Binary::ArithmeticShr => moved_down(dag, a, b, signed),
        _ => unreachable!(),
    }
}

// Whether the integer of a word is below that of another of its length.
fn less(dag: &mut Dag, a: Wire, b: Wire, signed: bool) -> Result<u64, AllocError>
    requires left { IsWire dag.old a }
    requires right { IsWire dag.old b }
    requires same { a.width ≡ b.width }
    ensures keeps { Keeps dag.old dag.new }
    ensures makes { IfOk result (λ r. Makes dag.new r 1
        (λ e. bit (int_lt (integer signed a.width (number_at e dag.old a.node))
        (integer signed b.width (number_at e dag.old b.node))))) }
{
    if signed {
        let number = two(dag, Op::Slt, 1, a, b)?;
        return Ok(number);
    }
    let number = two(dag, Op::Ult, 1, a, b)?;
    Ok(number)
}

// Whether it is not.
#[tactic(auto, using(crate::proofs::Kept::keeps_then, crate::proofs::Kept::made_node))]
fn not_less(dag: &mut Dag, a: Wire, b: Wire, signed: bool) -> Result<u64, AllocError>
    requires left { IsWire dag.old a }
    requires right { IsWire dag.old b }
    requires same { a.width ≡ b.width }
    ensures keeps { Keeps dag.old dag.new }
    ensures makes { IfOk result (λ r. Makes dag.new r 1
        (λ e. bit (not (int_lt (integer signed a.width (number_at e dag.old a.node))
        (integer signed b.width (number_at e dag.old b.node)))))) }
{
    let below = less(dag, a, b, signed)?;
    let number = inverse(dag, below)?;
    Ok(number)
}

/// How two words of one length compare as integers by their sign.
pub fn ordered(dag: &mut Dag, op: Binary, a: Wire, b: Wire, signed: bool) -> Result<u64, AllocError>
    requires left { IsWire dag.old a }
    requires right { IsWire dag.old b }
    requires family { family_of op ≡ family.Order }
    requires same { a.width ≡ b.width }
    ensures keeps { Keeps dag.old dag.new }
    ensures makes { IfOk result (λ r. Makes dag.new r 1
        (λ e. bit (order_of op (integer signed a.width (number_at e dag.old a.node))
        (integer signed a.width (number_at e dag.old b.node))))) }
{
    match op {
        Binary::Less => less(dag, a, b, signed),
        Binary::LessEqual => not_less(dag, b, a, signed),
        Binary::Greater => less(dag, b, a, signed),
        Binary::GreaterEqual => not_less(dag, a, b, signed),
        _ => unreachable!(),
    }
}

/// Whether two words of one length have the same number, or not the same.
pub fn equal(dag: &mut Dag, op: Binary, a: Wire, b: Wire) -> Result<u64, AllocError>
    requires left { IsWire dag.old a }
    requires right { IsWire dag.old b }
    requires family { family_of op ≡ family.Equality }
    requires same { a.width ≡ b.width }
    ensures keeps { Keeps dag.old dag.new }
    ensures makes { IfOk result (λ r. Makes dag.new r 1
        (λ e. bit (equality_of op (number_at e dag.old a.node) (number_at e dag.old b.node)))) }
{
    match op {
        Binary::Equal => two(dag, Op::Eq, 1, a, b),
        Binary::NotEqual => different(dag, a, b),
        _ => unreachable!(),
    }
}

// Whether two words of one length have different numbers.
#[tactic(auto, using(crate::proofs::Kept::keeps_then, crate::proofs::Kept::made_node))]
fn different(dag: &mut Dag, a: Wire, b: Wire) -> Result<u64, AllocError>
    requires left { IsWire dag.old a }
    requires right { IsWire dag.old b }
    requires same { a.width ≡ b.width }
    ensures keeps { Keeps dag.old dag.new }
    ensures makes { IfOk result (λ r. Makes dag.new r 1
        (λ e. bit (not (nat_eq (number_at e dag.old a.node) (number_at e dag.old b.node))))) }
{
    let same = two(dag, Op::Eq, 1, a, b)?;
    let number = inverse(dag, same)?;
    Ok(number)
}

/// Whether a word isn't 0.
#[tactic(auto, using(crate::proofs::Kept::keeps_then, crate::proofs::Kept::made_node))]
pub fn truth(dag: &mut Dag, a: Wire) -> Result<u64, AllocError>
    requires { IsWire dag.old a }
    ensures keeps { Keeps dag.old dag.new }
    ensures makes { IfOk result (λ r. Makes dag.new r 1 (λ e. bit (not (nat_eq (number_at e dag.old a.node) 0)))) }
{
    let zero = is_zero(dag, a)?;
    let number = inverse(dag, zero)?;
    Ok(number)
}

// The bit of two bits.
fn both(dag: &mut Dag, op: Op, a: u64, b: u64) -> Result<u64, AllocError>
    requires left { IsNode dag.old a 1 }
    requires right { IsNode dag.old b 1 }
    requires fits { FitsOp op 1 1 1 }
    ensures keeps { Keeps dag.old dag.new }
    ensures makes { IfOk result (λ r. Makes dag.new r 1
        (λ e. (op_value op (wire_word e dag.old (record { node = a; width = 1 }))
        (wire_word e dag.old (record { node = b; width = 1 }))).value)) }
{
    let number = two(
        dag,
        op,
        1,
        Wire { node: a, width: 1 },
        Wire { node: b, width: 1 },
    )?;
    Ok(number)
}

// How `&&` and `||` take two bits.
fn bit_op(op: Binary) -> Op
    requires { family_of op ≡ family.Logic }
    ensures bits { (x y : Bool) → (op_value result (flag x) (flag y)).value ≡ bit (logic_of op x y) }
    ensures fits { FitsOp result 1 1 1 }
{
    match op {
        Binary::LogicalAnd => Op::And,
        Binary::LogicalOr => Op::Or,
        _ => unreachable!(),
    }
}

/// Whether both words aren't 0, or one isn't.
#[tactic(auto, using(crate::proofs::Kept::keeps_then, crate::proofs::Kept::made_node, crate::proofs::Kept::node_kept))]
pub fn logic(dag: &mut Dag, op: Binary, a: Wire, b: Wire) -> Result<u64, AllocError>
    requires left { IsWire dag.old a }
    requires right { IsWire dag.old b }
    requires family { family_of op ≡ family.Logic }
    ensures keeps { Keeps dag.old dag.new }
    ensures makes { IfOk result (λ r. Makes dag.new r 1
        (λ e. bit (logic_of op (not (nat_eq (number_at e dag.old a.node) 0))
        (not (nat_eq (number_at e dag.old b.node) 0))))) }
{
    let left = truth(dag, a)?;
    let right = truth(dag, b)?;
    let number = both(dag, bit_op(op), left, right)?;
    Ok(number)
}
