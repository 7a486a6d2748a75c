// Single nodes of a dag, each with the number that it has whatever the free words are.
ghost use Rattle.std.specs.Prelude.{false, ◌≡◌, ◌+◌, ◌-◌, ◌/◌, ◌%◌, ◌^◌, ◌<◌, ◌≤◌, [], map, IfOk, nat_eq, if◌then◌else◌};
ghost use Rattle.word_dag.specs.Nodes.{FitFrom, FitsNode, FitsOp, op_value, width_of};
ghost use Rattle.word_dag.specs.Adding.{Adds, Keeps};
ghost use Rattle.word_dag.specs.Given.{is_free};
ghost use Rattle.vlog_tree.specs.Value.{extend};
ghost use Rattle.elab_step_expr.specs.Nodes.{Makes, IsNode, IsWire, number_at, wire_word};

use std::alloc::AllocError;
use word_core::Word;
use word_dag::{Dag, Node, Op};

/// A node, and its length in bits.
#[derive(Clone, Copy)]
pub struct Wire {
    pub node: u64,
    pub width: u8,
}

// Adds a node that isn't a free word; the older ones are kept also where it is refused.
#[tactic(auto, using(crate::proofs::Kept::keeps_refused))]
fn put(dag: &mut Dag, node: Node) -> Result<u64, AllocError>
    requires fits { FitsNode (map width_of dag.old) node }
    requires bound { is_free node ≡ false }
    ensures fit { FitFrom [] dag.old }
    ensures keeps { Keeps dag.old dag.new }
    ensures adds { IfOk result (λ i. Adds dag.old dag.new node i) }
{
    // the nodes of a dag fit
    let _fit = dag.nodes();
    let number = dag.add(node)?;
    Ok(number)
}

/// A constant.
pub fn constant(dag: &mut Dag, width: u8, value: u64) -> Result<u64, AllocError>
    requires some { 1 ≤ width }
    requires most { width ≤ 64 }
    requires fits { value < 2 ^ width }
    ensures keeps { Keeps dag.old dag.new }
    ensures makes { IfOk result (λ r. Makes dag.new r width (λ e. value)) }
{
    let number = put(dag, Node::Const(Word::new(width, value)))?;
    Ok(number)
}

/// An operation on two words.
pub fn two(dag: &mut Dag, op: Op, width: u8, a: Wire, b: Wire) -> Result<u64, AllocError>
    requires left { IsWire dag.old a }
    requires right { IsWire dag.old b }
    requires fits { FitsOp op width a.width b.width }
    ensures fit { FitFrom [] dag.old }
    ensures keeps { Keeps dag.old dag.new }
    ensures makes { IfOk result (λ r. Makes dag.new r width
        (λ e. (op_value op (wire_word e dag.old a) (wire_word e dag.old b)).value)) }
{
    let number = put(
        dag,
        Node::Two {
            op,
            width,
            a: a.node,
            b: b.node,
        },
    )?;
    Ok(number)
}

/// Each bit turned.
pub fn turned(dag: &mut Dag, a: Wire) -> Result<u64, AllocError>
    requires { IsWire dag.old a }
    ensures keeps { Keeps dag.old dag.new }
    ensures makes { IfOk result (λ r. Makes dag.new r a.width (λ e. 2 ^ a.width - 1 - number_at e dag.old a.node)) }
{
    let number = put(
        dag,
        Node::Not {
            width: a.width,
            a: a.node,
        },
    )?;
    Ok(number)
}

/// So many bits from one upwards.
pub fn slice(dag: &mut Dag, a: Wire, lo: u8, width: u8) -> Result<u64, AllocError>
    requires node { IsWire dag.old a }
    requires some { 1 ≤ width }
    requires within { lo + width ≤ a.width }
    ensures keeps { Keeps dag.old dag.new }
    ensures makes { IfOk result (λ r. Makes dag.new r width (λ e. number_at e dag.old a.node / 2 ^ lo % 2 ^ width)) }
{
    let number = put(
        dag,
        Node::Slice {
            width,
            a: a.node,
            lo,
        },
    )?;
    Ok(number)
}

/// A word at a length that is at least its own: where it is signed, its top bit is repeated.
pub fn extended(dag: &mut Dag, a: Wire, length: u8, signed: bool) -> Result<u64, AllocError>
    requires node { IsWire dag.old a }
    requires wider { a.width ≤ length }
    requires most { length ≤ 64 }
    ensures keeps { Keeps dag.old dag.new }
    ensures makes { IfOk result (λ r. Makes dag.new r length
        (λ e. extend signed a.width length (number_at e dag.old a.node))) }
{
    if signed {
        let number = put(
            dag,
            Node::Sext {
                width: length,
                a: a.node,
            },
        )?;
        return Ok(number);
    }
    let number = put(
        dag,
        Node::Zext {
            width: length,
            a: a.node,
        },
    )?;
    Ok(number)
}

/// One of two words of a length: the first where the bit is 1.
pub fn choice(dag: &mut Dag, bit: u64, a: Wire, b: Wire) -> Result<u64, AllocError>
    requires bit { IsNode dag.old bit 1 }
    requires left { IsWire dag.old a }
    requires right { IsWire dag.old b }
    requires same { a.width ≡ b.width }
    ensures keeps { Keeps dag.old dag.new }
    ensures makes { IfOk result (λ r. Makes dag.new r a.width
        (λ e. if nat_eq (number_at e dag.old bit) 1 then number_at e dag.old a.node else number_at e dag.old b.node)) }
{
    let number = put(
        dag,
        Node::Mux {
            width: a.width,
            c: bit,
            a: a.node,
            b: b.node,
        },
    )?;
    Ok(number)
}
