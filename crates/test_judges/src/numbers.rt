// The numbers of leaves, compared with values.

ghost use Rattle.std.specs.Prelude.{false, ◌≡◌, ◌<◌, ◌≤◌, ◌^◌, [], length, map, bit_and, nat_eq, IfOk};
ghost use Rattle.vlog_tree.specs.Value.{bit};
ghost use Rattle.word_dag.specs.Nodes.{FitFrom, FitsNode, FitsOp, op_value, width_of};
ghost use Rattle.word_dag.specs.Adding.{Adds, Keeps};
ghost use Rattle.word_dag.specs.Given.{is_free};
ghost use Rattle.elab_step_expr.specs.Leaves.{AreReady};
ghost use Rattle.elab_step_expr.specs.Nodes.{Makes, IsNode, number_at};
ghost use Rattle.test_judges.specs.Numbers.{nought, same_within, leaves_same, AreBelow};

use elab_step_expr::{Leaf, Leaves};
use std::alloc::{AllocError, Global};
use word_core::Word;
use word_dag::{Dag, Node, Op, Table, extract, value_at};

// Adds a node that isn't a free word; the older ones are kept also where it is refused.
#[tactic(auto, using(elab_step_expr::proofs::Kept::keeps_refused))]
fn put(dag: &mut Dag, node: Node) -> Result<u64, AllocError>
    requires fits { FitsNode (map width_of dag.old) node }
    requires bound { is_free node ≡ false }
    ensures fit { FitFrom [] dag.old }
    ensures keeps { Keeps dag.old dag.new }
    ensures adds { IfOk result (λ i. Adds dag.old dag.new node i) }
{
    // the nodes of a dag fit
    let _fit = dag.nodes();
    let number = dag.add(node)?;
    Ok(number)
}

/// A constant.
#[tactic(auto, using(elab_step_expr::proofs::Making::made_const))]
pub fn constant(dag: &mut Dag, width: u8, value: u64) -> Result<u64, AllocError>
    requires some { 1 ≤ width }
    requires most { width ≤ 64 }
    requires fits { value < 2 ^ width }
    ensures keeps { Keeps dag.old dag.new }
    ensures makes { IfOk result (λ r. Makes dag.new r width (λ e. value)) }
{
    let number = put(dag, Node::Const(Word::new(width, value)))?;
    Ok(number)
}

// The bits that two words of one length both have.
fn common(dag: &mut Dag, width: u8, a: u64, b: u64) -> Result<u64, AllocError>
    requires left { IsNode dag.old a width }
    requires right { IsNode dag.old b width }
    ensures keeps { Keeps dag.old dag.new }
    ensures makes { IfOk result (λ r. Makes dag.new r width
        (λ e. bit_and (number_at e dag.old a) (number_at e dag.old b))) }
{
    let number = put(
        dag,
        Node::Two {
            op: Op::And,
            width,
            a,
            b,
        },
    )?;
    Ok(number)
}

// Whether two words of one length are the same, as one bit.
fn equal(dag: &mut Dag, _width: u8, a: u64, b: u64) -> Result<u64, AllocError>
    requires left { IsNode dag.old a _width }
    requires right { IsNode dag.old b _width }
    ensures keeps { Keeps dag.old dag.new }
    ensures makes { IfOk result (λ r. Makes dag.new r 1
        (λ e. bit (nat_eq (number_at e dag.old a) (number_at e dag.old b)))) }
{
    let number = put(
        dag,
        Node::Two {
            op: Op::Eq,
            width: 1,
            a,
            b,
        },
    )?;
    Ok(number)
}

// Whether a leaf has the bits of a number under a mask, as one bit.
#[tactic(auto, using(elab_step_expr::proofs::Kept::keeps_then, elab_step_expr::proofs::Kept::made_node, elab_step_expr::proofs::Kept::node_kept))]
fn question(dag: &mut Dag, leaf: &Leaf, mask: u64, value: u64) -> Result<u64, AllocError>
    requires node { IsNode dag.old leaf.now.node leaf.now.width }
    requires some { 1 ≤ leaf.now.width }
    requires most { leaf.now.width ≤ 64 }
    requires mask { mask < 2 ^ leaf.now.width }
    requires value { value < 2 ^ leaf.now.width }
    ensures keeps { Keeps dag.old dag.new }
    ensures makes { IfOk result (λ r. Makes dag.new r 1
        (λ e. bit (same_within mask (number_at e dag.old leaf.now.node) value))) }
{
    let cover = constant(dag, leaf.width, mask)?;
    let bits = common(dag, leaf.width, leaf.node, cover)?;
    let wanted = constant(dag, leaf.width, value & mask)?;
    let number = equal(dag, leaf.width, bits, wanted)?;
    Ok(number)
}

// The number of a bit, the free words having the value 0.
fn is_one(alloc: Global, dag: &Dag, root: u64) -> Result<bool, AllocError>
    requires { IsNode dag.now root 1 }
    ensures { IfOk result (λ b. b ≡ nat_eq (number_at nought dag.now root) 1) }
{
    let ob = extract(alloc, dag, root)?;
    let mut table = Table::new(alloc, ob.nodes().len())?;
    Ok(value_at(&ob, &[], &mut table).value() == 1)
}

// Whether a leaf has the bits of a number under a mask.
fn same_within(
    alloc: Global,
    dag: &mut Dag,
    leaf: &Leaf,
    mask: u64,
    value: u64,
) -> Result<bool, AllocError>
    requires node { IsNode dag.old leaf.now.node leaf.now.width }
    requires some { 1 ≤ leaf.now.width }
    requires most { leaf.now.width ≤ 64 }
    requires mask { mask < 2 ^ leaf.now.width }
    requires value { value < 2 ^ leaf.now.width }
    ensures keeps { Keeps dag.old dag.new }
    ensures same { IfOk result (λ b. b ≡ same_within mask (number_at nought dag.old leaf.now.node) value) }
{
    let root = question(dag, leaf, mask, value)?;
    let same = is_one(alloc, dag, root)?;
    Ok(same)
}

/// Whether each leaf has its value, as far as its mask tells, the free words having the value 0.
pub fn leaves_same(
    alloc: Global,
    dag: &mut Dag,
    masks: &[u64],
    leaves: &Leaves,
    values: &[u64],
) -> Result<bool, AllocError>
    requires ready { AreReady leaves.now dag.old }
    requires masks { AreBelow leaves.now masks.now }
    requires values { AreBelow leaves.now values.now }
    requires each_mask { length masks.now ≡ length leaves.now }
    requires each_value { length values.now ≡ length leaves.now }
    ensures { IfOk result (λ b. b ≡ leaves_same (number_at nought dag.old) masks.now leaves.now values.now) }
{
    for i in 0..leaves.len() {
        let leaf = leaves.leaf(i);
        let same = same_within(alloc, dag, leaf, masks[i], values[i])?;
        if !same {
            return Ok(false);
        }
    }
    Ok(true)
}
