// The parts of a left side.
ghost use Rattle.std.specs.Prelude.{◌≡◌, ◌≤◌, ◌≤ℤ◌, ◌<ℤ◌, ℤ, pos, negsuc, ◌^◌, ◌<◌, ◌+ℤ◌, ◌-ℤ◌, List, [], ◌∷◌, IfOk};
ghost use Rattle.word_dag.specs.declared.node.Node.{Node};
ghost use Rattle.word_dag.specs.Adding.{Keeps};
ghost use Rattle.vlog_tree.specs.declared.stmt.Lval.TheVariants as l;
ghost use Rattle.vlog_tree.specs.Value.{Stands, IsFormed, NamesOnly, IsPartConstant, operand_of, own_integer, part_width, natural};
ghost use Rattle.vlog_tree.specs.Valuation.{IsLength};
ghost use Rattle.vlog_tree_runs.specs.Places.{read};
ghost use Rattle.elab_step_expr.specs.Leaves.{AreReady, declared};
ghost use Rattle.elab_step_expr.specs.Terms.{nothing};
ghost use Rattle.vlog_tree.specs.declared.expr.Span.TheVariants as w;
ghost use Rattle.elab_step_blocks.specs.Ready.{IsSingle, IsReadyLeft, EachReadyLeft};
ghost use Rattle.elab_step_blocks.specs.Lefts.{IsLeafAt, IsIndex, IsPart, AreParts};

use crate::targets::{Spot, Target};
use elab_step_expr::{Leaves, Own, Wire, node_of, shape};
use outside::Text;
use sqlite_items::Items;
use std::alloc::{AllocError, Global};
use vlog_tree::{Expr, Lval, Span};
use vlog_tree_values::{evaluated, integer};
use word_dag::Dag;

/// The number of a name's leaf.
pub fn leaf_number(name: &Text, leaves: &Leaves) -> usize
    requires { Stands (declared leaves.now) (read name.now) }
    ensures { IsLeafAt leaves.now name.now result }
{
    match leaves.place(name.bytes(), 0) {
        Some(number) => number,
        None => unreachable!(),
    }
}

// The node of an index.
#[tactic(auto, using(crate::proofs::Sides::single_taken))]
fn index_of(dag: &mut Dag, expr: &Expr, leaves: &Leaves) -> Result<Own, AllocError>
    requires ready { AreReady leaves.now dag.old }
    requires alone { IsSingle (declared leaves.now) expr.now }
    ensures keeps { Keeps dag.old dag.new }
    ensures ready { AreReady leaves.now dag.new }
    ensures index { IfOk result (λ o. IsIndex leaves.now dag.new expr.now o) }
{
    let own = shape(expr, leaves)?;
    let node = node_of(dag, expr, own.0, own.1, leaves)?;
    let wire = Wire { node, width: own.0 };
    Ok(Own {
        wire,
        signed: own.1,
    })
}

// The integer of an expression without names.
fn constant_of(expr: &Expr, leaves: &Leaves) -> Result<i128, AllocError>
    requires { IsSingle (declared leaves.now) expr.now }
    ensures value { IfOk result (λ i. i ≡ own_integer (operand_of (declared leaves.now) expr.now)) }
    ensures low { IfOk result (λ i. negsuc (2 ^ 64) ≤ℤ i) }
    ensures high { IfOk result (λ i. i <ℤ pos (2 ^ 64)) }
{
    match evaluated(leaves.allocator(), expr, leaves.declared())? {
        Some((word, signed)) => Ok(integer(word, signed)),
        None => unreachable!(),
    }
}

// A number of bits.
fn counted(number: i128) -> u8
    requires { IsLength (natural number) }
    ensures { result ≡ natural number }
{
    number as u8
}

// How many bits `[high:low]` has.
fn between(high: i128, low: i128) -> u8
    requires above { negsuc (2 ^ 64) ≤ℤ high }
    requires below { high <ℤ pos (2 ^ 64) }
    requires from { negsuc (2 ^ 64) ≤ℤ low }
    requires to { low <ℤ pos (2 ^ 64) }
    requires count { IsLength (part_width w.Fixed high low) }
    ensures { result ≡ part_width w.Fixed high low }
{
    counted(high - low + 1)
}

// A number less that of a signal's lowest bit.
fn less(number: i128, low: u64) -> i128
    requires above { negsuc (2 ^ 64) ≤ℤ number }
    requires below { number <ℤ pos (2 ^ 64) }
    ensures value { result ≡ (number -ℤ pos low) }
    ensures small { low < 2 ^ 64 }
{
    number - i128::from(low)
}

// The number of a signal's lowest bit, and so many more.
fn plus(low: u64, more: u8) -> i128
    ensures value { result ≡ (pos low +ℤ pos more) }
    ensures small { low < 2 ^ 64 }
    ensures few { more < 2 ^ 8 }
{
    i128::from(low) + i128::from(more)
}

// A whole signal as a target.
fn whole(name: &Text, leaves: &Leaves) -> Target
    requires { Stands (declared leaves.now) (read name.now) }
    ensures { (ns : List Node) → IsPart leaves.now ns result (l.Name name.now) }
{
    // each leaf has from 1 to 64 bits
    let _wide = leaves.declared();
    let leaf = leaf_number(name, leaves);
    Target {
        leaf,
        spot: Spot::Fixed(0),
        count: leaves.leaf(leaf).width,
    }
}

// The bit of a signal that an index names.
fn selected(dag: &mut Dag, name: &Text, index: &Expr, leaves: &Leaves) -> Result<Target, AllocError>
    requires ready { AreReady leaves.now dag.old }
    requires name { Stands (declared leaves.now) (read name.now) }
    requires index { IsSingle (declared leaves.now) index.now }
    ensures keeps { Keeps dag.old dag.new }
    ensures ready { AreReady leaves.now dag.new }
    ensures part { IfOk result (λ t. IsPart leaves.now dag.new t (l.Select name.now index.now)) }
{
    let leaf = leaf_number(name, leaves);
    let index = index_of(dag, index, leaves)?;
    let from = plus(leaves.leaf(leaf).low, 0);
    Ok(Target {
        leaf,
        spot: Spot::Indexed(index, from),
        count: 1,
    })
}

// The two expressions of a part-select: the first and the last bit, or where the bits begin and how many they are.
#[derive(Clone, Copy)]
struct Bounds<'a> {
    a: &'a Expr,
    b: &'a Expr,
}

// The bits of `[a:b]`.
fn fixed(name: &Text, bounds: Bounds<'_>, leaves: &Leaves) -> Result<Target, AllocError>
    requires name { Stands (declared leaves.now) (read name.now) }
    requires high { IsSingle (declared leaves.now) bounds.a.now }
    requires low { IsSingle (declared leaves.now) bounds.b.now }
    requires constant { IsPartConstant nothing w.Fixed bounds.a.now bounds.b.now }
    requires count { IsLength (part_width w.Fixed (own_integer (operand_of (declared leaves.now) bounds.a.now))
        (own_integer (operand_of (declared leaves.now) bounds.b.now))) }
    ensures { IfOk result (λ t. (ns : List Node) →
        IsPart leaves.now ns t (l.Part name.now w.Fixed bounds.entry.a.now bounds.entry.b.now)) }
{
    let leaf = leaf_number(name, leaves);
    let high = constant_of(bounds.a, leaves)?;
    let low = constant_of(bounds.b, leaves)?;
    Ok(Target {
        leaf,
        spot: Spot::Fixed(less(low, leaves.leaf(leaf).low)),
        count: between(high, low),
    })
}

// The bits of `[a +: b]`.
fn upward(
    dag: &mut Dag,
    name: &Text,
    bounds: Bounds<'_>,
    leaves: &Leaves,
) -> Result<Target, AllocError>
    requires ready { AreReady leaves.now dag.old }
    requires name { Stands (declared leaves.now) (read name.now) }
    requires base { IsSingle (declared leaves.now) bounds.a.now }
    requires width { IsSingle (declared leaves.now) bounds.b.now }
    requires constant { IsPartConstant nothing w.Up bounds.a.now bounds.b.now }
    requires count { IsLength (part_width w.Up (own_integer (operand_of (declared leaves.now) bounds.a.now))
        (own_integer (operand_of (declared leaves.now) bounds.b.now))) }
    ensures keeps { Keeps dag.old dag.new }
    ensures ready { AreReady leaves.now dag.new }
    ensures part { IfOk result (λ t. IsPart leaves.now dag.new t
        (l.Part name.now w.Up bounds.entry.a.now bounds.entry.b.now)) }
{
    let leaf = leaf_number(name, leaves);
    let number = constant_of(bounds.b, leaves)?;
    let count = counted(number);
    let index = index_of(dag, bounds.a, leaves)?;
    let from = plus(leaves.leaf(leaf).low, 0);
    Ok(Target {
        leaf,
        spot: Spot::Indexed(index, from),
        count,
    })
}

// The bits of `[a -: b]`.
fn downward(
    dag: &mut Dag,
    name: &Text,
    bounds: Bounds<'_>,
    leaves: &Leaves,
) -> Result<Target, AllocError>
    requires ready { AreReady leaves.now dag.old }
    requires name { Stands (declared leaves.now) (read name.now) }
    requires base { IsSingle (declared leaves.now) bounds.a.now }
    requires width { IsSingle (declared leaves.now) bounds.b.now }
    requires constant { IsPartConstant nothing w.Down bounds.a.now bounds.b.now }
    requires count { IsLength (part_width w.Down (own_integer (operand_of (declared leaves.now) bounds.a.now))
        (own_integer (operand_of (declared leaves.now) bounds.b.now))) }
    ensures keeps { Keeps dag.old dag.new }
    ensures ready { AreReady leaves.now dag.new }
    ensures part { IfOk result (λ t. IsPart leaves.now dag.new t
        (l.Part name.now w.Down bounds.entry.a.now bounds.entry.b.now)) }
{
    let leaf = leaf_number(name, leaves);
    let number = constant_of(bounds.b, leaves)?;
    let count = counted(number);
    let index = index_of(dag, bounds.a, leaves)?;
    let from = plus(leaves.leaf(leaf).low, count - 1);
    Ok(Target {
        leaf,
        spot: Spot::Indexed(index, from),
        count,
    })
}

// The bits of a part-select.
fn part(
    dag: &mut Dag,
    name: &Text,
    span: Span,
    bounds: Bounds<'_>,
    leaves: &Leaves,
) -> Result<Target, AllocError>
    requires ready { AreReady leaves.now dag.old }
    requires part { IsReadyLeft (declared leaves.now) (l.Part name.now span bounds.a.now bounds.b.now) }
    ensures keeps { Keeps dag.old dag.new }
    ensures ready { AreReady leaves.now dag.new }
    ensures part { IfOk result (λ t. IsPart leaves.now dag.new t
        (l.Part name.now span bounds.entry.a.now bounds.entry.b.now)) }
{
    match span {
        Span::Fixed => {
            let target = fixed(name, bounds, leaves)?;
            Ok(target)
        }
        Span::Up => upward(dag, name, bounds, leaves),
        Span::Down => downward(dag, name, bounds, leaves),
    }
}

// One target.
fn only(alloc: Global, target: Target) -> Result<Vec<Target>, AllocError>
    ensures { IfOk result (λ r. r.items ≡ target ∷ []) }
{
    let mut targets = Vec::new(alloc);
    targets.push(target)?;
    Ok(targets)
}

/// The parts of a concatenation.
pub fn row<'a>(lefts: &'a Items<Lval>, leaves: &Leaves) -> &'a [Lval]
    requires { EachReadyLeft (declared leaves.now) lefts.now }
    ensures same { result.now ≡ lefts.now }
    ensures ready { EachReadyLeft (declared leaves.now) result.now }
{
    let _leaves = leaves;
    lefts.as_slice()
}

/// One of them.
pub fn one<'a>(left: &'a Lval, leaves: &Leaves) -> &'a Lval
    requires { IsReadyLeft (declared leaves.now) left.now }
    ensures same { result.now ≡ left.now }
    ensures ready { IsReadyLeft (declared leaves.now) result.now }
{
    let _leaves = leaves;
    left
}

/// The parts of a left side from the left, its indices read as the leaves stand.
#[cycle(left)]
#[tactic(auto, using(crate::proofs::Sides::concat_ready, elab_step_expr::proofs::Kept::keeps_then))]
pub fn targets_of(
    alloc: Global,
    dag: &mut Dag,
    left: &Lval,
    leaves: &Leaves,
) -> Result<Vec<Target>, AllocError>
    requires ready { AreReady leaves.now dag.old }
    requires left { IsReadyLeft (declared leaves.now) left.now }
    ensures keeps { Keeps dag.old dag.new }
    ensures ready { AreReady leaves.now dag.new }
    ensures parts { IfOk result (λ r. AreParts leaves.now dag.new r.items (left.now ∷ [])) }
{
    match left {
        Lval::Name(name) => {
            let targets = only(alloc, whole(name, leaves))?;
            Ok(targets)
        }
        Lval::Select(name, index) => {
            let target = selected(dag, name, index, leaves)?;
            let targets = only(alloc, target)?;
            Ok(targets)
        }
        Lval::Part(name, span, a, b) => {
            let target = part(dag, name, *span, Bounds { a, b }, leaves)?;
            let targets = only(alloc, target)?;
            Ok(targets)
        }
        Lval::Concat(lefts) => {
            let targets = row_targets(alloc, dag, row(lefts, leaves), leaves)?;
            Ok(targets)
        }
    }
}

// The parts of a row of left sides.
#[cycle(left)]
#[tactic(auto, using(elab_step_expr::proofs::Kept::keeps_then, elab_step_expr::proofs::Kept::keeps_same))]
fn row_targets(
    alloc: Global,
    dag: &mut Dag,
    lefts: &[Lval],
    leaves: &Leaves,
) -> Result<Vec<Target>, AllocError>
    requires ready { AreReady leaves.now dag.old }
    requires lefts { EachReadyLeft (declared leaves.now) lefts.now }
    ensures keeps { Keeps dag.old dag.new }
    ensures ready { AreReady leaves.now dag.new }
    ensures parts { IfOk result (λ r. AreParts leaves.now dag.new r.items lefts.now) }
{
    let mut all = Vec::new(alloc);
    for left in lefts {
        let mut more = targets_of(alloc, dag, one(left, leaves), leaves)?;
        all.append(&mut more)?;
    }
    Ok(all)
}
