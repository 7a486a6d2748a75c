// The formulas of a set as nodes.
ghost use Rattle.std.specs.Prelude.{◌≡◌, ◌+◌, ◌-◌, ◌≤◌, List, drop, length, IfOk};
ghost use Rattle.std.specs.List.{All};
ghost use Rattle.vlog_tree.specs.Valuation.{IsLength};
ghost use Rattle.word_dag.specs.Nodes.{Naming};
ghost use Rattle.word_dag.specs.Adding.{Keeps};
ghost use Rattle.twin_tests_laws.specs.Tests.{all_below, meets_constraints};
ghost use Rattle.set_tree.specs.Formulas.{largest_offset, meaning_of};
ghost use Rattle.set_tree.specs.Meaning.{Row, holds, all_hold};
ghost use Rattle.twin_tests.specs.Building.{AreLeaves, HasWidth, IsWide, Shows, Counts, Tests, IsReadable};
ghost use Rattle.twin_tests.specs.Reading.{HasStructure};

use crate::leaves::leaves_of;
use crate::window::{NodeRow, rows_before};
use crate::words::{both, constant, nonzero};
use elab_step_expr::value_node;
use set_tree::Set;
use set_tree_structure::largest;
use std::alloc::{AllocError, Global};
use vlog_tree::Expr;
use word_dag::Dag;

/// The node of a formula of a set, whose names are read in rows of nodes. Its number is the formula's value, whatever
/// the free words are. On an error the nodes that were there stay as they were.
pub fn formula_node(
    alloc: Global,
    dag: &mut Dag,
    set: &Set,
    rows: &[NodeRow],
    formula: &Expr,
) -> Result<u64, AllocError>
    requires widths { All (λ n. IsLength n.width) set.now.names }
    requires readable { IsReadable set.now (length rows.now) formula.now }
    requires leaves { AreLeaves set.now.names dag.old rows.now }
    ensures keeps { Keeps dag.old dag.new }
    ensures wide { IfOk result (λ i. IsWide dag.new i) }
    ensures node { IfOk result (λ i. (f : Naming → List Row) → Shows set.now.names dag.old rows.now f →
        Counts dag.new i (λ e. (meaning_of set.now).value formula.now (f e))) }
{
    let count = largest(formula) as usize + 1;
    let leaves = leaves_of(
        alloc,
        set.names.as_slice(),
        rows_before(rows, count),
        formula,
    )?;
    // the nodes of a dag fit
    let _fit = dag.nodes();
    value_node(dag, formula, &leaves)
}

/// Whether a formula of a set holds in the first row.
#[tactic(auto, using(elab_step_expr::proofs::Kept::keeps_then))]
pub fn test_node(
    alloc: Global,
    dag: &mut Dag,
    set: &Set,
    rows: &[NodeRow],
    formula: &Expr,
) -> Result<u64, AllocError>
    requires widths { All (λ n. IsLength n.width) set.now.names }
    requires readable { IsReadable set.now (length rows.now) formula.now }
    requires leaves { AreLeaves set.now.names dag.old rows.now }
    ensures keeps { IfOk result (λ _. Keeps dag.old dag.new) }
    ensures width { IfOk result (λ i. HasWidth dag.new i 1) }
    ensures node { IfOk result (λ i. (f : Naming → List Row) → Shows set.now.names dag.old rows.now f →
        Tests dag.new i (λ e. holds (meaning_of set.now) formula.now (f e))) }
{
    let value = formula_node(alloc, dag, set, rows, formula)?;
    nonzero(dag, value)
}

/// Whether each of these formulas of a set holds in the first row.
pub fn all_node(
    alloc: Global,
    dag: &mut Dag,
    set: &Set,
    rows: &[NodeRow],
    formulas: &[Expr],
) -> Result<u64, AllocError>
    requires widths { All (λ n. IsLength n.width) set.now.names }
    requires readable { All (IsReadable set.now (length rows.now)) formulas.now }
    requires leaves { AreLeaves set.now.names dag.old rows.now }
    ensures keeps { IfOk result (λ _. Keeps dag.old dag.new) }
    ensures width { IfOk result (λ i. HasWidth dag.new i 1) }
    ensures node { IfOk result (λ i. (f : Naming → List Row) → Shows set.now.names dag.old rows.now f →
        Tests dag.new i (λ e. all_hold (meaning_of set.now) formulas.now (f e))) }
{
    let mut all = constant(dag, true)?;
    for formula in formulas {
        let one = test_node(alloc, dag, set, rows, formula)?;
        all = both(dag, all, one)?;
    }
    Ok(all)
}

/// The rows from this one on.
pub fn rows_after(rows: &[NodeRow], t: usize) -> &[NodeRow]
    requires { t ≤ length rows.now }
    ensures { result.now ≡ drop t rows.now }
{
    &rows[t..]
}

/// Whether a formula of a set holds wherever its largest offset fits into the rows.
pub fn throughout_node(
    alloc: Global,
    dag: &mut Dag,
    set: &Set,
    rows: &[NodeRow],
    formula: &Expr,
) -> Result<u64, AllocError>
    requires widths { All (λ n. IsLength n.width) set.now.names }
    requires readable { IsReadable set.now (largest_offset formula.now + 1) formula.now }
    requires leaves { AreLeaves set.now.names dag.old rows.now }
    ensures keeps { IfOk result (λ _. Keeps dag.old dag.new) }
    ensures width { IfOk result (λ i. HasWidth dag.new i 1) }
    ensures node { IfOk result (λ i. (f : Naming → List Row) → Shows set.now.names dag.old rows.now f →
        Tests dag.new i (λ e. all_below (length (f e) - largest_offset formula.now)
        (λ t. holds (meaning_of set.now) formula.now (drop t (f e))))) }
{
    let count = rows.len().saturating_sub(largest(formula) as usize);
    let mut all = constant(dag, true)?;
    for t in 0..count {
        let later = rows_after(rows, t);
        let one = test_node(alloc, dag, set, later, formula)?;
        all = both(dag, all, one)?;
    }
    Ok(all)
}

/// Whether each constraint of a set holds wherever its largest offset fits into the rows.
pub fn constraints_node(
    alloc: Global,
    dag: &mut Dag,
    set: &Set,
    rows: &[NodeRow],
) -> Result<u64, AllocError>
    requires structure { HasStructure set.now }
    requires leaves { AreLeaves set.now.names dag.old rows.now }
    ensures keeps { IfOk result (λ _. Keeps dag.old dag.new) }
    ensures width { IfOk result (λ i. HasWidth dag.new i 1) }
    ensures node { IfOk result (λ i. (f : Naming → List Row) → Shows set.now.names dag.old rows.now f →
        Tests dag.new i (λ e. meets_constraints (meaning_of set.now) set.now (f e))) }
{
    let mut all = constant(dag, true)?;
    for rule in set.constraints.as_slice() {
        let one = throughout_node(alloc, dag, set, rows, &rule.formula)?;
        all = both(dag, all, one)?;
    }
    Ok(all)
}
