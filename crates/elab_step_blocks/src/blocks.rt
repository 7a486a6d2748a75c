// Blocks, run on nodes in the place of numbers.
ghost use Rattle.std.specs.Prelude.{◌≡◌, Option, IfOk};
ghost use Rattle.std.specs.Option.{option_copied};
ghost use Rattle.word_dag.specs.Adding.{Keeps};
ghost use Rattle.vlog_tree_runs.specs.Blocks.{is_default, run};
ghost use Rattle.elab_step_expr.specs.Leaves.{declared};
ghost use Rattle.elab_step_expr.specs.Nodes.{IsNode};
ghost use Rattle.elab_step_blocks.specs.Saving.{AreSaved};
ghost use Rattle.elab_step_blocks.specs.Sparing.{Covers, EachCovered};
ghost use Rattle.elab_step_blocks.specs.Standing.{flat};
ghost use Rattle.elab_step_blocks.specs.Ready.{IsReadyStmt, EachReadyStmt, EachReadyItem};
ghost use Rattle.elab_step_blocks.specs.Cases.{each_default};
ghost use Rattle.elab_step_blocks.specs.Runs.{is_at_once, AreSet, Runs, Branches, Guards, each_runs, AreBits, Picks, Takes, Chooses, IsDefaultAt};

use crate::branches::{Saved, join, replaced};
use crate::firsts::{first_of, or_matched, unmatched};
use crate::items::Case;
use crate::parts::{body, listed, one, part, statements};
use crate::places::{are_alike, before_items, before_one, before_two};
use crate::stores::{assign, case_tests, condition_node};
use elab_step_expr::{Leaves, constant};
use std::alloc::{AllocError, Global};
use vlog_tree::{CaseItem, Labels, Stmt};
use word_dag::Dag;

// The test of a branch, which is run where it is 1, and the nodes that stood before it.
#[derive(Clone, Copy)]
struct Fork<'a> {
    test: u64,
    before: &'a [Saved],
}

// The tests of the items of a case statement, a bit for each, and the nodes that stood before it.
#[derive(Clone, Copy)]
struct Forks<'a> {
    tests: &'a [u64],
    before: &'a [Saved],
}

fn is_default(labels: &Labels) -> bool
    ensures { result ≡ is_default labels.now }
{
    match labels {
        Labels::Exprs(_) => false,
        Labels::Default => true,
    }
}

// The place of the first item that is the default, or the number of items.
fn default_at(items: &[CaseItem]) -> usize
    ensures { IsDefaultAt items.now result }
{
    let mut at = 0;
    for item in items {
        if is_default(&item.labels) {
            return at;
        }
        at += 1;
    }
    at
}

/// Runs a statement: the leaves then have the nodes of what their names hold after it, whatever the free words are.
/// Expressions are read from the leaves of the cycle before the edge, and where there are none, assignments take effect
/// at once. On an error the leaves are half changed.
#[cycle(run)]
#[tactic(auto, using(crate::proofs::Storing::block_ready, elab_step_expr::proofs::Kept::keeps_then, elab_step_expr::proofs::Kept::keeps_same))]
pub fn run(
    alloc: Global,
    dag: &mut Dag,
    stmt: &Stmt,
    reads: Option<&Leaves>,
    state: &mut Leaves,
) -> Result<(), AllocError>
    requires set { AreSet (option_copied reads) state.old dag.old }
    requires stmt { IsReadyStmt (declared state.old) stmt.now }
    ensures keeps { Keeps dag.old dag.new }
    ensures same { declared state.new ≡ declared state.old }
    ensures set { IfOk result (λ u. AreSet (option_copied reads.entry) state.new dag.new) }
    ensures runs { IfOk result (λ u. Runs (option_copied reads.entry)
        (λ gs. run (is_at_once (option_copied reads.entry)) (flat gs) stmt.now) state.old dag.old state.new dag.new) }
{
    match stmt {
        Stmt::Empty => Ok(()),
        Stmt::Block(_, stmts) => {
            run_row(dag, statements(stmts, state), reads, state)?;
            Ok(())
        }
        Stmt::If(condition, body) => {
            let test = condition_node(dag, condition, reads, state)?;
            run_where(dag, part(body, state), test, reads, state)?;
            Ok(())
        }
        Stmt::IfElse(condition, body, other) => {
            let body = part(body, state);
            let other = part(other, state);
            let test = condition_node(dag, condition, reads, state)?;
            let before = before_two(alloc, body, other, state)?;
            run(alloc, dag, other, reads, state)?;
            let fork = Fork {
                test,
                before: &before,
            };
            branch(dag, body, fork, reads, state)?;
            Ok(())
        }
        Stmt::Case(kind, subject, items) => {
            let items = listed(items, state);
            let case = Case {
                kind: *kind,
                subject,
                items,
            };
            let tests = case_tests(dag, case, reads, state)?;
            run_chosen(dag, items, &tests, reads, state)?;
            Ok(())
        }
        Stmt::Blocking(left, right) | Stmt::Nonblocking(left, right) => {
            assign(alloc, dag, left, right, reads, state)?;
            Ok(())
        }
    }
}

// A branch: the statement is run on the nodes that stood before, and where a bit is 0, the leaves keep their nodes.
// Nodes are saved for all leaves that it may assign, so the others are left alone.
#[cycle(run)]
#[tactic(auto, using(elab_step_expr::proofs::Kept::keeps_then, elab_step_expr::proofs::Kept::keeps_same, elab_step_expr::proofs::Kept::node_kept))]
fn branch(
    dag: &mut Dag,
    body: &Stmt,
    fork: Fork<'_>,
    reads: Option<&Leaves>,
    state: &mut Leaves,
) -> Result<(), AllocError>
    requires set { AreSet (option_copied reads) state.old dag.old }
    requires before { AreSaved state.old fork.before.now dag.old }
    requires covers { Covers state.old fork.before.now body.now }
    requires test { IsNode dag.old fork.test 1 }
    requires stmt { IsReadyStmt (declared state.old) body.now }
    ensures keeps { Keeps dag.old dag.new }
    ensures same { declared state.new ≡ declared state.old }
    ensures set { IfOk result (λ u. AreSet (option_copied reads.entry) state.new dag.new) }
    ensures branches { IfOk result (λ u. Branches
        (option_copied reads.entry) body.now fork.entry.test fork.entry.before.now state.old dag.old state.new dag.new) }
{
    let others = replaced(state.allocator(), state, fork.before)?;
    run(state.allocator(), dag, body, reads, state)?;
    join(dag, fork.test, &others, state)?;
    Ok(())
}

// A statement that is run where a bit is 1.
#[cycle(run)]
#[tactic(auto, using(elab_step_expr::proofs::Kept::keeps_then, elab_step_expr::proofs::Kept::keeps_same, elab_step_expr::proofs::Kept::node_kept))]
fn run_where(
    dag: &mut Dag,
    body: &Stmt,
    test: u64,
    reads: Option<&Leaves>,
    state: &mut Leaves,
) -> Result<(), AllocError>
    requires set { AreSet (option_copied reads) state.old dag.old }
    requires test { IsNode dag.old test 1 }
    requires stmt { IsReadyStmt (declared state.old) body.now }
    ensures keeps { Keeps dag.old dag.new }
    ensures same { declared state.new ≡ declared state.old }
    ensures set { IfOk result (λ u. AreSet (option_copied reads.entry) state.new dag.new) }
    ensures guards { IfOk result (λ u. Guards
        (option_copied reads.entry) body.now test state.old dag.old state.new dag.new) }
{
    let before = before_one(state.allocator(), body, state)?;
    let fork = Fork {
        test,
        before: &before,
    };
    branch(dag, body, fork, reads, state)?;
    Ok(())
}

// Statements, one after another.
#[cycle(run)]
#[tactic(auto, using(elab_step_expr::proofs::Kept::keeps_then, elab_step_expr::proofs::Kept::keeps_same))]
fn run_row(
    dag: &mut Dag,
    stmts: &[Stmt],
    reads: Option<&Leaves>,
    state: &mut Leaves,
) -> Result<(), AllocError>
    requires set { AreSet (option_copied reads) state.old dag.old }
    requires stmts { EachReadyStmt (declared state.old) stmts.now }
    ensures keeps { Keeps dag.old dag.new }
    ensures same { declared state.new ≡ declared state.old }
    ensures set { IfOk result (λ u. AreSet (option_copied reads.entry) state.new dag.new) }
    ensures runs { IfOk result (λ u. Runs (option_copied reads.entry)
        (λ gs. each_runs (is_at_once (option_copied reads.entry))
        (flat gs) stmts.now) state.old dag.old state.new dag.new) }
{
    for stmt in stmts {
        run(state.allocator(), dag, one(stmt, state), reads, state)?;
    }
    Ok(())
}

// What stands for the default of a case statement.
#[cycle(run)]
#[tactic(auto, using(elab_step_expr::proofs::Kept::keeps_then, elab_step_expr::proofs::Kept::keeps_same))]
fn run_default(
    dag: &mut Dag,
    items: &[CaseItem],
    reads: Option<&Leaves>,
    state: &mut Leaves,
) -> Result<(), AllocError>
    requires set { AreSet (option_copied reads) state.old dag.old }
    requires items { EachReadyItem (declared state.old) items.now }
    ensures keeps { Keeps dag.old dag.new }
    ensures same { declared state.new ≡ declared state.old }
    ensures set { IfOk result (λ u. AreSet (option_copied reads.entry) state.new dag.new) }
    ensures runs { IfOk result (λ u. Runs (option_copied reads.entry)
        (λ gs. each_default (is_at_once (option_copied reads.entry))
        (flat gs) items.now) state.old dag.old state.new dag.new) }
{
    let at = default_at(items);
    if at < items.len() {
        run(
            state.allocator(),
            dag,
            body(&items[at], state),
            reads,
            state,
        )?;
    }
    Ok(())
}

// The items of a case statement, from the last to the first: the bodies are run on the nodes that stood before.
#[cycle(run)]
#[tactic(auto, using(elab_step_expr::proofs::Kept::keeps_then, elab_step_expr::proofs::Kept::keeps_same))]
fn run_items(
    dag: &mut Dag,
    items: &[CaseItem],
    forks: Forks<'_>,
    reads: Option<&Leaves>,
    state: &mut Leaves,
) -> Result<(), AllocError>
    requires set { AreSet (option_copied reads) state.old dag.old }
    requires items { EachReadyItem (declared state.old) items.now }
    requires tests { AreBits items.now forks.tests.now dag.old }
    requires before { AreSaved state.old forks.before.now dag.old }
    requires covers { EachCovered state.old forks.before.now items.now }
    ensures keeps { Keeps dag.old dag.new }
    ensures same { declared state.new ≡ declared state.old }
    ensures set { IfOk result (λ u. AreSet (option_copied reads.entry) state.new dag.new) }
    ensures picks { IfOk result (λ u. Picks (option_copied reads.entry) items.now forks.entry.tests.now forks.entry.before.now state.old dag.old state.new dag.new) }
{
    let mut left = items.len();
    while left > 0 {
        left -= 1;
        let item = &items[left];
        // no label of the default matches
        if is_default(&item.labels) {
            continue;
        }
        let fork = Fork {
            test: forks.tests[left],
            before: forks.before,
        };
        branch(dag, &item.body, fork, reads, state)?;
    }
    Ok(())
}

// The first item whose test is 1, or the default: the nodes of all leaves that one of them assigns are saved once, and
// joined for each item.
#[cycle(run)]
#[tactic(auto, using(elab_step_expr::proofs::Kept::keeps_then, elab_step_expr::proofs::Kept::keeps_same))]
fn run_joined(
    dag: &mut Dag,
    items: &[CaseItem],
    tests: &[u64],
    reads: Option<&Leaves>,
    state: &mut Leaves,
) -> Result<(), AllocError>
    requires set { AreSet (option_copied reads) state.old dag.old }
    requires items { EachReadyItem (declared state.old) items.now }
    requires tests { AreBits items.now tests.now dag.old }
    ensures keeps { Keeps dag.old dag.new }
    ensures same { declared state.new ≡ declared state.old }
    ensures set { IfOk result (λ u. AreSet (option_copied reads.entry) state.new dag.new) }
    ensures chooses { IfOk result (λ u. Chooses
        (option_copied reads.entry) items.now tests.now state.old dag.old state.new dag.new) }
{
    let before = before_items(state.allocator(), items, state)?;
    run_default(dag, items, reads, state)?;
    let forks = Forks {
        tests,
        before: &before,
    };
    run_items(dag, items, forks, reads, state)?;
    Ok(())
}

// The items of a case statement, from the first to the last, each where its test is 1 and no earlier one is. The result
// is a bit that is 1 where one of them is run.
#[cycle(run)]
#[tactic(auto, using(elab_step_expr::proofs::Kept::keeps_then, elab_step_expr::proofs::Kept::keeps_same))]
fn run_each(
    dag: &mut Dag,
    items: &[CaseItem],
    tests: &[u64],
    reads: Option<&Leaves>,
    state: &mut Leaves,
) -> Result<u64, AllocError>
    requires set { AreSet (option_copied reads) state.old dag.old }
    requires items { EachReadyItem (declared state.old) items.now }
    requires tests { AreBits items.now tests.now dag.old }
    ensures keeps { Keeps dag.old dag.new }
    ensures same { declared state.new ≡ declared state.old }
    ensures set { IfOk result (λ r. AreSet (option_copied reads.entry) state.new dag.new) }
    ensures node { IfOk result (λ r. IsNode dag.new r 1) }
    ensures takes { IfOk result (λ r. Takes (option_copied reads.entry) items.now tests.now r state.old dag.old state.new dag.new) }
{
    let mut matched = constant(dag, 1, 0)?;
    for at in 0..items.len() {
        let item = &items[at];
        // no label of the default matches
        if is_default(&item.labels) {
            continue;
        }
        let stmt = body(item, state);
        let test = tests[at];
        let first = first_of(dag, matched, test, reads, state)?;
        run_where(dag, stmt, first, reads, state)?;
        matched = or_matched(dag, matched, test)?;
    }
    Ok(matched)
}

// The first item whose test is 1, or the default: each is run where no other one is, so that only what it assigns
// itself is joined. It takes no more than the text is long, whichever leaves the items assign.
#[cycle(run)]
#[tactic(auto, using(elab_step_expr::proofs::Kept::keeps_then, elab_step_expr::proofs::Kept::keeps_same))]
fn run_apart(
    dag: &mut Dag,
    items: &[CaseItem],
    tests: &[u64],
    reads: Option<&Leaves>,
    state: &mut Leaves,
) -> Result<(), AllocError>
    requires set { AreSet (option_copied reads) state.old dag.old }
    requires items { EachReadyItem (declared state.old) items.now }
    requires tests { AreBits items.now tests.now dag.old }
    ensures keeps { Keeps dag.old dag.new }
    ensures same { declared state.new ≡ declared state.old }
    ensures set { IfOk result (λ u. AreSet (option_copied reads.entry) state.new dag.new) }
    ensures chooses { IfOk result (λ u. Chooses
        (option_copied reads.entry) items.now tests.now state.old dag.old state.new dag.new) }
{
    let matched = run_each(dag, items, tests, reads, state)?;
    let at = default_at(items);
    if at < items.len() {
        let stmt = body(&items[at], state);
        let rest = unmatched(dag, matched, reads, state)?;
        run_where(dag, stmt, rest, reads, state)?;
    }
    Ok(())
}

// The first item whose test is 1, or the default, joined whole or apart, by what costs less.
#[cycle(run)]
#[tactic(auto, using(elab_step_expr::proofs::Kept::keeps_then, elab_step_expr::proofs::Kept::keeps_same))]
fn run_chosen(
    dag: &mut Dag,
    items: &[CaseItem],
    tests: &[u64],
    reads: Option<&Leaves>,
    state: &mut Leaves,
) -> Result<(), AllocError>
    requires set { AreSet (option_copied reads) state.old dag.old }
    requires items { EachReadyItem (declared state.old) items.now }
    requires tests { AreBits items.now tests.now dag.old }
    ensures keeps { Keeps dag.old dag.new }
    ensures same { declared state.new ≡ declared state.old }
    ensures set { IfOk result (λ u. AreSet (option_copied reads.entry) state.new dag.new) }
    ensures chooses { IfOk result (λ u. Chooses
        (option_copied reads.entry) items.now tests.now state.old dag.old state.new dag.new) }
{
    if are_alike(state.allocator(), items, state)? {
        run_joined(dag, items, tests, reads, state)?;
        return Ok(());
    }
    run_apart(dag, items, tests, reads, state)?;
    Ok(())
}
