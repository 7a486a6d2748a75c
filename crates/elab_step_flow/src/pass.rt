// One pass through the text of a block (IEEE 1364-2005, sections 9.2, 9.4, 9.5 and 9.8). The branches of a statement
// begin one after another where the statement does: what a branch changes is noted, and put back after it. So a
// statement takes time by what it names, and not by all that the block names.

ghost use Rattle.std.specs.Prelude.{◌≡◌, ◌↔◌, ◌∷◌, ℕ, Bool, false, true, [], map, length, List, MatchBool, OnOk, IfOk};
ghost use Rattle.vlog_tree.specs.declared.stmt.Lval.{Lval as Left};
ghost use Rattle.vlog_tree_runs.specs.Places.{Among};
ghost use Rattle.elab_flat_faults.specs.Drivers.{parts_of};
ghost use Rattle.elab_flat_drivers.specs.Claims.{IsPartReady};
ghost use Rattle.elab_step_flow.specs.Assigned.{AnyAt, IsAssigned};
ghost use Rattle.elab_step_flow.specs.Branches.{AnyAssigned, BranchTo, Gathered, bodies_of};
ghost use Rattle.elab_step_flow.specs.Cases.{at_rest, expr_meant, labels_of, IsComparable};
ghost use Rattle.elab_step_flow.specs.Passes.{AssignTo, EnterTo, LeadsPastEach, Passes, EachPasses, EachItemPasses};
ghost use Rattle.elab_step_flow.specs.Ready.{IsReady, EachReady, EachItemReady};
ghost use Rattle.elab_step_flow.specs.Sets.{Tables as Known, tables, IsSized, ChangesAt};
ghost use Rattle.elab_step_flow.specs.Shows.{AreDistinct};
ghost use Rattle.elab_step_flow.specs.Words.{AreNarrow};

use crate::assign::assign_left;
use crate::branches::{Branches, spots_at};
use crate::cases::{has_default, is_full, labels_of};
use crate::flow::BlockFlow;
use crate::places::{assigned, places_compared, places_read, places_tested};
use crate::scope::Scope;
use sqlite_items::{Boxed, Items};
use std::alloc::{AllocError, Global};
use vlog_tree::{CaseItem, CaseKind, Expr, Lval, Stmt};

/// After an assignment, with the places that the conditions around it count as.
pub fn pass_assignment(
    flow: &mut BlockFlow,
    scope: &Scope<'_>,
    around: &[usize],
    left: &Lval,
    right: &Expr,
) -> Result<(), AllocError>
    requires distinct { AreDistinct scope.now }
    requires narrow { AreNarrow scope.now }
    requires ready { (q : Left) → Among (parts_of left.now) q → IsPartReady q }
    requires sized { IsSized (length scope.now) flow.old }
    ensures assigned { OnOk result (AssignTo scope.now around.now left.now right.now (tables flow.old)
        (tables flow.new)) }
    ensures changes { OnOk result (ChangesAt (λ i. AnyAt scope.now (parts_of left.now) i) (tables flow.old)
        (tables flow.new)) }
    ensures sized { OnOk result (IsSized (length scope.now) flow.new) }
{
    let alloc = flow.allocator();
    let read = places_read(alloc, scope, left, right)?;
    let sources = flow.enter(alloc, &read, around)?;
    assign_left(flow, alloc, scope, left, &sources)
}

// Where a condition is read; what it counts as, with the conditions around it.
fn enter_test(
    flow: &mut BlockFlow,
    scope: &Scope<'_>,
    around: &[usize],
    test: &Expr,
) -> Result<Vec<usize>, AllocError>
    requires distinct { AreDistinct scope.now }
    requires sized { IsSized (length scope.now) flow.old }
    ensures enters { IfOk result (λ r. EnterTo scope.now around.now (test.now ∷ []) (tables flow.old)
        (tables flow.new) r.items) }
    ensures changes { OnOk result (ChangesAt (λ i. ⊥) (tables flow.old) (tables flow.new)) }
    ensures sized { OnOk result (IsSized (length scope.now) flow.new) }
{
    let alloc = flow.allocator();
    let read = places_tested(alloc, scope, test)?;
    let inner = flow.enter(alloc, &read, around)?;
    Ok(inner)
}

// No branch of a statement yet, where a path leads past all of them or none does.
fn branches_of(
    alloc: Global,
    scope: &Scope<'_>,
    stmt: &Stmt,
    past: bool,
) -> Result<Branches, AllocError>
    ensures spots { IfOk result (λ r. r.spots.items ≡ []) }
    ensures common { IfOk result (λ r. (i : ℕ) → Among r.common.items i ↔
        ((past ≡ false) × IsAssigned scope.now stmt.now i)) }
    ensures outside { IfOk result (λ r. r.outside.items ≡ []) }
{
    if past {
        return Ok(Branches::of(alloc, Vec::new(alloc)));
    }
    let places = assigned(alloc, scope, stmt)?;
    Ok(Branches::of(alloc, places))
}

// A case statement on its way through the pass: its kind, the case expression, and the items with all their labels in
// the order of the text.
#[derive(Clone, Copy)]
struct Case<'a> {
    kind: CaseKind,
    subject: &'a Expr,
    labels: &'a [&'a Expr],
    items: &'a [CaseItem],
}

impl<'a> Case<'a> {
    // Where the case expression and the labels are read; what they count as, with the conditions around them.
    fn enter(
        &self,
        flow: &mut BlockFlow,
        scope: &Scope<'_>,
        around: &[usize],
    ) -> Result<Vec<usize>, AllocError>
        requires distinct { AreDistinct scope.now }
        requires sized { IsSized (length scope.now) flow.old }
        ensures enters { IfOk result (λ r. EnterTo scope.now around.now
            (self.now.subject.now ∷ map expr_meant self.now.labels.now) (tables flow.old) (tables flow.new) r.items) }
        ensures changes { OnOk result (ChangesAt (λ i. ⊥) (tables flow.old) (tables flow.new)) }
        ensures sized { OnOk result (IsSized (length scope.now) flow.new) }
    {
        let alloc = flow.allocator();
        let read = places_compared(alloc, scope, self.subject, self.labels)?;
        let inner = flow.enter(alloc, &read, around)?;
        Ok(inner)
    }

    // Whether a path leads past the items.
    fn leads_past(&self, alloc: Global, scope: &Scope<'_>) -> Result<bool, AllocError>
        requires labels { map expr_meant self.now.labels.now ≡ labels_of self.now.items.now }
        requires ready { IsComparable (at_rest scope.now) self.now.subject.now (labels_of self.now.items.now) }
        ensures { IfOk result (λ r. MatchBool r (LeadsPastEach scope.now self.now.kind self.now.subject.now self.now.items.now) (LeadsPastEach scope.now self.now.kind self.now.subject.now self.now.items.now → ⊥)) }
    {
        if has_default(self.items) {
            return Ok(false);
        }
        let full = is_full(alloc, self.kind, self.subject, self.labels, scope)?;
        Ok(!full)
    }

    // Its branches, before the first item is passed.
    fn branches(
        &self,
        alloc: Global,
        scope: &Scope<'_>,
        stmt: &Stmt,
    ) -> Result<Branches, AllocError>
        requires labels { map expr_meant self.now.labels.now ≡ labels_of self.now.items.now }
        requires ready { IsComparable (at_rest scope.now) self.now.subject.now (labels_of self.now.items.now) }
        ensures spots { IfOk result (λ r. r.spots.items ≡ []) }
        ensures common { IfOk result (λ r. (past : Bool) ×
            MatchBool past (LeadsPastEach scope.now self.now.kind self.now.subject.now self.now.items.now)
            (LeadsPastEach scope.now self.now.kind self.now.subject.now self.now.items.now → ⊥)
            × ((i : ℕ) → Among r.common.items i ↔ ((past ≡ false) × IsAssigned scope.now stmt.now i))) }
        ensures outside { IfOk result (λ r. r.outside.items ≡ []) }
    {
        let past = self.leads_past(alloc, scope)?;
        let branches = branches_of(alloc, scope, stmt, past)?;
        Ok(branches)
    }
}

/// After a statement, with the places that the conditions around it count as.
#[cycle(pass)]
pub fn pass(
    flow: &mut BlockFlow,
    scope: &Scope<'_>,
    around: &[usize],
    stmt: &Stmt,
) -> Result<(), AllocError>
    requires distinct { AreDistinct scope.now }
    requires narrow { AreNarrow scope.now }
    requires ready { IsReady scope.now stmt.now }
    requires sized { IsSized (length scope.now) flow.old }
    ensures passes { OnOk result (Passes scope.now around.now stmt.now (tables flow.old) (tables flow.new)) }
    ensures changes { OnOk result (ChangesAt (λ i. IsAssigned scope.now stmt.now i) (tables flow.old)
        (tables flow.new)) }
    ensures sized { OnOk result (IsSized (length scope.now) flow.new) }
{
    let alloc = flow.allocator();
    match stmt {
        Stmt::Empty => Ok(()),
        Stmt::Block(_, stmts) => pass_row(flow, scope, around, stmts.as_slice()),
        Stmt::If(test, body) => {
            let body = body.get();
            let inner = enter_test(flow, scope, around, test)?;
            let mut branches = branches_of(alloc, scope, stmt, true)?;
            pass_branch(&mut branches, flow, scope, &inner, body)?;
            flow.join(alloc, &branches)
        }
        Stmt::IfElse(test, body, other) => {
            let body = body.get();
            let other = other.get();
            let inner = enter_test(flow, scope, around, test)?;
            let mut branches = branches_of(alloc, scope, stmt, false)?;
            pass_branch(&mut branches, flow, scope, &inner, body)?;
            pass_branch(&mut branches, flow, scope, &inner, other)?;
            flow.join(alloc, &branches)
        }
        Stmt::Case(kind, subject, items) => {
            let items = items.as_slice();
            let labels = labels_of(alloc, items)?;
            let case = Case {
                kind: *kind,
                subject,
                labels: &labels,
                items,
            };
            let inner = case.enter(flow, scope, around)?;
            let mut branches = case.branches(alloc, scope, stmt)?;
            pass_items(&mut branches, flow, scope, &inner, items)?;
            flow.join(alloc, &branches)
        }
        Stmt::Blocking(left, right) | Stmt::Nonblocking(left, right) => {
            pass_assignment(flow, scope, around, left, right)
        }
    }
}

// Statements, one after another.
#[cycle(pass)]
fn pass_row(
    flow: &mut BlockFlow,
    scope: &Scope<'_>,
    around: &[usize],
    stmts: &[Stmt],
) -> Result<(), AllocError>
    requires distinct { AreDistinct scope.now }
    requires narrow { AreNarrow scope.now }
    requires ready { EachReady scope.now stmts.now }
    requires sized { IsSized (length scope.now) flow.old }
    ensures passes { OnOk result (EachPasses scope.now around.now stmts.now (tables flow.old) (tables flow.new)) }
    ensures changes { OnOk result (ChangesAt (λ i. AnyAssigned scope.now stmts.now i) (tables flow.old)
        (tables flow.new)) }
    ensures sized { OnOk result (IsSized (length scope.now) flow.new) }
{
    for stmt in stmts {
        pass(flow, scope, around, stmt)?;
    }
    Ok(())
}

// A branch of a statement, after which the flow is what it was before.
#[cycle(pass)]
fn pass_branch(
    branches: &mut Branches,
    flow: &mut BlockFlow,
    scope: &Scope<'_>,
    around: &[usize],
    body: &Stmt,
) -> Result<(), AllocError>
    requires distinct { AreDistinct scope.now }
    requires narrow { AreNarrow scope.now }
    requires ready { IsReady scope.now body.now }
    requires sized { IsSized (length scope.now) flow.old }
    ensures branch { OnOk result ((u : Known) × Passes scope.now around.now body.now (tables flow.old) u ×
        BranchTo scope.now body.now (tables flow.old) u branches.old branches.new) }
    ensures back { OnOk result (tables flow.new ≡ tables flow.old) }
    ensures sized { OnOk result (IsSized (length scope.now) flow.new) }
{
    let alloc = flow.allocator();
    let places = assigned(alloc, scope, body)?;
    let before = spots_at(alloc, flow, &places)?;
    let reads = flow.outside.len();
    pass(flow, scope, around, body)?;
    branches.add(alloc, flow, &places, reads)?;
    flow.put_back(alloc, &before)?;
    flow.outside.truncate(reads);
    Ok(())
}

// The items of a case statement.
#[cycle(pass)]
fn pass_items(
    branches: &mut Branches,
    flow: &mut BlockFlow,
    scope: &Scope<'_>,
    around: &[usize],
    items: &[CaseItem],
) -> Result<(), AllocError>
    requires distinct { AreDistinct scope.now }
    requires narrow { AreNarrow scope.now }
    requires ready { EachItemReady scope.now items.now }
    requires sized { IsSized (length scope.now) flow.old }
    requires spots { branches.old.spots.items ≡ [] }
    requires outside { branches.old.outside.items ≡ [] }
    ensures items { OnOk result ((us : List Known) ×
        EachItemPasses scope.now around.now items.now (tables flow.old) us ×
        Gathered scope.now (bodies_of items.now) (tables flow.old) us branches.old.common.items branches.new) }
    ensures back { OnOk result (tables flow.new ≡ tables flow.old) }
    ensures sized { OnOk result (IsSized (length scope.now) flow.new) }
{
    for item in items {
        pass_branch(branches, flow, scope, around, &item.body)?;
    }
    Ok(())
}
