// Statements.

ghost use Rattle.std.specs.Prelude.{◌≡◌, ◌≤◌, IfOk, map};
ghost use Rattle.vlog_tree.specs.declared.stmt.Stmt.TheVariants as s;
ghost use Rattle.elab_flat_faults.specs.Drivers.{parts_of};
ghost use Rattle.mem_laws.specs.Spread.{spread, spread_left, lefts_length, spread_store, spread_labels, spread_stmt};
ghost use Rattle.mem_faults.specs.Asked.{HasEvaluable, EachEvaluable, HasEvaluableLeft, HasEvaluableLabels, HasEvaluableStmt, EachEvaluableStmt, EachEvaluableCase};
ghost use Rattle.mem_flat.specs.Cases.{spread_case};

use crate::spreader::Spreader;
use elab_flat_move::both;
use outside::Text;
use sqlite_items::{Boxed, Items};
use std::alloc::{AllocError, Global};
use vlog_tree::{CaseItem, CaseKind, Expr, Labels, Lval, Stmt};

fn copied(alloc: Global, name: &Option<Text>) -> Result<Option<Text>, AllocError>
    ensures { IfOk result (λ r. r ≡ name.now) }
{
    match name {
        Some(name) => Ok(Some(Text::copy(alloc, name.bytes())?)),
        None => Ok(None),
    }
}

impl Spreader<'_> {
    // Labels of a case item.
    fn labels(&self, labels: &Labels) -> Result<Labels, AllocError>
        requires { HasEvaluableLabels self.now.rest.now labels.now }
        ensures { IfOk result (λ r. r ≡ spread_labels self.now.rest.now labels.now) }
    {
        match labels {
            Labels::Exprs(exprs) => Ok(Labels::Exprs(self.exprs(exprs.as_slice())?)),
            Labels::Default => Ok(Labels::Default),
        }
    }

    /// A statement of the module without its memories.
    #[cycle(stmt)]
    pub fn stmt(&self, stmt: &Stmt) -> Result<Stmt, AllocError>
        requires { HasEvaluableStmt self.now.rest.now stmt.now }
        ensures { IfOk result (λ r. r ≡ spread_stmt self.now.rest.now stmt.now) }
    {
        match stmt {
            Stmt::Empty => Ok(Stmt::Empty),
            Stmt::Block(name, stmts) => self.block(stmts.as_slice(), name),
            Stmt::If(condition, body) => self.if_only(body.get(), condition),
            Stmt::IfElse(condition, body, other) => {
                let branches = both(self.branch(body.get()), self.branch(other.get()));
                let (condition, (body, other)) = both(self.expr(condition), branches)?;
                Ok(Stmt::IfElse(condition, body, other))
            }
            Stmt::Case(kind, subject, items) => self.case(items.as_slice(), *kind, subject),
            Stmt::Blocking(left, right) => self.blocking(left, right),
            Stmt::Nonblocking(left, right) => self.nonblocking(left, right),
        }
    }

    fn blocking(&self, left: &Lval, right: &Expr) -> Result<Stmt, AllocError>
        requires left { HasEvaluableLeft self.now.rest.now left.now }
        requires right { HasEvaluable self.now.rest.now right.now }
        ensures { IfOk result (λ r. r ≡ s.Blocking (spread_left self.now.rest.now left.now)
            (spread self.now.rest.now right.now)) }
    {
        let (left, right) = both(self.left(left), self.expr(right))?;
        Ok(Stmt::Blocking(left, right))
    }

    fn nonblocking(&self, left: &Lval, right: &Expr) -> Result<Stmt, AllocError>
        requires left { HasEvaluableLeft self.now.rest.now left.now }
        requires right { HasEvaluable self.now.rest.now right.now }
        requires few { lefts_length self.now.rest.now (parts_of left.now) ≤ 64 }
        ensures { IfOk result (λ r. r ≡ spread_store self.now.rest.now left.now (spread self.now.rest.now right.now)) }
    {
        self.store(left, self.expr(right)?)
    }

    #[cycle(stmt)]
    fn branch(&self, stmt: &Stmt) -> Result<Boxed<Stmt>, AllocError>
        requires { HasEvaluableStmt self.now.rest.now stmt.now }
        ensures { IfOk result (λ r. r ≡ spread_stmt self.now.rest.now stmt.now) }
    {
        Boxed::new(self.alloc, self.stmt(stmt)?)
    }

    #[cycle(stmt)]
    fn block(&self, stmts: &[Stmt], name: &Option<Text>) -> Result<Stmt, AllocError>
        requires { EachEvaluableStmt self.now.rest.now stmts.now }
        ensures { IfOk result (λ r. r ≡ s.Block name.now (map (spread_stmt self.now.rest.now) stmts.now)) }
    {
        let (name, stmts) = both(copied(self.alloc, name), self.stmts(stmts))?;
        Ok(Stmt::Block(name, stmts))
    }

    #[cycle(stmt)]
    fn if_only(&self, body: &Stmt, condition: &Expr) -> Result<Stmt, AllocError>
        requires body { HasEvaluableStmt self.now.rest.now body.now }
        requires condition { HasEvaluable self.now.rest.now condition.now }
        ensures { IfOk result (λ r. r ≡ s.If (spread self.now.rest.now condition.now)
            (spread_stmt self.now.rest.now body.now)) }
    {
        let (condition, body) = both(self.expr(condition), self.branch(body))?;
        Ok(Stmt::If(condition, body))
    }

    #[cycle(stmt)]
    fn case(&self, items: &[CaseItem], kind: CaseKind, subject: &Expr) -> Result<Stmt, AllocError>
        requires items { EachEvaluableCase self.now.rest.now items.now }
        requires subject { HasEvaluable self.now.rest.now subject.now }
        ensures { IfOk result (λ r. r ≡ s.Case kind (spread self.now.rest.now subject.now)
            (map (spread_case self.now.rest.now) items.now)) }
    {
        let (subject, items) = both(self.expr(subject), self.cases(items))?;
        Ok(Stmt::Case(kind, subject, items))
    }

    #[cycle(stmt)]
    fn stmts(&self, stmts: &[Stmt]) -> Result<Items<Stmt>, AllocError>
        requires { EachEvaluableStmt self.now.rest.now stmts.now }
        ensures { IfOk result (λ r. r ≡ map (spread_stmt self.now.rest.now) stmts.now) }
    {
        let mut all = Items::new(self.alloc);
        for stmt in stmts {
            all.push(self.stmt(stmt)?)?;
        }
        Ok(all)
    }

    #[cycle(stmt)]
    fn cases(&self, items: &[CaseItem]) -> Result<Items<CaseItem>, AllocError>
        requires { EachEvaluableCase self.now.rest.now items.now }
        ensures { IfOk result (λ r. r ≡ map (spread_case self.now.rest.now) items.now) }
    {
        let mut all = Items::new(self.alloc);
        for item in items {
            let (labels, body) = both(self.labels(&item.labels), self.stmt(&item.body))?;
            all.push(CaseItem { labels, body })?;
        }
        Ok(all)
    }
}
