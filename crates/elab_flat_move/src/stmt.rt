// Statements.

ghost use Rattle.std.specs.Prelude.{◌≡◌, IfOk, map};
ghost use Rattle.vlog_tree.specs.declared.stmt.Stmt.TheVariants as s;
ghost use Rattle.elab_flat_laws.specs.Moved.{moved, moved_left, moved_labels, moved_stmt};
ghost use Rattle.elab_flat_move.specs.Cases.{moved_case};

use crate::expr::Mover;
use crate::pair::both;
use outside::Text;
use sqlite_items::{Boxed, Items};
use std::alloc::{AllocError, Global};
use vlog_tree::{CaseItem, CaseKind, Expr, Labels, Lval, Stmt, Valuation};

fn copied(alloc: Global, name: &Option<Text>) -> Result<Option<Text>, AllocError>
    ensures { IfOk result (λ r. r ≡ name.now) }
{
    match name {
        Some(name) => Ok(Some(Text::copy(alloc, name.bytes())?)),
        None => Ok(None),
    }
}

impl Mover<'_> {
    /// Labels of a case item of the scope.
    pub fn labels(&self, labels: &Labels) -> Result<Labels, AllocError>
        ensures { IfOk result (λ r. r ≡ moved_labels self.now.prefix.now self.now.params.now labels.now) }
    {
        match labels {
            Labels::Exprs(exprs) => Ok(Labels::Exprs(self.exprs(exprs.as_slice())?)),
            Labels::Default => Ok(Labels::Default),
        }
    }

    /// A statement of the scope.
    #[cycle(stmt)]
    pub fn stmt(&self, stmt: &Stmt) -> Result<Stmt, AllocError>
        ensures { IfOk result (λ r. r ≡ moved_stmt self.now.prefix.now self.now.params.now stmt.now) }
    {
        match stmt {
            Stmt::Empty => Ok(Stmt::Empty),
            Stmt::Block(name, stmts) => self.block(stmts.as_slice(), name),
            Stmt::If(condition, body) => self.if_only(body.get(), condition),
            Stmt::IfElse(condition, body, other) => {
                let branches = both(self.branch(body.get()), self.branch(other.get()));
                let (condition, (body, other)) = both(self.expr(condition), branches)?;
                Ok(Stmt::IfElse(condition, body, other))
            }
            Stmt::Case(kind, subject, items) => self.case(items.as_slice(), *kind, subject),
            Stmt::Blocking(left, right) => self.blocking(left, right),
            Stmt::Nonblocking(left, right) => self.nonblocking(left, right),
        }
    }

    fn blocking(&self, left: &Lval, right: &Expr) -> Result<Stmt, AllocError>
        ensures { IfOk result (λ r. r ≡ s.Blocking (moved_left self.now.prefix.now self.now.params.now left.now)
            (moved self.now.prefix.now self.now.params.now right.now)) }
    {
        let (left, right) = both(self.left(left), self.expr(right))?;
        Ok(Stmt::Blocking(left, right))
    }

    fn nonblocking(&self, left: &Lval, right: &Expr) -> Result<Stmt, AllocError>
        ensures { IfOk result (λ r. r ≡ s.Nonblocking (moved_left self.now.prefix.now self.now.params.now left.now)
            (moved self.now.prefix.now self.now.params.now right.now)) }
    {
        let (left, right) = both(self.left(left), self.expr(right))?;
        Ok(Stmt::Nonblocking(left, right))
    }

    #[cycle(stmt)]
    fn branch(&self, stmt: &Stmt) -> Result<Boxed<Stmt>, AllocError>
        ensures { IfOk result (λ r. r ≡ moved_stmt self.now.prefix.now self.now.params.now stmt.now) }
    {
        Boxed::new(self.alloc, self.stmt(stmt)?)
    }

    #[cycle(stmt)]
    fn block(&self, stmts: &[Stmt], name: &Option<Text>) -> Result<Stmt, AllocError>
        ensures { IfOk result (λ r. r ≡ s.Block name.now
            (map (moved_stmt self.now.prefix.now self.now.params.now) stmts.now)) }
    {
        let (name, stmts) = both(copied(self.alloc, name), self.stmts(stmts))?;
        Ok(Stmt::Block(name, stmts))
    }

    #[cycle(stmt)]
    fn if_only(&self, body: &Stmt, condition: &Expr) -> Result<Stmt, AllocError>
        ensures { IfOk result (λ r. r ≡ s.If (moved self.now.prefix.now self.now.params.now condition.now)
            (moved_stmt self.now.prefix.now self.now.params.now body.now)) }
    {
        let (condition, body) = both(self.expr(condition), self.branch(body))?;
        Ok(Stmt::If(condition, body))
    }

    #[cycle(stmt)]
    fn case(&self, items: &[CaseItem], kind: CaseKind, subject: &Expr) -> Result<Stmt, AllocError>
        ensures { IfOk result (λ r. r ≡ s.Case kind (moved self.now.prefix.now self.now.params.now subject.now)
            (map (moved_case self.now.prefix.now self.now.params.now) items.now)) }
    {
        let (subject, items) = both(self.expr(subject), self.cases(items))?;
        Ok(Stmt::Case(kind, subject, items))
    }

    // Statements of the scope.
    #[cycle(stmt)]
    fn stmts(&self, stmts: &[Stmt]) -> Result<Items<Stmt>, AllocError>
        ensures { IfOk result (λ r. r ≡ map (moved_stmt self.now.prefix.now self.now.params.now) stmts.now) }
    {
        let mut all = Items::new(self.alloc);
        for stmt in stmts {
            all.push(self.stmt(stmt)?)?;
        }
        Ok(all)
    }

    // Case items of the scope.
    #[cycle(stmt)]
    fn cases(&self, items: &[CaseItem]) -> Result<Items<CaseItem>, AllocError>
        ensures { IfOk result (λ r. r ≡ map (moved_case self.now.prefix.now self.now.params.now) items.now) }
    {
        let mut all = Items::new(self.alloc);
        for item in items {
            let (labels, body) = both(self.labels(&item.labels), self.stmt(&item.body))?;
            all.push(CaseItem { labels, body })?;
        }
        Ok(all)
    }
}

/// A statement of a scope with this prefix and these parameters.
pub fn moved_stmt(
    alloc: Global,
    prefix: &[u8],
    params: &Valuation,
    stmt: &Stmt,
) -> Result<Stmt, AllocError>
    ensures { IfOk result (λ r. r ≡ moved_stmt prefix.now params.now stmt.now) }
{
    let mover = Mover {
        alloc,
        prefix,
        params,
    };
    mover.stmt(stmt)
}
