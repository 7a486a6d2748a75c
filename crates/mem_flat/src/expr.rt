// Expressions.

ghost use Rattle.std.specs.Prelude.{◌≡◌, ◌≤◌, nat_eq, false, IfOk, map, if◌then◌else◌, [], ◌∷◌};
ghost use Rattle.vlog_tree.specs.declared.expr.Expr.TheVariants as e;
ghost use Rattle.vlog_tree.specs.Valuation.{named, depth_of};
ghost use Rattle.mem_laws.specs.Spread.{memory_read, spread};
ghost use Rattle.mem_faults.specs.Asked.{IsEvaluable, HasEvaluable, EachEvaluable};

use crate::index::read_words;
use crate::spreader::Spreader;
use crate::words::{chosen, copied_name};
use elab_flat_move::both;
use sqlite_items::{Boxed, Items};
use std::alloc::{AllocError, Global};
use vlog_tree::{Expr, Name};

fn braced(alloc: Global, part: Expr) -> Result<Expr, AllocError>
    ensures { IfOk result (λ r. r ≡ e.Concat (part ∷ [])) }
{
    let mut parts = Items::new(alloc);
    parts.push(part)?;
    Ok(Expr::Concat(parts))
}

impl Spreader<'_> {
    // `name[index]`, the name being a memory's.
    fn memory_read(&self, name: &Name, index: &Expr, spread: &Expr) -> Result<Expr, AllocError>
        requires { IsEvaluable index.now }
        ensures { IfOk result (λ r. r ≡ memory_read self.now.rest.now name.now index.now spread.now) }
    {
        let depth = self.depth(name.text.bytes(), name.offset);
        let words = read_words(self.alloc, depth, index)?;
        let width = self.width(name.text.bytes(), name.offset);
        let part = chosen(self.alloc, name, width, spread, words.as_slice())?;
        braced(self.alloc, part)
    }

    // `name[index]`, where the second index is the first one without memories.
    fn select(&self, name: &Name, index: &Expr, spread: Boxed<Expr>) -> Result<Expr, AllocError>
        requires { nat_eq (depth_of self.now.rest.now name.now) 0 ≡ false → IsEvaluable index.now }
        ensures { IfOk result (λ r.
            r ≡ (if nat_eq (depth_of self.now.rest.now name.now) 0 then e.Select name.now spread else memory_read self.now.rest.now name.now index.now spread)) }
    {
        if self.depth(name.text.bytes(), name.offset) == 0 {
            let (name, spread) = both(copied_name(self.alloc, name), Ok(spread))?;
            Ok(Expr::Select(name, spread))
        } else {
            self.memory_read(name, index, spread.get())
        }
    }

    /// An expression of the module without its memories.
    #[cycle(expr)]
    pub fn expr(&self, expr: &Expr) -> Result<Expr, AllocError>
        requires { HasEvaluable self.now.rest.now expr.now }
        ensures { IfOk result (λ r. r ≡ spread self.now.rest.now expr.now) }
    {
        match expr {
            Expr::Number(number) => Ok(Expr::Number(*number)),
            Expr::Name(name) => Ok(Expr::Name(copied_name(self.alloc, name)?)),
            Expr::Select(name, index) => {
                let index = index.get();
                let spread = self.boxed(index)?;
                self.select(name, index, spread)
            }
            Expr::Part(name, span, a, b) => {
                let ends = both(self.boxed(a.get()), self.boxed(b.get()));
                let (name, (a, b)) = both(copied_name(self.alloc, name), ends)?;
                Ok(Expr::Part(name, *span, a, b))
            }
            Expr::ConstantSelect(vector, index) => {
                Ok(Expr::ConstantSelect(*vector, self.boxed(index.get())?))
            }
            Expr::ConstantPart(vector, span, a, b) => {
                let (a, b) = both(self.boxed(a.get()), self.boxed(b.get()))?;
                Ok(Expr::ConstantPart(*vector, *span, a, b))
            }
            Expr::Cast(cast, inner) => Ok(Expr::Cast(*cast, self.boxed(inner.get())?)),
            Expr::Paren(inner) => Ok(Expr::Paren(self.boxed(inner.get())?)),
            Expr::Concat(parts) => Ok(Expr::Concat(self.exprs(parts.as_slice())?)),
            Expr::Repeat(count, parts) => {
                let (count, parts) = both(self.boxed(count.get()), self.exprs(parts.as_slice()))?;
                Ok(Expr::Repeat(count, parts))
            }
            Expr::Unary(op, a) => Ok(Expr::Unary(*op, self.boxed(a.get())?)),
            Expr::Binary(op, a, b) => {
                let (a, b) = both(self.boxed(a.get()), self.boxed(b.get()))?;
                Ok(Expr::Binary(*op, a, b))
            }
            Expr::Choice(condition, a, b) => {
                let ends = both(self.boxed(a.get()), self.boxed(b.get()));
                let (condition, (a, b)) = both(self.boxed(condition.get()), ends)?;
                Ok(Expr::Choice(condition, a, b))
            }
        }
    }

    #[cycle(expr)]
    fn boxed(&self, expr: &Expr) -> Result<Boxed<Expr>, AllocError>
        requires { HasEvaluable self.now.rest.now expr.now }
        ensures { IfOk result (λ r. r ≡ spread self.now.rest.now expr.now) }
    {
        Boxed::new(self.alloc, self.expr(expr)?)
    }

    /// Expressions of the module without its memories.
    #[cycle(expr)]
    pub fn exprs(&self, exprs: &[Expr]) -> Result<Items<Expr>, AllocError>
        requires { EachEvaluable self.now.rest.now exprs.now }
        ensures { IfOk result (λ r. r ≡ map (spread self.now.rest.now) exprs.now) }
    {
        let mut all = Items::new(self.alloc);
        for expr in exprs {
            all.push(self.expr(expr)?)?;
        }
        Ok(all)
    }
}
