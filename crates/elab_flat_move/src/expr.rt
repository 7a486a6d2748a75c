// Expressions.

ghost use Rattle.std.specs.Prelude.{◌≡◌, ◌++◌, IfOk, map};
ghost use Rattle.vlog_tree.specs.declared.expr.Expr.TheVariants as e;
ghost use Rattle.vlog_tree.specs.Valuation.{meaning_of};
ghost use Rattle.elab_flat_laws.specs.Moved.{number_for, under, moved, moved_name, moved_select, moved_part};

use crate::pair::both;
use outside::Text;
use sqlite_items::{Boxed, Items};
use std::alloc::{AllocError, Global};
use vlog_tree::{Constant, Expr, Name, Number, Span, Valuation};

/// What is put in front of a scope's names, and what its parameters stand for.
#[derive(Drop)]
pub struct Mover<'a> {
    pub alloc: Global,
    pub prefix: &'a [u8],
    pub params: &'a Valuation,
}

/// One text behind another.
pub fn joined(alloc: Global, prefix: &[u8], text: &[u8]) -> Result<Text, AllocError>
    ensures { IfOk result (λ t. t ≡ prefix.now ++ text.now) }
{
    let mut all = Text::copy(alloc, prefix)?;
    all.append(text)?;
    Ok(all)
}

fn number_for(constant: Constant) -> Expr
    ensures { result ≡ number_for constant }
{
    Expr::Number(Number {
        size: Some(constant.width),
        signed: constant.signed,
        value: constant.value,
        wild: 0,
        wildcard: false,
        plain: false,
    })
}

impl Mover<'_> {
    /// A text behind the prefix.
    pub fn text(&self, text: &[u8]) -> Result<Text, AllocError>
        ensures { IfOk result (λ t. t ≡ self.now.prefix.now ++ text.now) }
    {
        joined(self.alloc, self.prefix, text)
    }

    fn under(&self, name: &Name) -> Result<Name, AllocError>
        ensures { IfOk result (λ n. n ≡ under self.now.prefix.now name.now) }
    {
        Ok(Name {
            text: self.text(name.text.bytes())?,
            offset: name.offset,
        })
    }

    // What a name stands for, where it is a parameter's.
    fn meaning(&self, name: &Name) -> Option<Constant>
        ensures { result ≡ meaning_of self.now.params.now name.now }
    {
        match self.params.find(name.text.bytes(), name.offset) {
            Some(entry) => Some(Constant {
                width: entry.width,
                low: entry.low,
                signed: entry.signed,
                value: entry.value,
            }),
            None => None,
        }
    }

    fn name(&self, name: &Name) -> Result<Expr, AllocError>
        ensures { IfOk result (λ r. r ≡ moved_name self.now.prefix.now
            (meaning_of self.now.params.now name.now) name.now) }
    {
        match self.meaning(name) {
            Some(constant) => Ok(number_for(constant)),
            None => Ok(Expr::Name(self.under(name)?)),
        }
    }

    fn select(&self, name: &Name, index: Boxed<Expr>) -> Result<Expr, AllocError>
        ensures { IfOk result (λ r. r ≡ moved_select self.now.prefix.now
            (meaning_of self.now.params.now name.now) name.now index) }
    {
        match self.meaning(name) {
            Some(constant) => Ok(Expr::ConstantSelect(constant, index)),
            None => {
                let (name, index) = both(self.under(name), Ok(index))?;
                Ok(Expr::Select(name, index))
            }
        }
    }

    fn part(
        &self,
        name: &Name,
        span: Span,
        a: Boxed<Expr>,
        b: Boxed<Expr>,
    ) -> Result<Expr, AllocError>
        ensures { IfOk result (λ r. r ≡ moved_part self.now.prefix.now
            (meaning_of self.now.params.now name.now) name.now span a b) }
    {
        match self.meaning(name) {
            Some(constant) => Ok(Expr::ConstantPart(constant, span, a, b)),
            None => {
                let (name, (a, b)) = both(self.under(name), Ok((a, b)))?;
                Ok(Expr::Part(name, span, a, b))
            }
        }
    }

    /// An expression of the scope.
    #[cycle(expr)]
    pub fn expr(&self, expr: &Expr) -> Result<Expr, AllocError>
        ensures { IfOk result (λ r. r ≡ moved self.now.prefix.now self.now.params.now expr.now) }
    {
        match expr {
            Expr::Number(number) => Ok(Expr::Number(*number)),
            Expr::Name(name) => self.name(name),
            Expr::Select(name, index) => self.select(name, self.boxed(index.get())?),
            Expr::Part(name, span, a, b) => {
                let (a, b) = both(self.boxed(a.get()), self.boxed(b.get()))?;
                self.part(name, *span, a, b)
            }
            Expr::ConstantSelect(vector, index) => {
                Ok(Expr::ConstantSelect(*vector, self.boxed(index.get())?))
            }
            Expr::ConstantPart(vector, span, a, b) => {
                let (a, b) = both(self.boxed(a.get()), self.boxed(b.get()))?;
                Ok(Expr::ConstantPart(*vector, *span, a, b))
            }
            Expr::Cast(cast, inner) => Ok(Expr::Cast(*cast, self.boxed(inner.get())?)),
            Expr::Paren(inner) => Ok(Expr::Paren(self.boxed(inner.get())?)),
            Expr::Concat(parts) => Ok(Expr::Concat(self.exprs(parts.as_slice())?)),
            Expr::Repeat(count, parts) => {
                let (count, parts) = both(self.boxed(count.get()), self.exprs(parts.as_slice()))?;
                Ok(Expr::Repeat(count, parts))
            }
            Expr::Unary(op, a) => Ok(Expr::Unary(*op, self.boxed(a.get())?)),
            Expr::Binary(op, a, b) => {
                let (a, b) = both(self.boxed(a.get()), self.boxed(b.get()))?;
                Ok(Expr::Binary(*op, a, b))
            }
            Expr::Choice(condition, a, b) => {
                let ends = both(self.boxed(a.get()), self.boxed(b.get()));
                let (condition, (a, b)) = both(self.boxed(condition.get()), ends)?;
                Ok(Expr::Choice(condition, a, b))
            }
        }
    }

    #[cycle(expr)]
    fn boxed(&self, expr: &Expr) -> Result<Boxed<Expr>, AllocError>
        ensures { IfOk result (λ r. r ≡ moved self.now.prefix.now self.now.params.now expr.now) }
    {
        Boxed::new(self.alloc, self.expr(expr)?)
    }

    /// Expressions of the scope.
    #[cycle(expr)]
    pub fn exprs(&self, exprs: &[Expr]) -> Result<Items<Expr>, AllocError>
        ensures { IfOk result (λ r. r ≡ map (moved self.now.prefix.now self.now.params.now) exprs.now) }
    {
        let mut all = Items::new(self.alloc);
        for expr in exprs {
            all.push(self.expr(expr)?)?;
        }
        Ok(all)
    }
}

/// An expression of a scope with this prefix and these parameters.
pub fn moved_expr(
    alloc: Global,
    prefix: &[u8],
    params: &Valuation,
    expr: &Expr,
) -> Result<Expr, AllocError>
    ensures { IfOk result (λ r. r ≡ moved prefix.now params.now expr.now) }
{
    let mover = Mover {
        alloc,
        prefix,
        params,
    };
    mover.expr(expr)
}
