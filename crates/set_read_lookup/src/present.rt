// Formulas whose names are read in the present row alone. Lengths and signs don't depend on the row in which a name is
// read, so one entry a name tells them.
ghost use Rattle.std.specs.Prelude.{◌≡◌, IfOk, Ok, map};
ghost use Rattle.vlog_tree.specs.declared.expr.Expr.TheVariants as e;
ghost use Rattle.set_read_lookup.specs.Tests.{present, present_name};

use outside::Text;
use sqlite_items::{Boxed, Items};
use std::alloc::{AllocError, Global};
use vlog_tree::{Expr, Name};

fn present_name(alloc: Global, name: &Name) -> Result<Name, AllocError>
    ensures { IfOk result (λ n. n ≡ present_name name.now) }
{
    Ok(Name {
        text: Text::copy(alloc, name.text.bytes())?,
        offset: 0,
    })
}

/// A formula with the offset 0 in place of each other one.
#[cycle(present)]
pub fn present(alloc: Global, expr: &Expr) -> Result<Expr, AllocError>
    ensures { IfOk result (λ r. r ≡ present expr.now) }
{
    match expr {
        Expr::Number(number) => Ok(Expr::Number(*number)),
        Expr::Name(name) => Ok(Expr::Name(present_name(alloc, name)?)),
        Expr::Select(name, index) => {
            let name = present_name(alloc, name)?;
            Ok(Expr::Select(name, boxed(alloc, index.get())?))
        }
        Expr::Part(name, span, a, b) => {
            let name = present_name(alloc, name)?;
            let first = boxed(alloc, a.get())?;
            let (a, b) = beside(first, boxed(alloc, b.get()))?;
            Ok(Expr::Part(name, *span, a, b))
        }
        Expr::ConstantSelect(v, a) => Ok(Expr::ConstantSelect(*v, boxed(alloc, a.get())?)),
        Expr::ConstantPart(vector, span, a, b) => {
            let first = boxed(alloc, a.get())?;
            let (a, b) = beside(first, boxed(alloc, b.get()))?;
            Ok(Expr::ConstantPart(*vector, *span, a, b))
        }
        Expr::Cast(cast, inner) => Ok(Expr::Cast(*cast, boxed(alloc, inner.get())?)),
        Expr::Paren(inner) => Ok(Expr::Paren(boxed(alloc, inner.get())?)),
        Expr::Concat(parts) => Ok(Expr::Concat(row(alloc, parts.as_slice())?)),
        Expr::Repeat(count, parts) => {
            let first = boxed(alloc, count.get())?;
            let (count, parts) = beside(first, row(alloc, parts.as_slice()))?;
            Ok(Expr::Repeat(count, parts))
        }
        Expr::Unary(op, a) => Ok(Expr::Unary(*op, boxed(alloc, a.get())?)),
        Expr::Binary(op, a, b) => {
            let first = boxed(alloc, a.get())?;
            let (a, b) = beside(first, boxed(alloc, b.get()))?;
            Ok(Expr::Binary(*op, a, b))
        }
        Expr::Choice(condition, a, b) => {
            let first = boxed(alloc, condition.get())?;
            let (condition, a) = beside(first, boxed(alloc, a.get()))?;
            choice(alloc, b.get(), condition, a)
        }
    }
}

#[cycle(present)]
fn boxed(alloc: Global, expr: &Expr) -> Result<Boxed<Expr>, AllocError>
    ensures { IfOk result (λ r. r ≡ present expr.now) }
{
    Boxed::new(alloc, present(alloc, expr)?)
}

// The choice whose last operand is this one.
#[cycle(present)]
fn choice(
    alloc: Global,
    last: &Expr,
    condition: Boxed<Expr>,
    first: Boxed<Expr>,
) -> Result<Expr, AllocError>
    ensures { IfOk result (λ r. r ≡ e.Choice condition first (present last.now)) }
{
    Ok(Expr::Choice(condition, first, boxed(alloc, last)?))
}

// What was made before, with what is made after it; where there is no memory for that, the first is dropped by this
// call: dropped in place, it would be proved anew at each such exit.
fn beside<A: Drop, B: Drop>(before: A, after: Result<B, AllocError>) -> Result<(A, B), AllocError>
    ensures first { IfOk result (λ both. both.0 ≡ before) }
    ensures second { IfOk result (λ both. after ≡ Ok both.1) }
{
    match after {
        Ok(after) => Ok((before, after)),
        Err(error) => Err(error),
    }
}

#[cycle(present)]
fn row(alloc: Global, exprs: &[Expr]) -> Result<Items<Expr>, AllocError>
    ensures { IfOk result (λ r. r ≡ map present exprs.now) }
{
    let mut all = Items::new(alloc);
    for expr in exprs {
        all.push(present(alloc, expr)?)?;
    }
    Ok(all)
}
