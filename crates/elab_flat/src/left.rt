// What is connected to an output, as a left side (IEEE 1364-2005, section 12.3.9).

ghost use Rattle.std.specs.Prelude.{◌≡◌, IfOk, map};
ghost use Rattle.vlog_tree.specs.declared.expr.Expr.{Expr as Form};
ghost use Rattle.vlog_tree_runs.specs.Scopes.{left_of};
ghost use Rattle.elab_flat_laws.specs.Moved.{moved_left};

use elab_flat_move::Mover;
use sqlite_items::Items;
use std::alloc::AllocError;
use vlog_tree::{Expr, Lval};

/// An expression of a scope as a left side; one that can't be assigned has no bits.
#[cycle(left)]
pub fn left_of(mover: &Mover<'_>, expr: &Expr) -> Result<Lval, AllocError>
    ensures { IfOk result (λ r. r ≡ moved_left mover.now.prefix.now mover.now.params.now (left_of expr.now)) }
{
    match expr {
        Expr::Name(name) => Ok(Lval::Name(mover.text(name.text.bytes())?)),
        Expr::Select(name, index) => {
            let index = mover.expr(index.get())?;
            Ok(Lval::Select(mover.text(name.text.bytes())?, index))
        }
        Expr::Part(name, span, a, b) => {
            let a = mover.expr(a.get())?;
            let b = mover.expr(b.get())?;
            Ok(Lval::Part(mover.text(name.text.bytes())?, *span, a, b))
        }
        Expr::Concat(parts) => Ok(Lval::Concat(lefts_of(mover, parts.as_slice())?)),
        Expr::Number(_) => Ok(Lval::Concat(Items::new(mover.alloc))),
        Expr::ConstantSelect(_, _) => Ok(Lval::Concat(Items::new(mover.alloc))),
        Expr::ConstantPart(_, _, _, _) => Ok(Lval::Concat(Items::new(mover.alloc))),
        Expr::Cast(_, _) => Ok(Lval::Concat(Items::new(mover.alloc))),
        Expr::Paren(_) => Ok(Lval::Concat(Items::new(mover.alloc))),
        Expr::Repeat(_, _) => Ok(Lval::Concat(Items::new(mover.alloc))),
        Expr::Unary(_, _) => Ok(Lval::Concat(Items::new(mover.alloc))),
        Expr::Binary(_, _, _) => Ok(Lval::Concat(Items::new(mover.alloc))),
        Expr::Choice(_, _, _) => Ok(Lval::Concat(Items::new(mover.alloc))),
    }
}

// The parts of a concatenation as left sides.
#[cycle(left)]
fn lefts_of(mover: &Mover<'_>, exprs: &[Expr]) -> Result<Items<Lval>, AllocError>
    ensures { IfOk result (λ r. r ≡ map (λ (a : Form). moved_left mover.now.prefix.now mover.now.params.now
        (left_of a)) exprs.now) }
{
    let mut all = Items::new(mover.alloc);
    for expr in exprs {
        all.push(left_of(mover, expr)?)?;
    }
    Ok(all)
}
