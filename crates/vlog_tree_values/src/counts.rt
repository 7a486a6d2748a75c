// Numbers of part-selects and counts of replications, each taken once.
//
// Such a number says how long an expression is, so it is taken for the length of what it stands in and again for the
// value; a number inside of it is taken twice for each of these. Here each is spelt as a number, the innermost before
// those around it, and taken once.

ghost use Rattle.std.specs.Prelude.{◌≡◌, ◌≤◌, IfOk, IfSome, IfNone, false};
ghost use Rattle.vlog_tree.specs.Value.{IsFormed, IsDefined, width_of, sign_of};
ghost use Rattle.word_core.specs.Words.{IsWord};
ghost use Rattle.vlog_tree_values.specs.Meanings.{MeanSame, CountSame, RowSame};
ghost use Rattle.vlog_tree_values.specs.Shapes.{HasShape, HasOwn, HasValue};

use crate::evaluate::{checked_own_value, checked_value, shape_of};
use outside::Text;
use sqlite_items::{Boxed, Items};
use std::alloc::{AllocError, Global};
use vlog_tree::{Expr, Name, Number, Valuation};
use word_core::Word;

// What names stand for, and where copies are made.
#[derive(Drop)]
struct Folder<'a> {
    alloc: Global,
    valuation: &'a Valuation,
}

// Both of two values. Where one is refused the other is dropped here: dropped where it is made, each tree would be
// proved anew there.
fn both<A: Drop, B: Drop>(
    first: Result<A, AllocError>,
    second: Result<B, AllocError>,
) -> Result<(A, B), AllocError>
    ensures first { IfOk result (λ pair. first ≡ Ok pair.0) }
    ensures second { IfOk result (λ pair. second ≡ Ok pair.1) }
{
    match first {
        Ok(first) => match second {
            Ok(second) => Ok((first, second)),
            Err(fault) => Err(fault),
        },
        Err(fault) => Err(fault),
    }
}

// The number with the bits of a word.
fn number_for(word: Word, signed: bool) -> Number
    ensures number { result ≡ record { size = Some word.width; signed = signed; value = word.value; wild = 0; wildcard = false; plain = false } }
    ensures fits { IsWord word }
{
    Number {
        size: Some(word.width()),
        signed,
        value: word.value(),
        wild: 0,
        wildcard: false,
        plain: false,
    }
}

// A number in the place of an expression that has a value by itself.
fn settled(expr: Expr, valuation: &Valuation) -> Expr
    ensures { CountSame valuation.now expr result }
{
    match checked_own_value(&expr, valuation) {
        Some((word, signed)) => {
            // a call, since a proof would write out the drop of the tree here
            drop(expr);
            Expr::Number(number_for(word, signed))
        }
        None => expr,
    }
}

impl Folder<'_> {
    fn name(&self, name: &Name) -> Result<Name, AllocError>
        ensures { IfOk result (λ n. n ≡ name.now) }
    {
        Ok(Name {
            text: Text::copy(self.alloc, name.text.bytes())?,
            offset: name.offset,
        })
    }

    #[cycle(folding)]
    fn expr(&self, expr: &Expr) -> Result<Expr, AllocError>
        ensures { IfOk result (λ r. MeanSame self.now.valuation.now expr.now r) }
    {
        match expr {
            Expr::Number(number) => Ok(Expr::Number(*number)),
            Expr::Name(name) => Ok(Expr::Name(self.name(name)?)),
            Expr::Select(name, index) => {
                let (name, index) = both(self.name(name), self.boxed(index.get()))?;
                Ok(Expr::Select(name, index))
            }
            Expr::Part(name, span, a, b) => {
                let numbers = both(self.number(a.get()), self.number(b.get()));
                let (name, (a, b)) = both(self.name(name), numbers)?;
                Ok(Expr::Part(name, *span, a, b))
            }
            Expr::ConstantSelect(v, a) => Ok(Expr::ConstantSelect(*v, self.boxed(a.get())?)),
            Expr::ConstantPart(vector, span, a, b) => {
                let (a, b) = both(self.number(a.get()), self.number(b.get()))?;
                Ok(Expr::ConstantPart(*vector, *span, a, b))
            }
            Expr::Cast(cast, inner) => Ok(Expr::Cast(*cast, self.boxed(inner.get())?)),
            Expr::Paren(inner) => self.expr(inner.get()),
            Expr::Concat(items) => Ok(Expr::Concat(self.row(items.as_slice())?)),
            Expr::Repeat(count, items) => {
                let (count, items) = both(self.number(count.get()), self.row(items.as_slice()))?;
                Ok(Expr::Repeat(count, items))
            }
            Expr::Unary(op, inner) => Ok(Expr::Unary(*op, self.boxed(inner.get())?)),
            Expr::Binary(op, a, b) => {
                let (a, b) = both(self.boxed(a.get()), self.boxed(b.get()))?;
                Ok(Expr::Binary(*op, a, b))
            }
            Expr::Choice(condition, a, b) => {
                let ends = both(self.boxed(a.get()), self.boxed(b.get()));
                let (condition, (a, b)) = both(self.boxed(condition.get()), ends)?;
                Ok(Expr::Choice(condition, a, b))
            }
        }
    }

    #[cycle(folding)]
    fn boxed(&self, expr: &Expr) -> Result<Boxed<Expr>, AllocError>
        ensures { IfOk result (λ r. MeanSame self.now.valuation.now expr.now r) }
    {
        Boxed::new(self.alloc, self.expr(expr)?)
    }

    // A number of a part-select, or the count of a replication.
    #[cycle(folding)]
    fn number(&self, expr: &Expr) -> Result<Boxed<Expr>, AllocError>
        ensures { IfOk result (λ r. CountSame self.now.valuation.now expr.now r) }
    {
        Boxed::new(self.alloc, settled(self.expr(expr)?, self.valuation))
    }

    #[cycle(folding)]
    fn row(&self, exprs: &[Expr]) -> Result<Items<Expr>, AllocError>
        ensures { IfOk result (λ r. RowSame self.now.valuation.now exprs.now r) }
    {
        let mut all = Items::new(self.alloc);
        for expr in exprs {
            all.push(self.expr(expr)?)?;
        }
        Ok(all)
    }
}

/// An expression that means the same, in which the numbers of part-selects and the counts of replications are spelt as
/// numbers where they have values. Its length and its value are then taken in a time that grows with its size times its
/// height, however deep such numbers stood in one another.
pub fn folded(alloc: Global, expr: &Expr, valuation: &Valuation) -> Result<Expr, AllocError>
    ensures { IfOk result (λ r. MeanSame valuation.now expr.now r) }
{
    let folder = Folder { alloc, valuation };
    folder.expr(expr)
}

/// The length and the sign that an expression has by itself; none where it isn't well formed.
pub fn measured(
    alloc: Global,
    expr: &Expr,
    valuation: &Valuation,
) -> Result<Option<(u8, bool)>, AllocError>
    ensures some { IfOk result (λ o. IfSome o (λ s. HasShape valuation.now expr.now s.0 s.1)) }
    ensures none { IfOk result (λ o. IfNone o (IsFormed valuation.now expr.now → ⊥)) }
{
    let tree = folded(alloc, expr, valuation)?;
    let shape = shape_of(&tree, valuation);
    drop(tree);
    Ok(shape)
}

/// The value of an expression by itself, and its sign; none where it isn't well formed or a divisor is 0.
pub fn evaluated(
    alloc: Global,
    expr: &Expr,
    valuation: &Valuation,
) -> Result<Option<(Word, bool)>, AllocError>
    ensures some { IfOk result (λ o. IfSome o (λ own. HasOwn valuation.now expr.now own.0 own.1)) }
    ensures none { IfOk result (λ o. IfNone o (IsFormed valuation.now expr.now →
        IsDefined valuation.now expr.now (width_of valuation.now expr.now) (sign_of valuation.now expr.now) → ⊥)) }
{
    let tree = folded(alloc, expr, valuation)?;
    let own = checked_own_value(&tree, valuation);
    drop(tree);
    Ok(own)
}

/// The value of an expression at a length and a sign; none where a divisor is 0 there.
pub fn evaluated_at(
    alloc: Global,
    expr: &Expr,
    length: u8,
    signed: bool,
    valuation: &Valuation,
) -> Result<Option<Word>, AllocError>
    requires formed { IsFormed valuation.now expr.now }
    requires long { width_of valuation.now expr.now ≤ length }
    requires most { length ≤ 64 }
    ensures some { IfOk result (λ o. IfSome o (λ w. HasValue valuation.now expr.now length signed w)) }
    ensures none { IfOk result (λ o. IfNone o (IsDefined valuation.now expr.now length signed → ⊥)) }
{
    let tree = folded(alloc, expr, valuation)?;
    let word = checked_value(&tree, length, signed, valuation);
    drop(tree);
    Ok(word)
}
