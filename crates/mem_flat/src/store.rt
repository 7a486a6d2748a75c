// Assignments by `<=`.

ghost use Rattle.std.specs.Prelude.{◌≡◌, ◌≤◌, IfOk, map, true, None};
ghost use Rattle.vlog_tree.specs.declared.stmt.Lval.TheVariants as l;
ghost use Rattle.vlog_tree.specs.declared.stmt.Stmt.TheVariants as s;
ghost use Rattle.vlog_tree.specs.Valuation.{word_name};
ghost use Rattle.vlog_tree_runs.specs.Places.{read};
ghost use Rattle.elab_flat_faults.specs.Drivers.{parts_of};
ghost use Rattle.mem_laws.specs.Spread.{spread, spread_left, word_store, memory_store, part_store, part_stores, lefts_length, is_memory_word, bits_from, spread_store};
ghost use Rattle.mem_faults.specs.Asked.{IsEvaluable, HasEvaluable, HasEvaluableLeft, EachEvaluableLeft};
ghost use Rattle.mem_flat.specs.Borrowed.{left_meant};
ghost use Rattle.mem_flat.specs.Cases.{block_store, concat_store};

use crate::index::named_words;
use crate::parts::parts_of;
use crate::spreader::Spreader;
use crate::words::{bits_from, is_word};
use elab_flat_move::{both, copied};
use mem_faults::word_text;
use outside::Text;
use sqlite_items::{Boxed, Items};
use std::alloc::AllocError;
use vlog_tree::{Expr, Lval, Stmt};

impl Spreader<'_> {
    // `left <= right`, the left side having no word of a memory.
    fn plain_store(&self, left: &Lval, right: Expr) -> Result<Stmt, AllocError>
        requires { HasEvaluableLeft self.now.rest.now left.now }
        ensures { IfOk result (λ r. r ≡ s.Nonblocking (spread_left self.now.rest.now left.now) right) }
    {
        let (left, right) = both(self.left(left), Ok(right))?;
        Ok(Stmt::Nonblocking(left, right))
    }

    // `name$word <= right`
    fn assigned_word(&self, name: &Text, word: u8, right: &Expr) -> Result<Stmt, AllocError>
        ensures { IfOk result (λ r. r ≡ s.Nonblocking (l.Name (word_name (read name.now) word).text) right.now) }
    {
        let name = word_text(self.alloc, name.bytes(), word);
        let (name, right) = both(name, copied(self.alloc, right))?;
        Ok(Stmt::Nonblocking(Lval::Name(name), right))
    }

    // `if (index == word) name$word <= right;`
    fn word_store(
        &self,
        name: &Text,
        index: &Expr,
        right: &Expr,
        word: u8,
    ) -> Result<Stmt, AllocError>
        ensures { IfOk result (λ r. r ≡ word_store (read name.now) index.now right.now word) }
    {
        let store = Boxed::new(self.alloc, self.assigned_word(name, word, right)?);
        let (test, store) = both(is_word(self.alloc, index, word), store)?;
        Ok(Stmt::If(test, store))
    }

    fn word_stores(
        &self,
        name: &Text,
        index: &Expr,
        right: &Expr,
        words: &[u8],
    ) -> Result<Items<Stmt>, AllocError>
        ensures { IfOk result (λ r. r ≡ map (word_store (read name.now) index.now right.now) words.now) }
    {
        let mut all = Items::new(self.alloc);
        for word in words {
            all.push(self.word_store(name, index, right, *word)?)?;
        }
        Ok(all)
    }

    // `name[index] <= right`, the name being a memory's; `spread` is the index without memories.
    fn memory_store(
        &self,
        name: &Text,
        index: &Expr,
        spread: &Expr,
        right: &Expr,
    ) -> Result<Stmt, AllocError>
        requires { IsEvaluable index.now }
        ensures { IfOk result (λ r. r ≡ memory_store self.now.rest.now (read name.now) index.now spread.now right.now) }
    {
        let words = named_words(self.alloc, self.depth(name.bytes(), 0), index)?;
        let stores = self.word_stores(name, spread, right, words.as_slice())?;
        Ok(Stmt::Block(None, stores))
    }

    // The same, the index to be freed of memories.
    fn indexed_store(&self, name: &Text, index: &Expr, right: &Expr) -> Result<Stmt, AllocError>
        requires index { IsEvaluable index.now }
        requires ready { HasEvaluable self.now.rest.now index.now }
        ensures { IfOk result (λ r. r ≡ memory_store self.now.rest.now (read name.now) index.now
            (spread self.now.rest.now index.now) right.now) }
    {
        let spread = self.expr(index)?;
        self.memory_store(name, index, &spread, right)
    }

    // A store to a memory, where the left side is a word of one.
    fn word_of_store(&self, left: &Lval, right: &Expr) -> Result<Stmt, AllocError>
        requires ready { HasEvaluableLeft self.now.rest.now left.now }
        requires word { is_memory_word self.now.rest.now left.now ≡ true }
        ensures { IfOk result (λ r. r ≡ part_store self.now.rest.now left.now right.now) }
    {
        match left {
            Lval::Select(name, index) => self.indexed_store(name, index, right),
            Lval::Name(_) => unreachable!(),
            Lval::Part(_, _, _, _) => unreachable!(),
            Lval::Concat(_) => unreachable!(),
        }
    }

    // An assignment to a left side that is no concatenation.
    fn part_store(&self, left: &Lval, right: Expr) -> Result<Stmt, AllocError>
        requires ready { HasEvaluableLeft self.now.rest.now left.now }
        ensures { IfOk result (λ r. r ≡ part_store self.now.rest.now left.now right) }
    {
        if self.is_memory_word(left) {
            self.word_of_store(left, &right)
        } else {
            self.plain_store(left, right)
        }
    }

    // The part that gets the bits of a right side from one on.
    fn bits_store(&self, part: &Lval, right: &Expr, width: u8, from: u8) -> Result<Stmt, AllocError>
        requires ready { HasEvaluableLeft self.now.rest.now part.now }
        ensures { IfOk result (λ r. r ≡ part_store self.now.rest.now part.now (bits_from right.now width from)) }
    {
        self.part_store(part, bits_from(self.alloc, right, width, from)?)
    }

    // Each part with its bits.
    fn part_stores(
        &self,
        parts: &[&Lval],
        width: u8,
        right: &Expr,
    ) -> Result<Items<Stmt>, AllocError>
        requires ready { EachEvaluableLeft self.now.rest.now (map left_meant parts.now) }
        requires width { width ≡ lefts_length self.now.rest.now (map left_meant parts.now) }
        requires few { width ≤ 64 }
        ensures { IfOk result (λ r. r ≡ part_stores self.now.rest.now width right.now (map left_meant parts.now)) }
    {
        let mut all = Items::new(self.alloc);
        let mut from = width;
        for part in parts {
            from -= self.part_length(part);
            all.push(self.bits_store(part, right, width, from)?)?;
        }
        Ok(all)
    }

    // `{..} <= right`, part after part.
    fn block_store(&self, parts: &[&Lval], right: &Expr) -> Result<Stmt, AllocError>
        requires ready { EachEvaluableLeft self.now.rest.now (map left_meant parts.now) }
        requires few { lefts_length self.now.rest.now (map left_meant parts.now) ≤ 64 }
        ensures { IfOk result (λ r. r ≡ block_store self.now.rest.now (map left_meant parts.now) right.now) }
    {
        let width = self.lefts_length(parts);
        Ok(Stmt::Block(None, self.part_stores(parts, width, right)?))
    }

    // `{..} <= right`
    fn concat_store(&self, left: &Lval, right: Expr) -> Result<Stmt, AllocError>
        requires ready { HasEvaluableLeft self.now.rest.now left.now }
        requires few { lefts_length self.now.rest.now (parts_of left.now) ≤ 64 }
        ensures { IfOk result (λ r. r ≡ concat_store self.now.rest.now left.now right) }
    {
        let (parts, right) = both(parts_of(self.alloc, left), Ok(right))?;
        if self.has_memory_word(&parts) {
            self.block_store(&parts, &right)
        } else {
            self.plain_store(left, right)
        }
    }

    /// `left <= right` of the module without its memories, where the right side is without them.
    pub fn store(&self, left: &Lval, right: Expr) -> Result<Stmt, AllocError>
        requires ready { HasEvaluableLeft self.now.rest.now left.now }
        requires few { lefts_length self.now.rest.now (parts_of left.now) ≤ 64 }
        ensures { IfOk result (λ r. r ≡ spread_store self.now.rest.now left.now right) }
    {
        match left {
            Lval::Concat(_) => self.concat_store(left, right),
            Lval::Name(_) => self.part_store(left, right),
            Lval::Select(_, _) => self.part_store(left, right),
            Lval::Part(_, _, _, _) => self.part_store(left, right),
        }
    }
}
