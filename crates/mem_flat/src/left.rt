// Left sides without words of memories.

ghost use Rattle.std.specs.Prelude.{◌≡◌, IfOk, map};
ghost use Rattle.mem_laws.specs.Spread.{spread_left};
ghost use Rattle.mem_faults.specs.Asked.{HasEvaluableLeft, EachEvaluableLeft};

use crate::spreader::Spreader;
use elab_flat_move::both;
use outside::Text;
use sqlite_items::Items;
use std::alloc::AllocError;
use vlog_tree::Lval;

impl Spreader<'_> {
    /// A left side of the module without its memories.
    #[cycle(left)]
    pub fn left(&self, left: &Lval) -> Result<Lval, AllocError>
        requires { HasEvaluableLeft self.now.rest.now left.now }
        ensures { IfOk result (λ r. r ≡ spread_left self.now.rest.now left.now) }
    {
        match left {
            Lval::Name(name) => Ok(Lval::Name(Text::copy(self.alloc, name.bytes())?)),
            Lval::Select(name, index) => {
                let (name, index) = both(Text::copy(self.alloc, name.bytes()), self.expr(index))?;
                Ok(Lval::Select(name, index))
            }
            Lval::Part(name, span, a, b) => {
                let ends = both(self.expr(a), self.expr(b));
                let (name, (a, b)) = both(Text::copy(self.alloc, name.bytes()), ends)?;
                Ok(Lval::Part(name, *span, a, b))
            }
            Lval::Concat(parts) => Ok(Lval::Concat(self.lefts(parts.as_slice())?)),
        }
    }

    #[cycle(left)]
    fn lefts(&self, lefts: &[Lval]) -> Result<Items<Lval>, AllocError>
        requires { EachEvaluableLeft self.now.rest.now lefts.now }
        ensures { IfOk result (λ r. r ≡ map (spread_left self.now.rest.now) lefts.now) }
    {
        let mut all = Items::new(self.alloc);
        for left in lefts {
            all.push(self.left(left)?)?;
        }
        Ok(all)
    }
}
