// Left sides.

ghost use Rattle.std.specs.Prelude.{◌≡◌, IfOk, map};
ghost use Rattle.elab_flat_laws.specs.Moved.{moved_left};

use crate::expr::Mover;
use crate::pair::both;
use sqlite_items::Items;
use std::alloc::AllocError;
use vlog_tree::Lval;

impl Mover<'_> {
    /// A left side of the scope.
    #[cycle(left)]
    pub fn left(&self, left: &Lval) -> Result<Lval, AllocError>
        ensures { IfOk result (λ r. r ≡ moved_left self.now.prefix.now self.now.params.now left.now) }
    {
        match left {
            Lval::Name(name) => Ok(Lval::Name(self.text(name.bytes())?)),
            Lval::Select(name, index) => {
                let (name, index) = both(self.text(name.bytes()), self.expr(index))?;
                Ok(Lval::Select(name, index))
            }
            Lval::Part(name, span, a, b) => {
                let ends = both(self.expr(a), self.expr(b));
                let (name, (a, b)) = both(self.text(name.bytes()), ends)?;
                Ok(Lval::Part(name, *span, a, b))
            }
            Lval::Concat(parts) => Ok(Lval::Concat(self.lefts(parts.as_slice())?)),
        }
    }

    // Left sides of the scope.
    #[cycle(left)]
    fn lefts(&self, lefts: &[Lval]) -> Result<Items<Lval>, AllocError>
        ensures { IfOk result (λ r. r ≡ map (moved_left self.now.prefix.now self.now.params.now) lefts.now) }
    {
        let mut all = Items::new(self.alloc);
        for left in lefts {
            all.push(self.left(left)?)?;
        }
        Ok(all)
    }
}
