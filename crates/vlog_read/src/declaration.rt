// Declarations: a sign and a range, and a list up to its semicolon.
ghost use Rattle.std.specs.Prelude.{◌≤◌, ◌≡◌};
ghost use Rattle.vlog_read.specs.Answers.{Finds};
ghost use Rattle.vlog_read.specs.Declarations.{declared_height, SpellsDeclared, ReadsDeclared};

use crate::list::up_to_end;
use crate::part::{Found, Part};
use crate::parts::read_shape;
use sqlite_items::Items;
use std::alloc::Global;
use vlog_read_lex::ReadFault;
use vlog_tree::{Shape, Token};

/// What a declaration says after its word.
#[derive(Drop)]
pub struct Declared<T> {
    pub shape: Shape,
    pub items: Items<T>,
}

/// What stands after the word of a declaration.
pub fn read_declared<T: Part>(
    alloc: Global,
    tokens: &[Token],
    at: usize,
    depth: usize,
) -> Result<Found<Declared<T>>, ReadFault>
    requires { depth ≤ 500 }
    ensures { Finds tokens.now (declared_height T.height) (SpellsDeclared tokens.now (T.spells tokens.now))
        (ReadsDeclared tokens.now (T.spells tokens.now)) at depth result }
{
    let shape = read_shape(alloc, tokens, at, depth)?;
    let items = match up_to_end::<T>(alloc, tokens, shape.end, depth) {
        Ok(items) => items,
        Err(fault) => return Err(fault.dropping(shape)),
    };
    Ok(Found {
        tree: Declared {
            shape: shape.tree,
            items: items.tree,
        },
        height: shape.height.max(items.height),
        end: items.end,
    })
}
