// What stands in lists.
ghost use Rattle.std.specs.Prelude.{ℕ, List, ◌<◌, ◌≤◌, IfOk};
ghost use Rattle.vlog_tree.specs.declared.token.Token.{Token};
ghost use Rattle.vlog_read.specs.Answers.{Finds, Before, Follows};

use std::alloc::Global;
use vlog_read_lex::ReadFault;
use vlog_tree::Token;

/// What is read at a place, the greatest height of a node in it, and the place after it.
#[derive(Drop)]
pub struct Found<T> {
    pub tree: T,
    pub height: usize,
    pub end: usize,
}

/// A part of a list, which begins with a token.
pub trait Part: Sized + Drop {
    ghost spells: { List Token → ℕ → Self → ℕ → Type 0 };

    ghost height: { Self → ℕ };

    /// The part at a place, no higher than `depth`.
    fn read(
        alloc: Global,
        tokens: &[Token],
        at: usize,
        depth: usize,
    ) -> Result<Found<Self>, ReadFault>
        requires { depth ≤ 500 }
        ensures found { Finds tokens.now height (spells tokens.now)
            (Before (spells tokens.now) (Follows tokens.now)) at depth result }
        ensures forward { IfOk result (λ found. at < found.end) };
}
