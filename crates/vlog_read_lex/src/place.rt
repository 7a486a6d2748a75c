ghost use Rattle.std.specs.Prelude.{ℕ, ◌≤◌};
ghost use Rattle.vlog_read_lex.specs.Tokens.{LieWithin};

use vlog_tree::Token;

/// The byte at which a token begins; past the last token the byte at which that one ends, and 0 where there is no
/// token.
pub fn byte_of(tokens: &[Token], at: usize) -> usize
    ensures { (size : ℕ) → LieWithin size tokens.now → result ≤ size }
{
    match tokens.get(at) {
        Some(token) => token.at,
        None => match tokens.last() {
            Some(token) => token.end,
            None => 0,
        },
    }
}
