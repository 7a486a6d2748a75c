ghost use Rattle.std.specs.Prelude.{◌≡◌, ℕ, Bool, List, IfOk, IfErr, length};
ghost use Rattle.vlog_tree.specs.declared.token.Token.{Token};
ghost use Rattle.vlog_read_lex.specs.Tokens.{Lexes, HasFault, LieWithin, NamesByte};

use crate::error::ReadFault;
use crate::piece::{Piece, piece_at};
use std::alloc::{AllocError, Global};
use vlog_tree::Token;

/// The tokens that a text spells.
pub fn read_tokens(alloc: Global, bytes: &[u8], set: bool) -> Result<Vec<Token>, ReadFault>
    ensures ok { IfOk result (λ tokens. Lexes set bytes.now tokens.items) }
    ensures placed { IfOk result (λ tokens. LieWithin (length bytes.now) tokens.items) }
    ensures err { IfErr result (λ fault. HasFault set bytes.now fault) }
    ensures within { IfErr result (NamesByte (length bytes.now)) }
{
    let mut tokens = Vec::new(alloc);
    let mut at = 0;
    while at < bytes.len() {
        match piece_at(alloc, set, bytes, at)? {
            Piece::Gap(end) => at = end,
            Piece::Token(kind, end) => {
                tokens
                    .push(Token { at, end, kind })
                    .map_err(AllocError::from)?;
                at = end;
            }
            Piece::Outside(_) => return Err(ReadFault::Outside(at)),
            Piece::NoNumber => return Err(ReadFault::Number(at)),
            Piece::NoToken => return Err(ReadFault::Bytes(at)),
        }
    }
    Ok(tokens)
}
