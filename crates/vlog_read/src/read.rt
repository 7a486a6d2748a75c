// Reads the modules of a text from its bytes.
ghost use Rattle.std.specs.Prelude.{ℕ, ◌≤◌, IfOk, IfErr, List, length};
ghost use Rattle.vlog_tree.specs.declared.token.Token.{Token};
ghost use Rattle.vlog_tree.specs.Modules.{SpellsFile, file_height};
ghost use Rattle.vlog_read_lex.specs.Tokens.{LieWithin, NamesByte};
ghost use Rattle.vlog_read.specs.Texts.{SpellsModules, RefusesTokens, RefusesText};

use crate::module::read_module_list;
use std::alloc::Global;
use vlog_read_lex::{ReadFault, byte_of, read_tokens};
use vlog_tree::{Module, Token};

// A fault with the place of a byte, of one with the place of a token.
fn by_bytes(tokens: &[Token], fault: ReadFault) -> ReadFault
    ensures refused { (ts : List Token) → RefusesTokens ts fault → RefusesTokens ts result }
    ensures within { (ts : List Token) (size : ℕ) → RefusesTokens ts fault → LieWithin size tokens.now →
        NamesByte size result }
{
    match fault {
        ReadFault::Syntax(at) => ReadFault::Syntax(byte_of(tokens, at)),
        other => other,
    }
}

// The modules that tokens spell; the place of a fault is a byte.
fn modules_of(alloc: Global, tokens: &[Token]) -> Result<Vec<Module>, ReadFault>
    ensures ok { IfOk result (λ list. SpellsFile tokens.now list.items) }
    ensures low { IfOk result (λ list. file_height list.items ≤ 500) }
    ensures err { IfErr result (λ fault. RefusesTokens tokens.now fault) }
    ensures within { (size : ℕ) → LieWithin size tokens.now → IfErr result (NamesByte size) }
{
    match read_module_list(alloc, tokens) {
        Ok(list) => Ok(list),
        Err(fault) => Err(by_bytes(tokens, fault)),
    }
}

/// The modules that a text spells: one or more, by the grammar of IEEE 1364-2005 annex A as far as it is read, each no
/// higher than 500 nodes. The text is refused where its bytes spell no tokens (`Bytes`, `Number`, `Outside`) or its
/// tokens no modules (`Syntax`, with the byte at which the token begins that cannot stand there, or at which the last
/// one ends), where there are more than 500 tokens and they spell no modules that are low enough (`Deep`), or where
/// memory runs out (`Memory`).
pub fn read_modules(alloc: Global, bytes: &[u8]) -> Result<Vec<Module>, ReadFault>
    ensures ok { IfOk result (λ list. SpellsModules bytes.now list.items) }
    ensures low { IfOk result (λ list. file_height list.items ≤ 500) }
    ensures err { IfErr result (λ fault. RefusesText bytes.now fault) }
    ensures within { IfErr result (NamesByte (length bytes.now)) }
{
    let tokens = read_tokens(alloc, bytes, false)?;
    let list = modules_of(alloc, tokens.as_slice())?;
    Ok(list)
}
