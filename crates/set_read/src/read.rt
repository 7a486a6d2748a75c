// The reader of a set.
ghost use Rattle.std.specs.Prelude.{ℕ, ◌≤◌, IfOk, IfErr, length};
ghost use Rattle.vlog_read_lex.specs.Tokens.{LieWithin};
ghost use Rattle.set_tree.specs.Spelling.{SpellsSet};
ghost use Rattle.set_tree_structure.specs.Condition.{IsWellFormed};
ghost use Rattle.set_read.specs.Heights.{set_height};
ghost use Rattle.set_read.specs.Read.{Spells, SpellsTokens, HasSmallDigits, NamesByte, Refuses, RefusesTokens};

use crate::fault::{SetFault, of_text, of_tokens, of_wrong};
use crate::property::set_text;
use set_read_lookup::look_up;
use set_tree::{Set, SetText};
use std::alloc::Global;
use vlog_read_lex::read_tokens;
use vlog_tree::Token;

// The set of a text that tokens spell.
fn looked(alloc: Global, tokens: &[Token], text: SetText) -> Result<Set, SetFault>
    requires digits { HasSmallDigits tokens.now }
    requires spelt { SpellsSet tokens.now text }
    requires low { set_height text ≤ 500 }
    ensures ok { IfOk result (SpellsTokens tokens.now) }
    ensures err { IfErr result (RefusesTokens tokens.now) }
    ensures within { (size : ℕ) → IfErr result (NamesByte size) }
{
    match look_up(alloc, text) {
        Ok(set) => Ok(set),
        Err(wrong) => Err(of_wrong(wrong)),
    }
}

// The set of tokens.
fn of_list(alloc: Global, tokens: &[Token]) -> Result<Set, SetFault>
    requires { HasSmallDigits tokens.now }
    ensures ok { IfOk result (SpellsTokens tokens.now) }
    ensures err { IfErr result (RefusesTokens tokens.now) }
    ensures within { (size : ℕ) → LieWithin size tokens.now → IfErr result (NamesByte size) }
{
    match set_text(alloc, tokens) {
        Ok(text) => looked(alloc, tokens, text),
        Err(fault) => Err(of_text(tokens, fault)),
    }
}

/// The set that a text spells, its names looked up; it is well formed, as `structure` asks. The grammar is that of the
/// document on formats. `Bytes` and `Number`: the first fault of the text's tokens, with the place of the byte.
/// `Syntax`: its tokens spell no set. `Deep`: each set that they spell is higher than 500, and there are more than 500
/// of them. `Unknown`, `Twice` and `Limit`: the text spells a set that has this against it; where several such faults
/// stand, one of them is answered.
pub fn read_set(alloc: Global, bytes: &[u8]) -> Result<Set, SetFault>
    ensures ok { IfOk result (Spells bytes.now) }
    ensures formed { IfOk result IsWellFormed }
    ensures err { IfErr result (Refuses bytes.now) }
    ensures within { IfErr result (NamesByte (length bytes.now)) }
{
    match read_tokens(alloc, bytes, true) {
        Ok(tokens) => of_list(alloc, &tokens),
        Err(fault) => Err(of_tokens(fault)),
    }
}
