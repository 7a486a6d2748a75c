// Single tokens of a set, and what the reader of expressions reads for it.
ghost use Rattle.std.specs.Prelude.{◌≡◌, ◌+◌, ◌<◌, ◌≤◌, IfErr, IfOk, codes, length, true};
ghost use Rattle.vlog_tree.specs.Lists.{Comma, Separated, highest};
ghost use Rattle.vlog_tree.specs.Signs.{IsSign, IsWord};
ghost use Rattle.vlog_tree.specs.Spelling.{IsNamed, IsPath, Spells, height};
ghost use Rattle.set_tree.specs.Spelling.{IsDigits};
ghost use Rattle.set_read.specs.Answers.{Always, Answers, Ends, IsFlat, IsLong, IsOf, IsSyntax, Lacks, NoSign, Semicolon, flat};

use crate::fault::TextFault;
use outside::Text;
use sqlite_items::Items;
use std::alloc::Global;
use vlog_read_expr::{after, identifier, is_sign, is_word, kind_at, read_path, read_tree};
use vlog_read_lex::ReadFault;
use vlog_tree::{Expr, Kind, Token};

// The refusal of the reader of expressions.
fn of_reader(fault: ReadFault) -> TextFault
    ensures { IsOf fault result }
{
    match fault {
        ReadFault::Deep => TextFault::Deep,
        ReadFault::Memory => TextFault::Memory,
        ReadFault::Syntax(at)
        | ReadFault::Bytes(at)
        | ReadFault::Number(at)
        | ReadFault::Outside(at) => TextFault::Syntax(at),
    }
}

/// A word of the grammar, and the place after it.
pub fn word(tokens: &[Token], at: usize, text: &[u8]) -> Result<usize, TextFault>
    ensures ok { IfOk result (λ end. IsWord tokens.now at text.now × (end ≡ at + 1)) }
    ensures none { IfErr result (λ fault. IsWord tokens.now at text.now → ⊥) }
    ensures plain { IfErr result IsSyntax }
{
    if is_word(tokens, at, text) {
        Ok(after(tokens, at))
    } else {
        Err(TextFault::Syntax(at))
    }
}

/// A sign, and the place after it.
pub fn sign(tokens: &[Token], at: usize, text: &[u8]) -> Result<usize, TextFault>
    ensures ok { IfOk result (λ end. IsSign tokens.now at text.now × (end ≡ at + 1)) }
    ensures none { IfErr result (λ fault. IsSign tokens.now at text.now → ⊥) }
    ensures plain { IfErr result IsSyntax }
{
    if is_sign(tokens, at, text) {
        Ok(after(tokens, at))
    } else {
        Err(TextFault::Syntax(at))
    }
}

/// Decimal digits, their number, and the place after them.
pub fn digits(tokens: &[Token], at: usize) -> Result<(u64, usize), TextFault>
    ensures ok { IfOk result (λ read. IsDigits tokens.now at read.0 read.1 × (read.1 ≡ at + 1)) }
    ensures none { IfErr result (λ fault. Lacks (IsDigits tokens.now) at) }
    ensures plain { IfErr result IsSyntax }
{
    match kind_at(tokens, at) {
        Some(Kind::Number(number)) if number.plain => Ok((number.value, at + 1)),
        _ => Err(TextFault::Syntax(at)),
    }
}

/// A name without dots, and the place after it.
pub fn name(alloc: Global, tokens: &[Token], at: usize) -> Result<(Text, usize), TextFault>
    ensures ok { IfOk result (λ read. IsNamed true tokens.now at read.0 read.1 × (read.1 ≡ at + 1)) }
    ensures only { Answers (IsNamed true tokens.now) Always flat 0 at result }
    ensures plain { IfErr result IsFlat }
{
    match identifier(alloc, true, tokens, at) {
        Ok(text) => Ok((text, at + 1)),
        Err(fault) => Err(of_reader(fault)),
    }
}

/// A name with its dots, and the place after it.
pub fn path(alloc: Global, tokens: &[Token], at: usize) -> Result<(Text, usize), TextFault>
    ensures ok { IfOk result (λ read. IsPath tokens.now at read.0 read.1) }
    ensures past { IfOk result (λ read. at < read.1) }
    ensures only { Answers (IsPath tokens.now) (NoSign (codes ".") tokens.now) flat 0 at result }
    ensures long { IfErr result (IsLong tokens.now at) }
{
    match read_path(alloc, tokens, at) {
        Ok(read) => Ok((read.text, read.end)),
        Err(fault) => Err(of_reader(fault)),
    }
}

/// The most height of a formula: the set and one of its declarations, rules or properties stand above it.
pub const FORMULA_HEIGHT: usize = 498;

/// A formula, and the place after it.
pub fn formula(alloc: Global, tokens: &[Token], at: usize) -> Result<(Expr, usize), TextFault>
    ensures spelt { IfOk result (λ read. Spells true tokens.now at read.0 read.1) }
    ensures low { IfOk result (λ read. height read.0 ≤ 498) }
    ensures past { IfOk result (λ read. at < read.1 × (read.1 ≤ length tokens.now)) }
    ensures only { Answers (Spells true tokens.now) (Ends tokens.now) height 498 at result }
    ensures long { IfErr result (IsLong tokens.now at) }
{
    match read_tree(alloc, true, tokens, at, FORMULA_HEIGHT) {
        Ok(read) => Ok((read.tree, read.end)),
        Err(fault) => Err(of_reader(fault)),
    }
}

/// Names with commas between, and the place after them.
#[tactic(auto, using(crate::proofs::Sequences::separated_more, crate::proofs::Sequences::separated_one))]
pub fn names(alloc: Global, tokens: &[Token], at: usize) -> Result<(Items<Text>, usize), TextFault>
    ensures ok { IfOk result (λ read. Separated (Comma tokens.now) (IsNamed true tokens.now) at read.0 read.1) }
    ensures past { IfOk result (λ read. at < read.1) }
    ensures only { Answers (Separated (Comma tokens.now) (IsNamed true tokens.now))
        (Semicolon tokens.now) flat 0 at result }
    ensures long { IfErr result (IsLong tokens.now at) }
{
    let (first, mut end) = name(alloc, tokens, at)?;
    let mut list = Items::new(alloc);
    list.push(first)?;
    while is_sign(tokens, end, b",") {
        let (more, next) = name(alloc, tokens, after(tokens, end))?;
        list.push(more)?;
        end = next;
    }
    Ok((list, end))
}

/// Formulas with commas between, and the place after them.
#[tactic(auto, using(crate::proofs::Sequences::separated_more, crate::proofs::Sequences::separated_one, crate::proofs::Sequences::highest_more))]
pub fn formulas(
    alloc: Global,
    tokens: &[Token],
    at: usize,
) -> Result<(Items<Expr>, usize), TextFault>
    ensures spelt { IfOk result (λ read. Separated (Comma tokens.now) (Spells true tokens.now) at read.0 read.1) }
    ensures low { IfOk result (λ read. highest height read.0 ≤ 498) }
    ensures past { IfOk result (λ read. at < read.1) }
    ensures only { Answers (Separated (Comma tokens.now) (Spells true tokens.now)) (Semicolon tokens.now)
        (highest height) 498 at result }
    ensures long { IfErr result (IsLong tokens.now at) }
{
    let (first, mut end) = formula(alloc, tokens, at)?;
    let mut list = Items::new(alloc);
    list.push(first)?;
    while is_sign(tokens, end, b",") {
        let (more, next) = formula(alloc, tokens, after(tokens, end))?;
        list.push(more)?;
        end = next;
    }
    Ok((list, end))
}
