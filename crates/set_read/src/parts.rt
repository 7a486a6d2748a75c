// Declarations, rules and the clauses of a property.
ghost use Rattle.std.specs.Prelude.{◌≡◌, ◌+◌, ◌<◌, ◌≤◌, IfErr, IfNone, IfOk, IfSome, codes, true};
ghost use Rattle.vlog_tree.specs.Lists.{Maybe, Sequence, highest, highest_of};
ghost use Rattle.vlog_tree.specs.Signs.{IsWord};
ghost use Rattle.vlog_tree.specs.Spelling.{Spells, height};
ghost use Rattle.set_read.specs.Answers.{Always, Answers, Ended, IsLong, IsSyntax, Lacks, NoRole, NoRule, NoSign, NoWord, Semicolon, flat};
ghost use Rattle.set_read.specs.Heights.{declaration_height, rule_height, length_height, until_height};
ghost use Rattle.set_tree.specs.Spelling.{
  Clause,
  IsDigits,
  SpellsBits,
  SpellsCover,
  SpellsDeclaration,
  SpellsDistance,
  SpellsDomain,
  SpellsDomainOf,
  SpellsEnd,
  SpellsHand,
  SpellsLength,
  SpellsRule,
  SpellsSigned,
  SpellsUntil,
  role_word,
  rule_word,
};

use crate::fault::TextFault;
use crate::tokens::{digits, formula, formulas, name, path, sign, word};
use set_tree::{
    Bits, CoverText, Declaration, EndText, LengthText, Role, Rows, RuleKind, RuleText, Until,
};
use sqlite_items::Items;
use std::alloc::Global;
use vlog_read_expr::{after, is_sign, is_word};
use vlog_tree::{Expr, Token};

// `signed`, where it stands.
#[tactic(auto, using(vlog_read_spelling::proofs::Tokens::kind_within))]
fn signed(tokens: &[Token], at: usize) -> (bool, usize)
    ensures spelt { SpellsSigned tokens.now at result.0 result.1 }
    ensures past { at ≤ result.1 }
    ensures only { Ended (SpellsSigned tokens.now) at result.1 }
{
    if is_word(tokens, at, b"signed") {
        (true, at + 1)
    } else {
        (false, at)
    }
}

// `[high:low]`
fn bits(tokens: &[Token], at: usize) -> Result<(Bits, usize), TextFault>
    ensures spelt { IfOk result (λ read. SpellsBits tokens.now at read.0 read.1) }
    ensures none { IfErr result (λ fault. Lacks (SpellsBits tokens.now) at) }
    ensures plain { IfErr result IsSyntax }
{
    let end = sign(tokens, at, b"[")?;
    let (high, end) = digits(tokens, end)?;
    let end = sign(tokens, end, b":")?;
    let (low, end) = digits(tokens, end)?;
    let end = sign(tokens, end, b"]")?;
    Ok((Bits { high, low }, end))
}

// A range, where one stands.
fn maybe_bits(tokens: &[Token], at: usize) -> Result<(Option<Bits>, usize), TextFault>
    ensures spelt { IfOk result (λ read. Maybe (SpellsBits tokens.now) at read.0 read.1) }
    ensures only { Answers (Maybe (SpellsBits tokens.now)) (NoSign (codes "[") tokens.now) flat 0 at result }
    ensures plain { IfErr result IsSyntax }
    ensures past { IfOk result (λ read. at ≤ read.1) }
{
    if is_sign(tokens, at, b"[") {
        let (bits, end) = bits(tokens, at)?;
        Ok((Some(bits), end))
    } else {
        Ok((None, at))
    }
}

fn role_at(tokens: &[Token], at: usize) -> Option<Role>
    ensures some { IfSome result (λ role. IsWord tokens.now at (role_word role)) }
    ensures none { IfNone result (NoRole tokens.now at) }
{
    if is_word(tokens, at, b"input") {
        Some(Role::Input)
    } else if is_word(tokens, at, b"output") {
        Some(Role::Output)
    } else if is_word(tokens, at, b"state") {
        Some(Role::State)
    } else {
        None
    }
}

// The domain of an output, where one stands.
fn domain(
    alloc: Global,
    tokens: &[Token],
    at: usize,
    role: Role,
) -> Result<(Option<Expr>, usize), TextFault>
    ensures spelt { IfOk result (λ read. SpellsDomainOf tokens.now role at read.0 read.1) }
    ensures low { IfOk result (λ read. highest_of height read.0 ≤ 498) }
    ensures past { IfOk result (λ read. at ≤ read.1) }
    ensures only { Answers (SpellsDomainOf tokens.now role) (Semicolon tokens.now) (highest_of height) 498 at result }
    ensures long { IfErr result (IsLong tokens.now at) }
{
    match role {
        Role::Output => maybe_domain(alloc, tokens, at),
        Role::Input | Role::State => Ok((None, at)),
    }
}

fn maybe_domain(
    alloc: Global,
    tokens: &[Token],
    at: usize,
) -> Result<(Option<Expr>, usize), TextFault>
    ensures spelt { IfOk result (λ read. Maybe (SpellsDomain tokens.now) at read.0 read.1) }
    ensures low { IfOk result (λ read. highest_of height read.0 ≤ 498) }
    ensures past { IfOk result (λ read. at ≤ read.1) }
    ensures only { Answers (Maybe (SpellsDomain tokens.now)) (Semicolon tokens.now) (highest_of height) 498 at result }
    ensures long { IfErr result (IsLong tokens.now at) }
{
    if is_word(tokens, at, b"when") {
        let (domain, end) = formula(alloc, tokens, after(tokens, at))?;
        Ok((Some(domain), end))
    } else {
        Ok((None, at))
    }
}

fn declaration(
    alloc: Global,
    tokens: &[Token],
    at: usize,
    role: Role,
) -> Result<(Declaration, usize), TextFault>
    requires { IsWord tokens.now at (role_word role) }
    ensures spelt { IfOk result (λ read. SpellsDeclaration tokens.now at read.0 read.1) }
    ensures low { IfOk result (λ read. declaration_height read.0 ≤ 499) }
    ensures past { IfOk result (λ read. at < read.1) }
    ensures only { Answers (SpellsDeclaration tokens.now) Always declaration_height 499 at result }
    ensures long { IfErr result (IsLong tokens.now at) }
{
    if at >= tokens.len() {
        return Err(TextFault::Syntax(at));
    }
    let (signed, end) = signed(tokens, at + 1);
    let (bits, end) = maybe_bits(tokens, end)?;
    let (name, end) = path(alloc, tokens, end)?;
    let (domain, end) = domain(alloc, tokens, end, role)?;
    let end = match sign(tokens, end, b";") {
        Ok(end) => end,
        Err(fault) => return Err(fault.dropping((name, domain))),
    };
    Ok((
        Declaration {
            role,
            signed,
            bits,
            name,
            domain,
        },
        end,
    ))
}

/// The declarations from a place on.
#[tactic(auto, using(crate::proofs::Sequences::sequence_more, crate::proofs::Sequences::highest_more))]
pub fn declarations(
    alloc: Global,
    tokens: &[Token],
    at: usize,
) -> Result<(Rows<Declaration>, usize), TextFault>
    ensures spelt { IfOk result (λ read. Sequence (SpellsDeclaration tokens.now) at read.0 read.1) }
    ensures low { IfOk result (λ read. highest declaration_height read.0 ≤ 499) }
    ensures past { IfOk result (λ read. at ≤ read.1) }
    ensures only { Answers (Sequence (SpellsDeclaration tokens.now)) (NoRole tokens.now)
        (highest declaration_height) 499 at result }
    ensures long { IfErr result (IsLong tokens.now at) }
{
    let mut list = Rows::new(alloc);
    let mut end = at;
    while let Some(role) = role_at(tokens, end) {
        let (more, next) = declaration(alloc, tokens, end, role)?;
        list.push(more)?;
        end = next;
    }
    Ok((list, end))
}

fn kind_of_rule(tokens: &[Token], at: usize) -> Option<RuleKind>
    ensures some { IfSome result (λ kind. IsWord tokens.now at (rule_word kind)) }
    ensures none { IfNone result (NoRule tokens.now at) }
{
    if is_word(tokens, at, b"constraint") {
        Some(RuleKind::Constraint)
    } else if is_word(tokens, at, b"invariant") {
        Some(RuleKind::Invariant)
    } else {
        None
    }
}

fn rule(
    alloc: Global,
    tokens: &[Token],
    at: usize,
    kind: RuleKind,
) -> Result<(RuleText, usize), TextFault>
    requires { IsWord tokens.now at (rule_word kind) }
    ensures spelt { IfOk result (λ read. SpellsRule tokens.now at read.0 read.1) }
    ensures low { IfOk result (λ read. rule_height read.0 ≤ 499) }
    ensures past { IfOk result (λ read. at < read.1) }
    ensures only { Answers (SpellsRule tokens.now) Always rule_height 499 at result }
    ensures long { IfErr result (IsLong tokens.now at) }
{
    if at >= tokens.len() {
        return Err(TextFault::Syntax(at));
    }
    let (name, end) = name(alloc, tokens, at + 1)?;
    let end = sign(tokens, end, b":")?;
    let (formula, end) = formula(alloc, tokens, end)?;
    let end = match sign(tokens, end, b";") {
        Ok(end) => end,
        Err(fault) => return Err(fault.dropping((name, formula))),
    };
    Ok((
        RuleText {
            kind,
            name,
            formula,
        },
        end,
    ))
}

/// The constraints and invariants from a place on.
#[tactic(auto, using(crate::proofs::Sequences::sequence_more, crate::proofs::Sequences::highest_more))]
pub fn rules(
    alloc: Global,
    tokens: &[Token],
    at: usize,
) -> Result<(Rows<RuleText>, usize), TextFault>
    ensures spelt { IfOk result (λ read. Sequence (SpellsRule tokens.now) at read.0 read.1) }
    ensures low { IfOk result (λ read. highest rule_height read.0 ≤ 499) }
    ensures past { IfOk result (λ read. at ≤ read.1) }
    ensures only { Answers (Sequence (SpellsRule tokens.now)) (NoRule tokens.now) (highest rule_height) 499 at result }
    ensures long { IfErr result (IsLong tokens.now at) }
{
    let mut list = Rows::new(alloc);
    let mut end = at;
    while let Some(kind) = kind_of_rule(tokens, end) {
        let (more, next) = rule(alloc, tokens, end, kind)?;
        list.push(more)?;
        end = next;
    }
    Ok((list, end))
}

fn until(alloc: Global, tokens: &[Token], at: usize) -> Result<(Until, usize), TextFault>
    ensures spelt { IfOk result (λ read. SpellsUntil tokens.now at read.0 read.1) }
    ensures low { IfOk result (λ read. until_height read.0 ≤ 498) }
    ensures past { IfOk result (λ read. at ≤ read.1) }
    ensures only { Answers (SpellsUntil tokens.now) (Semicolon tokens.now) until_height 498 at result }
    ensures long { IfErr result (IsLong tokens.now at) }
{
    let end = word(tokens, at, b"to")?;
    let (high, end) = digits(tokens, end)?;
    let end = word(tokens, end, b"until")?;
    let (condition, end) = formula(alloc, tokens, end)?;
    Ok((Until { high, condition }, end))
}

fn maybe_until(
    alloc: Global,
    tokens: &[Token],
    at: usize,
) -> Result<(Option<Until>, usize), TextFault>
    ensures spelt { IfOk result (λ read. Maybe (SpellsUntil tokens.now) at read.0 read.1) }
    ensures low { IfOk result (λ read. highest_of until_height read.0 ≤ 498) }
    ensures past { IfOk result (λ read. at ≤ read.1) }
    ensures only { Answers (Maybe (SpellsUntil tokens.now)) (Semicolon tokens.now)
        (highest_of until_height) 498 at result }
    ensures long { IfErr result (IsLong tokens.now at) }
{
    if is_word(tokens, at, b"to") {
        let (until, end) = until(alloc, tokens, at)?;
        Ok((Some(until), end))
    } else {
        Ok((None, at))
    }
}

/// `length ..;`
pub fn length(alloc: Global, tokens: &[Token], at: usize) -> Result<(LengthText, usize), TextFault>
    ensures spelt { IfOk result (λ read. Clause tokens.now (codes "length")
        (SpellsLength tokens.now) at read.0 read.1) }
    ensures low { IfOk result (λ read. length_height read.0 ≤ 498) }
    ensures past { IfOk result (λ read. at ≤ read.1) }
    ensures only { Answers (Clause tokens.now (codes "length")
        (SpellsLength tokens.now)) Always length_height 498 at result }
    ensures long { IfErr result (IsLong tokens.now at) }
{
    let end = word(tokens, at, b"length")?;
    let (low, end) = digits(tokens, end)?;
    let (until, end) = maybe_until(alloc, tokens, end)?;
    let end = match sign(tokens, end, b";") {
        Ok(end) => end,
        Err(fault) => return Err(fault.dropping(until)),
    };
    Ok((LengthText { low, until }, end))
}

fn some_window(tokens: &[Token], at: usize) -> Result<(u64, usize), TextFault>
    ensures spelt { IfOk result (λ read. Clause tokens.now (codes "window") (IsDigits tokens.now) at read.0 read.1) }
    ensures none { IfErr result (λ fault. Lacks (Clause tokens.now (codes "window") (IsDigits tokens.now)) at) }
    ensures plain { IfErr result IsSyntax }
{
    let end = word(tokens, at, b"window")?;
    let (window, end) = digits(tokens, end)?;
    let end = sign(tokens, end, b";")?;
    Ok((window, end))
}

/// `window ..;`, where it stands.
pub fn window(tokens: &[Token], at: usize) -> Result<(Option<u64>, usize), TextFault>
    ensures spelt { IfOk result (λ read. Maybe
        (Clause tokens.now (codes "window") (IsDigits tokens.now)) at read.0 read.1) }
    ensures only { Answers (Maybe (Clause tokens.now (codes "window") (IsDigits tokens.now)))
        (NoWord (codes "window") tokens.now) flat 0 at result }
    ensures plain { IfErr result IsSyntax }
    ensures past { IfOk result (λ read. at ≤ read.1) }
{
    if is_word(tokens, at, b"window") {
        let (window, end) = some_window(tokens, at)?;
        Ok((Some(window), end))
    } else {
        Ok((None, at))
    }
}

// A word, a formula and a semicolon.
fn clause(
    alloc: Global,
    tokens: &[Token],
    at: usize,
    keyword: &[u8],
) -> Result<(Expr, usize), TextFault>
    ensures spelt { IfOk result (λ read. Clause tokens.now keyword.now (Spells true tokens.now) at read.0 read.1) }
    ensures low { IfOk result (λ read. height read.0 ≤ 498) }
    ensures past { IfOk result (λ read. at < read.1) }
    ensures only { Answers (Clause tokens.now keyword.now (Spells true tokens.now)) Always height 498 at result }
    ensures long { IfErr result (IsLong tokens.now at) }
{
    let end = word(tokens, at, keyword)?;
    let (tree, end) = formula(alloc, tokens, end)?;
    let end = match sign(tokens, end, b";") {
        Ok(end) => end,
        Err(fault) => return Err(fault.dropping(tree)),
    };
    Ok((tree, end))
}

/// The clauses of a word with one formula each, from a place on.
#[tactic(auto, using(crate::proofs::Sequences::sequence_more, crate::proofs::Sequences::highest_more))]
pub fn clauses(
    alloc: Global,
    tokens: &[Token],
    at: usize,
    keyword: &[u8],
) -> Result<(Items<Expr>, usize), TextFault>
    ensures spelt { IfOk result (λ read. Sequence
        (Clause tokens.now keyword.now (Spells true tokens.now)) at read.0 read.1) }
    ensures low { IfOk result (λ read. highest height read.0 ≤ 498) }
    ensures past { IfOk result (λ read. at ≤ read.1) }
    ensures only { Answers (Sequence (Clause tokens.now keyword.now (Spells true tokens.now)))
        (NoWord keyword.now tokens.now) (highest height) 498 at result }
    ensures long { IfErr result (IsLong tokens.now at) }
{
    let mut list = Items::new(alloc);
    let mut end = at;
    while is_word(tokens, end, keyword) {
        let (more, next) = clause(alloc, tokens, end, keyword)?;
        list.push(more)?;
        end = next;
    }
    Ok((list, end))
}

/// `hand ..;`, where it stands.
pub fn hand(alloc: Global, tokens: &[Token], at: usize) -> Result<(Items<Expr>, usize), TextFault>
    ensures spelt { IfOk result (λ read. SpellsHand tokens.now at read.0 read.1) }
    ensures low { IfOk result (λ read. highest height read.0 ≤ 498) }
    ensures past { IfOk result (λ read. at ≤ read.1) }
    ensures only { Answers (SpellsHand tokens.now) (NoWord (codes "hand") tokens.now) (highest height) 498 at result }
    ensures long { IfErr result (IsLong tokens.now at) }
{
    if is_word(tokens, at, b"hand") {
        let (list, end) = formulas(alloc, tokens, after(tokens, at))?;
        let end = match sign(tokens, end, b";") {
            Ok(end) => end,
            Err(fault) => return Err(fault.dropping(list)),
        };
        Ok((list, end))
    } else {
        Ok((Items::new(alloc), at))
    }
}

// `+ distance`, or 0 where none stands.
fn distance(tokens: &[Token], at: usize) -> Result<(u64, usize), TextFault>
    ensures spelt { IfOk result (λ read. SpellsDistance tokens.now at read.0 read.1) }
    ensures only { Answers (SpellsDistance tokens.now) (Semicolon tokens.now) flat 0 at result }
    ensures plain { IfErr result IsSyntax }
    ensures past { IfOk result (λ read. at ≤ read.1) }
{
    match sign(tokens, at, b"+") {
        Ok(end) => digits(tokens, end),
        Err(_) => Ok((0, at)),
    }
}

fn end_text(tokens: &[Token], at: usize) -> Result<(EndText, usize), TextFault>
    ensures spelt { IfOk result (λ read. SpellsEnd tokens.now at read.0 read.1) }
    ensures only { Answers (SpellsEnd tokens.now) (Semicolon tokens.now) flat 0 at result }
    ensures plain { IfErr result IsSyntax }
    ensures past { IfOk result (λ read. at ≤ read.1) }
{
    if is_word(tokens, at, b"end") {
        let (distance, end) = distance(tokens, after(tokens, at))?;
        Ok((EndText::AfterEnd(distance), end))
    } else {
        let (offset, end) = digits(tokens, at)?;
        Ok((EndText::At(offset), end))
    }
}

fn cover(alloc: Global, tokens: &[Token], at: usize) -> Result<(CoverText, usize), TextFault>
    ensures spelt { IfOk result (λ read. SpellsCover tokens.now at read.0 read.1) }
    ensures past { IfOk result (λ read. at < read.1) }
    ensures only { Answers (SpellsCover tokens.now) Always flat 0 at result }
    ensures long { IfErr result (IsLong tokens.now at) }
{
    let end = word(tokens, at, b"cover")?;
    let (output, end) = path(alloc, tokens, end)?;
    let end = word(tokens, end, b"from")?;
    let (from, end) = digits(tokens, end)?;
    let end = word(tokens, end, b"to")?;
    let (to, end) = end_text(tokens, end)?;
    let end = sign(tokens, end, b";")?;
    Ok((CoverText { output, from, to }, end))
}

/// The covers from a place on.
#[tactic(auto, using(crate::proofs::Sequences::sequence_more))]
pub fn covers(
    alloc: Global,
    tokens: &[Token],
    at: usize,
) -> Result<(Items<CoverText>, usize), TextFault>
    ensures spelt { IfOk result (λ read. Sequence (SpellsCover tokens.now) at read.0 read.1) }
    ensures past { IfOk result (λ read. at ≤ read.1) }
    ensures only { Answers (Sequence (SpellsCover tokens.now)) (NoWord (codes "cover") tokens.now) flat 0 at result }
    ensures long { IfErr result (IsLong tokens.now at) }
{
    let mut list = Items::new(alloc);
    let mut end = at;
    while is_word(tokens, end, b"cover") {
        let (more, next) = cover(alloc, tokens, end)?;
        list.push(more)?;
        end = next;
    }
    Ok((list, end))
}
