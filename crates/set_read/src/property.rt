// Properties and whole sets.
ghost use Rattle.std.specs.Prelude.{◌≡◌, ◌+◌, ◌<◌, ◌≤◌, IfErr, IfOk, codes, true};
ghost use Rattle.vlog_tree.specs.Lists.{Sequence, highest};
ghost use Rattle.vlog_tree.specs.Signs.{IsWord};
ghost use Rattle.vlog_tree.specs.Spelling.{IsNamed, height};
ghost use Rattle.set_read.specs.Answers.{Always, Answers, IsFlat, IsLong, IsSyntax, IsTail, Lacks, NoWord, flat};
ghost use Rattle.set_read.specs.Heights.{length_height, property_height, set_height};
ghost use Rattle.set_read.specs.Parts.{DeniesSets, SpellsConditionsOf, SpellsHeadOf, SpellsLevel, SpellsOperationHead, SpellsResetHead, SpellsTailOf, conditions_height, tail_height};
ghost use Rattle.set_tree.specs.Spelling.{SpellsConditions, SpellsHead, SpellsNamed, SpellsOperation, SpellsProperty, SpellsReset, SpellsSet, SpellsTail, level_word};

use crate::fault::TextFault;
use crate::parts::{clauses, covers, declarations, hand, length, rules, window};
use crate::tokens::{digits, name, names, sign, word};
use outside::Text;
use set_tree::{CoverText, LengthText, PropertyText, Rows, SetText};
use sqlite_items::Items;
use std::alloc::Global;
use vlog_read_expr::is_word;
use vlog_tree::{Expr, Token};

// What a property hands over, covers and leads to.
#[derive(Drop)]
struct Tail {
    hand: Items<Expr>,
    covers: Items<CoverText>,
    next: Items<Text>,
}

// From the hand-over to the closing brace.
fn read_tail(alloc: Global, tokens: &[Token], at: usize) -> Result<(Tail, usize), TextFault>
    ensures spelt { IfOk result (λ read. SpellsTail tokens.now at read.0.hand read.0.covers read.0.next read.1) }
    ensures low { IfOk result (λ read. tail_height read.0 ≤ 498) }
    ensures past { IfOk result (λ read. at ≤ read.1) }
    ensures only { Answers (SpellsTailOf tokens.now) Always tail_height 498 at result }
    ensures long { IfErr result (IsLong tokens.now at) }
{
    let (hand, end) = hand(alloc, tokens, at)?;
    let (covers, end) = match covers(alloc, tokens, end) {
        Ok(read) => read,
        Err(fault) => return Err(fault.dropping(hand)),
    };
    let end = word(tokens, end, b"next")?;
    let (next, end) = names(alloc, tokens, end)?;
    let end = sign(tokens, end, b";")?;
    let end = sign(tokens, end, b"}")?;
    Ok((Tail { hand, covers, next }, end))
}

// What a property says of itself.
#[derive(Drop)]
struct Conditions {
    length: LengthText,
    window: Option<u64>,
    assume: Items<Expr>,
    commit: Items<Expr>,
}

// The length, the window, the assumption and the commitment.
fn read_conditions(
    alloc: Global,
    tokens: &[Token],
    at: usize,
) -> Result<(Conditions, usize), TextFault>
    ensures spelt { IfOk result (λ read. SpellsConditions tokens.now at read.0.length read.0.window read.0.assume read.0.commit read.1) }
    ensures length { IfOk result (λ read. length_height read.0.length ≤ 498) }
    ensures assume { IfOk result (λ read. highest height read.0.assume ≤ 498) }
    ensures commit { IfOk result (λ read. highest height read.0.commit ≤ 498) }
    ensures past { IfOk result (λ read. at ≤ read.1) }
    ensures only { Answers (SpellsConditionsOf tokens.now) (IsTail tokens.now) conditions_height 498 at result }
    ensures long { IfErr result (IsLong tokens.now at) }
{
    let (length, end) = length(alloc, tokens, at)?;
    let (window, end) = match window(tokens, end) {
        Ok(read) => read,
        Err(fault) => return Err(fault.dropping(length)),
    };
    let (assume, end) = match clauses(alloc, tokens, end, b"assume") {
        Ok(read) => read,
        Err(fault) => return Err(fault.dropping(length)),
    };
    let (commit, end) = match clauses(alloc, tokens, end, b"commit") {
        Ok(read) => read,
        Err(fault) => return Err(fault.dropping((length, assume))),
    };
    Ok((
        Conditions {
            length,
            window,
            assume,
            commit,
        },
        end,
    ))
}

// A property from its opening brace on.
fn property(
    alloc: Global,
    tokens: &[Token],
    at: usize,
    name: Text,
) -> Result<(PropertyText, usize), TextFault>
    ensures spelt { IfOk result (λ read. SpellsProperty tokens.now at read.0 read.1) }
    ensures low { IfOk result (λ read. property_height read.0 ≤ 499) }
    ensures name { IfOk result (λ read. read.0.name ≡ name) }
    ensures past { IfOk result (λ read. at < read.1) }
    ensures only { Answers (SpellsProperty tokens.now) Always property_height 499 at result }
    ensures long { IfErr result (IsLong tokens.now at) }
{
    let end = sign(tokens, at, b"{")?;
    let (conditions, end) = read_conditions(alloc, tokens, end)?;
    let (tail, end) = match read_tail(alloc, tokens, end) {
        Ok(read) => read,
        Err(fault) => return Err(fault.dropping((name, conditions))),
    };
    Ok((
        PropertyText {
            name,
            length: conditions.length,
            window: conditions.window,
            assume: conditions.assume,
            commit: conditions.commit,
            hand: tail.hand,
            covers: tail.covers,
            next: tail.next,
        },
        end,
    ))
}

// `property reset`
fn reset_head(tokens: &[Token], at: usize) -> Result<usize, TextFault>
    ensures property { IfOk result (λ end. IsWord tokens.now at (codes "property")) }
    ensures reset { IfOk result (λ end. IsWord tokens.now (at + 1) (codes "reset")) }
    ensures end { IfOk result (λ end. end ≡ at + 2) }
    ensures none { IfErr result (λ fault. SpellsResetHead tokens.now at → ⊥) }
    ensures plain { IfErr result IsSyntax }
{
    let end = word(tokens, at, b"property")?;
    let end = word(tokens, end, b"reset")?;
    Ok(end)
}

// The reset property.
fn reset_property(
    alloc: Global,
    tokens: &[Token],
    at: usize,
) -> Result<(PropertyText, usize), TextFault>
    ensures spelt { IfOk result (λ read. SpellsReset tokens.now at read.0 read.1) }
    ensures low { IfOk result (λ read. property_height read.0 ≤ 499) }
    ensures past { IfOk result (λ read. at < read.1) }
    ensures only { Answers (SpellsReset tokens.now) Always property_height 499 at result }
    ensures long { IfErr result (IsLong tokens.now at) }
{
    let end = reset_head(tokens, at)?;
    let name = Text::copy(alloc, b"reset")?;
    let (first, end) = property(alloc, tokens, end, name)?;
    if first.length.until.is_some() {
        return Err(TextFault::Syntax(at).dropping(first));
    }
    if !first.assume.is_empty() {
        return Err(TextFault::Syntax(at).dropping(first));
    }
    Ok((first, end))
}

// `operation name`
fn operation_head(alloc: Global, tokens: &[Token], at: usize) -> Result<(Text, usize), TextFault>
    ensures word { IfOk result (λ read. IsWord tokens.now at (codes "operation")) }
    ensures name { IfOk result (λ read. IsNamed true tokens.now (at + 1) read.0 (at + 2)) }
    ensures end { IfOk result (λ read. read.1 ≡ at + 2) }
    ensures only { Answers (SpellsOperationHead tokens.now) Always flat 0 at result }
    ensures long { IfErr result (IsLong tokens.now at) }
{
    let end = word(tokens, at, b"operation")?;
    let (name, end) = name(alloc, tokens, end)?;
    Ok((name, end))
}

fn operation(alloc: Global, tokens: &[Token], at: usize) -> Result<(PropertyText, usize), TextFault>
    ensures spelt { IfOk result (λ read. SpellsOperation tokens.now at read.0 read.1) }
    ensures low { IfOk result (λ read. property_height read.0 ≤ 499) }
    ensures past { IfOk result (λ read. at < read.1) }
    ensures only { Answers (SpellsOperation tokens.now) Always property_height 499 at result }
    ensures long { IfErr result (IsLong tokens.now at) }
{
    let (name, end) = operation_head(alloc, tokens, at)?;
    let (property, end) = property(alloc, tokens, end, name)?;
    Ok((property, end))
}

// The operations from a place on.
#[tactic(auto, using(crate::proofs::Sequences::sequence_more, crate::proofs::Sequences::highest_more))]
fn operations(
    alloc: Global,
    tokens: &[Token],
    at: usize,
) -> Result<(Rows<PropertyText>, usize), TextFault>
    ensures spelt { IfOk result (λ read. Sequence (SpellsOperation tokens.now) at read.0 read.1) }
    ensures low { IfOk result (λ read. highest property_height read.0 ≤ 499) }
    ensures only { Answers (Sequence (SpellsOperation tokens.now)) (NoWord (codes "operation") tokens.now)
        (highest property_height) 499 at result }
    ensures long { IfErr result (IsLong tokens.now at) }
{
    let mut list = Rows::new(alloc);
    let mut end = at;
    while is_word(tokens, end, b"operation") {
        let (more, next) = operation(alloc, tokens, end)?;
        list.push(more)?;
        end = next;
    }
    Ok((list, end))
}

// The block, its clock and its reset.
#[derive(Drop)]
struct SetHead {
    block: Text,
    clock: Text,
    reset: Text,
    high: bool,
    cycles: u64,
}

// `word name;`
fn named(
    alloc: Global,
    tokens: &[Token],
    at: usize,
    keyword: &[u8],
) -> Result<(Text, usize), TextFault>
    ensures spelt { IfOk result (λ read. SpellsNamed tokens.now keyword.now at read.0 read.1) }
    ensures only { Answers (SpellsNamed tokens.now keyword.now) Always flat 0 at result }
    ensures plain { IfErr result IsFlat }
{
    let end = word(tokens, at, keyword)?;
    let (name, end) = name(alloc, tokens, end)?;
    let end = sign(tokens, end, b";")?;
    Ok((name, end))
}

// `high` or `low`.
fn level(tokens: &[Token], at: usize) -> Result<(bool, usize), TextFault>
    ensures spelt { IfOk result (λ read. SpellsLevel tokens.now at read.0 read.1) }
    ensures none { IfErr result (λ fault. Lacks (SpellsLevel tokens.now) at) }
    ensures plain { IfErr result IsSyntax }
{
    match word(tokens, at, b"high") {
        Ok(end) => Ok((true, end)),
        Err(_) => {
            let end = word(tokens, at, b"low")?;
            Ok((false, end))
        }
    }
}

fn read_head(alloc: Global, tokens: &[Token]) -> Result<(SetHead, usize), TextFault>
    ensures spelt { IfOk result (λ read. SpellsHead tokens.now 0 read.0.block read.0.clock read.0.reset read.0.high read.0.cycles read.1) }
    ensures only { Answers (SpellsHeadOf tokens.now) Always flat 0 0 result }
    ensures plain { IfErr result IsFlat }
{
    let (block, end) = named(alloc, tokens, 0, b"block")?;
    let (clock, end) = named(alloc, tokens, end, b"clock")?;
    let end = word(tokens, end, b"reset")?;
    let (reset, end) = name(alloc, tokens, end)?;
    let (high, end) = level(tokens, end)?;
    let (cycles, end) = digits(tokens, end)?;
    let end = sign(tokens, end, b";")?;
    Ok((
        SetHead {
            block,
            clock,
            reset,
            high,
            cycles,
        },
        end,
    ))
}

/// The text of a set.
pub fn set_text(alloc: Global, tokens: &[Token]) -> Result<SetText, TextFault>
    ensures spelt { IfOk result (λ text. SpellsSet tokens.now text) }
    ensures low { IfOk result (λ text. set_height text ≤ 500) }
    ensures only { IfErr result (DeniesSets tokens.now) }
    ensures long { IfErr result (IsLong tokens.now 2) }
{
    let (head, end) = read_head(alloc, tokens)?;
    let (declarations, end) = declarations(alloc, tokens, end)?;
    let (rules, end) = match rules(alloc, tokens, end) {
        Ok(read) => read,
        Err(fault) => return Err(fault.dropping((head, declarations))),
    };
    let (first, end) = match reset_property(alloc, tokens, end) {
        Ok(read) => read,
        Err(fault) => return Err(fault.dropping((head, declarations, rules))),
    };
    let (operations, end) = match operations(alloc, tokens, end) {
        Ok(read) => read,
        Err(fault) => return Err(fault.dropping((head, declarations, rules, first))),
    };
    if end != tokens.len() {
        return Err(TextFault::Syntax(end).dropping((head, declarations, rules, first, operations)));
    }
    Ok(SetText {
        block: head.block,
        clock: head.clock,
        reset: head.reset,
        high: head.high,
        cycles: head.cycles,
        declarations,
        rules,
        first,
        operations,
    })
}
