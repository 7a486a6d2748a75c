// Statements, by their first token.
ghost use Rattle.std.specs.Prelude.{◌≡◌, ◌≤◌, ◌<◌, ◌+◌, ◌-◌, length, Some, codes, false};
ghost use Rattle.vlog_tree.specs.Statements.{case_word};
ghost use Rattle.vlog_tree.specs.Signs.{IsSign, IsWord};
ghost use Rattle.vlog_read_stmt.specs.Answers.{AnswersStmt, AnswersSeq, AnswersItem, AnswersCases, AnswersHeader, AnswersValue, AnswersBlockName, NoKeyword, IsCaseWord, IsLval, IsHeader, IsStmt};

use crate::label::labels;
use crate::lval::{ParsedLval, read_lval};
use outside::Text;
use sqlite_items::{Boxed, Items};
use std::alloc::Global;
use vlog_read_expr::{Parsed, after, identifier, is_sign, is_word, read_tree};
use vlog_read_lex::ReadFault;
use vlog_tree::{CaseItem, CaseKind, Stmt, Token};

// Where a reading fails, the trees that were read before are dropped by a call: dropped in place, each would be proved
// anew at each such exit.

/// A statement, its height, and the place after it.
#[derive(Drop)]
pub struct ParsedStmt {
    pub tree: Stmt,
    pub height: usize,
    pub end: usize,
}

/// Statements one after another, the greatest height among them, and the place after them.
#[derive(Drop)]
pub struct ParsedSeq {
    pub items: Items<Stmt>,
    pub height: usize,
    pub end: usize,
}

/// A case item, the greatest height in it, and the place after it.
#[derive(Drop)]
pub struct ParsedItem {
    pub item: CaseItem,
    /// 1 for `default`, and else 0.
    pub defaults: usize,
    pub height: usize,
    pub end: usize,
}

/// Case items one after another, the greatest height among them, and the place after them.
#[derive(Drop)]
pub struct ParsedCases {
    pub items: Items<CaseItem>,
    pub height: usize,
    pub end: usize,
}

/// The name of a block where it has one, and the place after it.
#[derive(Drop)]
pub struct BlockName {
    pub name: Option<Text>,
    pub end: usize,
}

// An `if` of which the condition and the statement after it are read.
#[derive(Drop)]
struct IfStart {
    // Where the `if` stands.
    at: usize,
    condition: Parsed,
    yes: ParsedStmt,
}

/// The statement at a place, no higher than `depth`.
#[cycle(stmt)]
pub fn read_stmt(
    alloc: Global,
    tokens: &[Token],
    at: usize,
    depth: usize,
) -> Result<ParsedStmt, ReadFault>
    requires low { depth ≤ 500 }
    ensures { AnswersStmt tokens.now at depth result }
{
    if tokens.len() <= at {
        return Err(ReadFault::Syntax(at));
    }
    if depth == 0 {
        return Err(ReadFault::Deep);
    }
    if is_sign(tokens, at, b";") {
        Ok(ParsedStmt {
            tree: Stmt::Empty,
            height: 1,
            end: after(tokens, at),
        })
    } else if is_word(tokens, at, b"begin") {
        block(alloc, tokens, at, depth)
    } else if is_word(tokens, at, b"if") {
        conditional(alloc, tokens, at, depth)
    } else {
        case_or_assignment(alloc, tokens, at, depth)
    }
}

// How the case statement compares that begins at a place.
fn case_kind(tokens: &[Token], at: usize) -> Option<CaseKind>
    ensures { IsCaseWord tokens.now at result }
{
    if is_word(tokens, at, b"case") {
        Some(CaseKind::Case)
    } else if is_word(tokens, at, b"casez") {
        Some(CaseKind::Casez)
    } else {
        None
    }
}

// A case statement or an assignment.
#[cycle(stmt)]
fn case_or_assignment(
    alloc: Global,
    tokens: &[Token],
    at: usize,
    depth: usize,
) -> Result<ParsedStmt, ReadFault>
    requires no_semicolon { IsSign tokens.now at (codes ";") → ⊥ }
    requires no_begin { IsWord tokens.now at (codes "begin") → ⊥ }
    requires no_if { IsWord tokens.now at (codes "if") → ⊥ }
    requires positive { 0 < depth }
    requires low { depth ≤ 500 }
    ensures { AnswersStmt tokens.now at depth result }
{
    match case_kind(tokens, at) {
        Some(kind) => choice(alloc, kind, tokens, at, depth),
        None => assignment(alloc, tokens, at, depth),
    }
}

// `:` and a name, or nothing.
fn block_name(alloc: Global, tokens: &[Token], at: usize) -> Result<BlockName, ReadFault>
    ensures { AnswersBlockName tokens.now at result }
{
    if !is_sign(tokens, at, b":") {
        return Ok(BlockName {
            name: None,
            end: at,
        });
    }
    let colon = after(tokens, at);
    let name = identifier(alloc, false, tokens, colon)?;
    Ok(BlockName {
        name: Some(name),
        end: after(tokens, colon),
    })
}

#[cycle(stmt)]
fn block(alloc: Global, tokens: &[Token], at: usize, depth: usize) -> Result<ParsedStmt, ReadFault>
    requires here { IsWord tokens.now at (codes "begin") }
    requires positive { 0 < depth }
    requires low { depth ≤ 500 }
    ensures { AnswersStmt tokens.now at depth result }
{
    let label = block_name(alloc, tokens, after(tokens, at))?;
    let parts = match sequence(alloc, tokens, label.end, depth - 1) {
        Ok(parts) => parts,
        Err(fault) => {
            drop(label);
            return Err(fault);
        }
    };
    Ok(ParsedStmt {
        tree: Stmt::Block(label.name, parts.items),
        height: parts.height + 1,
        end: after(tokens, parts.end),
    })
}

// Statements up to an `end`.
#[cycle(stmt)]
fn sequence(
    alloc: Global,
    tokens: &[Token],
    at: usize,
    depth: usize,
) -> Result<ParsedSeq, ReadFault>
    requires low { depth ≤ 500 }
    ensures { AnswersSeq tokens.now at depth result }
{
    let mut items = Items::new(alloc);
    let mut height = 0usize;
    let mut end = at;
    while !is_word(tokens, end, b"end") {
        let item = read_stmt(alloc, tokens, end, depth)?;
        items.push(item.tree)?;
        height = height.max(item.height);
        end = item.end;
    }
    Ok(ParsedSeq { items, height, end })
}

// After a word, an expression in parentheses; the place answered is that after the closing one.
fn header(alloc: Global, tokens: &[Token], at: usize, depth: usize) -> Result<Parsed, ReadFault>
    requires within { at < length tokens.now }
    requires low { depth ≤ 500 }
    ensures { AnswersHeader tokens.now at depth result }
{
    let open = after(tokens, at);
    if !is_sign(tokens, open, b"(") {
        return Err(ReadFault::Syntax(open));
    }
    let inner = read_tree(alloc, false, tokens, after(tokens, open), depth)?;
    if !is_sign(tokens, inner.end, b")") {
        let place = inner.end;
        drop(inner);
        return Err(ReadFault::Syntax(place));
    }
    Ok(Parsed {
        tree: inner.tree,
        height: inner.height,
        end: after(tokens, inner.end),
    })
}

#[cycle(stmt)]
fn conditional(
    alloc: Global,
    tokens: &[Token],
    at: usize,
    depth: usize,
) -> Result<ParsedStmt, ReadFault>
    requires here { IsWord tokens.now at (codes "if") }
    requires positive { 0 < depth }
    requires low { depth ≤ 500 }
    ensures { AnswersStmt tokens.now at depth result }
{
    let condition = header(alloc, tokens, at, depth - 1)?;
    let yes = match read_stmt(alloc, tokens, condition.end, depth - 1) {
        Ok(yes) => yes,
        Err(fault) => {
            drop(condition);
            return Err(fault);
        }
    };
    if is_word(tokens, yes.end, b"else") {
        let start = IfStart { at, condition, yes };
        return with_else(alloc, tokens, start, depth);
    }
    let height = condition.height.max(yes.height) + 1;
    let end = yes.end;
    match Boxed::new(alloc, yes.tree) {
        Ok(yes) => Ok(ParsedStmt {
            tree: Stmt::If(condition.tree, yes),
            height,
            end,
        }),
        Err(fault) => {
            drop(condition);
            Err(fault.into())
        }
    }
}

// The `else` of an `if` whose first part is read.
#[cycle(stmt)]
fn with_else(
    alloc: Global,
    tokens: &[Token],
    start: IfStart,
    depth: usize,
) -> Result<ParsedStmt, ReadFault>
    requires here { IsWord tokens.now start.at (codes "if") }
    requires condition { IsHeader tokens.now start.at (depth - 1) start.condition }
    requires yes { IsStmt tokens.now start.condition.end (depth - 1) start.yes }
    requires word { IsWord tokens.now start.yes.end (codes "else") }
    requires positive { 0 < depth }
    requires low { depth ≤ 500 }
    ensures { AnswersStmt tokens.now start.at depth result }
{
    let no = match read_stmt(alloc, tokens, after(tokens, start.yes.end), depth - 1) {
        Ok(no) => no,
        Err(fault) => {
            drop(start);
            return Err(fault);
        }
    };
    let IfStart { condition, yes, .. } = start;
    let height = condition.height.max(yes.height.max(no.height)) + 1;
    let end = no.end;
    match (Boxed::new(alloc, yes.tree), Boxed::new(alloc, no.tree)) {
        (Ok(yes), Ok(no)) => Ok(ParsedStmt {
            tree: Stmt::IfElse(condition.tree, yes, no),
            height,
            end,
        }),
        _ => {
            drop(condition);
            Err(ReadFault::Memory)
        }
    }
}

#[cycle(stmt)]
fn choice(
    alloc: Global,
    kind: CaseKind,
    tokens: &[Token],
    at: usize,
    depth: usize,
) -> Result<ParsedStmt, ReadFault>
    requires here { IsWord tokens.now at (case_word kind) }
    requires positive { 0 < depth }
    requires low { depth ≤ 500 }
    ensures { AnswersStmt tokens.now at depth result }
{
    let value = header(alloc, tokens, at, depth - 1)?;
    let cases = match case_items(alloc, kind, tokens, value.end, depth - 1) {
        Ok(cases) => cases,
        Err(fault) => {
            drop(value);
            return Err(fault);
        }
    };
    Ok(ParsedStmt {
        tree: Stmt::Case(kind, value.tree, cases.items),
        height: value.height.max(cases.height) + 1,
        end: after(tokens, cases.end),
    })
}

// Case items up to an `endcase`: one or more, at most one of them `default`.
#[cycle(stmt)]
fn case_items(
    alloc: Global,
    kind: CaseKind,
    tokens: &[Token],
    at: usize,
    depth: usize,
) -> Result<ParsedCases, ReadFault>
    requires low { depth ≤ 500 }
    ensures { AnswersCases kind tokens.now at depth result }
{
    let mut items = Items::new(alloc);
    let mut height = 0usize;
    let mut end = at;
    let mut defaults = 0usize;
    while !is_word(tokens, end, b"endcase") {
        let item = case_item(alloc, kind, tokens, end, depth)?;
        defaults += item.defaults;
        if defaults > 1 {
            drop(item);
            return Err(ReadFault::Syntax(end));
        }
        items.push(item.item)?;
        height = height.max(item.height);
        end = item.end;
    }
    if end == at {
        return Err(ReadFault::Syntax(end));
    }
    Ok(ParsedCases { items, height, end })
}

#[cycle(stmt)]
fn case_item(
    alloc: Global,
    kind: CaseKind,
    tokens: &[Token],
    at: usize,
    depth: usize,
) -> Result<ParsedItem, ReadFault>
    requires low { depth ≤ 500 }
    ensures { AnswersItem kind tokens.now at depth result }
{
    let labels = labels(alloc, kind, tokens, at, depth)?;
    let body = match read_stmt(alloc, tokens, labels.end, depth) {
        Ok(body) => body,
        Err(fault) => {
            drop(labels);
            return Err(fault);
        }
    };
    Ok(ParsedItem {
        item: CaseItem {
            labels: labels.labels,
            body: body.tree,
        },
        defaults: labels.defaults,
        height: labels.height.max(body.height),
        end: body.end,
    })
}

// An expression and its semicolon; the place answered is that after it.
fn value(alloc: Global, tokens: &[Token], at: usize, depth: usize) -> Result<Parsed, ReadFault>
    requires low { depth ≤ 500 }
    ensures { AnswersValue tokens.now at depth result }
{
    let value = read_tree(alloc, false, tokens, at, depth)?;
    if !is_sign(tokens, value.end, b";") {
        let place = value.end;
        drop(value);
        return Err(ReadFault::Syntax(place));
    }
    Ok(Parsed {
        tree: value.tree,
        height: value.height,
        end: after(tokens, value.end),
    })
}

fn assignment(
    alloc: Global,
    tokens: &[Token],
    at: usize,
    depth: usize,
) -> Result<ParsedStmt, ReadFault>
    requires other { NoKeyword tokens.now at }
    requires positive { 0 < depth }
    requires low { depth ≤ 500 }
    ensures { AnswersStmt tokens.now at depth result }
{
    let left = read_lval(alloc, tokens, at, depth - 1)?;
    if is_sign(tokens, left.end, b"<=") {
        nonblocking(alloc, tokens, at, left, depth)
    } else if is_sign(tokens, left.end, b"=") {
        blocking(alloc, tokens, at, left, depth)
    } else {
        let place = left.end;
        drop(left);
        Err(ReadFault::Syntax(place))
    }
}

fn nonblocking(
    alloc: Global,
    tokens: &[Token],
    at: usize,
    left: ParsedLval,
    depth: usize,
) -> Result<ParsedStmt, ReadFault>
    requires other { NoKeyword tokens.now at }
    requires left { IsLval tokens.now at (depth - 1) left }
    requires sign { IsSign tokens.now left.end (codes "<=") }
    requires positive { 0 < depth }
    requires low { depth ≤ 500 }
    ensures { AnswersStmt tokens.now at depth result }
{
    let right = match value(alloc, tokens, after(tokens, left.end), depth - 1) {
        Ok(right) => right,
        Err(fault) => {
            drop(left);
            return Err(fault);
        }
    };
    Ok(ParsedStmt {
        tree: Stmt::Nonblocking(left.tree, right.tree),
        height: left.height.max(right.height) + 1,
        end: right.end,
    })
}

fn blocking(
    alloc: Global,
    tokens: &[Token],
    at: usize,
    left: ParsedLval,
    depth: usize,
) -> Result<ParsedStmt, ReadFault>
    requires other { NoKeyword tokens.now at }
    requires left { IsLval tokens.now at (depth - 1) left }
    requires sign { IsSign tokens.now left.end (codes "=") }
    requires positive { 0 < depth }
    requires low { depth ≤ 500 }
    ensures { AnswersStmt tokens.now at depth result }
{
    let right = match value(alloc, tokens, after(tokens, left.end), depth - 1) {
        Ok(right) => right,
        Err(fault) => {
            drop(left);
            return Err(fault);
        }
    };
    Ok(ParsedStmt {
        tree: Stmt::Blocking(left.tree, right.tree),
        height: left.height.max(right.height) + 1,
        end: right.end,
    })
}
