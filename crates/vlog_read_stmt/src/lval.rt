// Left sides of assignments.
ghost use Rattle.std.specs.Prelude.{◌≡◌, ◌≤◌, ◌<◌, ◌+◌, ◌-◌, length, Some, None, codes, false};
ghost use Rattle.vlog_tree.specs.Signs.{IsSign, span_at};
ghost use Rattle.vlog_tree.specs.Spelling.{IsIdentifier};
ghost use Rattle.vlog_read_expr.specs.Answers.{IsRead};
ghost use Rattle.vlog_read_stmt.specs.Answers.{AnswersLval, AnswersLvals, BeginsLval};

use outside::Text;
use sqlite_items::Items;
use std::alloc::Global;
use vlog_read_expr::{Parsed, after, identifier, is_sign, read_tree, span_at};
use vlog_read_lex::ReadFault;
use vlog_tree::{Lval, Span, Token};

// Where a reading fails, the trees that were read before are dropped by a call: dropped in place, each would be proved
// anew at each such exit.

/// A left side, its height, and the place after it.
#[derive(Drop)]
pub struct ParsedLval {
    pub tree: Lval,
    pub height: usize,
    pub end: usize,
}

/// Left sides with commas between, the greatest height among them, and the place after them.
#[derive(Drop)]
pub struct ListedLvals {
    pub items: Items<Lval>,
    pub height: usize,
    pub end: usize,
}

// A part-select of which the first expression and the sign after it are read.
#[derive(Drop)]
struct PartStart {
    // Where the name stands.
    at: usize,
    name: Text,
    index: Parsed,
    span: Span,
}

/// The left side at a place, no higher than `depth`.
#[cycle(lval)]
pub fn read_lval(
    alloc: Global,
    tokens: &[Token],
    at: usize,
    depth: usize,
) -> Result<ParsedLval, ReadFault>
    requires low { depth ≤ 500 }
    ensures { AnswersLval tokens.now at depth result }
{
    if tokens.len() <= at {
        return Err(ReadFault::Syntax(at));
    }
    if tokens.len() <= after(tokens, at) {
        return Err(ReadFault::Syntax(at));
    }
    if depth == 0 {
        return Err(ReadFault::Deep);
    }
    let read = if is_sign(tokens, at, b"{") {
        concat(alloc, tokens, at, depth)?
    } else {
        named(alloc, tokens, at, depth)?
    };
    let end = read.end;
    if tokens.len() <= end || is_sign(tokens, end, b"[") {
        drop(read);
        return Err(ReadFault::Syntax(end));
    }
    Ok(read)
}

// A name with its select.
fn named(alloc: Global, tokens: &[Token], at: usize, depth: usize) -> Result<ParsedLval, ReadFault>
    requires apart { IsSign tokens.now at (codes "{") → ⊥ }
    requires positive { 0 < depth }
    requires low { depth ≤ 500 }
    ensures { BeginsLval tokens.now at depth result }
{
    let name = identifier(alloc, false, tokens, at)?;
    let next = after(tokens, at);
    if is_sign(tokens, next, b"[") {
        return bracket(alloc, tokens, at, name, depth);
    }
    Ok(ParsedLval {
        tree: Lval::Name(name),
        height: 1,
        end: next,
    })
}

// A name and what stands in brackets after it.
fn bracket(
    alloc: Global,
    tokens: &[Token],
    at: usize,
    name: Text,
    depth: usize,
) -> Result<ParsedLval, ReadFault>
    requires here { IsIdentifier false tokens.now at name }
    requires open { IsSign tokens.now (at + 1) (codes "[") }
    requires positive { 0 < depth }
    requires low { depth ≤ 500 }
    ensures { BeginsLval tokens.now at depth result }
{
    let open = after(tokens, at);
    let index = read_tree(alloc, false, tokens, after(tokens, open), depth - 1)?;
    if let Some(span) = span_at(tokens, index.end) {
        let start = PartStart {
            at,
            name,
            index,
            span,
        };
        return part(alloc, tokens, start, depth);
    }
    if !is_sign(tokens, index.end, b"]") {
        let place = index.end;
        drop(index);
        return Err(ReadFault::Syntax(place));
    }
    Ok(ParsedLval {
        tree: Lval::Select(name, index.tree),
        height: index.height + 1,
        end: after(tokens, index.end),
    })
}

// The second expression of a part-select.
fn part(
    alloc: Global,
    tokens: &[Token],
    start: PartStart,
    depth: usize,
) -> Result<ParsedLval, ReadFault>
    requires here { IsIdentifier false tokens.now start.at start.name }
    requires open { IsSign tokens.now (start.at + 1) (codes "[") }
    requires read { IsRead false tokens.now 1 (start.at + 2) (depth - 1) start.index }
    requires sign { span_at tokens.now start.index.end ≡ Some start.span }
    requires positive { 0 < depth }
    requires low { depth ≤ 500 }
    ensures { BeginsLval tokens.now start.at depth result }
{
    let next = after(tokens, start.index.end);
    let other = match read_tree(alloc, false, tokens, next, depth - 1) {
        Ok(other) => other,
        Err(fault) => {
            drop(start);
            return Err(fault);
        }
    };
    if !is_sign(tokens, other.end, b"]") {
        let place = other.end;
        drop(start);
        drop(other);
        return Err(ReadFault::Syntax(place));
    }
    let PartStart {
        name,
        index,
        span,
        ..
    } = start;
    Ok(ParsedLval {
        tree: Lval::Part(name, span, index.tree, other.tree),
        height: index.height.max(other.height) + 1,
        end: after(tokens, other.end),
    })
}

// Left sides in braces.
#[cycle(lval)]
fn concat(alloc: Global, tokens: &[Token], at: usize, depth: usize) -> Result<ParsedLval, ReadFault>
    requires here { IsSign tokens.now at (codes "{") }
    requires positive { 0 < depth }
    requires low { depth ≤ 500 }
    ensures { BeginsLval tokens.now at depth result }
{
    let parts = list(alloc, tokens, after(tokens, at), depth - 1)?;
    if !is_sign(tokens, parts.end, b"}") {
        return Err(ReadFault::Syntax(parts.end));
    }
    Ok(ParsedLval {
        tree: Lval::Concat(parts.items),
        height: parts.height + 1,
        end: after(tokens, parts.end),
    })
}

// Left sides with commas between.
#[cycle(lval)]
fn list(alloc: Global, tokens: &[Token], at: usize, depth: usize) -> Result<ListedLvals, ReadFault>
    requires low { depth ≤ 500 }
    ensures { AnswersLvals tokens.now at depth result }
{
    let first = read_lval(alloc, tokens, at, depth)?;
    let mut items = Items::new(alloc);
    items.push(first.tree)?;
    let mut height = first.height;
    let mut end = first.end;
    while is_sign(tokens, end, b",") {
        let item = read_lval(alloc, tokens, after(tokens, end), depth)?;
        items.push(item.tree)?;
        height = height.max(item.height);
        end = item.end;
    }
    Ok(ListedLvals { items, height, end })
}
