// Labels of case items.
ghost use Rattle.std.specs.Prelude.{◌≡◌, ◌≤◌, ◌<◌, ◌+◌, length, codes, false};
ghost use Rattle.vlog_read_stmt.specs.Answers.{IsWildAt, AnswersLabel, AnswersLabelList, AnswersLabels};

use sqlite_items::Items;
use std::alloc::Global;
use vlog_read_expr::{Parsed, after, is_sign, is_word, kind_at, read_tree};
use vlog_read_lex::ReadFault;
use vlog_tree::{CaseKind, Expr, Kind, Labels, Number, Token};

/// Labels with commas between, the greatest height among them, and the place after them.
#[derive(Drop)]
pub struct ListedLabels {
    pub items: Items<Expr>,
    pub height: usize,
    pub end: usize,
}

/// The labels of an item, the greatest height among them, and the place after their colon.
#[derive(Drop)]
pub struct ParsedLabels {
    pub labels: Labels,
    /// 1 for `default`, and else 0.
    pub defaults: usize,
    pub height: usize,
    pub end: usize,
}

// The number at a place, where it is a label of `casez` with digits `?` or `z`.
fn wild_at(kind: CaseKind, tokens: &[Token], at: usize) -> Option<Number>
    ensures { IsWildAt kind tokens.now at result }
{
    match kind {
        CaseKind::Case => None,
        CaseKind::Casez => match kind_at(tokens, at) {
            Some(Kind::Number(number)) if number.wildcard => Some(*number),
            _ => None,
        },
    }
}

// A label: an expression, or in `casez` a number with digits `?` or `z`.
fn label(
    alloc: Global,
    kind: CaseKind,
    tokens: &[Token],
    at: usize,
    depth: usize,
) -> Result<Parsed, ReadFault>
    requires low { depth ≤ 500 }
    ensures { AnswersLabel kind tokens.now at depth result }
{
    let Some(number) = wild_at(kind, tokens, at) else {
        return read_tree(alloc, false, tokens, at, depth);
    };
    if depth == 0 {
        return Err(ReadFault::Deep);
    }
    Ok(Parsed {
        tree: Expr::Number(number),
        height: 1,
        end: after(tokens, at),
    })
}

// Labels with commas between.
fn label_list(
    alloc: Global,
    kind: CaseKind,
    tokens: &[Token],
    at: usize,
    depth: usize,
) -> Result<ListedLabels, ReadFault>
    requires low { depth ≤ 500 }
    ensures { AnswersLabelList kind tokens.now at depth result }
{
    let first = label(alloc, kind, tokens, at, depth)?;
    let mut items = Items::new(alloc);
    items.push(first.tree)?;
    let mut height = first.height;
    let mut end = first.end;
    while is_sign(tokens, end, b",") {
        let item = label(alloc, kind, tokens, after(tokens, end), depth)?;
        items.push(item.tree)?;
        height = height.max(item.height);
        end = item.end;
    }
    Ok(ListedLabels { items, height, end })
}

/// `default`, or labels up to their colon.
pub fn labels(
    alloc: Global,
    kind: CaseKind,
    tokens: &[Token],
    at: usize,
    depth: usize,
) -> Result<ParsedLabels, ReadFault>
    requires low { depth ≤ 500 }
    ensures { AnswersLabels kind tokens.now at depth result }
{
    if is_word(tokens, at, b"default") {
        let next = after(tokens, at);
        let end = if is_sign(tokens, next, b":") {
            after(tokens, next)
        } else {
            next
        };
        return Ok(ParsedLabels {
            labels: Labels::Default,
            defaults: 1,
            height: 0,
            end,
        });
    }
    let list = label_list(alloc, kind, tokens, at, depth)?;
    if !is_sign(tokens, list.end, b":") {
        return Err(ReadFault::Syntax(list.end));
    }
    Ok(ParsedLabels {
        labels: Labels::Exprs(list.items),
        defaults: 0,
        height: list.height,
        end: after(tokens, list.end),
    })
}
