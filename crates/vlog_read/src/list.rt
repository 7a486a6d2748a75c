// Lists of parts.
ghost use Rattle.std.specs.Prelude.{◌≤◌, ◌<◌, ◌↔◌, IsTrue, IfOk};
ghost use Rattle.vlog_tree.specs.Lists.{Separated, Comma, UpToEnd, highest};
ghost use Rattle.vlog_tree.specs.Statements.{OrComma};
ghost use Rattle.vlog_read.specs.Answers.{Finds, Before, Closes};

use crate::part::{Found, Part};
use sqlite_items::Items;
use std::alloc::Global;
use vlog_read_expr::{after, is_sign, is_word};
use vlog_read_lex::ReadFault;
use vlog_tree::Token;

/// Parts with commas between.
pub fn comma_list<T: Part>(
    alloc: Global,
    tokens: &[Token],
    at: usize,
    depth: usize,
) -> Result<Found<Items<T>>, ReadFault>
    requires { depth ≤ 500 }
    ensures found { Finds tokens.now (highest T.height) (Separated (Comma tokens.now) (T.spells tokens.now))
        (Before (Separated (Comma tokens.now) (T.spells tokens.now)) (Closes tokens.now)) at depth result }
    ensures forward { IfOk result (λ found. at < found.end) }
{
    let first = T::read(alloc, tokens, at, depth)?;
    let mut items = Items::new(alloc);
    items.push(first.tree)?;
    let mut height = first.height;
    let mut end = first.end;
    while is_sign(tokens, end, b",") {
        let item = T::read(alloc, tokens, after(tokens, end), depth)?;
        items.push(item.tree)?;
        height = height.max(item.height);
        end = item.end;
    }
    Ok(Found {
        tree: items,
        height,
        end,
    })
}

// Whether a comma or the word `or` stands at a place.
fn is_or(tokens: &[Token], at: usize) -> bool
    ensures { IsTrue result ↔ OrComma tokens.now at }
{
    is_word(tokens, at, b"or") || is_sign(tokens, at, b",")
}

/// Parts with commas or the word `or` between.
pub fn or_list<T: Part>(
    alloc: Global,
    tokens: &[Token],
    at: usize,
    depth: usize,
) -> Result<Found<Items<T>>, ReadFault>
    requires { depth ≤ 500 }
    ensures found { Finds tokens.now (highest T.height) (Separated (OrComma tokens.now) (T.spells tokens.now))
        (Before (Separated (OrComma tokens.now) (T.spells tokens.now)) (Closes tokens.now)) at depth result }
    ensures forward { IfOk result (λ found. at < found.end) }
{
    let first = T::read(alloc, tokens, at, depth)?;
    let mut items = Items::new(alloc);
    items.push(first.tree)?;
    let mut height = first.height;
    let mut end = first.end;
    while is_or(tokens, end) {
        let item = T::read(alloc, tokens, after(tokens, end), depth)?;
        items.push(item.tree)?;
        height = height.max(item.height);
        end = item.end;
    }
    Ok(Found {
        tree: items,
        height,
        end,
    })
}

/// Parts with commas between, and a semicolon.
pub fn up_to_end<T: Part>(
    alloc: Global,
    tokens: &[Token],
    at: usize,
    depth: usize,
) -> Result<Found<Items<T>>, ReadFault>
    requires { depth ≤ 500 }
    ensures { Finds tokens.now (highest T.height) (UpToEnd tokens.now (T.spells tokens.now))
        (UpToEnd tokens.now (T.spells tokens.now)) at depth result }
{
    let list = comma_list::<T>(alloc, tokens, at, depth)?;
    if !is_sign(tokens, list.end, b";") {
        return Err(ReadFault::Syntax(list.end));
    }
    Ok(Found {
        tree: list.tree,
        height: list.height,
        end: after(tokens, list.end),
    })
}
