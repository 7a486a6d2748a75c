// Edges and lists of events.
ghost use Rattle.std.specs.Prelude.{ℕ, ◌≡◌, ◌≤◌, ◌<◌, ◌+◌, ◌⊎◌, ◌↔◌, IsTrue, length, codes};
ghost use Rattle.vlog_tree.specs.Signs.{IsSign};
ghost use Rattle.vlog_tree.specs.Statements.{SpellsEdge, SpellsEvents};
ghost use Rattle.vlog_read.specs.Answers.{Finds, IsEdge};

use crate::list::or_list;
use crate::part::{Found, Part};
use outside::Text;
use std::alloc::Global;
use vlog_read_expr::{after, identifier, is_sign, is_word};
use vlog_read_lex::ReadFault;
use vlog_tree::{Edge, Events, Token};

impl Part for Edge {
    ghost spells = { SpellsEdge };

    ghost height = { λ _. 0 };

    fn read(
        alloc: Global,
        tokens: &[Token],
        at: usize,
        depth: usize,
    ) -> Result<Found<Edge>, ReadFault> {
        if is_word(tokens, at, b"posedge") {
            let place = after(tokens, at);
            let name = identifier(alloc, false, tokens, place)?;
            return Ok(Found {
                tree: Edge { rising: true, name },
                height: 0,
                end: after(tokens, place),
            });
        }
        if is_word(tokens, at, b"negedge") {
            let place = after(tokens, at);
            let name = identifier(alloc, false, tokens, place)?;
            return Ok(Found {
                tree: Edge {
                    rising: false,
                    name,
                },
                height: 0,
                end: after(tokens, place),
            });
        }
        Err(ReadFault::Syntax(at))
    }
}

// Whether the word of an edge stands at a place.
fn is_edge(tokens: &[Token], at: usize) -> bool
    ensures { IsTrue result ↔ IsEdge tokens.now at }
{
    is_word(tokens, at, b"posedge") || is_word(tokens, at, b"negedge")
}

/// What an `always` waits for, after its `@`.
pub fn read_events(
    alloc: Global,
    tokens: &[Token],
    at: usize,
    depth: usize,
) -> Result<Found<Events>, ReadFault>
    requires { depth ≤ 500 }
    ensures { Finds tokens.now (λ _. 0) (SpellsEvents tokens.now) (SpellsEvents tokens.now) at depth result }
{
    if is_sign(tokens, at, b"*") {
        return Ok(Found {
            tree: Events::All,
            height: 0,
            end: after(tokens, at),
        });
    }
    if !is_sign(tokens, at, b"(") {
        return Err(ReadFault::Syntax(at));
    }
    let open = after(tokens, at);
    if is_sign(tokens, open, b"*") {
        return all_events(tokens, at, depth);
    }
    if is_edge(tokens, open) {
        return edges(alloc, tokens, at, depth);
    }
    names(alloc, tokens, at, depth)
}

// `(*)`
fn all_events(tokens: &[Token], at: usize, depth: usize) -> Result<Found<Events>, ReadFault>
    requires opens { IsSign tokens.now at (codes "(") }
    requires star { IsSign tokens.now (at + 1) (codes "*") }
    ensures { Finds tokens.now (λ _. 0) (SpellsEvents tokens.now) (SpellsEvents tokens.now) at depth result }
{
    let close = after(tokens, after(tokens, at));
    if !is_sign(tokens, close, b")") {
        return Err(ReadFault::Syntax(close));
    }
    Ok(Found {
        tree: Events::All,
        height: 0,
        end: after(tokens, close),
    })
}

fn edges(
    alloc: Global,
    tokens: &[Token],
    at: usize,
    depth: usize,
) -> Result<Found<Events>, ReadFault>
    requires opens { IsSign tokens.now at (codes "(") }
    requires edge { IsEdge tokens.now (at + 1) }
    requires low { depth ≤ 500 }
    ensures { Finds tokens.now (λ _. 0) (SpellsEvents tokens.now) (SpellsEvents tokens.now) at depth result }
{
    let list = or_list::<Edge>(alloc, tokens, after(tokens, at), depth)?;
    if !is_sign(tokens, list.end, b")") {
        return Err(ReadFault::Syntax(list.end));
    }
    Ok(Found {
        tree: Events::Edges(list.tree),
        height: 0,
        end: after(tokens, list.end),
    })
}

fn names(
    alloc: Global,
    tokens: &[Token],
    at: usize,
    depth: usize,
) -> Result<Found<Events>, ReadFault>
    requires opens { IsSign tokens.now at (codes "(") }
    requires no_star { IsSign tokens.now (at + 1) (codes "*") → ⊥ }
    requires no_edge { IsEdge tokens.now (at + 1) → ⊥ }
    requires low { depth ≤ 500 }
    ensures { Finds tokens.now (λ _. 0) (SpellsEvents tokens.now) (SpellsEvents tokens.now) at depth result }
{
    let list = or_list::<Text>(alloc, tokens, after(tokens, at), depth)?;
    if !is_sign(tokens, list.end, b")") {
        return Err(ReadFault::Syntax(list.end));
    }
    Ok(Found {
        tree: Events::Names(list.tree),
        height: 0,
        end: after(tokens, list.end),
    })
}
