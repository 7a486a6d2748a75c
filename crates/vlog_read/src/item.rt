// Items, by their first word.
ghost use Rattle.std.specs.Prelude.{ℕ, ◌≡◌, ◌≤◌, ◌<◌, ◌+◌, ◌-◌, ◌⊎◌, ◌↔◌, IsTrue, length, codes};
ghost use Rattle.vlog_tree.specs.Signs.{IsWord};
ghost use Rattle.vlog_read.specs.Answers.{FindsKind, FindsItem, NamesModule, SkipsWire};

use crate::declaration::read_declared;
use crate::events::read_events;
use crate::instance::overrides;
use crate::list::up_to_end;
use crate::part::Found;
use outside::Text;
use std::alloc::Global;
use vlog_read_expr::{after, identifier, is_sign, is_word};
use vlog_read_lex::ReadFault;
use vlog_read_stmt::read_stmt;
use vlog_tree::{Assign, Instance, Item, Parameter, PortKind, Register, Token, Wire};

// The place after a `wire` that may stand.
fn past_wire(tokens: &[Token], at: usize) -> usize
    ensures { SkipsWire tokens.now at result }
{
    if is_word(tokens, at, b"wire") {
        return after(tokens, at);
    }
    at
}

/// Whether a port's direction stands at a place.
pub fn is_direction(tokens: &[Token], at: usize) -> bool
    ensures { IsTrue result ↔ (IsWord tokens.now at (codes "input") ⊎ IsWord tokens.now at (codes "output")) }
{
    is_word(tokens, at, b"input") || is_word(tokens, at, b"output")
}

/// The direction of a port, with its optional `wire`.
pub fn port_kind(tokens: &[Token], at: usize) -> Result<Found<PortKind>, ReadFault>
    ensures { FindsKind tokens.now at result }
{
    if is_word(tokens, at, b"input") {
        let next = after(tokens, at);
        return Ok(Found {
            tree: PortKind::Input,
            height: 0,
            end: past_wire(tokens, next),
        });
    }
    if !is_word(tokens, at, b"output") {
        return Err(ReadFault::Syntax(at));
    }
    let next = after(tokens, at);
    if is_word(tokens, next, b"reg") {
        return Ok(Found {
            tree: PortKind::OutputReg,
            height: 0,
            end: after(tokens, next),
        });
    }
    Ok(Found {
        tree: PortKind::Output,
        height: 0,
        end: past_wire(tokens, next),
    })
}

fn ports(alloc: Global, tokens: &[Token], at: usize, depth: usize) -> Result<Found<Item>, ReadFault>
    requires here { IsWord tokens.now at (codes "input") ⊎ IsWord tokens.now at (codes "output") }
    requires positive { 0 < depth }
    requires low { depth ≤ 500 }
    ensures { FindsItem tokens.now at depth result }
{
    let kind = port_kind(tokens, at)?;
    let rest = read_declared::<Text>(alloc, tokens, kind.end, depth - 1)?;
    Ok(Found {
        tree: Item::Ports(kind.tree, rest.tree.shape, rest.tree.items),
        height: rest.height + 1,
        end: rest.end,
    })
}

fn wires(alloc: Global, tokens: &[Token], at: usize, depth: usize) -> Result<Found<Item>, ReadFault>
    requires here { IsWord tokens.now at (codes "wire") }
    requires positive { 0 < depth }
    requires low { depth ≤ 500 }
    ensures { FindsItem tokens.now at depth result }
{
    let rest = read_declared::<Wire>(alloc, tokens, after(tokens, at), depth - 1)?;
    Ok(Found {
        tree: Item::Wires(rest.tree.shape, rest.tree.items),
        height: rest.height + 1,
        end: rest.end,
    })
}

fn registers(
    alloc: Global,
    tokens: &[Token],
    at: usize,
    depth: usize,
) -> Result<Found<Item>, ReadFault>
    requires here { IsWord tokens.now at (codes "reg") }
    requires positive { 0 < depth }
    requires low { depth ≤ 500 }
    ensures { FindsItem tokens.now at depth result }
{
    let rest = read_declared::<Register>(alloc, tokens, after(tokens, at), depth - 1)?;
    Ok(Found {
        tree: Item::Registers(rest.tree.shape, rest.tree.items),
        height: rest.height + 1,
        end: rest.end,
    })
}

fn parameters(
    alloc: Global,
    tokens: &[Token],
    at: usize,
    depth: usize,
) -> Result<Found<Item>, ReadFault>
    requires here { IsWord tokens.now at (codes "parameter") }
    requires positive { 0 < depth }
    requires low { depth ≤ 500 }
    ensures { FindsItem tokens.now at depth result }
{
    let rest = read_declared::<Parameter>(alloc, tokens, after(tokens, at), depth - 1)?;
    Ok(Found {
        tree: Item::Parameters(rest.tree.shape, rest.tree.items),
        height: rest.height + 1,
        end: rest.end,
    })
}

fn local_parameters(
    alloc: Global,
    tokens: &[Token],
    at: usize,
    depth: usize,
) -> Result<Found<Item>, ReadFault>
    requires here { IsWord tokens.now at (codes "localparam") }
    requires positive { 0 < depth }
    requires low { depth ≤ 500 }
    ensures { FindsItem tokens.now at depth result }
{
    let rest = read_declared::<Parameter>(alloc, tokens, after(tokens, at), depth - 1)?;
    Ok(Found {
        tree: Item::LocalParameters(rest.tree.shape, rest.tree.items),
        height: rest.height + 1,
        end: rest.end,
    })
}

fn assigns(
    alloc: Global,
    tokens: &[Token],
    at: usize,
    depth: usize,
) -> Result<Found<Item>, ReadFault>
    requires here { IsWord tokens.now at (codes "assign") }
    requires positive { 0 < depth }
    requires low { depth ≤ 500 }
    ensures { FindsItem tokens.now at depth result }
{
    let list = up_to_end::<Assign>(alloc, tokens, after(tokens, at), depth - 1)?;
    Ok(Found {
        tree: Item::Assigns(list.tree),
        height: list.height + 1,
        end: list.end,
    })
}

fn always(
    alloc: Global,
    tokens: &[Token],
    at: usize,
    depth: usize,
) -> Result<Found<Item>, ReadFault>
    requires here { IsWord tokens.now at (codes "always") }
    requires positive { 0 < depth }
    requires low { depth ≤ 500 }
    ensures { FindsItem tokens.now at depth result }
{
    let sign = after(tokens, at);
    if !is_sign(tokens, sign, b"@") {
        return Err(ReadFault::Syntax(sign));
    }
    let events = read_events(alloc, tokens, after(tokens, sign), depth - 1)?;
    let body = match read_stmt(alloc, tokens, events.end, depth - 1) {
        Ok(body) => body,
        Err(fault) => return Err(fault.dropping(events)),
    };
    Ok(Found {
        tree: Item::Always(events.tree, body.tree),
        height: body.height + 1,
        end: body.end,
    })
}

fn instances(
    alloc: Global,
    tokens: &[Token],
    at: usize,
    depth: usize,
) -> Result<Found<Item>, ReadFault>
    requires other { NamesModule tokens.now at }
    requires positive { 0 < depth }
    requires low { depth ≤ 500 }
    ensures { FindsItem tokens.now at depth result }
{
    let name = identifier(alloc, false, tokens, at)?;
    let overrides = overrides(alloc, tokens, after(tokens, at), depth - 1)?;
    let list = match up_to_end::<Instance>(alloc, tokens, overrides.end, depth - 1) {
        Ok(list) => list,
        Err(fault) => return Err(fault.dropping((name, overrides))),
    };
    Ok(Found {
        tree: Item::Instances(name, overrides.tree, list.tree),
        height: overrides.height.max(list.height) + 1,
        end: list.end,
    })
}

/// The item at a place.
pub fn read_item(
    alloc: Global,
    tokens: &[Token],
    at: usize,
    depth: usize,
) -> Result<Found<Item>, ReadFault>
    requires low { depth ≤ 500 }
    ensures { FindsItem tokens.now at depth result }
{
    if tokens.len() <= at {
        return Err(ReadFault::Syntax(at));
    }
    if depth == 0 {
        return Err(ReadFault::Deep);
    }
    if is_direction(tokens, at) {
        ports(alloc, tokens, at, depth)
    } else if is_word(tokens, at, b"wire") {
        wires(alloc, tokens, at, depth)
    } else if is_word(tokens, at, b"reg") {
        registers(alloc, tokens, at, depth)
    } else if is_word(tokens, at, b"parameter") {
        parameters(alloc, tokens, at, depth)
    } else if is_word(tokens, at, b"localparam") {
        local_parameters(alloc, tokens, at, depth)
    } else if is_word(tokens, at, b"assign") {
        assigns(alloc, tokens, at, depth)
    } else if is_word(tokens, at, b"always") {
        always(alloc, tokens, at, depth)
    } else {
        instances(alloc, tokens, at, depth)
    }
}
