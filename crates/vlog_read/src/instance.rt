// Instances, their connections and overrides.
ghost use Rattle.std.specs.Prelude.{ℕ, ◌≡◌, ◌≤◌, ◌<◌, ◌+◌, length, codes, false};
ghost use Rattle.vlog_tree.specs.Signs.{IsSign};
ghost use Rattle.vlog_tree.specs.Lists.{Maybe, InParens, AfterHash, highest_of};
ghost use Rattle.vlog_tree.specs.Spelling.{Spells, height};
ghost use Rattle.vlog_tree.specs.Modules.{SpellsConnection, SpellsArgs, SpellsInstance, connection_height, args_height, instance_height};
ghost use Rattle.vlog_read.specs.Answers.{Finds, Before, Closes, NoSign};

use crate::list::comma_list;
use crate::part::{Found, Part};
use std::alloc::Global;
use vlog_read_expr::{after, identifier, is_sign, read_tree};
use vlog_read_lex::ReadFault;
use vlog_tree::{Args, Connection, Expr, Instance, Token};

// `( expression )` or `()`.
fn connected(
    alloc: Global,
    tokens: &[Token],
    at: usize,
    depth: usize,
) -> Result<Found<Option<Expr>>, ReadFault>
    requires { depth ≤ 500 }
    ensures { Finds tokens.now (highest_of height) (InParens tokens.now (Maybe (Spells false tokens.now)))
        (InParens tokens.now (Maybe (Spells false tokens.now))) at depth result }
{
    if !is_sign(tokens, at, b"(") {
        return Err(ReadFault::Syntax(at));
    }
    let open = after(tokens, at);
    if is_sign(tokens, open, b")") {
        return Ok(Found {
            tree: None,
            height: 0,
            end: after(tokens, open),
        });
    }
    let value = read_tree(alloc, false, tokens, open, depth)?;
    if !is_sign(tokens, value.end, b")") {
        return Err(ReadFault::Syntax(value.end).dropping(value));
    }
    Ok(Found {
        tree: Some(value.tree),
        height: value.height,
        end: after(tokens, value.end),
    })
}

impl Part for Connection {
    ghost spells = { SpellsConnection };

    ghost height = { connection_height };

    fn read(
        alloc: Global,
        tokens: &[Token],
        at: usize,
        depth: usize,
    ) -> Result<Found<Connection>, ReadFault> {
        if !is_sign(tokens, at, b".") {
            return Err(ReadFault::Syntax(at));
        }
        let place = after(tokens, at);
        let port = identifier(alloc, false, tokens, place)?;
        let value = connected(alloc, tokens, after(tokens, place), depth)?;
        Ok(Found {
            tree: Connection {
                port,
                value: value.tree,
            },
            height: value.height,
            end: value.end,
        })
    }
}

// Connections or overrides: one or more.
fn read_args(
    alloc: Global,
    tokens: &[Token],
    at: usize,
    depth: usize,
) -> Result<Found<Args>, ReadFault>
    requires { depth ≤ 500 }
    ensures { Finds tokens.now args_height (SpellsArgs tokens.now)
        (Before (SpellsArgs tokens.now) (Closes tokens.now)) at depth result }
{
    if is_sign(tokens, at, b".") {
        let list = comma_list::<Connection>(alloc, tokens, at, depth)?;
        return Ok(Found {
            tree: Args::Named(list.tree),
            height: list.height,
            end: list.end,
        });
    }
    let list = comma_list::<Expr>(alloc, tokens, at, depth)?;
    Ok(Found {
        tree: Args::Exprs(list.tree),
        height: list.height,
        end: list.end,
    })
}

// `( connections )` or `()`.
fn connections(
    alloc: Global,
    tokens: &[Token],
    at: usize,
    depth: usize,
) -> Result<Found<Option<Args>>, ReadFault>
    requires { depth ≤ 500 }
    ensures { Finds tokens.now (highest_of args_height) (InParens tokens.now (Maybe (SpellsArgs tokens.now)))
        (InParens tokens.now (Maybe (SpellsArgs tokens.now))) at depth result }
{
    if !is_sign(tokens, at, b"(") {
        return Err(ReadFault::Syntax(at));
    }
    let open = after(tokens, at);
    if is_sign(tokens, open, b")") {
        return Ok(Found {
            tree: None,
            height: 0,
            end: after(tokens, open),
        });
    }
    let args = read_args(alloc, tokens, open, depth)?;
    if !is_sign(tokens, args.end, b")") {
        return Err(ReadFault::Syntax(args.end));
    }
    Ok(Found {
        tree: Some(args.tree),
        height: args.height,
        end: after(tokens, args.end),
    })
}

impl Part for Instance {
    ghost spells = { SpellsInstance };

    ghost height = { instance_height };

    fn read(
        alloc: Global,
        tokens: &[Token],
        at: usize,
        depth: usize,
    ) -> Result<Found<Instance>, ReadFault> {
        let name = identifier(alloc, false, tokens, at)?;
        let args = connections(alloc, tokens, after(tokens, at), depth)?;
        Ok(Found {
            tree: Instance {
                name,
                args: args.tree,
            },
            height: args.height,
            end: args.end,
        })
    }
}

/// `#` and overrides in parentheses, or nothing.
pub fn overrides(
    alloc: Global,
    tokens: &[Token],
    at: usize,
    depth: usize,
) -> Result<Found<Option<Args>>, ReadFault>
    requires { depth ≤ 500 }
    ensures { Finds tokens.now (highest_of args_height) (Maybe (AfterHash tokens.now (SpellsArgs tokens.now)))
        (Before (Maybe (AfterHash tokens.now (SpellsArgs tokens.now)))
        (NoSign (codes "#") tokens.now)) at depth result }
{
    if !is_sign(tokens, at, b"#") {
        return Ok(Found {
            tree: None,
            height: 0,
            end: at,
        });
    }
    let open = after(tokens, at);
    if !is_sign(tokens, open, b"(") {
        return Err(ReadFault::Syntax(open));
    }
    let args = read_args(alloc, tokens, after(tokens, open), depth)?;
    if !is_sign(tokens, args.end, b")") {
        return Err(ReadFault::Syntax(args.end));
    }
    Ok(Found {
        tree: Some(args.tree),
        height: args.height,
        end: after(tokens, args.end),
    })
}
