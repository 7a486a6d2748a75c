// Headers of modules.
ghost use Rattle.std.specs.Prelude.{ℕ, ◌≡◌, ◌≤◌, ◌<◌, ◌+◌, ◌⊎◌, length, codes, IfOk};
ghost use Rattle.vlog_tree.specs.Signs.{IsSign, IsWord};
ghost use Rattle.vlog_tree.specs.Lists.{Maybe, AfterHash, highest, highest_of, InParens};
ghost use Rattle.vlog_tree.specs.Modules.{SpellsHeaderParameter, SpellsHeaderPort, SpellsParameters, SpellsPorts, SpellsHeader, header_parameter_height, header_port_height, ports_height};
ghost use Rattle.vlog_read.specs.Answers.{Finds, Before, Follows, Closes, NoSign};

use crate::item::{is_direction, port_kind};
use crate::list::comma_list;
use crate::part::{Found, Part};
use crate::parts::read_shape;
use outside::Text;
use sqlite_items::Items;
use std::alloc::Global;
use vlog_read_expr::{after, identifier, is_sign, is_word};
use vlog_read_lex::ReadFault;
use vlog_tree::{HeaderParameter, HeaderPort, Parameter, Ports, Token};

impl Part for HeaderPort {
    ghost spells = { SpellsHeaderPort };

    ghost height = { header_port_height };

    fn read(
        alloc: Global,
        tokens: &[Token],
        at: usize,
        depth: usize,
    ) -> Result<Found<HeaderPort>, ReadFault> {
        if is_direction(tokens, at) {
            return port_group(alloc, tokens, at, depth);
        }
        let name = identifier(alloc, false, tokens, at)?;
        Ok(Found {
            tree: HeaderPort::Again(name),
            height: 0,
            end: after(tokens, at),
        })
    }
}

// A port with its direction, sign and range.
fn port_group(
    alloc: Global,
    tokens: &[Token],
    at: usize,
    depth: usize,
) -> Result<Found<HeaderPort>, ReadFault>
    requires here { IsWord tokens.now at (codes "input") ⊎ IsWord tokens.now at (codes "output") }
    requires low { depth ≤ 500 }
    ensures found { Finds tokens.now header_port_height (SpellsHeaderPort tokens.now)
        (Before (SpellsHeaderPort tokens.now) (Follows tokens.now)) at depth result }
    ensures forward { IfOk result (λ found. at < found.end) }
{
    let kind = port_kind(tokens, at)?;
    let shape = read_shape(alloc, tokens, kind.end, depth)?;
    let name = match identifier(alloc, false, tokens, shape.end) {
        Ok(name) => name,
        Err(fault) => return Err(fault.dropping(shape)),
    };
    Ok(Found {
        tree: HeaderPort::Group(kind.tree, shape.tree, name),
        height: shape.height,
        end: after(tokens, shape.end),
    })
}

impl Part for HeaderParameter {
    ghost spells = { SpellsHeaderParameter };

    ghost height = { header_parameter_height };

    fn read(
        alloc: Global,
        tokens: &[Token],
        at: usize,
        depth: usize,
    ) -> Result<Found<HeaderParameter>, ReadFault> {
        if !is_word(tokens, at, b"parameter") {
            let value = Parameter::read(alloc, tokens, at, depth)?;
            return Ok(Found {
                tree: HeaderParameter::Again(value.tree),
                height: value.height,
                end: value.end,
            });
        }
        let shape = read_shape(alloc, tokens, after(tokens, at), depth)?;
        let value = match Parameter::read(alloc, tokens, shape.end, depth) {
            Ok(value) => value,
            Err(fault) => return Err(fault.dropping(shape)),
        };
        Ok(Found {
            tree: HeaderParameter::Group(shape.tree, value.tree),
            height: shape.height.max(value.height),
            end: value.end,
        })
    }
}

/// `#` and parameters in parentheses, or nothing.
pub fn header_parameters(
    alloc: Global,
    tokens: &[Token],
    at: usize,
    depth: usize,
) -> Result<Found<Option<Items<HeaderParameter>>>, ReadFault>
    requires { depth ≤ 500 }
    ensures { Finds tokens.now (highest_of (highest header_parameter_height))
        (Maybe (AfterHash tokens.now (SpellsParameters tokens.now)))
        (Before (Maybe (AfterHash tokens.now (SpellsParameters tokens.now)))
        (NoSign (codes "#") tokens.now)) at depth result }
{
    if !is_sign(tokens, at, b"#") {
        return Ok(Found {
            tree: None,
            height: 0,
            end: at,
        });
    }
    let open = after(tokens, at);
    if !is_sign(tokens, open, b"(") {
        return Err(ReadFault::Syntax(open));
    }
    let list_at = after(tokens, open);
    if !is_word(tokens, list_at, b"parameter") {
        return Err(ReadFault::Syntax(list_at));
    }
    let list = comma_list::<HeaderParameter>(alloc, tokens, list_at, depth)?;
    if !is_sign(tokens, list.end, b")") {
        return Err(ReadFault::Syntax(list.end));
    }
    Ok(Found {
        tree: Some(list.tree),
        height: list.height,
        end: after(tokens, list.end),
    })
}

// Ports: names alone, or with their directions.
fn read_ports(
    alloc: Global,
    tokens: &[Token],
    at: usize,
    depth: usize,
) -> Result<Found<Ports>, ReadFault>
    requires { depth ≤ 500 }
    ensures { Finds tokens.now ports_height (SpellsPorts tokens.now)
        (Before (SpellsPorts tokens.now) (Closes tokens.now)) at depth result }
{
    if is_direction(tokens, at) {
        let list = comma_list::<HeaderPort>(alloc, tokens, at, depth)?;
        return Ok(Found {
            tree: Ports::Groups(list.tree),
            height: list.height,
            end: list.end,
        });
    }
    let list = comma_list::<Text>(alloc, tokens, at, depth)?;
    Ok(Found {
        tree: Ports::Names(list.tree),
        height: 0,
        end: list.end,
    })
}

/// Ports in parentheses, `()`, or nothing.
pub fn header_ports(
    alloc: Global,
    tokens: &[Token],
    at: usize,
    depth: usize,
) -> Result<Found<Option<Ports>>, ReadFault>
    requires { depth ≤ 500 }
    ensures { Finds tokens.now (highest_of ports_height) (SpellsHeader tokens.now)
        (Before (SpellsHeader tokens.now) (λ j. IsSign tokens.now j (codes ";"))) at depth result }
{
    if !is_sign(tokens, at, b"(") {
        return Ok(Found {
            tree: None,
            height: 0,
            end: at,
        });
    }
    let open = after(tokens, at);
    if is_sign(tokens, open, b")") {
        return Ok(Found {
            tree: None,
            height: 0,
            end: after(tokens, open),
        });
    }
    let ports = read_ports(alloc, tokens, open, depth)?;
    if !is_sign(tokens, ports.end, b")") {
        return Err(ReadFault::Syntax(ports.end));
    }
    Ok(Found {
        tree: Some(ports.tree),
        height: ports.height,
        end: after(tokens, ports.end),
    })
}
