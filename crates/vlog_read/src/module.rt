// Modules, and lists of them.
ghost use Rattle.std.specs.Prelude.{ℕ, ◌≡◌, ◌≤◌, ◌<◌, ◌+◌, ◌-◌, length, codes, IfOk, IfErr};
ghost use Rattle.vlog_tree.specs.Lists.{highest};
ghost use Rattle.vlog_tree.specs.Modules.{SpellsFile, item_height, file_height};
ghost use Rattle.vlog_read.specs.Answers.{Finds, ReadsItems, FindsModule};
ghost use Rattle.vlog_read.specs.Texts.{RefusesTokens};
ghost use Rattle.vlog_read.specs.Headers.{FindsHead};

use crate::header::{header_parameters, header_ports};
use crate::item::read_item;
use crate::part::Found;
use outside::Text;
use sqlite_items::Items;
use std::alloc::{AllocError, Global};
use vlog_read_expr::{after, identifier, is_sign, is_word};
use vlog_read_lex::ReadFault;
use vlog_tree::{HeaderParameter, Item, Module, Ports, Token};

const MAX_HEIGHT: usize = 500;

/// What stands before a module's items.
#[derive(Drop)]
pub struct Head {
    pub name: Text,
    pub parameters: Option<Items<HeaderParameter>>,
    pub ports: Option<Ports>,
}

fn read_head(
    alloc: Global,
    tokens: &[Token],
    at: usize,
    depth: usize,
) -> Result<Found<Head>, ReadFault>
    requires { depth ≤ 500 }
    ensures { FindsHead tokens.now at depth result }
{
    if !is_word(tokens, at, b"module") {
        return Err(ReadFault::Syntax(at));
    }
    let place = after(tokens, at);
    let name = identifier(alloc, false, tokens, place)?;
    let parameters = header_parameters(alloc, tokens, after(tokens, place), depth)?;
    let ports = match header_ports(alloc, tokens, parameters.end, depth) {
        Ok(ports) => ports,
        Err(fault) => return Err(fault.dropping((name, parameters))),
    };
    if !is_sign(tokens, ports.end, b";") {
        return Err(ReadFault::Syntax(ports.end).dropping((name, parameters, ports)));
    }
    Ok(Found {
        tree: Head {
            name,
            parameters: parameters.tree,
            ports: ports.tree,
        },
        height: parameters.height.max(ports.height),
        end: after(tokens, ports.end),
    })
}

// Items up to an `endmodule`.
fn read_items(
    alloc: Global,
    tokens: &[Token],
    at: usize,
    depth: usize,
) -> Result<Found<Items<Item>>, ReadFault>
    requires { depth ≤ 500 }
    ensures { Finds tokens.now (highest item_height) (ReadsItems tokens.now) (ReadsItems tokens.now) at depth result }
{
    let mut items = Items::new(alloc);
    let mut height = 0usize;
    let mut end = at;
    while !is_word(tokens, end, b"endmodule") {
        let item = read_item(alloc, tokens, end, depth)?;
        items.push(item.tree)?;
        height = height.max(item.height);
        end = item.end;
    }
    Ok(Found {
        tree: items,
        height,
        end,
    })
}

fn read_module(alloc: Global, tokens: &[Token], at: usize) -> Result<Found<Module>, ReadFault>
    ensures { FindsModule tokens.now at result }
{
    let head = read_head(alloc, tokens, at, MAX_HEIGHT - 1)?;
    let items = read_items(alloc, tokens, head.end, MAX_HEIGHT - 1)?;
    Ok(Found {
        tree: Module {
            name: head.tree.name,
            parameters: head.tree.parameters,
            ports: head.tree.ports,
            items: items.tree,
        },
        height: head.height.max(items.height) + 1,
        end: after(tokens, items.end),
    })
}

/// The modules of a text, by its tokens.
pub fn read_module_list(alloc: Global, tokens: &[Token]) -> Result<Vec<Module>, ReadFault>
    ensures ok { IfOk result (λ list. SpellsFile tokens.now list.items) }
    ensures low { IfOk result (λ list. file_height list.items ≤ 500) }
    ensures err { IfErr result (λ fault. RefusesTokens tokens.now fault) }
{
    let first = read_module(alloc, tokens, 0)?;
    let mut list = Vec::new(alloc);
    list.push(first.tree).map_err(AllocError::from)?;
    let mut end = first.end;
    while end < tokens.len() {
        let next = read_module(alloc, tokens, end)?;
        list.push(next.tree).map_err(AllocError::from)?;
        end = next.end;
    }
    Ok(list)
}
