// The `always` blocks of a module (IEEE 1364-2005, section 9.9).

ghost use Rattle.std.specs.Prelude.{◌≡◌, ◌++◌, IfOk, OnOk, map};
ghost use Rattle.std.specs.List.{flat_map};
ghost use Rattle.vlog_tree_runs.specs.Contents.{item_blocks, blocks_in};
ghost use Rattle.elab_flat_scopes.specs.Borrowed.{block_meant};

use std::alloc::{AllocError, Global};
use vlog_tree::{Events, Item, Module, Stmt};

/// An `always` block of a module.
#[derive(Clone, Copy)]
pub struct Block<'a> {
    pub events: &'a Events,
    pub body: &'a Stmt,
}

fn add_item_blocks<'a>(all: &mut Vec<Block<'a>>, item: &'a Item) -> Result<(), AllocError>
    ensures { OnOk result (map block_meant all.new.items ≡ map block_meant all.old.items ++ item_blocks item.now) }
{
    match item {
        Item::Always(events, body) => {
            all.push(Block { events, body })?;
            Ok(())
        }
        _ => Ok(()),
    }
}

/// The `always` blocks of a module, in the order of its text.
pub fn blocks_in(alloc: Global, text: &Module) -> Result<Vec<Block<'_>>, AllocError>
    ensures { IfOk result (λ r. map block_meant r.items ≡ blocks_in text.now) }
{
    let mut all = Vec::new(alloc);
    for item in text.items.as_slice() {
        add_item_blocks(&mut all, item)?;
    }
    Ok(all)
}
