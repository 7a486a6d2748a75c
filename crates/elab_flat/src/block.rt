// The `always` blocks of instances (IEEE 1364-2005, section 9.9).

ghost use Rattle.std.specs.Prelude.{◌≡◌, ◌++◌, IfOk, OnOk, map};
ghost use Rattle.std.specs.List.{flat_map};
ghost use Rattle.elab_flat_laws.specs.Flattened.{flat_blocks};
ghost use Rattle.elab_flat_instances.specs.Unfolding.{scope_meant};

use elab_flat_instances::Scope;
use elab_flat_move::moved_block;
use elab_flat_scopes::blocks_in;
use sqlite_items::Items;
use std::alloc::{AllocError, Global};
use vlog_tree_runs::Always;

// Adds the blocks of a scope, in the order of its module's text.
fn add_blocks(all: &mut Items<Always>, alloc: Global, scope: &Scope<'_>) -> Result<(), AllocError>
    ensures { OnOk result (all.new ≡ all.old ++ flat_blocks (scope_meant scope.now)) }
{
    let prefix = scope.prefix.bytes();
    let blocks = blocks_in(alloc, scope.text)?;
    for block in &blocks {
        let block = moved_block(alloc, prefix, &scope.params, block.events, block.body)?;
        all.push(block)?;
    }
    Ok(())
}

/// The blocks of scopes, one scope's after another's.
pub fn blocks_of(alloc: Global, scopes: &[Scope<'_>]) -> Result<Items<Always>, AllocError>
    ensures { IfOk result (λ all. all ≡ flat_map flat_blocks (map scope_meant scopes.now)) }
{
    let mut all = Items::new(alloc);
    for scope in scopes {
        add_blocks(&mut all, alloc, scope)?;
    }
    Ok(all)
}
