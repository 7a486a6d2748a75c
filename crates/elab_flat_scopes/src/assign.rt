// The continuous assignments of a module (IEEE 1364-2005, section 6.1).

ghost use Rattle.std.specs.Prelude.{◌≡◌, ◌++◌, IfOk, OnOk, map};
ghost use Rattle.std.specs.List.{flat_map};
ghost use Rattle.vlog_tree_runs.specs.Contents.{wire_assign, item_assigns, assigns_in};
ghost use Rattle.elab_flat_scopes.specs.Borrowed.{assigned_meant};

use outside::Text;
use std::alloc::{AllocError, Global};
use vlog_tree::{Assign, Expr, Item, Lval, Module, Wire};

/// The left side of a continuous assignment: the name of a `wire` with a value, or a left side of its own.
#[derive(Clone, Copy)]
pub enum Target<'a> {
    Wire(&'a Text),
    Left(&'a Lval),
}

/// A continuous assignment of a module.
#[derive(Clone, Copy)]
pub struct Assigned<'a> {
    pub left: Target<'a>,
    pub right: &'a Expr,
}

fn add_wires<'a>(all: &mut Vec<Assigned<'a>>, wires: &'a [Wire]) -> Result<(), AllocError>
    ensures { OnOk result (map assigned_meant all.new.items ≡ map assigned_meant all.old.items ++ flat_map wire_assign wires.now) }
{
    for wire in wires {
        if let Some(value) = &wire.value {
            all.push(Assigned {
                left: Target::Wire(&wire.name),
                right: value,
            })?;
        }
    }
    Ok(())
}

fn add_assigns<'a>(all: &mut Vec<Assigned<'a>>, assigns: &'a [Assign]) -> Result<(), AllocError>
    ensures { OnOk result (map assigned_meant all.new.items ≡ map assigned_meant all.old.items ++ assigns.now) }
{
    for assign in assigns {
        all.push(Assigned {
            left: Target::Left(&assign.left),
            right: &assign.right,
        })?;
    }
    Ok(())
}

fn add_item_assigns<'a>(all: &mut Vec<Assigned<'a>>, item: &'a Item) -> Result<(), AllocError>
    ensures { OnOk result (map assigned_meant all.new.items ≡ map assigned_meant all.old.items ++ item_assigns item.now) }
{
    match item {
        Item::Wires(_, wires) => add_wires(all, wires.as_slice()),
        Item::Assigns(assigns) => add_assigns(all, assigns.as_slice()),
        _ => Ok(()),
    }
}

/// The continuous assignments of a module, in the order of its text.
pub fn assigns_in(alloc: Global, text: &Module) -> Result<Vec<Assigned<'_>>, AllocError>
    ensures { IfOk result (λ r. map assigned_meant r.items ≡ assigns_in text.now) }
{
    let mut all = Vec::new(alloc);
    for item in text.items.as_slice() {
        add_item_assigns(&mut all, item)?;
    }
    Ok(all)
}
