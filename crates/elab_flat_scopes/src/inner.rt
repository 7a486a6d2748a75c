// The instances of a module (IEEE 1364-2005, section 12.1).

ghost use Rattle.std.specs.Prelude.{◌≡◌, ◌++◌, IfOk, OnOk, map};
ghost use Rattle.std.specs.List.{flat_map};
ghost use Rattle.vlog_tree_runs.specs.Contents.{inner_of, item_instances, instances_in};
ghost use Rattle.elab_flat_scopes.specs.Borrowed.{inner_meant};

use outside::Text;
use std::alloc::{AllocError, Global};
use vlog_tree::{Args, Instance, Item, Module};

/// An instance in a module.
#[derive(Clone, Copy)]
pub struct Inner<'a> {
    pub name: &'a Text,
    /// The name of its module.
    pub of_module: &'a Text,
    pub overrides: &'a Option<Args>,
    /// What is connected to its ports.
    pub args: &'a Option<Args>,
}

fn add_instances<'a>(
    all: &mut Vec<Inner<'a>>,
    of_module: &'a Text,
    overrides: &'a Option<Args>,
    instances: &'a [Instance],
) -> Result<(), AllocError>
    ensures { OnOk result (map inner_meant all.new.items ≡ map inner_meant all.old.items ++ map
        (inner_of of_module.now overrides.now) instances.now) }
{
    for instance in instances {
        all.push(Inner {
            name: &instance.name,
            of_module,
            overrides,
            args: &instance.args,
        })?;
    }
    Ok(())
}

fn add_item_instances<'a>(all: &mut Vec<Inner<'a>>, item: &'a Item) -> Result<(), AllocError>
    ensures { OnOk result (map inner_meant all.new.items ≡ map inner_meant all.old.items ++ item_instances item.now) }
{
    match item {
        Item::Instances(of_module, overrides, instances) => {
            add_instances(all, of_module, overrides, instances.as_slice())
        }
        _ => Ok(()),
    }
}

/// The instances of a module, in the order of its text.
pub fn instances_in(alloc: Global, text: &Module) -> Result<Vec<Inner<'_>>, AllocError>
    ensures { IfOk result (λ r. map inner_meant r.items ≡ instances_in text.now) }
{
    let mut all = Vec::new(alloc);
    for item in text.items.as_slice() {
        add_item_instances(&mut all, item)?;
    }
    Ok(all)
}
