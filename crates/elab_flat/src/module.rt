// Modules of one name (IEEE 1364-2005, section 12.1).

ghost use Rattle.std.specs.Prelude.{map, IfOk};
ghost use Rattle.std.specs.Option.{option_copied};
ghost use Rattle.elab_flat_faults.specs.Declaring.{Repeats};
ghost use Rattle.elab_flat_scopes.specs.Finding.{module_name};
ghost use Rattle.elab_flat_names.specs.Searching.{Finds};

use outside::Text;
use std::alloc::{AllocError, Global};
use std::collections::HashSet;
use vlog_tree::Module;

/// A module whose name an earlier one has; none where each name is that of one module.
pub fn named_twice<'a>(alloc: Global, modules: &'a [Module]) -> Result<Option<&'a Text>, AllocError>
    ensures { IfOk result (λ r. Finds (Repeats (map module_name modules.now)) (option_copied r)) }
{
    let mut done = HashSet::new(alloc);
    for text in modules {
        if !done.insert(text.name.bytes())? {
            return Ok(Some(&text.name));
        }
    }
    Ok(None)
}
