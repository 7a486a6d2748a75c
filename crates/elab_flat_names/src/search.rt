// Searches through names.

ghost use Rattle.std.specs.Prelude.{map, IfOk};
ghost use Rattle.std.specs.Option.{option_copied};
ghost use Rattle.elab_flat_faults.specs.Declaring.{Repeats};
ghost use Rattle.elab_flat_scopes.specs.Borrowed.{name_meant};
ghost use Rattle.elab_flat_names.specs.Searching.{Finds, IsAbsent};

use elab_flat_scopes::Names;
use outside::Text;
use std::alloc::{AllocError, Global};
use std::collections::HashSet;

/// A name that stands twice in a list; none where each stands once.
pub fn repeated<'a>(alloc: Global, names: &[&'a Text]) -> Result<Option<&'a Text>, AllocError>
    ensures { IfOk result (λ r. Finds (Repeats (map name_meant names.now)) (option_copied r)) }
{
    let mut done = HashSet::new(alloc);
    for name in names {
        if !done.insert(name.bytes())? {
            return Ok(Some(name));
        }
    }
    Ok(None)
}

/// A name of a list that another list doesn't have; none where it has all of them.
pub fn absent<'a>(names: &[&'a Text], others: &Names<'_>) -> Option<&'a Text>
    ensures { Finds (IsAbsent (map name_meant names.now) others.now) (option_copied result) }
{
    for name in names {
        if !others.has(name.bytes()) {
            return Some(name);
        }
    }
    None
}
