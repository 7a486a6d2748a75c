// The places of names, as a set.

ghost use Rattle.std.specs.Prelude.{◌≡◌, [], ◌∷◌, map, length};
ghost use Rattle.elab_flat_scopes.specs.Borrowed.{name_meant};
ghost use Rattle.elab_step_flow.specs.Marks.{Adds};

use elab_flat_scopes::Names;
use outside::Text;

fn mark(set: &mut [bool], names: &Names<'_>, name: &Text)
    requires { length set.old ≡ length names.now }
    ensures { Adds names.now (name.now ∷ []) set.old set.new }
{
    if let Some(place) = names.place(name.bytes()) {
        set[place] = true;
    }
}

/// Adds the places of names.
pub fn mark_names(set: &mut [bool], names: &Names<'_>, list: &[&Text])
    requires { length set.old ≡ length names.now }
    ensures { Adds names.now (map name_meant list.now) set.old set.new }
{
    for name in list {
        mark(set, names, name);
    }
}
