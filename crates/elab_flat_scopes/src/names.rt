// Lists of names in which a name is found at once.

ghost use Rattle.std.specs.Prelude.{◌≡◌, IfOk, map};
ghost use Rattle.std.specs.Borrow.{Bor};
ghost use Rattle.std.specs.HashMap.{get};
ghost use Rattle.std.specs.Str.{bytes_eq};
ghost use Rattle.vlog_tree_runs.specs.Places.{Name};
ghost use Rattle.vlog_tree_runs.specs.Contents.{is_among};
ghost use Rattle.elab_flat_scopes.specs.Borrowed.{name_meant};
ghost use Rattle.elab_flat_scopes.specs.Finding.{place_in};

use outside::Text;
use std::alloc::{AllocError, Global};
use std::collections::HashMap;
use std::marker::Model;

/// A list of names, in which the first place of a name is found at once. Contracts see it as the list.
#[derive(Drop)]
pub struct Names<'a> {
    list: Vec<&'a Text>,
    first: HashMap<&'a [u8], usize>,
}

impl<'a> Model for Names<'a> {
    ghost use Rattle.std.specs.Prelude.{◌≡◌, List, map};
    ghost use Rattle.std.specs.Borrow.{Bor};
    ghost use Rattle.std.specs.HashMap.{get};
    ghost use Rattle.std.specs.Str.{bytes_eq};
    ghost use Rattle.vlog_tree_runs.specs.Places.{Name};
    ghost use Rattle.elab_flat_scopes.specs.Borrowed.{name_meant};
    ghost use Rattle.elab_flat_scopes.specs.Finding.{place_in};

    ghost Value = { List Name };

    ghost view = { λ x. map name_meant x.list.items };

    ghost invariant = { λ x. (q : Bor Name) → get (λ a b. bytes_eq a.now b.now) x.first q ≡ place_in (map name_meant x.list.items) q.now };
}

fn first_places<'a>(
    alloc: Global,
    names: &[&'a Text],
) -> Result<HashMap<&'a [u8], usize>, AllocError>
    ensures { IfOk result (λ m. (q : Bor Name) → get (λ a b. bytes_eq a.now b.now) m q ≡ place_in
        (map name_meant names.now) q.now) }
{
    let mut first = HashMap::new(alloc);
    let mut at = 0;
    for name in names {
        let bytes = name.bytes();
        if !first.contains_key(bytes) {
            first.insert(bytes, at)?;
        }
        at += 1;
    }
    Ok(first)
}

impl<'a> Names<'a> {
    /// The names of a list, in its order.
    pub fn of(alloc: Global, list: Vec<&'a Text>) -> Result<Names<'a>, AllocError>
        ensures { IfOk result (λ names. names ≡ map name_meant list.entry.items) }
    {
        let first = first_places(alloc, &list)?;
        Ok(Names { list, first })
    }

    /// The first place of a name; none where the list doesn't have it.
    pub fn place(&self, name: &[u8]) -> Option<usize>
        ensures { result ≡ place_in self.now name.now }
    {
        self.first.get(name).copied()
    }

    /// Whether the list has a name.
    pub fn has(&self, name: &[u8]) -> bool
        ensures { result ≡ is_among self.now name.now }
    {
        self.place(name).is_some()
    }
}
