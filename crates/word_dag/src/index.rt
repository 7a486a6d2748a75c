// Which earlier entries of a list have a given key.
ghost use Rattle.std.specs.Prelude.{◌≡◌, ℕ, ◌<◌, ◌++◌, ◌∷◌, [], length, slice_index, OnOk, OnErr};
ghost use Rattle.word_dag.specs.Keys.{IsLast};

use std::alloc::{AllocError, Global};
use std::collections::HashMap;
use std::marker::Model;

/// A list of keys, in which the last place of a key is found at once.
#[derive(Drop)]
pub struct Index {
    keys: Vec<u64>,
    // for each place the last one before it that has its key, plus 1; 0 is none
    before: Vec<u64>,
    // for each key its last place, plus 1
    newest: HashMap<u64, u64>,
}

impl Model for Index {
    ghost use Rattle.std.specs.Prelude.{ℕ, List};
    ghost use Rattle.std.specs.Option.{unwrap_or};
    ghost use Rattle.std.specs.Prelude.{nat_eq};
    ghost use Rattle.std.specs.HashMap.{get};
    ghost use Rattle.word_dag.specs.Keys.{IsIndex};

    ghost Value = { List ℕ };

    ghost view = { λ x. x.keys.items };

    ghost invariant = { λ x. IsIndex x.keys.items x.before.items (λ k. unwrap_or (get nat_eq x.newest k) 0) };
}

impl Index {
    /// No keys.
    pub fn new(alloc: Global) -> Index
        ensures { result ≡ [] }
    {
        Index {
            keys: Vec::new(alloc),
            before: Vec::new(alloc),
            newest: HashMap::new(alloc),
        }
    }

    /// The last place of a key, plus 1; 0 where it has none.
    pub fn last(&self, key: u64) -> u64
        ensures { IsLast self.now (length self.now) key result }
    {
        self.newest.get(&key).copied().unwrap_or(0)
    }

    /// The last place before this one that has its key, plus 1; 0 where there is none.
    pub fn before(&self, place: u64) -> u64
        requires { place < length self.now }
        ensures { IsLast self.now place (slice_index self.now place) result }
    {
        self.before[place as usize]
    }

    /// Puts a key at the end.
    pub fn push(&mut self, key: u64) -> Result<(), AllocError>
        ensures pushed { OnOk result (self.new ≡ self.old ++ key ∷ []) }
        ensures refused { OnErr result (self.new ≡ self.old) }
    {
        self.keys.reserve(1)?;
        self.before.reserve(1)?;
        let last = self.newest.get(&key).copied().unwrap_or(0);
        self.newest.insert(key, self.keys.len() as u64 + 1)?;
        self.before.push(last)?;
        self.keys.push(key)?;
        Ok(())
    }
}
