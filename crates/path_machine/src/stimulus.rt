// Rows of inputs as a source of values.
ghost use Rattle.std.specs.Prelude.{◌≡◌, ◌<◌, ℤ, ℕ, length, map, IfOk, filter};
ghost use Rattle.elab_flat_scopes.specs.Borrowed.{name_meant};
ghost use Rattle.set_tree.specs.Parts.{is_input};
ghost use Rattle.set_tree.specs.declared.set.Name.{Name};
ghost use Rattle.unroll_laws.specs.Segments.{cycle_number};
ghost use Rattle.word_dag.specs.Nodes.{Naming};
ghost use Rattle.path_machine.specs.Rows.{inputs_of};
ghost use Rattle.path_machine.specs.Stimuli.{IsGivenBy, given_by, name_of, row_at, stimulus};

use elab_flat_scopes::Names;
use replay::{Position, Source};
use set_tree::{Role, Rows, Set};
use std::alloc::{AllocError, Global};

/// The values that rows give to the inputs of these names, the first rows being those of the reset cycles. Every other
/// word is 0.
#[derive(Drop)]
pub struct Stimulus<'a> {
    pub inputs: Names<'a>,
    pub rows: &'a [Rows<u64>],
    pub resets: u8,
}

/// The names of a set's inputs.
pub fn input_names(alloc: Global, set: &Set) -> Result<Names<'_>, AllocError>
    ensures { IfOk result (λ names. names ≡ map name_of (inputs_of set.now)) }
{
    let mut names = Vec::new(alloc);
    for name in set.names.as_slice() {
        if name.role == Role::Input {
            names.push(&name.name)?;
        }
    }
    Names::of(alloc, names)
}

// The value that a row gives to a name.
fn given(inputs: &Names<'_>, row: &[u64], name: &[u8]) -> u64
    ensures { result ≡ given_by inputs.now row.now name.now }
{
    let Some(place) = inputs.place(name) else {
        return 0;
    };
    row.get(place).copied().unwrap_or(0)
}

// The value that the row of this number gives to a name.
fn given_at(inputs: &Names<'_>, rows: &[Rows<u64>], at: usize, name: &[u8]) -> u64
    ensures { result ≡ given_by inputs.now (row_at rows.now at) name.now }
{
    match rows.get(at) {
        Some(row) => given(inputs, row.as_slice(), name),
        None => 0,
    }
}

impl Source for Stimulus<'_> {
    ghost gives = { λ s e. IsGivenBy s.inputs s.resets s.rows.now e };

    ghost count = { λ s. length s.rows.now };

    fn value(&self, name: &[u8], position: Position) -> u64 {
        let place = position.at + usize::from(self.resets);
        match place.checked_sub(usize::from(position.resets)) {
            Some(at) => given_at(&self.inputs, self.rows, at, name),
            None => 0,
        }
    }
}
