// Obligations of lines.
ghost use Rattle.std.specs.Prelude.{Bool, ℕ, IfOk};
ghost use Rattle.set_tree.specs.declared.line.Line.{Line};
ghost use Rattle.set_tree.specs.declared.set.Set.{Set};
ghost use Rattle.set_tree.specs.Meaning.{Meaning};
ghost use Rattle.twin_tests_laws.specs.Laws.{HasLength};
ghost use Rattle.twin_tests_laws.specs.Lines.{IsOf, IsTestOf};
ghost use Rattle.twin_tests_laws.specs.Tests.{line_test};
ghost use Rattle.twin_tests.specs.Building.{HasWidth};
ghost use Rattle.word_dag.specs.Names.{HasOneWidthEach, HasOneWordEach};

use std::alloc::{AllocError, Global};
use word_dag::{Dag, Ob, extract};

/// The obligation of a root. Where the root is the test of a line at all values, it is an obligation of the line; where
/// free words of one name, side and cycle have one length, it has each of them once.
pub fn obligation_of(alloc: Global, dag: &Dag, root: u64) -> Result<Ob, AllocError>
    requires { HasWidth dag.now root 1 }
    ensures of_line { IfOk result (λ ob. (m : Meaning) (set : Set) (line : Line) → HasLength set line →
        IsTestOf (line_test m set line) dag.now root → IsOf m set line ob.nodes ob.root) }
    ensures words { IfOk result (λ ob. HasOneWidthEach dag.now → HasOneWordEach ob.nodes) }
{
    extract(alloc, dag, root)
}
