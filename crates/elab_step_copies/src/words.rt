// Which leaf a free word stands for.
ghost use Rattle.std.specs.Prelude.{◌≡◌, ℕ, Some, true};
ghost use Rattle.vlog_tree.specs.Valuation.{place_at};
ghost use Rattle.word_dag.specs.Given.{is_free};
ghost use Rattle.elab_step_expr.specs.Leaves.{declared};
ghost use Rattle.elab_step_copies.specs.Copies.{IsOfLeaf, IsWordOf};

use elab_step_expr::Leaves;
use outside::Text;
use word_dag::Node;

// The place of a name's first leaf.
fn place_of(name: &Text, leaves: &Leaves) -> usize
    requires { (j : ℕ) × (place_at (declared leaves.now) name.now 0 ≡ Some j) }
    ensures { place_at (declared leaves.now) name.now 0 ≡ Some result }
{
    match leaves.place(name.bytes(), 0) {
        Some(place) => place,
        None => unreachable!(),
    }
}

/// The number of a free word's leaf.
pub fn word_leaf(word: &Node, leaves: &Leaves) -> usize
    requires free { is_free word.now ≡ true }
    requires leaf { IsOfLeaf leaves.now word.now }
    ensures { IsWordOf leaves.now word.now result }
{
    match word {
        Node::Free { name, .. } => place_of(name, leaves),
        _ => unreachable!(),
    }
}
