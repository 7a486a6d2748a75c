// The law.
ghost use Rattle.set_tree.specs.declared.set.Set.{Set};
ghost use Rattle.set_tree.specs.Meaning.{Meaning};
ghost use Rattle.set_tree.specs.Runs.{design_of};
ghost use Rattle.test_judges.specs.Joins.{ViolationsAreBreakingRuns};

use set_tree_completeness::Cycle;

/// A segment of a design violates a line on it exactly where its cycles are a run that the line speaks of, from reset
/// or without, and its rows break the line.
pub fn violations_are_breaking_runs<C: Cycle>()
    ensures { (m : Meaning) (set : Set) → ViolationsAreBreakingRuns (design_of C.follows C.is_reset C.values) m set }
{}
