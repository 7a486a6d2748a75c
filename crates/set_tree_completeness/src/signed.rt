// A set that is signed off, and what follows.
ghost use Rattle.std.specs.Prelude.{◌≡◌, [], ◌∷◌, ◌++◌};
ghost use Rattle.set_tree.specs.Formulas.{meaning_of};
ghost use Rattle.set_tree.specs.Paths.{RunsWalk};
ghost use Rattle.set_tree.specs.Report.{IsSignedOff, design_lines, set_lines};
ghost use Rattle.set_tree.specs.Runs.{RunsSatisfy};
ghost use Rattle.set_tree.specs.Structure.{IsSound};
ghost use Rattle.set_tree.specs.Traces.{IsComplete, IsCompleteForever};
ghost use Rattle.set_tree_completeness.specs.Counter.{counter_design, counter_set};

use crate::counter::CounterCycle;
use crate::{formulas_read_within, signed_off_sets_are_complete};
use set_tree::Line;

/// The counter's set is sound, its report on the counter has these lines in this order, and nothing violates any of
/// them, in any window or segment.
pub fn counter_is_signed_off()
    ensures sound { IsSound (meaning_of counter_set) counter_set }
    ensures design { design_lines counter_set ≡ Line.Reset ∷ Line.Operation 1 ∷ Line.Operation 2 ∷ [] }
    ensures set { set_lines counter_set ≡
        Line.Split 0 ∷ Line.Split 1 ∷ Line.Split 2
        ∷ Line.Choose 0 1 ∷ Line.Choose 0 2 ∷ Line.Choose 1 1 ∷ Line.Choose 1 2 ∷ Line.Choose 2 1 ∷ Line.Choose 2 2
        ∷ Line.Hand 0 1 ∷ Line.Hand 0 2 ∷ Line.Hand 1 1 ∷ Line.Hand 1 2 ∷ Line.Hand 2 1 ∷ Line.Hand 2 2
        ∷ Line.Determine 0 ∷ Line.Determine 1 ∷ Line.Determine 2 ∷ [] }
    ensures signed_off { IsSignedOff counter_design (meaning_of counter_set) counter_set }
{}

/// So each of its runs from reset, of any length, satisfies the set and is a walk along `step` and `hold`. And in any
/// two traces with the same en that satisfy the set q is the same: in finite ones at each cycle after which the largest
/// window fits, in infinite ones at every cycle.
pub fn counter_is_complete()
    ensures runs { RunsSatisfy counter_design (meaning_of counter_set) counter_set }
    ensures walks { RunsWalk counter_design (meaning_of counter_set) counter_set }
    ensures complete { IsComplete (meaning_of counter_set) counter_set }
    ensures forever { IsCompleteForever (meaning_of counter_set) counter_set }
{
    counter_is_signed_off();
    formulas_read_within();
    signed_off_sets_are_complete::<CounterCycle>();
}
