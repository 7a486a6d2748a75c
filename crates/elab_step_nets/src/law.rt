// The law.
ghost use Rattle.elab_step_nets.specs.Laws.{SolvedHaveRuns};

use elab_step_laws::{bits_are_apart, bits_follow, bits_stay};

/// A design whose nets are solved in an order of their dependences has the cycles of its module, and the same cycles
/// follow, where no fault of the module stands.
pub fn solved_designs_have_the_modules_runs()
    ensures { SolvedHaveRuns }
{
    bits_stay();
    bits_are_apart();
    bits_follow();
}
