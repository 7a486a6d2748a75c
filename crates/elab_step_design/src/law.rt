// The laws.
ghost use Rattle.elab_step_design.specs.Laws.{EachHasOneCycle, LinesAreTheSame, RunsAreTheSame};

/// For all values of the registers and inputs of a design there is exactly one cycle.
pub fn designs_have_one_cycle()
    ensures { EachHasOneCycle }
{}

/// Where a design has the cycles of a module without instances, and the same cycles follow, a line is valid of the one
/// exactly where it is of the other, and the runs of the one satisfy a set exactly where those of the other do.
pub fn design_lines_are_the_modules_lines()
    ensures lines { LinesAreTheSame }
    ensures runs { RunsAreTheSame }
{}
