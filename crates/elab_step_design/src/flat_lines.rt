// The law.

ghost use Rattle.elab_step_design.specs.SetDesigns.{LinesAreTheSame, RunsAreTheSame};

/// Where a module without instances has the cycles of a list of modules, and the same cycles follow, a line of the
/// design is valid of the one exactly where it is of the other, and the runs of the one satisfy a set exactly where
/// those of the other do.
pub fn flat_lines_are_the_modules_lines()
    ensures lines { LinesAreTheSame }
    ensures runs { RunsAreTheSame }
{}
