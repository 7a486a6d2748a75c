// The law.
ghost use Rattle.path_machine.specs.Runs.{RunTracesAreTheModules};

/// The trace of a run that rows give of a design is that of a run that they give of the modules whose runs the design
/// has.
pub fn run_traces_are_the_modules()
    ensures { RunTracesAreTheModules }
{}
