// The laws.
ghost use Rattle.unroll_laws.specs.Existence.{BoundModulesRun};
ghost use Rattle.unroll_laws.specs.Promises.{CleanDesignLinesHold, CleanReportsSignOff, LinesAreTheModules};

/// A line is violated of a design of words exactly where it is of the modules, where a module without instances has the
/// modules' cycles and the design has that module's, and the same cycles follow.
pub fn lines_are_the_modules()
    ensures { LinesAreTheModules }
{}

/// Where no line of a sound set's report is violated, every constrained run of the modules from reset satisfies the
/// set, and the set is complete (J. Bormann, Vollständige funktionale Verifikation, 2009); its runs walk along the
/// operations. Where none of the lines on the design is, the former holds.
pub fn reports_are_promises()
    ensures design { CleanDesignLinesHold }
    ensures report { CleanReportsSignOff }
{}

/// Modules whose runs a design has that a set fits have a run from reset of every length, whatever values the registers
/// begin with and the inputs take. So what is promised of each run is a promise about some.
pub fn bound_modules_run()
    ensures { BoundModulesRun }
{}
