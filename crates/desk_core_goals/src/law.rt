// The laws.
ghost use Rattle.desk_core_goals.specs.Laws.{DecidedOfModules, ObligationsAgree, ProvedLinesPromise};

/// What is decided of a design is decided of the modules whose runs the design has, and what is shown of a refuted line
/// is theirs.
pub fn decided_of_modules()
    ensures { DecidedOfModules }
{}

/// Where each line on the design is among the lines and proved, whichever were asked for, every constrained run of the
/// modules from reset satisfies the set. Where all lines were asked for and are proved, the set is complete too: it
/// fixes its outputs wherever it claims them.
pub fn proved_lines_promise()
    ensures { ProvedLinesPromise }
{}

/// Two obligations of one line are refuted together: what shows one of them, as a derivation that was kept under its
/// text, says of the line what showing the other one would.
pub fn obligations_of_a_line_agree()
    ensures { ObligationsAgree }
{}
