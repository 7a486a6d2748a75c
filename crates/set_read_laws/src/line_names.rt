ghost use Rattle.set_read_laws.specs.LineNames.{LinesHaveNames};

/// No two lines of a set's report have one name.
pub fn lines_have_names()
    ensures { LinesHaveNames }
{}
