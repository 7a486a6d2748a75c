// The laws.

ghost use Rattle.elab_flat_laws.specs.Laws.{MovedExpressionsMean, MovedStatementsDo, FlatKeepsRuns, ScopesAreApart};

/// A text under a prefix, its parameters replaced by their numbers, means in the place that it is moved to what it
/// meant where it stood.
pub fn moved_texts_do_the_same()
    ensures expressions { MovedExpressionsMean }
    ensures statements { MovedStatementsDo }
{}

/// The texts of a list of modules, one scope after another and moved under their prefixes, have the cycles of the list
/// of modules, and the same cycles follow.
pub fn flat_keeps_runs()
    ensures { FlatKeepsRuns }
{}

/// Instances of different paths have different names, where no identifier has a dot.
pub fn scopes_are_apart()
    ensures { ScopesAreApart }
{}
