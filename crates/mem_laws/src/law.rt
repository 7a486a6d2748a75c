// The laws.

ghost use Rattle.mem_laws.specs.Laws.{SpreadExpressionsMean, SpreadExpressionsAreFormed, SpreadKeepsConstants, SpreadKeepsFixedLefts, SpreadStatementsDo, SpreadKeepsRuns, SpreadDeclaresWords};

/// A text in which each use of a memory names its words does what the text does.
pub fn spread_texts_do_the_same()
    ensures expressions { SpreadExpressionsMean }
    ensures statements { SpreadStatementsDo }
{}

/// It may be taken where the text may.
pub fn spread_texts_stay_ready()
    ensures formed { SpreadExpressionsAreFormed }
    ensures constants { SpreadKeepsConstants }
    ensures fixed { SpreadKeepsFixedLefts }
{}

/// A module without faults of memories has the cycles and the runs of the one whose registers are the words of its
/// memories.
pub fn spread_keeps_runs()
    ensures { SpreadKeepsRuns }
{}

/// The module whose registers are the words has no memory, and each of its names is declared once.
pub fn spread_declares_words()
    ensures { SpreadDeclaresWords }
{}
