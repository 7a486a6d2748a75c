// The law.

ghost use Rattle.vlog_tree_runs.specs.Laws.{WritesInside, WritesNothingElse, WritesInOnePiece, WritesFromTheFirst};

/// An assignment to the bits of a signal from one of them on writes these bits, as far as the signal has them, and no
/// others.
pub fn bits_are_written()
    ensures inside { WritesInside }
    ensures others { WritesNothingElse }
    ensures piece { WritesInOnePiece }
    ensures below { WritesFromTheFirst }
{}
