// The laws.
ghost use Rattle.std.specs.Prelude.{List};
ghost use Rattle.set_tree.specs.declared.set.Set.{Set};
ghost use Rattle.set_tree.specs.Formulas.{meaning_of};
ghost use Rattle.set_tree.specs.Lines.{AreValid};
ghost use Rattle.set_tree.specs.Meaning.{Meaning, ReadsWithin, Row};
ghost use Rattle.set_tree.specs.Paths.{ArePathsWalks, HaveSamePaths, HasOnePath, RunsWalk};
ghost use Rattle.set_tree.specs.Report.{IsSignedOff};
ghost use Rattle.set_tree.specs.Runs.{AreDesignLinesValid, RunsSatisfy, design_of};
ghost use Rattle.set_tree.specs.Structure.{IsSound, KeepsOffsets};
ghost use Rattle.set_tree.specs.Traces.{IsComplete, IsCompleteForever};

/// The cycles of a design.
pub trait Cycle {
    ghost use Rattle.std.specs.Prelude.{Bool, List, ℕ};

    /// The second cycle may follow the first.
    ghost follows: { Self → Self → Type 0 };

    /// The reset input is active.
    ghost is_reset: { Self → Bool };

    /// The values of the declared names, in their order.
    ghost values: { Self → List ℕ };
}

/// A formula of a set reads no row after its largest offset: where two lists of rows agree up to there it has one
/// value.
pub fn formulas_read_within()
    ensures { (set : Set) → ReadsWithin (meaning_of set) }
{}

/// Where no line of the design is violated (`base`, `step`, `reset` and `op`), every constrained run from reset, of any
/// length, satisfies the set. It is an induction over the cycles with the invariants.
pub fn valid_lines_hold_in_runs<C: Cycle>()
    ensures { (m : Meaning) (set : Set) → ReadsWithin m → KeepsOffsets m set →
        AreDesignLinesValid (design_of C.follows C.is_reset C.values) m set →
        RunsSatisfy (design_of C.follows C.is_reset C.values) m set }
{}

/// A sound set none of whose own lines is violated is complete (Bormann's criterion): any two constrained traces with
/// the same inputs that satisfy it determine each output at each cycle after which the largest window fits.
pub fn valid_lines_are_complete()
    ensures { (m : Meaning) (set : Set) → ReadsWithin m → IsSound m set → AreValid m set → IsComplete m set }
{}

/// Then no path is stuck, each property of a path is assumed and committed at its start,
/// and traces with the same inputs have the same path.
pub fn valid_lines_make_paths()
    ensures walks { (m : Meaning) (set : Set) → ReadsWithin m → IsSound m set → AreValid m set → ArePathsWalks m set }
    ensures same { (m : Meaning) (set : Set) → ReadsWithin m → IsSound m set → AreValid m set → HaveSamePaths m set }
{}

/// Each trace has exactly one path, whether or not the set's lines are valid.
pub fn each_trace_has_one_path()
    ensures { (m : Meaning) (set : Set) (trace : List Row) → IsSound m set → HasOnePath m set trace }
{}

/// What a report without a violated line says: every constrained run from reset satisfies the set and is a walk
/// along its operations, and in any two constrained traces with the same inputs that satisfy the set,
/// finite or infinite, each output is determined at every cycle.
pub fn signed_off_sets_are_complete<C: Cycle>()
    ensures runs { (m : Meaning) (set : Set) → ReadsWithin m → IsSound m set →
        IsSignedOff (design_of C.follows C.is_reset C.values) m set →
        RunsSatisfy (design_of C.follows C.is_reset C.values) m set }
    ensures walks { (m : Meaning) (set : Set) → ReadsWithin m → IsSound m set →
        IsSignedOff (design_of C.follows C.is_reset C.values) m set →
        RunsWalk (design_of C.follows C.is_reset C.values) m set }
    ensures complete { (m : Meaning) (set : Set) → ReadsWithin m → IsSound m set →
        IsSignedOff (design_of C.follows C.is_reset C.values) m set → IsComplete m set }
    ensures forever { (m : Meaning) (set : Set) → ReadsWithin m → IsSound m set →
        IsSignedOff (design_of C.follows C.is_reset C.values) m set → IsCompleteForever m set }
{}
