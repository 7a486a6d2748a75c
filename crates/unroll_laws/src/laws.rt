// The laws.
ghost use Rattle.unroll_binding.specs.Binding.{Fits};
ghost use Rattle.set_tree.specs.declared.line.Line.{Line};
ghost use Rattle.set_tree.specs.declared.set.Set.{Set};
ghost use Rattle.set_tree.specs.Meaning.{Meaning};
ghost use Rattle.elab_step_design.specs.Designs.{IsDesign, Parts};
ghost use Rattle.unroll_laws.specs.Laws.{RowsAreOfRuns, RunsHaveValues, TestIsExact, TestsAreOfLines, ValuesAreViolations, ViolationsHaveValues};

/// The rows that values name are the trace of a run of the design, with reset active in the cycles before cycle 0 and
/// inactive from there on, and no other run that the values name has another trace.
pub fn named_rows_are_traces()
    ensures { (d : Parts) (set : Set) → IsDesign d → Fits d set → RowsAreOfRuns d set }
{}

/// Each run is named by some values.
pub fn runs_have_values()
    ensures { (d : Parts) (set : Set) → IsDesign d → RunsHaveValues d set }
{}

/// The test of a line holds exactly at values whose segment violates the line.
pub fn tests_are_exact()
    ensures { (d : Parts) (m : Meaning) (set : Set) → IsDesign d → Fits d set → (line : Line) →
        TestIsExact d m set line }
{}

/// Nodes whose root is the test of a line at all values are an obligation of the line.
pub fn tests_are_of_lines()
    ensures { (d : Parts) (m : Meaning) (set : Set) → IsDesign d → Fits d set → (line : Line) →
        TestsAreOfLines d m set line }
{}

/// Where a segment violates a line of the design, some values name such a segment; and a segment that values name so is
/// such a one.
pub fn violations_have_values()
    ensures named { (d : Parts) (m : Meaning) (set : Set) → IsDesign d → ViolationsHaveValues d m set }
    ensures shown { (d : Parts) (m : Meaning) (set : Set) → ValuesAreViolations d m set }
{}
