// The laws.
ghost use Rattle.unroll_binding.specs.Binding.{Fits};
ghost use Rattle.set_tree.specs.declared.set.Set.{Set};
ghost use Rattle.set_tree.specs.Meaning.{Meaning};
ghost use Rattle.elab_step_design.specs.Designs.{IsDesign, Parts};
ghost use Rattle.meet_lines.specs.declared.line.MeetLine.{MeetLine as Line};
ghost use Rattle.meet_lines.specs.Laws.{MetLinesAreTheModules, MetLinesHaveValues, ObligationsDecide, TestIsExact, TestsAreOfLines, ValuesMeetLines};

/// The test of a line holds exactly at values whose segment meets the line.
pub fn tests_are_exact()
    ensures { (d : Parts) (m : Meaning) (set : Set) → IsDesign d → Fits d set → (line : Line) →
        TestIsExact d m set line }
{}

/// Nodes whose root is the test of a line at all values are an obligation of the line.
pub fn tests_are_of_lines()
    ensures { (d : Parts) (m : Meaning) (set : Set) → IsDesign d → Fits d set → (line : Line) →
        TestsAreOfLines d m set line }
{}

/// Where a line is met, some values name a segment that meets it; and where values name such a segment, the line is
/// met.
pub fn met_lines_have_values()
    ensures named { (d : Parts) (m : Meaning) (set : Set) → IsDesign d → MetLinesHaveValues d m set }
    ensures met { (d : Parts) (m : Meaning) (set : Set) → ValuesMeetLines d m set }
{}

/// A line is met exactly where the root of its obligation can be 1.
pub fn obligations_decide()
    ensures { (d : Parts) (m : Meaning) (set : Set) → IsDesign d → ObligationsDecide d m set }
{}

/// A line is met in a design of words exactly where it is in the modules, where a module without instances has the
/// modules' cycles and the design has that module's, and the same cycles follow.
pub fn met_lines_are_the_modules()
    ensures { MetLinesAreTheModules }
{}
