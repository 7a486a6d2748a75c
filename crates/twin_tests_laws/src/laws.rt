// The laws.
ghost use Rattle.std.specs.Prelude.{ℕ};
ghost use Rattle.set_tree.specs.declared.line.Line.{Line};
ghost use Rattle.set_tree.specs.declared.set.Set.{Set};
ghost use Rattle.set_tree.specs.Meaning.{Meaning};
ghost use Rattle.word_dag.specs.Nodes.{Naming};
ghost use Rattle.twin_tests_laws.specs.Windows.{HasDistinctNames};
ghost use Rattle.twin_tests_laws.specs.Laws.{AreNamedRows, TestIsExact, TestsAreOfLines, ValuesAreViolations, ViolationsHaveValues, WindowsHaveValues};

/// The windows that values name are traces with the same inputs.
pub fn named_rows_are_traces()
    ensures { (set : Set) (e : Naming) (end : ℕ) → AreNamedRows set e end }
{}

/// Any two traces of one length with the same inputs are named by some values, where no name is declared twice.
pub fn windows_have_values()
    ensures { (set : Set) → HasDistinctNames set → WindowsHaveValues set }
{}

/// The test of a line holds exactly at values whose windows violate the line.
pub fn tests_are_exact()
    ensures { (m : Meaning) (set : Set) (line : Line) → TestIsExact m set line }
{}

/// Nodes whose root is the test of a line at all values are an obligation of the line.
pub fn tests_are_of_lines()
    ensures { (m : Meaning) (set : Set) (line : Line) → TestsAreOfLines m set line }
{}

/// Where windows violate a line of the set, some values name such windows, where no name is declared twice; and the
/// windows that values name are such windows.
pub fn violations_have_values()
    ensures named { (m : Meaning) (set : Set) → HasDistinctNames set → ViolationsHaveValues m set }
    ensures shown { (m : Meaning) (set : Set) → ValuesAreViolations m set }
{}
