// The laws of the circuits, each the contract of an empty function.
ghost use Rattle.cnf_build.specs.CircuitLaws.{AdderAdds, RowLaws, MoveLaws, ShiftLaws, CompareLaws, WireLaws, ProductSound, ClausesRun, RunExists};

/// An adder adds.
pub fn adder_adds()
    ensures { AdderAdds }
{}

/// Circuits with a gate for each bit compute their operations.
pub fn rows_compute()
    ensures { RowLaws }
{}

/// A word moves by any number of bits.
pub fn words_move()
    ensures { MoveLaws }
{}

/// Products multiply, and shifts by a word move by its number.
pub fn words_shift()
    ensures { ShiftLaws }
{}

/// Sums, differences and comparisons by the carry.
pub fn words_compare()
    ensures { CompareLaws }
{}

/// Operations that only rearrange literals.
pub fn wires_compute()
    ensures { WireLaws }
{}

/// A product reads earlier variables alone.
pub fn product_sound()
    ensures { ProductSound }
{}

/// Clauses say what gates compute.
pub fn clauses_run()
    ensures { ClausesRun }
{}

/// Gates compute, whatever is chosen for the free ones.
pub fn run_exists()
    ensures { RunExists }
{}
