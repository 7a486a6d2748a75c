// What circuits and clauses are.
ghost use Rattle.cnf_build.specs.Examples.{ExampleClauses};
ghost use Rattle.cnf_build.specs.Meaning.{OpsDenote};

/// The circuit of an operation gives the operation's word.
pub fn ops_denote()
    ensures { OpsDenote }
{}

/// The clauses of two small obligations.
pub fn example_clauses()
    ensures { ExampleClauses }
{}
