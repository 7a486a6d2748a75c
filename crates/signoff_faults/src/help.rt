// How the program is called.
use outside::Text;
use std::alloc::{AllocError, Global};

const USAGE: &[u8] = b"usage: signoff COMMAND ARGUMENTS [OPTIONS]
M is a file of Verilog modules, S a file with a set of operation properties.

  check M S           decide all lines of the report: signed off or not
  ops M S             decide the lines about the block alone
  trace M S LINE      decide one line, and put its counterexample
  least M S LINE      decide one line, and put its least counterexample
  wave M S LINE       decide one line, and put its counterexample as a waveform
  lines M S           put the names of the report's lines
  meet M S [NAME]     say whether anything meets reset and each operation
  machine M S         put the operations of a signed-off set as a machine
  walk M S ROWS       put the path of operations of a run, by its rows of inputs
  clauses M S LINE    put the clauses of a line for other solvers, in DIMACS
  accept M S LINE PROOF --store FILE
                      keep another solver's LRAT derivation, and decide the line
  demo N              check a generated chain of N stages, 1 to 64
  serve PORT COUNT FILE
                      serve the desk in FILE to COUNT local connections
  migrate FILE        put the kept proofs of FILE in the newest format

Options, anywhere behind the command, as --budget 5 or --budget=5:
  --budget B          most steps of the solver a line, 1 to 10,000,000 (20,000)
  --workers W         lines decided side by side, 1 to 64 (4)
  --store FILE        file in which proofs are kept for the next check (none)
  --progress          tell on standard error how the work goes
  --dot               machine: put it as a graph in Graphviz's language
  --timeout S         serve: seconds for a request and a reply, 1 to 3,600 (10)
  --replied           serve: count connections that got a reply alone
lines, clauses, demo and migrate take no option, accept takes --store alone,
and serve no --store. bin/signoff --memory MB COMMAND .. bounds the memory.

Status:
   0  all is proved, or met, or served      1  a line is refuted, or unmet
   2  no command, or no line of this name   3  the modules are refused
   4  the set is refused                    5  the set doesn't fit the block
   6  a file can't be read                  7  the output can't be written
   8  the store failed                      9  there is no next connection
  10  a line is spent, none is refuted     11  rows are refused
  12  a derivation isn't accepted          70  out of memory
";

const VERSION: &[u8] =
    b"signoff 1.0.0, an interval property checker for Verilog blocks; `signoff --help` says how it is called
";

/// What the program is.
pub fn version(alloc: Global) -> Result<Text, AllocError> {
    Text::copy(alloc, VERSION)
}

/// How the program is called: its commands, options and statuses.
pub fn usage(alloc: Global) -> Result<Text, AllocError> {
    Text::copy(alloc, USAGE)
}
