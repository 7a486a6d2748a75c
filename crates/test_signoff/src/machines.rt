// A machine as a graph.
use desk_core_stages::set_of;
use outside::Text;
use path_machine::machine_graph;
use std::alloc::{AllocError, Global};
use std::test::Fail;

// A reset property, an operation of 2 to 5 cycles, and one of a single cycle.
const SET: &str = "block waiter; clock clk; reset rst high 1;
input go; input ok; output busy;
property reset { length 0; cover busy from 0 to 1; next idle; }
operation read { length 2 to 5 until ok; assume go@0; cover busy from 1 to end + 1; next read, idle; }
operation idle { length 1; assume !go@0; cover busy from 1 to 2; next read; }
";

const GRAPH: &str = r#"digraph machine {
  rankdir=LR;
  node [shape=box];
  "reset" [label="reset\n0"];
  "reset" -> "idle";
  "read" [label="read\n2..5"];
  "read" -> "read";
  "read" -> "idle";
  "idle" [label="idle\n1"];
  "idle" -> "read";
}
"#;

fn graph(alloc: Global) -> Result<Text, AllocError> {
    match set_of(alloc, SET.as_bytes()) {
        Ok(sound) => {
            let graph = machine_graph(alloc, &sound);
            // calls, since a proof would write out the drops of all trees here
            drop(sound);
            graph
        }
        Err(stop) => {
            drop(stop);
            Text::copy(alloc, b"the set isn't read")
        }
    }
}

#[test]
fn a_graph_has_nodes_and_edges(rt: HostRuntime) -> Result<(), Fail> {
    assert_eq!(rt; graph(rt.alloc())?.bytes(), GRAPH.as_bytes());
    Ok(())
}
