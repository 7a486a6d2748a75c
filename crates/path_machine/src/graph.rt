// The machine as a graph in Graphviz's language.
ghost use Rattle.std.specs.Prelude.{◌≡◌, ◌++◌, IfOk, OnOk};
ghost use Rattle.path_machine.specs.Graphs.{edge_text, edges_text, machine_graph, node_text, operations_graph, property_graph};
ghost use Rattle.path_machine.specs.Texts.{length_text};

use crate::texts::property_name;
use outside::Text;
use set_tree::{Length, Property, Set};
use set_tree_structure::Sound;
use std::alloc::{AllocError, Global};

// A length.
#[tactic(auto)]
fn add_length(alloc: Global, out: &mut Vec<u8>, length: &Length) -> Result<(), AllocError>
    ensures { OnOk result (out.new.items ≡ out.old.items ++ length_text length.now.low length.now.high length.now.until) }
{
    let low = length.low;
    let high = length.high;
    match &length.until {
        None => {
            let digits = format!(in alloc; "{low}")?;
            out.extend_from_slice(digits.as_bytes())
        }
        Some(_) => {
            let digits = format!(in alloc; "{low}..{high}")?;
            out.extend_from_slice(digits.as_bytes())
        }
    }
}

// The node of a property.
#[tactic(auto, unfolding(crate::specs::Graphs::node_text))]
fn add_node(
    alloc: Global,
    out: &mut Vec<u8>,
    name: &[u8],
    length: &Length,
) -> Result<(), AllocError>
    ensures { OnOk result (out.new.items ≡ out.old.items ++ node_text name.now length.now) }
{
    out.extend_from_slice(b"  \"")?;
    out.extend_from_slice(name)?;
    out.extend_from_slice(b"\" [label=\"")?;
    out.extend_from_slice(name)?;
    out.extend_from_slice(b"\\n")?;
    add_length(alloc, out, length)?;
    out.extend_from_slice(b"\"];\n")?;
    Ok(())
}

// An edge.
#[tactic(auto, unfolding(crate::specs::Graphs::edge_text))]
fn add_edge(out: &mut Vec<u8>, name: &[u8], successor: &[u8]) -> Result<(), AllocError>
    ensures { OnOk result (out.new.items ≡ out.old.items ++ edge_text name.now successor.now) }
{
    out.extend_from_slice(b"  \"")?;
    out.extend_from_slice(name)?;
    out.extend_from_slice(b"\" -> \"")?;
    out.extend_from_slice(successor)?;
    out.extend_from_slice(b"\";\n")?;
    Ok(())
}

// An edge to each successor.
#[tactic(auto)]
fn add_edges(out: &mut Vec<u8>, set: &Set, name: &[u8], next: &[u32]) -> Result<(), AllocError>
    ensures { OnOk result (out.new.items ≡ out.old.items ++ edges_text set.now name.now next.now) }
{
    for at in next {
        add_edge(out, name, property_name(set, *at))?;
    }
    Ok(())
}

// A property under a name.
#[tactic(auto, unfolding(crate::specs::Graphs::property_graph))]
fn add_property(
    alloc: Global,
    out: &mut Vec<u8>,
    set: &Set,
    name: &[u8],
    property: &Property,
) -> Result<(), AllocError>
    ensures { OnOk result (out.new.items ≡ out.old.items ++ property_graph set.now name.now property.now) }
{
    add_node(alloc, out, name, &property.length)?;
    add_edges(out, set, name, property.next.as_slice())
}

// The operations.
#[tactic(auto)]
fn add_operations(
    alloc: Global,
    out: &mut Vec<u8>,
    set: &Set,
    operations: &[Property],
) -> Result<(), AllocError>
    ensures { OnOk result (out.new.items ≡ out.old.items ++ operations_graph set.now operations.now) }
{
    for operation in operations {
        add_property(alloc, out, set, operation.name.bytes(), operation)?;
    }
    Ok(())
}

/// The graph of a set.
#[tactic(auto, unfolding(crate::specs::Graphs::machine_graph))]
pub fn graph_of(alloc: Global, set: &Set) -> Result<Text, AllocError>
    ensures { IfOk result (λ text. text ≡ machine_graph set.now) }
{
    let mut out = Vec::new(alloc);
    out.extend_from_slice(b"digraph machine {\n  rankdir=LR;\n  node [shape=box];\n")?;
    add_property(alloc, &mut out, set, b"reset", &set.first)?;
    add_operations(alloc, &mut out, set, set.operations.as_slice())?;
    out.extend_from_slice(b"}\n")?;
    Ok(Text::new(out))
}

/// The machine of a set as a graph in Graphviz's language: for the reset property and each operation a node with its
/// name and its length, as `n` or as `a..b` where a condition ends it, and an edge to each successor.
pub fn machine_graph(alloc: Global, sound: &Sound) -> Result<Text, AllocError>
    ensures { IfOk result (λ text. text ≡ machine_graph sound.now) }
{
    graph_of(alloc, sound.set())
}
