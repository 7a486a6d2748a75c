// The texts of a machine, of a path and of a fault.
ghost use Rattle.std.specs.Prelude.{◌≡◌, ◌∷◌, ◌++◌, map, IfOk, OnOk};
ghost use Rattle.twin_tests_laws.specs.Names.{property_name};
ghost use Rattle.word_dag.specs.Text.{spaced};
ghost use Rattle.replay.specs.Puts.{Prints};
ghost use Rattle.path_machine.specs.Texts.{fault_text, length_text, machine_text, operations_text, path_text, step_text, transition};

use crate::rows::RowFault;
use itoa::Buffer;
use outside::{MemSink, OutFault, Sink, Text};
use replay::{put, put_all, put_word};
use set_tree::{At, Length, Path, Property, Set};
use set_tree_structure::Sound;
use std::alloc::{AllocError, Global};

/// The name of the property at a position.
pub fn property_name(set: &Set, at: u32) -> &[u8]
    ensures { result.now ≡ property_name set.now at }
{
    if at == 0 {
        return b"reset";
    }
    match set.operations.as_slice().get(at as usize - 1) {
        Some(operation) => operation.name.bytes(),
        None => set.first.name.bytes(),
    }
}

// A length behind a space.
fn put_length<S: Sink>(sink: &mut S, length: &Length) -> Result<(), OutFault>
    ensures { Prints S.written S.faults sink.old sink.new result
        (32 ∷ length_text length.now.low length.now.high length.now.until) }
{
    let mut low = Buffer::new();
    let mut high = Buffer::new();
    let low = low.format(length.low).as_bytes();
    match &length.until {
        None => put_word(sink, low),
        Some(_) => put_all(
            sink,
            &[b" ", low, b"..", high.format(length.high).as_bytes()],
        ),
    }
}

// The names of properties, each behind a space.
fn put_names<S: Sink>(sink: &mut S, set: &Set, next: &[u32]) -> Result<(), OutFault>
    ensures { Prints S.written S.faults sink.old sink.new result (spaced (map (property_name set.now) next.now)) }
{
    for at in next {
        put_word(sink, property_name(set, *at))?;
    }
    Ok(())
}

// A property under a name.
fn put_transition<S: Sink>(
    sink: &mut S,
    set: &Set,
    name: &[u8],
    property: &Property,
) -> Result<(), OutFault>
    ensures { Prints S.written S.faults sink.old sink.new result (transition set.now name.now property.now) }
{
    put(sink, name)?;
    put_length(sink, &property.length)?;
    put(sink, b" ->")?;
    put_names(sink, set, property.next.as_slice())?;
    put(sink, b"\n")
}

// The operations.
fn put_operations<S: Sink>(sink: &mut S, set: &Set, operations: &[Property]) -> Result<(), OutFault>
    ensures { Prints S.written S.faults sink.old sink.new result (operations_text set.now operations.now) }
{
    for operation in operations {
        put_transition(sink, set, operation.name.bytes(), operation)?;
    }
    Ok(())
}

/// Puts the machine of a set: a line for the reset property and for each operation, with its name, its length, as `n`
/// or as `a..b` where a condition ends it, `->`, and the names of its successors, with single spaces between. It takes
/// no memory of its own. It is refused where the sink refuses, and then a prefix of the text was put.
pub fn put_machine<S: Sink>(sound: &Sound, sink: &mut S) -> Result<(), OutFault>
    ensures { Prints S.written S.faults sink.old sink.new result (machine_text sound.now) }
{
    let set = sound.set();
    put_transition(sink, set, b"reset", &set.first)?;
    put_operations(sink, set, set.operations.as_slice())
}

/// The machine of a set, as `put_machine` puts it.
pub fn machine_text(alloc: Global, sound: &Sound) -> Result<Text, AllocError>
    ensures { IfOk result (λ text. text ≡ machine_text sound.now) }
{
    let mut sink = MemSink::new(alloc, Vec::new(alloc));
    match put_machine(sound, &mut sink) {
        Ok(()) => Text::copy(alloc, sink.bytes()),
        Err(_) => Err(AllocError),
    }
}

// Adds a property of a path, and the end of its line.
fn add_step(text: &mut Vec<u8>, set: &Set, at: &At) -> Result<(), AllocError>
    ensures { OnOk result (text.new.items ≡ text.old.items ++ step_text set.now at.now) }
{
    let mut start = Buffer::new();
    text.extend_from_slice(start.format(at.start).as_bytes())?;
    text.push(b' ')?;
    text.extend_from_slice(property_name(set, at.property))?;
    text.push(b'\n')?;
    Ok(())
}

/// The text of a path: a line for each of its properties, with the cycle at which it starts and its name.
pub fn path_text(alloc: Global, sound: &Sound, path: &Path) -> Result<Text, AllocError>
    ensures { IfOk result (λ text. text ≡ path_text sound.now path.now) }
{
    let mut text = Vec::new(alloc);
    for at in path.steps.as_slice() {
        add_step(&mut text, sound.set(), at)?;
    }
    Ok(Text::new(text))
}

/// The text of a fault of rows: its name, with the number of the line at `Row`.
pub fn fault_text(alloc: Global, fault: &RowFault) -> Result<Text, AllocError>
    ensures { IfOk result (λ text. text ≡ fault_text fault.now) }
{
    match fault {
        RowFault::Long => Text::copy(alloc, b"Long"),
        RowFault::Row(line) => {
            let line = *line;
            let text = format!(in alloc; "Row {line}")?;
            Text::copy(alloc, text.as_bytes())
        }
        RowFault::Short => Text::copy(alloc, b"Short"),
        RowFault::Memory => Text::copy(alloc, b"Memory"),
    }
}
