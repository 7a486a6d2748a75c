// Findings about a module without instances.
use crate::finding::Finding;
use crate::sources::Sources;
use elab_flat_faults::ElabFault;
use outside::Text;
use signoff_places::{Pick, declared_in, text_of};
use std::alloc::{AllocError, Global};

// The wrong form of assignment, by what is declared.
fn kind_sentence(alloc: Global, sources: &Sources<'_>, path: &Text) -> Result<String, AllocError> {
    let name = text_of(path);
    let declared = sources
        .named(path.bytes())
        .and_then(|named| declared_in(named.body, named.last, Pick::First));
    match declared {
        Some(declared) if declared.is_reg() => format!(in alloc;
            "`{name}` is a `reg`: a clocked block assigns it by `<=`, a combinational one by `=`, and no `assign`"
        ),
        Some(_) => format!(in alloc;
            "`{name}` is a wire: an `assign` or an instance drives it; a block assigns what is a `reg`"
        ),
        None => format!(in alloc;
            "`{name}` is assigned in the wrong form: `<=` in clocked blocks, `=` in others, `assign` for wires"
        ),
    }
}

fn sentence_of(
    alloc: Global,
    sources: &Sources<'_>,
    fault: &ElabFault,
) -> Result<String, AllocError> {
    match fault {
        ElabFault::Latch(name) => {
            let name = text_of(name);
            format!(in alloc;
                "a path through its block leaves `{name}` unset: assign it on every path, as first of all"
            )
        }
        ElabFault::Loop(name) => {
            let name = text_of(name);
            format!(in alloc;
                "`{name}` depends on itself within a cycle: put a register into the loop, or split the vector"
            )
        }
        ElabFault::Drivers(name, bit) => {
            let name = text_of(name);
            format!(in alloc;
                "bit {bit} of `{name}` has two drivers: drive it by one `assign`, one block or one instance"
            )
        }
        ElabFault::Undriven(name, bit) => {
            let name = text_of(name);
            format!(in alloc;
                "bit {bit} of `{name}` is read, or is an output's, but nothing drives it: assign it or connect it"
            )
        }
        ElabFault::Sensitivity(name) => {
            let name = text_of(name);
            format!(in alloc;
                "a block reads `{name}`, which its list of events leaves out: write `always @*`"
            )
        }
        ElabFault::Kind(name) => kind_sentence(alloc, sources, name),
        ElabFault::Memory => String::from_str(alloc, "out of memory"),
    }
}

// The name that a fault is about.
fn name_of(fault: &ElabFault) -> Option<&Text> {
    match fault {
        ElabFault::Latch(name)
        | ElabFault::Loop(name)
        | ElabFault::Sensitivity(name)
        | ElabFault::Kind(name) => Some(name),
        ElabFault::Drivers(name, _) | ElabFault::Undriven(name, _) => Some(name),
        ElabFault::Memory => None,
    }
}

/// A fault of elaboration.
pub fn elab_finding(
    alloc: Global,
    sources: &Sources<'_>,
    fault: &ElabFault,
) -> Result<Finding, AllocError> {
    let byte = match name_of(fault) {
        Some(name) => sources.byte_of(name.bytes()),
        None => None,
    };
    Ok(Finding::of_module(byte, sentence_of(alloc, sources, fault)?))
}
