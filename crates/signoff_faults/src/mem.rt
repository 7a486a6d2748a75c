// Findings about memories.
use crate::finding::Finding;
use crate::sources::Sources;
use mem_laws::MemFault;
use outside::Text;
use signoff_places::text_of;
use std::alloc::{AllocError, Global};

// A finding about a memory or a word of one, at the place of its declaration.
fn named(
    alloc: Global,
    sources: &Sources<'_>,
    path: &Text,
    wrong: &str,
) -> Result<Finding, AllocError> {
    let name = text_of(path);
    let sentence = format!(in alloc; "`{name}` {wrong}")?;
    Ok(Finding::of_module(sources.byte_of(path.bytes()), sentence))
}

/// A finding about memories of a module.
pub fn mem_finding(
    alloc: Global,
    sources: &Sources<'_>,
    fault: &MemFault,
) -> Result<Finding, AllocError> {
    match fault {
        MemFault::Twice(word) => named(
            alloc,
            sources,
            word,
            "is declared, and is the word of a memory too: rename the signal or the memory",
        ),
        MemFault::Whole(name) => named(
            alloc,
            sources,
            name,
            "is a memory that is used without one index: write `m[i]`, and `@*` in a block that reads it",
        ),
        MemFault::Nested(name) => named(
            alloc,
            sources,
            name,
            "is a memory whose index reads a memory: put that read into a wire of its own",
        ),
        MemFault::Kind(name) => named(
            alloc,
            sources,
            name,
            "isn't a memory as it has to be: unsigned, and assigned by `<=` in clocked blocks alone",
        ),
        MemFault::Uses => {
            let sentence =
                "memories are used at more than 1,024 places: read a word into a wire, and use the wire";
            Ok(Finding::of_module(None, String::from_str(alloc, sentence)?))
        }
        MemFault::Memory => Ok(Finding::of_none(String::from_str(alloc, "out of memory")?)),
    }
}
