// The whole text for a refusal.
use crate::elab::elab_finding;
use crate::finding::{Finding, Side};
use crate::fit::bind_finding;
use crate::flat::flat_finding;
use crate::mem::mem_finding;
use crate::reading::{read_finding, set_finding};
use crate::sources::Sources;
use crate::structure::graph_finding;
use desk_core_faults::{CheckFault, ModuleFault, SetStop};
use outside::Text;
use signoff_places::{Place, add_line, block_of, place_of, tokens_of};
use std::alloc::{AllocError, Global};

/// The names of the two files of a check.
#[derive(Clone, Copy)]
pub struct Files<'a> {
    pub module: &'a [u8],
    pub set: &'a [u8],
}

/// The bytes of the two files of a check.
#[derive(Clone, Copy)]
pub struct Texts<'a> {
    pub module: &'a [u8],
    pub set: &'a [u8],
}

fn module_finding(
    alloc: Global,
    texts: &Texts<'_>,
    sources: &Sources<'_>,
    fault: &ModuleFault,
) -> Result<Finding, AllocError> {
    match fault {
        ModuleFault::TooLong => {
            let sentence =
                "the text has more than 1,048,576 bytes: leave out the modules that the block doesn't use";
            Ok(Finding::of_module(None, String::from_str(alloc, sentence)?))
        }
        ModuleFault::Read(fault) => read_finding(alloc, texts.module, sources.modules, fault),
        ModuleFault::Flat(fault) => flat_finding(alloc, sources, fault),
        ModuleFault::Mem(fault) => mem_finding(alloc, sources, fault),
        ModuleFault::Elab(fault) => elab_finding(alloc, sources, fault),
    }
}

fn stop_finding(
    alloc: Global,
    texts: &Texts<'_>,
    sources: &Sources<'_>,
    stop: &SetStop,
) -> Result<Finding, AllocError> {
    match stop {
        SetStop::TooLong => {
            let sentence =
                "the text has more than 1,048,576 bytes: a set of this length is more than one block needs";
            Ok(Finding::of_set(None, String::from_str(alloc, sentence)?))
        }
        SetStop::Read(fault) => set_finding(alloc, texts.set, sources.set, fault),
        SetStop::Graph(unsound) => graph_finding(alloc, sources.set, unsound),
    }
}

fn check_finding(
    alloc: Global,
    texts: &Texts<'_>,
    sources: &Sources<'_>,
    fault: &CheckFault,
) -> Result<Finding, AllocError> {
    match fault {
        CheckFault::Module(fault) => module_finding(alloc, texts, sources, fault),
        CheckFault::Set(stop) => stop_finding(alloc, texts, sources, stop),
        CheckFault::Bind(fault) => bind_finding(alloc, sources, fault),
        CheckFault::NoLine => {
            let sentence =
                "the report has no line of this name: `signoff lines M S` puts the names of its lines";
            Ok(Finding::of_none(String::from_str(alloc, sentence)?))
        }
        CheckFault::Keeper => {
            let sentence = "the file of kept proofs can't be read or written";
            Ok(Finding::of_none(String::from_str(alloc, sentence)?))
        }
        CheckFault::Memory => Ok(Finding::of_none(String::from_str(alloc, "out of memory")?)),
    }
}

fn finding_of(alloc: Global, texts: &Texts<'_>, fault: &CheckFault) -> Result<Finding, AllocError> {
    let modules = tokens_of(alloc, texts.module, false)?;
    let set = tokens_of(alloc, texts.set, true)?;
    let sources = Sources {
        modules: &modules,
        set: &set,
        top: block_of(&set),
    };
    check_finding(alloc, texts, &sources, fault)
}

// Adds `FILE:LINE:COL: `, as far as it is known.
fn add_place(
    out: &mut Vec<u8>,
    alloc: Global,
    name: &[u8],
    place: Option<Place>,
) -> Result<(), AllocError> {
    out.extend_from_slice(name)?;
    if let Some(place) = place {
        let line = place.line;
        let column = place.column;
        out.extend_from_slice(format!(in alloc; ":{line}:{column}")?.as_bytes())?;
    }
    out.extend_from_slice(b": ")
}

// What is put for a finding in a file.
fn put_in_file(
    alloc: Global,
    name: &[u8],
    text: &[u8],
    finding: &Finding,
) -> Result<Text, AllocError> {
    let mut out = Vec::new(alloc);
    add_place(
        &mut out,
        alloc,
        name,
        finding.byte.map(|byte| place_of(text, byte)),
    )?;
    add_sentence(&mut out, finding)?;
    if let Some(byte) = finding.byte {
        add_line(&mut out, text, byte)?;
    }
    Ok(Text::new(out))
}

fn add_sentence(out: &mut Vec<u8>, finding: &Finding) -> Result<(), AllocError> {
    out.extend_from_slice(b"error: ")?;
    out.extend_from_slice(finding.sentence.as_bytes())?;
    out.push(b'\n')?;
    Ok(())
}

/// What a refusal says to a reader: the file, the line and the column of the fault, as far as they are known, a
/// sentence that says what is wrong and what would be right, and the line itself with a mark below the place. The texts
/// are those that were refused by this fault.
pub fn explained(
    alloc: Global,
    names: &Files<'_>,
    texts: &Texts<'_>,
    fault: &CheckFault,
) -> Result<Text, AllocError> {
    let finding = finding_of(alloc, texts, fault)?;
    match finding.side {
        Some(Side::Module) => put_in_file(alloc, names.module, texts.module, &finding),
        Some(Side::Set) => put_in_file(alloc, names.set, texts.set, &finding),
        None => {
            let mut out = Vec::new(alloc);
            add_sentence(&mut out, &finding)?;
            Ok(Text::new(out))
        }
    }
}
