// Findings about modules that can't be made one module without instances.
use crate::finding::Finding;
use crate::ports::{port_finding, unknown_finding};
use crate::sources::Sources;
use elab_flat_faults::FlatFault;
use outside::Text;
use signoff_places::{
    Named, Pick, behind_word, broken_rule, byte_at, declared_in, divided_signal, last_behind_word,
    last_instance_in, leaving_select, place_of_name, shown, text_of,
};
use std::alloc::{AllocError, Global};

// No module has the name of the set's block.
fn no_top(alloc: Global, sources: &Sources<'_>) -> Result<Finding, AllocError> {
    let byte = behind_word(sources.set, b"block", sources.top).and_then(|place| byte_at(place));
    let top = shown(sources.top);
    let sentence = format!(in alloc;
        "the modules' text has no module `{top}`: `block` names the module that the set is about"
    )?;
    Ok(Finding::of_set(byte, sentence))
}

// The second module of a name.
fn module_again(sources: &Sources<'_>, name: &[u8]) -> Option<usize> {
    let first = byte_at(behind_word(sources.modules, b"module", name)?)?;
    let last = byte_at(last_behind_word(sources.modules, b"module", name)?)?;
    if first == last { None } else { Some(last) }
}

// The last place at which a name of a module is declared or given.
fn last_place(named: &Named<'_>) -> Option<usize> {
    if let Some(instance) = last_instance_in(named.body, named.last) {
        return byte_at(instance.named);
    }
    match declared_in(named.body, named.last, Pick::Last) {
        Some(declared) => byte_at(declared.named),
        None => byte_at(place_of_name(named)?),
    }
}

// A name that is declared twice, or a parameter that is given twice.
fn twice(alloc: Global, sources: &Sources<'_>, name: &Text) -> Result<Finding, AllocError> {
    let text = text_of(name);
    if let Some(byte) = module_again(sources, name.bytes()) {
        let sentence = format!(in alloc; "two modules are named `{text}`: rename one of them")?;
        return Ok(Finding::of_module(Some(byte), sentence));
    }
    let byte = match sources.named(name.bytes()) {
        Some(named) => last_place(&named),
        None => None,
    };
    let sentence = format!(in alloc;
        "`{text}` is declared twice in its module, or is a parameter that is given twice"
    )?;
    Ok(Finding::of_module(byte, sentence))
}

// Whether a name is declared, and doesn't stand for an instance.
fn is_declared(named: &Named<'_>) -> bool {
    declared_in(named.body, named.last, Pick::First).is_some()
}

// What must be constant isn't: a declaration, by its name, or an expression, by the name of its instance.
fn constant(alloc: Global, sources: &Sources<'_>, name: &Text) -> Result<Finding, AllocError> {
    let byte = sources.byte_of(name.bytes());
    let text = text_of(name);
    let Some(named) = sources.named(name.bytes()) else {
        let sentence = format!(in alloc; "`{text}` isn't constant where it must be")?;
        return Ok(Finding::of_module(byte, sentence));
    };
    if is_declared(&named) {
        let sentence = format!(in alloc;
            "`{text}` isn't constant, or its range isn't `[m:l]` with m >= l: use numbers and parameters"
        )?;
        return Ok(Finding::of_module(byte, sentence));
    }
    let suspect = sources.inside(&named).and_then(divided_signal);
    let sentence = format!(in alloc;
        "an expression in `{text}` isn't constant: a bound, a count, or an operand of `/` or `%`"
    )?;
    Ok(Finding::of_module(suspect.or(byte), sentence))
}

// A width is out of bounds: that of a declaration, by its name, or of an expression, by the name of its instance.
fn width(alloc: Global, sources: &Sources<'_>, name: &Text) -> Result<Finding, AllocError> {
    let byte = sources.byte_of(name.bytes());
    let text = text_of(name);
    let Some(named) = sources.named(name.bytes()) else {
        let sentence = format!(in alloc; "a width in `{text}` isn't 1 to 64")?;
        return Ok(Finding::of_module(byte, sentence));
    };
    if is_declared(&named) {
        let sentence = format!(in alloc;
            "`{text}` isn't 1 to 64 bits wide, or is a memory of more than 64 words: split it"
        )?;
        return Ok(Finding::of_module(byte, sentence));
    }
    let suspect = sources.inside(&named).and_then(leaving_select);
    let sentence = format!(in alloc;
        "an expression in `{text}` isn't 1 to 64 bits wide, or a select `[m:l]` leaves its vector"
    )?;
    Ok(Finding::of_module(suspect.or(byte), sentence))
}

// A module that contains itself.
fn recursion(alloc: Global, sources: &Sources<'_>, name: &Text) -> Result<Finding, AllocError> {
    let byte = sources.byte_of(name.bytes());
    let name = text_of(name);
    let sentence = format!(in alloc;
        "the module of `{name}` contains itself: write each level as a module of its own"
    )?;
    Ok(Finding::of_module(byte, sentence))
}

// Which rule on clocks is broken.
fn clock(alloc: Global, sources: &Sources<'_>, name: &Text) -> Result<Finding, AllocError> {
    let Some(named) = sources.named(name.bytes()) else {
        return Ok(Finding::of_module(None, String::from_str(alloc, "a rule on clocks is broken")?));
    };
    let broken = broken_rule(&named);
    let byte = broken.byte.or(sources.byte_of(name.bytes()));
    let name = text_of(name);
    let rule = broken.rule.sentence();
    Ok(Finding::of_module(byte, format!(in alloc; "`{name}` {rule}")?))
}

/// A fault of flattening.
pub fn flat_finding(
    alloc: Global,
    sources: &Sources<'_>,
    fault: &FlatFault,
) -> Result<Finding, AllocError> {
    match fault {
        FlatFault::NoTop => no_top(alloc, sources),
        FlatFault::Unknown(name) => unknown_finding(alloc, sources, name),
        FlatFault::Twice(name) => twice(alloc, sources, name),
        FlatFault::Port(name) => port_finding(alloc, sources, name),
        FlatFault::Recursion(name) => recursion(alloc, sources, name),
        FlatFault::Instances => {
            let sentence =
                "the block has more than 4,096 instances: check its parts by sets of their own";
            Ok(Finding::of_module(None, String::from_str(alloc, sentence)?))
        }
        FlatFault::Constant(name) => constant(alloc, sources, name),
        FlatFault::Width(name) => width(alloc, sources, name),
        FlatFault::Clock(name) => clock(alloc, sources, name),
        FlatFault::Memory => Ok(Finding::of_none(String::from_str(alloc, "out of memory")?)),
    }
}
