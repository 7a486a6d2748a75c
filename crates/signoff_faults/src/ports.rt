// Findings about names that aren't declared and about ports that don't fit.
use crate::finding::Finding;
use crate::sources::Sources;
use outside::Text;
use signoff_places::{
    Instance, Named, Pick, byte_at, declared_in, given_in, instance_in, module_in, shown, text_of,
    used_in,
};
use std::alloc::{AllocError, Global};
use vlog_tree::Token;

// An instance whose module the text doesn't have, or that is given more parameters than its module has.
fn unfit_instance(
    alloc: Global,
    sources: &Sources<'_>,
    instance: &Instance<'_>,
    name: &str,
) -> Result<Finding, AllocError> {
    let of = shown(instance.of_module());
    if module_in(sources.modules, instance.of_module()).is_none() {
        let sentence = format!(in alloc;
            "`{name}` is an instance of `{of}`, a module that the text doesn't have: put all into one file"
        )?;
        return Ok(Finding::of_module(byte_at(instance.item), sentence));
    }
    let sentence = format!(in alloc;
        "the instance `{name}` is given more parameters than its module `{of}` has"
    )?;
    Ok(Finding::of_module(byte_at(instance.named), sentence))
}

// A port or a parameter that is given at an instance and that its module doesn't have.
fn unknown_port(
    alloc: Global,
    named: &Named<'_>,
    given: &[Token],
    name: &str,
) -> Result<Finding, AllocError> {
    let of = shown(named.module_name());
    let sentence = format!(in alloc;
        "`{name}` is given here, but the module `{of}` has no port or parameter of this name"
    )?;
    Ok(Finding::of_module(byte_at(given), sentence))
}

// A name that a module uses.
fn unknown_name(alloc: Global, named: &Named<'_>, name: &str) -> Result<Finding, AllocError> {
    let of = shown(named.module_name());
    let byte = used_in(named.body, named.last).and_then(|place| byte_at(place));
    if declared_in(named.body, named.last, Pick::First).is_some() {
        let sentence = format!(in alloc;
            "`{name}` is a parameter of the module `{of}`: only signals are assigned or waited for"
        )?;
        return Ok(Finding::of_module(byte, sentence));
    }
    let sentence = format!(in alloc;
        "`{name}` isn't declared in the module `{of}`: declare it, since no net is implicit"
    )?;
    Ok(Finding::of_module(byte, sentence))
}

// The place at which an instance is given a port or a parameter by a name.
fn given_at<'a>(named: &Named<'a>) -> Option<&'a [Token]> {
    given_in(&named.outer?, named.last)
}

// A name that isn't declared in the module in which it should be.
fn undeclared(
    alloc: Global,
    sources: &Sources<'_>,
    named: &Named<'_>,
    name: &str,
) -> Result<Finding, AllocError> {
    if used_in(named.body, named.last).is_none() {
        if let Some(given) = given_at(named) {
            return unknown_port(alloc, named, given, name);
        }
    }
    match instance_in(named.body, named.last) {
        Some(instance) => unfit_instance(alloc, sources, &instance, name),
        None => unknown_name(alloc, named, name),
    }
}

/// A name that isn't declared.
pub fn unknown_finding(
    alloc: Global,
    sources: &Sources<'_>,
    path: &Text,
) -> Result<Finding, AllocError> {
    let name = text_of(path);
    match sources.named(path.bytes()) {
        Some(named) => undeclared(alloc, sources, &named, name),
        None => {
            let sentence = format!(in alloc; "`{name}` isn't declared")?;
            Ok(Finding::of_module(None, sentence))
        }
    }
}

// An instance with more or fewer connections than its module has ports.
fn unfit_count(alloc: Global, instance: &Instance<'_>, name: &str) -> Result<Finding, AllocError> {
    let of = shown(instance.of_module());
    let sentence = format!(in alloc;
        "`{name}` has more or fewer connections than its module `{of}` has ports: connect by names"
    )?;
    Ok(Finding::of_module(byte_at(instance.named), sentence))
}

// A port that is connected and doesn't fit.
fn unfit_port(alloc: Global, given: &[Token], name: &str) -> Result<Finding, AllocError> {
    let sentence = format!(in alloc;
        "the port `{name}` is connected twice, or is an output connected to what can't be assigned"
    )?;
    Ok(Finding::of_module(byte_at(given), sentence))
}

/// Ports that don't fit: those of an instance, one that is given, or one of a module's header.
pub fn port_finding(
    alloc: Global,
    sources: &Sources<'_>,
    path: &Text,
) -> Result<Finding, AllocError> {
    let name = text_of(path);
    let Some(named) = sources.named(path.bytes()) else {
        let sentence = format!(in alloc; "the ports of `{name}` don't fit")?;
        return Ok(Finding::of_module(None, sentence));
    };
    if let Some(instance) = instance_in(named.body, named.last) {
        return unfit_count(alloc, &instance, name);
    }
    match given_at(&named) {
        Some(given) => unfit_port(alloc, given, name),
        None => header_finding(alloc, &named, name),
    }
}

// A name that stands in the list of a module's ports without a direction, or has a direction and doesn't stand there.
fn header_finding(alloc: Global, named: &Named<'_>, name: &str) -> Result<Finding, AllocError> {
    let of = shown(named.module_name());
    let byte = used_in(named.body, named.last).and_then(|place| byte_at(place));
    let sentence = format!(in alloc;
        "`{name}` isn't both listed in the header of `{of}` and declared `input` or `output`"
    )?;
    Ok(Finding::of_module(byte, sentence))
}
