// What is wrong with the names and the ports of a module's text.

ghost use Rattle.std.specs.Prelude.{◌≡◌, ◌++◌, map, IfOk};
ghost use Rattle.std.specs.Option.{option_copied};
ghost use Rattle.vlog_tree_runs.specs.Places.{Name, Among};
ghost use Rattle.vlog_tree_runs.specs.Contents.{port_names};
ghost use Rattle.elab_flat_faults.specs.Texts.{assigned_in, waited_in};
ghost use Rattle.elab_flat_faults.specs.Declaring.{Repeats, declared_names, LacksDirection, IsUnlisted};
ghost use Rattle.elab_flat_names.specs.Rows.{IsRead};
ghost use Rattle.elab_flat_names.specs.Searching.{Finds, IsAbsent};

use crate::declared::{declared_names, directed_names};
use crate::search::{absent, repeated};
use crate::{assigned_in, exprs_in, names_read, waited_in};
use elab_flat_scopes::{Names, port_names};
use outside::Text;
use std::alloc::{AllocError, Global};
use vlog_tree::Module;

/// A name in an expression that isn't declared.
pub fn undeclared<'a>(
    alloc: Global,
    text: &'a Module,
    declared: &Names<'_>,
) -> Result<Option<&'a Text>, AllocError>
    ensures { IfOk result (λ r. Finds (λ x. IsRead text.now x × (Among declared.now x → ⊥)) (option_copied r)) }
{
    let exprs = exprs_in(alloc, text)?;
    let names = names_read(alloc, &exprs)?;
    Ok(absent(&names, declared))
}

/// A name that is assigned or waited for and is no signal.
pub fn unassignable<'a>(
    alloc: Global,
    text: &'a Module,
    signals: &Names<'_>,
) -> Result<Option<&'a Text>, AllocError>
    ensures { IfOk result (λ r. Finds (IsAbsent (assigned_in text.now ++ waited_in text.now) signals.now)
        (option_copied r)) }
{
    let mut names = assigned_in(alloc, text)?;
    let mut waited = waited_in(alloc, text)?;
    names.append(&mut waited)?;
    Ok(absent(&names, signals))
}

/// A port that the header names twice.
pub fn listed_twice(alloc: Global, text: &Module) -> Result<Option<&Text>, AllocError>
    ensures { IfOk result (λ r. Finds (Repeats (port_names text.now)) (option_copied r)) }
{
    let names = port_names(alloc, text)?;
    repeated(alloc, &names)
}

/// A name that two of the parameters, instances and signals have.
pub fn named_twice(alloc: Global, text: &Module) -> Result<Option<&Text>, AllocError>
    ensures { IfOk result (λ r. Finds (Repeats (declared_names text.now)) (option_copied r)) }
{
    let names = declared_names(alloc, text)?;
    repeated(alloc, &names)
}

/// A name of the header that no declaration gives a direction.
pub fn undirected(alloc: Global, text: &Module) -> Result<Option<&Text>, AllocError>
    ensures { IfOk result (λ r. Finds (LacksDirection text.now) (option_copied r)) }
{
    let directed = Names::of(alloc, directed_names(alloc, text)?)?;
    let ports = port_names(alloc, text)?;
    Ok(absent(&ports, &directed))
}

/// A port of the body that the header doesn't list.
pub fn unlisted(alloc: Global, text: &Module) -> Result<Option<&Text>, AllocError>
    ensures { IfOk result (λ r. Finds (IsUnlisted text.now) (option_copied r)) }
{
    let directed = directed_names(alloc, text)?;
    let ports = Names::of(alloc, port_names(alloc, text)?)?;
    Ok(absent(&directed, &ports))
}
