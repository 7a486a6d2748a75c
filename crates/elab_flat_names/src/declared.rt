// The names that modules and scopes declare.

ghost use Rattle.std.specs.Prelude.{◌≡◌, ◌++◌, OnOk, IfOk, map, filter};
ghost use Rattle.vlog_tree_runs.specs.Contents.{signals_in, params_in, is_open};
ghost use Rattle.elab_flat_faults.specs.Declaring.{is_port, declared_names, open_params};
ghost use Rattle.elab_flat_scopes.specs.Borrowed.{name_meant, decl_meant, param_meant, inner_meant, param_name};
ghost use Rattle.elab_flat_scopes.specs.Finding.{decl_name};
ghost use Rattle.elab_flat_instances.specs.Graph.{inner_name};
ghost use Rattle.elab_flat_instances.specs.Unfolding.{scope_meant};
ghost use Rattle.elab_flat_names.specs.Rows.{entry_names, scope_names, directed_names};

use elab_flat_instances::Scope;
use elab_flat_scopes::{
    Decl, Inner, Names, Param, decls_in, instances_in, is_open, params_in, signals_in,
};
use outside::Text;
use std::alloc::{AllocError, Global};
use vlog_tree::{Entry, Module};

fn add_decl_names<'a>(all: &mut Vec<&'a Text>, decls: &[Decl<'a>]) -> Result<(), AllocError>
    ensures { OnOk result (map name_meant all.new.items ≡ map name_meant all.old.items ++ map decl_name
        (map decl_meant decls.now)) }
{
    for decl in decls {
        all.push(decl.name)?;
    }
    Ok(())
}

fn add_param_names<'a>(all: &mut Vec<&'a Text>, params: &[Param<'a>]) -> Result<(), AllocError>
    ensures { OnOk result (map name_meant all.new.items ≡ map name_meant all.old.items ++ map param_name
        (map param_meant params.now)) }
{
    for param in params {
        all.push(param.name)?;
    }
    Ok(())
}

fn add_inner_names<'a>(all: &mut Vec<&'a Text>, instances: &[Inner<'a>]) -> Result<(), AllocError>
    ensures { OnOk result (map name_meant all.new.items ≡ map name_meant all.old.items ++ map inner_name
        (map inner_meant instances.now)) }
{
    for inner in instances {
        all.push(inner.name)?;
    }
    Ok(())
}

fn add_entry_names<'a>(all: &mut Vec<&'a Text>, entries: &'a [Entry]) -> Result<(), AllocError>
    ensures { OnOk result (map name_meant all.new.items ≡ map name_meant all.old.items ++ entry_names entries.now) }
{
    for entry in entries {
        if entry.offset == 0 {
            all.push(&entry.name)?;
        }
    }
    Ok(())
}

fn add_port_names<'a>(all: &mut Vec<&'a Text>, decls: &[Decl<'a>]) -> Result<(), AllocError>
    ensures { OnOk result (map name_meant all.new.items ≡ map name_meant all.old.items ++ map decl_name
        (filter is_port (map decl_meant decls.now))) }
{
    for decl in decls {
        if decl.input || decl.output {
            all.push(decl.name)?;
        }
    }
    Ok(())
}

fn add_open_names<'a>(
    all: &mut Vec<&'a Text>,
    text: &Module,
    params: &[Param<'a>],
) -> Result<(), AllocError>
    ensures { OnOk result (map name_meant all.new.items ≡ map name_meant all.old.items ++ map param_name
        (filter (is_open text.now) (map param_meant params.now))) }
{
    for param in params {
        if is_open(text, param) {
            all.push(param.name)?;
        }
    }
    Ok(())
}

/// The names of the parameters that an instance may override.
pub fn open_names(alloc: Global, text: &Module) -> Result<Vec<&Text>, AllocError>
    ensures { IfOk result (λ r. map name_meant r.items ≡ open_params text.now) }
{
    let params = params_in(alloc, text)?;
    let mut all = Vec::new(alloc);
    add_open_names(&mut all, text, &params)?;
    Ok(all)
}

/// The names of declarations.
pub fn decl_names<'a>(alloc: Global, decls: &[Decl<'a>]) -> Result<Vec<&'a Text>, AllocError>
    ensures { IfOk result (λ r. map name_meant r.items ≡ map decl_name (map decl_meant decls.now)) }
{
    let mut all = Vec::new(alloc);
    add_decl_names(&mut all, decls)?;
    Ok(all)
}

/// The names of a module's signals.
pub fn signal_names(alloc: Global, text: &Module) -> Result<Vec<&Text>, AllocError>
    ensures { IfOk result (λ r. map name_meant r.items ≡ map decl_name (signals_in text.now)) }
{
    let signals = signals_in(alloc, text)?;
    decl_names(alloc, &signals)
}

/// The names of a module's parameters.
pub fn param_names(alloc: Global, text: &Module) -> Result<Vec<&Text>, AllocError>
    ensures { IfOk result (λ r. map name_meant r.items ≡ map param_name (params_in text.now)) }
{
    let params = params_in(alloc, text)?;
    let mut all = Vec::new(alloc);
    add_param_names(&mut all, &params)?;
    Ok(all)
}

/// The names of the declarations that give a direction.
pub fn directed_names(alloc: Global, text: &Module) -> Result<Vec<&Text>, AllocError>
    ensures { IfOk result (λ r. map name_meant r.items ≡ directed_names text.now) }
{
    let decls = decls_in(alloc, text)?;
    let mut all = Vec::new(alloc);
    add_port_names(&mut all, &decls)?;
    Ok(all)
}

/// The names of the parameters and the signals of a scope.
pub fn scope_names<'s>(alloc: Global, scope: &'s Scope<'_>) -> Result<Names<'s>, AllocError>
    ensures { IfOk result (λ names. names ≡ scope_names (scope_meant scope.now)) }
{
    let signals = signals_in(alloc, scope.text)?;
    let mut all = Vec::new(alloc);
    add_entry_names(&mut all, scope.params.entries())?;
    add_decl_names(&mut all, &signals)?;
    Names::of(alloc, all)
}

/// The names of the parameters, the instances and the signals of a module.
pub fn declared_names(alloc: Global, text: &Module) -> Result<Vec<&Text>, AllocError>
    ensures { IfOk result (λ r. map name_meant r.items ≡ declared_names text.now) }
{
    let params = params_in(alloc, text)?;
    let instances = instances_in(alloc, text)?;
    let signals = signals_in(alloc, text)?;
    let mut all = Vec::new(alloc);
    add_param_names(&mut all, &params)?;
    add_inner_names(&mut all, &instances)?;
    add_decl_names(&mut all, &signals)?;
    Ok(all)
}
