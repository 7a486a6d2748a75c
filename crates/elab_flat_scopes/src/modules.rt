// Modules by their names.

ghost use Rattle.std.specs.Prelude.{◌≡◌, IfOk, map};
ghost use Rattle.std.specs.Option.{option_copied};
ghost use Rattle.vlog_tree_runs.specs.Scopes.{module_at};
ghost use Rattle.elab_flat_scopes.specs.Borrowed.{name_meant};
ghost use Rattle.elab_flat_scopes.specs.Finding.{module_name};

use crate::names::Names;
use outside::Text;
use std::alloc::{AllocError, Global};
use std::marker::Model;
use vlog_tree::Module;

/// Modules, of which the one with a name is found at once. Contracts see them as their list.
#[derive(Drop)]
pub struct Modules<'a> {
    list: &'a [Module],
    names: Names<'a>,
}

impl<'a> Model for Modules<'a> {
    ghost use Rattle.std.specs.Prelude.{◌≡◌, List, map};
    ghost use Rattle.vlog_tree.specs.declared.module.Module.{Module};
    ghost use Rattle.std.specs.Coded.{codes};
    ghost use Rattle.vlog_tree.specs.contracts.expr.Expr as expr;
    ghost use Rattle.vlog_tree.specs.contracts.stmt.Lval as lval;
    ghost use Rattle.vlog_tree.specs.contracts.stmt.Stmt as stmt;
    ghost use Rattle.elab_flat_scopes.specs.Finding.{module_name};

    ghost Value = { List Module };

    ghost coded = { Prim.hlevel (codes, expr.the_row.coded, lval.the_row.coded, stmt.the_row.coded) };

    ghost view = { λ x. x.list.now };

    ghost invariant = { λ x. x.names ≡ map module_name x.list.now };
}

fn names_of<'a>(alloc: Global, modules: &'a [Module]) -> Result<Vec<&'a Text>, AllocError>
    ensures { IfOk result (λ names. map name_meant names.items ≡ map module_name modules.now) }
{
    let mut names = Vec::new(alloc);
    for text in modules {
        names.push(&text.name)?;
    }
    Ok(names)
}

impl<'a> Modules<'a> {
    /// The modules of a list.
    pub fn of(alloc: Global, list: &'a [Module]) -> Result<Modules<'a>, AllocError>
        ensures { IfOk result (λ modules. modules ≡ list.now) }
    {
        let names = Names::of(alloc, names_of(alloc, list)?)?;
        Ok(Modules { list, names })
    }

    /// The first module of a name; none where no module has it.
    pub fn at(&self, name: &[u8]) -> Option<&'a Module>
        ensures { option_copied result ≡ module_at self.now name.now }
    {
        match self.names.place(name) {
            Some(place) => self.list.get(place),
            None => None,
        }
    }
}
