// The inputs of one bit of a scope.

ghost use Rattle.std.specs.Prelude.{◌≡◌, ◌++◌, IfOk, IfErr, map, filter};
ghost use Rattle.elab_flat_faults.specs.FlatStands.{Refuses};
ghost use Rattle.elab_flat_scopes.specs.Borrowed.{name_meant, decl_meant};
ghost use Rattle.elab_flat_scopes.specs.Finding.{decl_name};
ghost use Rattle.elab_flat_instances.specs.Unfolding.{scope_meant};
ghost use Rattle.elab_flat_names.specs.Rows.{AreDeclaredAs, IsDeclaredAs, StandsAlone};
ghost use Rattle.elab_flat_clocks.specs.Tables.{is_bit_input, bit_inputs};

use elab_flat_faults::FlatFault;
use elab_flat_instances::Scope;
use elab_flat_names::declared_signal;
use elab_flat_scopes::{Decl, signals_in};
use outside::Text;
use std::alloc::Global;

fn is_bit_input(alloc: Global, scope: &Scope<'_>, decl: &Decl<'_>) -> Result<bool, FlatFault>
    requires { IsDeclaredAs scope.now.text.now (decl_meant decl.now) }
    ensures ok { IfOk result (λ b. b ≡ is_bit_input scope.now.params (decl_meant decl.now)) }
    ensures err { IfErr result (Refuses (StandsAlone (scope_meant scope.now))) }
{
    if !decl.input {
        return Ok(false);
    }
    match declared_signal(alloc, scope, decl) {
        Ok(signal) => Ok(signal.width == 1),
        Err(fault) => Err(fault),
    }
}

fn bits_among<'a>(
    alloc: Global,
    scope: &Scope<'_>,
    decls: &[Decl<'a>],
) -> Result<Vec<&'a Text>, FlatFault>
    requires { AreDeclaredAs scope.now.text.now (map decl_meant decls.now) }
    ensures ok { IfOk result (λ r. map name_meant r.items ≡ map decl_name
        (filter (is_bit_input scope.now.params) (map decl_meant decls.now))) }
    ensures err { IfErr result (Refuses (StandsAlone (scope_meant scope.now))) }
{
    let mut all = Vec::new(alloc);
    for decl in decls {
        match is_bit_input(alloc, scope, decl) {
            Ok(true) => all.push(decl.name)?,
            Ok(false) => {}
            Err(fault) => return Err(fault),
        }
    }
    Ok(all)
}

/// The names of a scope's inputs of one bit. A refusal's fault stands at the scope.
pub fn bit_inputs<'a>(alloc: Global, scope: &Scope<'a>) -> Result<Vec<&'a Text>, FlatFault>
    ensures ok { IfOk result (λ r. map name_meant r.items ≡ bit_inputs (scope_meant scope.now)) }
    ensures err { IfErr result (Refuses (StandsAlone (scope_meant scope.now))) }
{
    let signals = signals_in(alloc, scope.text)?;
    bits_among(alloc, scope, &signals)
}
