// What declarations of a scope declare, and the faults of those that declare nothing.

ghost use Rattle.std.specs.Prelude.{◌≡◌, IfOk, IfErr};
ghost use Rattle.vlog_tree_runs.specs.Scopes.{signal_of};
ghost use Rattle.elab_flat_faults.specs.FlatStands.{Refuses};
ghost use Rattle.elab_flat_scopes.specs.Borrowed.{decl_meant};
ghost use Rattle.elab_flat_instances.specs.Unfolding.{scope_meant};
ghost use Rattle.elab_flat_names.specs.Rows.{IsDeclaredAs, StandsAlone, words_fault, signal_fault};

use elab_flat_faults::FlatFault;
use elab_flat_instances::{Scope, full_name, range_fault, unfit_fault};
use elab_flat_params::{BadSignal, BadWords, signal_of};
use elab_flat_scopes::Decl;
use outside::Text;
use std::alloc::Global;
use vlog_tree_runs::Signal;

fn words_fault(name: Text, cause: BadWords) -> FlatFault
    ensures { result ≡ words_fault name cause }
{
    match cause {
        BadWords::First(cause) => unfit_fault(name, cause),
        BadWords::Last(cause) => unfit_fault(name, cause),
        BadWords::Order => FlatFault::Constant(name),
        BadWords::Many => FlatFault::Width(name),
    }
}

fn signal_fault(name: Text, cause: BadSignal) -> FlatFault
    ensures { result ≡ signal_fault name cause }
{
    match cause {
        BadSignal::Bits(cause) => range_fault(name, cause),
        BadSignal::Words(cause) => words_fault(name, cause),
        BadSignal::Memory => FlatFault::Memory,
    }
}

/// What a declaration of a scope declares. A refusal's fault stands at the scope.
pub fn declared_signal(
    alloc: Global,
    scope: &Scope<'_>,
    decl: &Decl<'_>,
) -> Result<Signal, FlatFault>
    requires { IsDeclaredAs scope.now.text.now (decl_meant decl.now) }
    ensures ok { IfOk result (λ g. g ≡ signal_of scope.now.params (decl_meant decl.now)) }
    ensures err { IfErr result (Refuses (StandsAlone (scope_meant scope.now))) }
{
    match signal_of(alloc, decl, &scope.params) {
        Ok(signal) => Ok(signal),
        Err(cause) => {
            let name = full_name(alloc, scope.prefix.bytes(), decl.name.bytes())?;
            Err(signal_fault(name, cause))
        }
    }
}
