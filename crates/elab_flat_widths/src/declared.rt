// What declarations declare, and the ranges of a scope (IEEE 1364-2005, sections 4.3 and 4.9).

ghost use Rattle.std.specs.Prelude.{◌≡◌, ◌++◌, map, OnOk, IfOk, IfErr};
ghost use Rattle.vlog_tree_runs.specs.Contents.{decls_in};
ghost use Rattle.vlog_tree_runs.specs.Places.{Among};
ghost use Rattle.vlog_tree_runs.specs.Contents.{Decl as Declaration};
ghost use Rattle.vlog_tree_runs.specs.Scopes.{signal_of};
ghost use Rattle.elab_flat_faults.specs.FlatStands.{Refuses};
ghost use Rattle.elab_flat_scopes.specs.Borrowed.{decl_meant};
ghost use Rattle.elab_flat_params.specs.Signals.{IsDeclared};
ghost use Rattle.elab_flat_instances.specs.Unfolding.{scope_meant};
ghost use Rattle.elab_flat_widths.specs.Taken.{Fails};
ghost use Rattle.elab_flat_widths.specs.Ranges.{unfit_violation, range_violation, words_violation, signal_violation, BreaksDecl, AreDeclared, fault_of, StandsAlone};

use crate::violation::Violation;
use elab_flat_faults::FlatFault;
use elab_flat_instances::{Scope, full_name};
use elab_flat_params::{BadRange, BadSignal, BadWords, Unfit, signal_of};
use elab_flat_scopes::{Decl, decls_in};
use outside::Text;
use std::alloc::Global;
use vlog_tree::Valuation;
use vlog_tree_runs::Signal;

fn unfit_violation(cause: Unfit) -> Violation
    ensures { result ≡ unfit_violation cause }
{
    match cause {
        Unfit::Name => Violation::Constant,
        Unfit::Length => Violation::Length,
        Unfit::Divisor => Violation::Constant,
    }
}

fn range_violation(cause: BadRange) -> Violation
    ensures { result ≡ range_violation cause }
{
    match cause {
        BadRange::High(cause) => unfit_violation(cause),
        BadRange::Low(cause) => unfit_violation(cause),
        BadRange::Order => Violation::Constant,
        BadRange::Long => Violation::Length,
    }
}

fn words_violation(cause: BadWords) -> Violation
    ensures { result ≡ words_violation cause }
{
    match cause {
        BadWords::First(cause) => unfit_violation(cause),
        BadWords::Last(cause) => unfit_violation(cause),
        BadWords::Order => Violation::Constant,
        BadWords::Many => Violation::Length,
    }
}

fn signal_violation(cause: BadSignal) -> Violation
    ensures { result ≡ signal_violation cause }
{
    match cause {
        BadSignal::Bits(cause) => range_violation(cause),
        BadSignal::Words(cause) => words_violation(cause),
        BadSignal::Memory => Violation::Memory,
    }
}

/// The fault of what breaks a rule, by its name.
pub fn fault_of(name: Text, violation: Violation) -> FlatFault
    ensures { result ≡ fault_of name violation }
{
    match violation {
        Violation::Constant => FlatFault::Constant(name),
        Violation::Length => FlatFault::Width(name),
        Violation::Memory => FlatFault::Memory,
    }
}

/// What a declaration declares over parameters.
pub fn declared(alloc: Global, decl: &Decl<'_>, params: &Valuation) -> Result<Signal, Violation>
    ensures signal { IfOk result (λ g. g ≡ signal_of params.now (decl_meant decl.now)) }
    ensures declared { IfOk result (λ g. IsDeclared params.now (decl_meant decl.now)) }
    ensures err { IfErr result (Fails (BreaksDecl params.now (decl_meant decl.now))) }
{
    match signal_of(alloc, decl, params) {
        Ok(signal) => Ok(signal),
        Err(cause) => Err(signal_violation(cause)),
    }
}

fn check_each(alloc: Global, scope: &Scope<'_>, decls: &[Decl<'_>]) -> Result<(), FlatFault>
    requires { map decl_meant decls.now ≡ decls_in scope.now.text.now }
    ensures ok { OnOk result ((d : Declaration) → Among (map decl_meant decls.now) d → IsDeclared scope.now.params d) }
    ensures err { IfErr result (Refuses (StandsAlone (scope_meant scope.now))) }
{
    for decl in decls {
        match declared(alloc, decl, &scope.params) {
            Ok(_) => {}
            Err(violation) => {
                let name = full_name(alloc, scope.prefix.bytes(), decl.name.bytes())?;
                return Err(fault_of(name, violation));
            }
        }
    }
    Ok(())
}

/// The declarations of a scope's text declare bits and words. A refusal's fault stands at the scope.
pub fn check_ranges(alloc: Global, scope: &Scope<'_>) -> Result<(), FlatFault>
    ensures ok { OnOk result (AreDeclared (scope_meant scope.now)) }
    ensures err { IfErr result (Refuses (StandsAlone (scope_meant scope.now))) }
{
    let decls = decls_in(alloc, scope.text)?;
    check_each(alloc, scope, &decls)
}
