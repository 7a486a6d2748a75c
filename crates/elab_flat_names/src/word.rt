// The names of the words of memories (IEEE 1364-2005, section 4.9).

ghost use Rattle.std.specs.Prelude.{◌≡◌, ◌++◌, IfOk, IfErr, codes, decimal, map};
ghost use Rattle.std.specs.List.{flat_map};
ghost use Rattle.vlog_tree_runs.specs.Places.{Among};
ghost use Rattle.vlog_tree_runs.specs.Scopes.{signal_of};
ghost use Rattle.elab_flat_faults.specs.Declaring.{words_of};
ghost use Rattle.elab_flat_faults.specs.FlatStands.{Refuses};
ghost use Rattle.elab_flat_scopes.specs.Borrowed.{decl_meant};
ghost use Rattle.elab_flat_instances.specs.Unfolding.{scope_meant};
ghost use Rattle.elab_flat_names.specs.Searching.{Finds};
ghost use Rattle.elab_flat_names.specs.Rows.{AreDeclaredAs, IsDeclaredAs, IsWordOf, StandsAlone};

use crate::declared::param_names;
use crate::signal::declared_signal;
use elab_flat_faults::FlatFault;
use elab_flat_instances::Scope;
use elab_flat_scopes::{Decl, Names, signals_in};
use outside::Text;
use std::alloc::{AllocError, Global};
use vlog_tree_runs::Signal;

fn word_name(alloc: Global, name: &[u8], index: u8) -> Result<Text, AllocError>
    ensures { IfOk result (λ text. text ≡ name.now ++ codes "$" ++ decimal index) }
{
    let mut text = Text::copy(alloc, name)?;
    let digits = format!(in alloc; "{index}")?;
    text.append(b"$")?;
    text.append(digits.as_bytes())?;
    Ok(text)
}

// A name among others that a word of a memory has.
fn word_among(alloc: Global, signal: &Signal, names: &Names<'_>) -> Result<Option<Text>, AllocError>
    ensures { IfOk result (Finds (λ x. Among names.now x × Among (words_of signal.now) x)) }
{
    for index in 0..signal.depth {
        let name = word_name(alloc, signal.name.bytes(), index)?;
        if names.has(name.bytes()) {
            return Ok(Some(name));
        }
    }
    Ok(None)
}

fn words_among(
    alloc: Global,
    scope: &Scope<'_>,
    names: &Names<'_>,
    signals: &[Decl<'_>],
) -> Result<Option<Text>, FlatFault>
    requires { AreDeclaredAs scope.now.text.now (map decl_meant signals.now) }
    ensures ok { IfOk result (Finds (λ x. Among names.now x ×
        Among (flat_map words_of (map (signal_of scope.now.params) (map decl_meant signals.now))) x)) }
    ensures err { IfErr result (Refuses (StandsAlone (scope_meant scope.now))) }
{
    for decl in signals {
        let signal = match declared_signal(alloc, scope, decl) {
            Ok(signal) => signal,
            Err(fault) => return Err(fault),
        };
        if let Some(name) = word_among(alloc, &signal, names)? {
            return Ok(Some(name));
        }
    }
    Ok(None)
}

/// A parameter that has the name of a memory's word. A refusal's fault stands at the scope.
pub fn named_as_word(alloc: Global, scope: &Scope<'_>) -> Result<Option<Text>, FlatFault>
    ensures ok { IfOk result (Finds (IsWordOf (scope_meant scope.now))) }
    ensures err { IfErr result (Refuses (StandsAlone (scope_meant scope.now))) }
{
    let names = Names::of(alloc, param_names(alloc, scope.text)?)?;
    let signals = signals_in(alloc, scope.text)?;
    words_among(alloc, scope, &names, &signals)
}
