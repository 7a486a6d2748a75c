// A list of modules from its top as one module.

ghost use Rattle.std.specs.Prelude.{◌≡◌, List, Some, IfOk, IfErr, map};
ghost use Rattle.vlog_tree.specs.declared.module.Module.{Module as Design};
ghost use Rattle.vlog_tree_runs.specs.Places.{Name};
ghost use Rattle.vlog_tree_runs.specs.Scopes.{module_at};
ghost use Rattle.elab_flat_faults.specs.declared.flattening.FlatFault.{FlatFault as Fault};
ghost use Rattle.elab_flat_faults.specs.Declaring.{Repeats};
ghost use Rattle.elab_flat_faults.specs.FlatStands.{Stands, Refuses};
ghost use Rattle.elab_flat_laws.specs.Flattened.{KeepsRuns};
ghost use Rattle.elab_flat_scopes.specs.Finding.{module_name};
ghost use Rattle.elab_flat_instances.specs.Unfolding.{scope_meant, AreUnfolded, HasSoundTop, IsOfWhole};
ghost use Rattle.elab_flat_faults.specs.Handed.{HasTopPorts, HasClocks, IsFlattened};
ghost use Rattle.elab_flat_faults.specs.Plain.{ArePlainTexts};
ghost use Rattle.elab_flat.specs.Following.{AreFollowed};
ghost use Rattle.elab_flat.specs.Joined.{IsJoined};
ghost use Rattle.elab_flat_clocks.specs.Passing.{StandsAmong};

use crate::block::blocks_of;
use crate::check::check_scopes;
use crate::link::assigns_of;
use crate::module::named_twice;
use crate::port::ports_of;
use crate::signal::signals_of;
use elab_flat_clocks::{Clocks, clocks_of};
use elab_flat_faults::FlatFault;
use elab_flat_instances::{Scope, scopes_of};
use elab_flat_scopes::Modules;
use outside::Text;
use std::alloc::Global;
use vlog_tree::Module;
use vlog_tree_runs::Flat;

// The texts of the scopes joined, with the ports of the top and the clocks. A refusal's fault stands at one of the
// scopes.
fn joined(
    alloc: Global,
    top: &Module,
    scopes: &[Scope<'_>],
    clocks: Clocks,
) -> Result<Flat, FlatFault>
    requires { (ms : List Design) × AreFollowed ms (map scope_meant scopes.now) }
    ensures texts { IfOk result (λ f. (ms : List Design) → AreFollowed ms (map scope_meant scopes.now) →
        IsJoined ms (map scope_meant scopes.now) top.now f) }
    ensures clock { IfOk result (λ f. f.clock ≡ clocks.clock) }
    ensures asyncs { IfOk result (λ f. f.asyncs ≡ clocks.asyncs) }
    ensures err { IfErr result (Refuses (StandsAmong (map scope_meant scopes.now))) }
{
    let signals = match signals_of(alloc, scopes) {
        Ok(signals) => signals,
        Err(fault) => return Err(fault),
    };
    Ok(Flat {
        signals,
        assigns: assigns_of(alloc, scopes)?,
        blocks: blocks_of(alloc, scopes)?,
        ports: ports_of(alloc, top)?,
        clock: clocks.clock,
        asyncs: clocks.asyncs,
    })
}

// The module without instances that the scopes from the top make, where their texts break no rule. A refusal's fault
// stands.
fn flat_of<'a>(
    alloc: Global,
    modules: &Modules<'a>,
    top: &[u8],
    text: &Module,
    scopes: &[Scope<'a>],
) -> Result<Flat, FlatFault>
    requires plain { ArePlainTexts modules.now }
    requires there { module_at modules.now top.now ≡ Some text.now }
    requires unfolded { AreUnfolded modules.now top.now (map scope_meant scopes.now) }
    requires first { HasSoundTop modules.now top.now }
    requires once { (n : Name) → Repeats (map module_name modules.now) n → ⊥ }
    requires whole { (fault : Fault) → IsOfWhole fault → Stands modules.now top.now fault → ⊥ }
    ensures ports { IfOk result (λ f. HasTopPorts modules.now top.now f) }
    ensures clocks { IfOk result (λ f. HasClocks modules.now top.now f) }
    ensures texts { IfOk result (λ f. IsFlattened modules.now top.now f) }
    ensures none { IfOk result (λ f. (fault : Fault) → Stands modules.now top.now fault → ⊥) }
    ensures err { IfErr result (Refuses (Stands modules.now top.now)) }
{
    match check_scopes(alloc, modules, top, scopes) {
        Ok(()) => {}
        Err(fault) => return Err(fault),
    }
    let clocks = match clocks_of(alloc, modules, scopes, top) {
        Ok(clocks) => clocks,
        Err(fault) => return Err(fault),
    };
    match joined(alloc, text, scopes, clocks) {
        Ok(flat) => Ok(flat),
        Err(fault) => Err(fault),
    }
}

/// The module without instances that a list of modules is from its top (IEEE 1364-2005, sections 4.10 and 12): the
/// texts of all instances one after another, with hierarchical names joined by `.` without the top's name, parameters
/// replaced by their numbers, and the connections of ports as continuous assignments. Its cycles and runs are those of
/// the list of modules.
///
/// `NoTop`: no module has the top's name. `Unknown`: a name, module, port or parameter is used and isn't declared.
/// `Twice`: a name is declared twice in a module, two modules have one name, or an instance's overrides name a
/// parameter twice. `Port`: ports that don't fit. `Recursion`: a module contains itself. `Instances`: more than 4,096
/// scopes. `Constant`: what must be constant isn't, a range isn't `[m:l]` with m >= l >= 0, or a divisor is 0. `Width`:
/// a length isn't from 1 to 64 bits, a part-select leaves its vector, or a memory has more than 64 words. `Clock`: an
/// edge, a clock or a reset isn't one of the accepted forms. `Memory`: out of memory. Every other fault of a refusal
/// stands, and none stands where there is an answer. The time is linear in the texts of the modules and of all
/// instances, for expressions of bounded height.
pub fn flatten(alloc: Global, modules: &[Module], top: &[u8]) -> Result<Flat, FlatFault>
    requires { ArePlainTexts modules.now }
    ensures runs { IfOk result (λ f. KeepsRuns modules.now top.now f) }
    ensures ports { IfOk result (λ f. HasTopPorts modules.now top.now f) }
    ensures clocks { IfOk result (λ f. HasClocks modules.now top.now f) }
    ensures texts { IfOk result (λ f. IsFlattened modules.now top.now f) }
    ensures none { IfOk result (λ f. (fault : Fault) → Stands modules.now top.now fault → ⊥) }
    ensures err { IfErr result (Refuses (Stands modules.now top.now)) }
{
    if let Some(name) = named_twice(alloc, modules)? {
        return Err(FlatFault::Twice(Text::copy(alloc, name.bytes())?));
    }
    let all = Modules::of(alloc, modules)?;
    let text = match all.at(top) {
        Some(text) => text,
        None => return Err(FlatFault::NoTop),
    };
    let scopes = match scopes_of(alloc, modules, top) {
        Ok(scopes) => scopes,
        Err(fault) => return Err(fault),
    };
    flat_of(alloc, &all, top, text, &scopes)
}
