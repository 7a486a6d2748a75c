// The design of modules from their top.
ghost use Rattle.std.specs.Prelude.{IfOk, IfErr};
ghost use Rattle.desk_core_stages.specs.Stages.{IsDesignOf, IsFaultlessFlatOf, IsPlainFlatOf, RefusesDesign};
ghost use Rattle.elab_step_nets.specs.Asked.{CanElaborate};
ghost use Rattle.elab_flat_laws.specs.Flattened.{KeepsRuns};
ghost use Rattle.elab_flat_faults.specs.Plain.{ArePlainTexts};
ghost use Rattle.elab_flat_faults.specs.Handed.{AreNumbered, HasClocks, HasTopPorts};

use desk_core_faults::{CheckFault, ModuleFault};
use elab_flat::flatten;
use elab_flat_faults::{ElabFault, FlatFault};
use elab_step::elaborate;
use elab_step_design::Design;
use mem_flat::spread;
use mem_laws::MemFault;
use std::alloc::Global;
use vlog_tree::Module;
use vlog_tree_runs::Flat;

// The module without instances that modules are from their top, with its memories.
fn whole_of(alloc: Global, modules: &[Module], top: &[u8]) -> Result<Flat, CheckFault>
    requires { ArePlainTexts modules.now }
    ensures ok { IfOk result (IsFaultlessFlatOf modules.now top.now) }
    ensures runs { IfOk result (KeepsRuns modules.now top.now) }
    ensures ports { IfOk result (HasTopPorts modules.now top.now) }
    ensures clocks { IfOk result (HasClocks modules.now top.now) }
    ensures err { IfErr result (RefusesDesign modules.now top.now) }
{
    match flatten(alloc, modules, top) {
        Ok(flat) => Ok(flat),
        Err(FlatFault::Memory) => Err(CheckFault::Memory),
        Err(fault) => Err(CheckFault::Module(ModuleFault::Flat(fault))),
    }
}

/// The module without instances and memories that modules are from their top. Refused where the modules don't make a
/// module without instances, where that can't be freed of its memories, or where memory runs out.
pub fn flat_of(alloc: Global, modules: &[Module], top: &[u8]) -> Result<Flat, CheckFault>
    requires { ArePlainTexts modules.now }
    ensures ok { IfOk result (IsPlainFlatOf modules.now top.now) }
    ensures can { IfOk result CanElaborate }
    ensures numbers { IfOk result AreNumbered }
    ensures err { IfErr result (RefusesDesign modules.now top.now) }
{
    let whole = whole_of(alloc, modules, top)?;
    match spread(alloc, &whole) {
        Ok(flat) => Ok(flat),
        Err(MemFault::Memory) => Err(CheckFault::Memory),
        Err(fault) => Err(CheckFault::Module(ModuleFault::Mem(fault))),
    }
}

/// The design of modules from their top. Refused as `flat_of` is, and where that module has no functions.
pub fn design_of(alloc: Global, modules: &[Module], top: &[u8]) -> Result<Design, CheckFault>
    requires { ArePlainTexts modules.now }
    ensures ok { IfOk result (IsDesignOf modules.now top.now) }
    ensures err { IfErr result (RefusesDesign modules.now top.now) }
{
    let flat = flat_of(alloc, modules, top)?;
    match elaborate(alloc, &flat) {
        Ok(design) => Ok(design),
        Err(ElabFault::Memory) => Err(CheckFault::Memory),
        Err(fault) => Err(CheckFault::Module(ModuleFault::Elab(fault))),
    }
}
