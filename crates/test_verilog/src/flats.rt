// Modules of texts.

ghost use Rattle.std.specs.Prelude.{IfOk};
ghost use Rattle.elab_step_nets.specs.Asked.{CanElaborate};

use desk_core_faults::CheckFault;
use desk_core_stages::{flat_of, modules_of};
use std::alloc::Global;
use vlog_tree_runs::Flat;

/// The module `m` of a text, without instances and memories.
pub fn flat(alloc: Global, text: &str) -> Result<Flat, CheckFault>
    ensures { IfOk result CanElaborate }
{
    let modules = match modules_of(alloc, text.as_bytes()) {
        Ok(modules) => modules,
        Err(fault) => return Err(fault),
    };
    let flat = flat_of(alloc, &modules, b"m");
    // a call, since a proof would write out the drop of all trees here
    drop(modules);
    flat
}
