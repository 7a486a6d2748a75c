// Two texts as a set that is bound to a design.
ghost use Rattle.std.specs.Prelude.{◌≡◌, IfOk, IfErr};
ghost use Rattle.desk_core_stages.specs.Stages.{IsBoundOf, Refuses, unbound};

use crate::design::design_of;
use crate::texts::{modules_of, set_of};
use desk_core_faults::CheckFault;
use std::alloc::Global;
use unroll_binding::{BindFault, Bound, bind};

// A set that doesn't fit its design.
fn unbound(fault: BindFault) -> CheckFault
    ensures { result ≡ unbound fault }
{
    match fault {
        BindFault::Memory => CheckFault::Memory,
        BindFault::Missing(_)
        | BindFault::WidthOf(_)
        | BindFault::ExtraInput(_)
        | BindFault::Role(_) => CheckFault::Bind(fault),
    }
}

/// The set that a text spells, bound to the design of the modules that another text spells from the set's block. The
/// stages come in this order, and the first that refuses is answered: the module text is read, the set's text is read
/// and its structure tested, the modules are flattened and elaborated, and the set is bound to the design. Want of
/// memory can come at any of them.
pub fn bound_of(alloc: Global, module: &[u8], set: &[u8]) -> Result<Bound, CheckFault>
    ensures ok { IfOk result (IsBoundOf «module».now set.now) }
    ensures err { IfErr result (Refuses «module».now set.now) }
{
    let modules = modules_of(alloc, module)?;
    let sound = set_of(alloc, set)?;
    let design = match design_of(alloc, &modules, sound.set().block.bytes()) {
        Ok(design) => design,
        Err(fault) => return Err(fault),
    };
    match bind(alloc, design, sound) {
        Ok(bound) => Ok(bound),
        Err(fault) => Err(unbound(fault)),
    }
}
