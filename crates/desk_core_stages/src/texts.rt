// The texts of modules and of sets.
ghost use Rattle.std.specs.Prelude.{IfOk, IfErr, OnOk};
ghost use Rattle.desk_core_stages.specs.Texts.{IsModuleText, IsSetText, RefusesModules, RefusesSet, SpellsSomeModules, SpellsSomeSet};
ghost use Rattle.elab_flat_faults.specs.Plain.{ArePlainTexts};

use desk_core_faults::{CheckFault, ModuleFault, SetStop};
use set_read::{SetFault, read_set};
use set_tree_structure::{Sound, structure};
use std::alloc::Global;
use vlog_read::read_modules;
use vlog_read_lex::ReadFault;
use vlog_tree::Module;

// The most bytes of a text.
const LIMIT: usize = 1048576;

/// The modules that a text spells. Refused where it is too long, or isn't read, or where memory runs out.
pub fn modules_of(alloc: Global, text: &[u8]) -> Result<Vec<Module>, CheckFault>
    ensures ok { IfOk result (λ modules. IsModuleText text.now modules.items) }
    ensures plain { IfOk result (λ modules. ArePlainTexts modules.items) }
    ensures err { IfErr result (RefusesModules text.now) }
{
    if text.len() > LIMIT {
        return Err(CheckFault::Module(ModuleFault::TooLong));
    }
    match read_modules(alloc, text) {
        Ok(modules) => Ok(modules),
        Err(ReadFault::Memory) => Err(CheckFault::Memory),
        Err(fault) => Err(CheckFault::Module(ModuleFault::Read(fault))),
    }
}

/// The set that a text spells, of a sound structure. Refused where the text is too long, isn't read, or spells a set
/// whose structure isn't sound, or where memory runs out.
pub fn set_of(alloc: Global, text: &[u8]) -> Result<Sound, CheckFault>
    ensures ok { IfOk result (λ set. IsSetText text.now set) }
    ensures err { IfErr result (RefusesSet text.now) }
{
    if text.len() > LIMIT {
        return Err(CheckFault::Set(SetStop::TooLong));
    }
    let set = match read_set(alloc, text) {
        Ok(set) => set,
        Err(SetFault::Memory) => return Err(CheckFault::Memory),
        Err(fault) => return Err(CheckFault::Set(SetStop::Read(fault))),
    };
    match structure(set) {
        Ok(sound) => Ok(sound),
        Err(unsound) => Err(CheckFault::Set(SetStop::Graph(unsound))),
    }
}

/// Reads a text of modules and gives nothing back. Refused as `modules_of` is.
pub fn try_modules(alloc: Global, text: &[u8]) -> Result<(), CheckFault>
    ensures ok { OnOk result (SpellsSomeModules text.now) }
    ensures err { IfErr result (RefusesModules text.now) }
{
    match modules_of(alloc, text) {
        Ok(_) => Ok(()),
        Err(fault) => Err(fault),
    }
}

/// Reads the text of a set and gives nothing back. Refused as `set_of` is.
pub fn try_set(alloc: Global, text: &[u8]) -> Result<(), CheckFault>
    ensures ok { OnOk result (SpellsSomeSet text.now) }
    ensures err { IfErr result (RefusesSet text.now) }
{
    match set_of(alloc, text) {
        Ok(_) => Ok(()),
        Err(fault) => Err(fault),
    }
}
