// Faults of modules and designs.
ghost use Rattle.std.specs.Prelude.{◌≡◌, IfOk};
ghost use Rattle.desk_core_faults.specs.Texts.{bind_text, elab_text, flat_text, mem_text, module_text};

use crate::ModuleFault;
use crate::put::{with_bit, with_word};
use crate::reading::read_text;
use elab_flat_faults::{ElabFault, FlatFault};
use mem_laws::MemFault;
use outside::Text;
use std::alloc::{AllocError, Global};
use unroll_binding::BindFault;

/// A fault of flattening.
pub fn flat_text(alloc: Global, fault: &FlatFault) -> Result<Text, AllocError>
    ensures { IfOk result (λ text. text ≡ flat_text fault.now) }
{
    match fault {
        FlatFault::NoTop => Text::copy(alloc, b"NoTop"),
        FlatFault::Unknown(name) => with_word(alloc, b"Unknown", name.bytes()),
        FlatFault::Twice(name) => with_word(alloc, b"Twice", name.bytes()),
        FlatFault::Port(name) => with_word(alloc, b"Port", name.bytes()),
        FlatFault::Recursion(name) => with_word(alloc, b"Recursion", name.bytes()),
        FlatFault::Instances => Text::copy(alloc, b"Instances"),
        FlatFault::Constant(name) => with_word(alloc, b"Constant", name.bytes()),
        FlatFault::Width(name) => with_word(alloc, b"Width", name.bytes()),
        FlatFault::Clock(name) => with_word(alloc, b"Clock", name.bytes()),
        FlatFault::Memory => Text::copy(alloc, b"Memory"),
    }
}

/// A fault of memories.
pub fn mem_text(alloc: Global, fault: &MemFault) -> Result<Text, AllocError>
    ensures { IfOk result (λ text. text ≡ mem_text fault.now) }
{
    match fault {
        MemFault::Twice(name) => with_word(alloc, b"Twice", name.bytes()),
        MemFault::Whole(name) => with_word(alloc, b"Whole", name.bytes()),
        MemFault::Nested(name) => with_word(alloc, b"Nested", name.bytes()),
        MemFault::Kind(name) => with_word(alloc, b"Kind", name.bytes()),
        MemFault::Uses => Text::copy(alloc, b"Uses"),
        MemFault::Memory => Text::copy(alloc, b"Memory"),
    }
}

/// A fault of elaboration.
pub fn elab_text(alloc: Global, fault: &ElabFault) -> Result<Text, AllocError>
    ensures { IfOk result (λ text. text ≡ elab_text fault.now) }
{
    match fault {
        ElabFault::Latch(name) => with_word(alloc, b"Latch", name.bytes()),
        ElabFault::Loop(name) => with_word(alloc, b"Loop", name.bytes()),
        ElabFault::Drivers(name, bit) => with_bit(alloc, b"Drivers", name.bytes(), *bit),
        ElabFault::Undriven(name, bit) => with_bit(alloc, b"Undriven", name.bytes(), *bit),
        ElabFault::Sensitivity(name) => with_word(alloc, b"Sensitivity", name.bytes()),
        ElabFault::Kind(name) => with_word(alloc, b"Kind", name.bytes()),
        ElabFault::Memory => Text::copy(alloc, b"Memory"),
    }
}

/// A fault of a module text.
pub fn module_text(alloc: Global, fault: &ModuleFault) -> Result<Text, AllocError>
    ensures { IfOk result (λ text. text ≡ module_text fault.now) }
{
    match fault {
        ModuleFault::TooLong => Text::copy(alloc, b"TooLong"),
        ModuleFault::Read(fault) => read_text(alloc, fault),
        ModuleFault::Flat(fault) => flat_text(alloc, fault),
        ModuleFault::Mem(fault) => mem_text(alloc, fault),
        ModuleFault::Elab(fault) => elab_text(alloc, fault),
    }
}

/// A fault between a set and a design.
pub fn bind_text(alloc: Global, fault: &BindFault) -> Result<Text, AllocError>
    ensures { IfOk result (λ text. text ≡ bind_text fault.now) }
{
    match fault {
        BindFault::Missing(name) => with_word(alloc, b"Missing", name.bytes()),
        BindFault::WidthOf(name) => with_word(alloc, b"WidthOf", name.bytes()),
        BindFault::ExtraInput(name) => with_word(alloc, b"ExtraInput", name.bytes()),
        BindFault::Role(name) => with_word(alloc, b"Role", name.bytes()),
        BindFault::Memory => Text::copy(alloc, b"Memory"),
    }
}
