// The declarations of signals in a module (IEEE 1364-2005, sections 4.2, 4.9 and 12.3).

ghost use Rattle.std.specs.Prelude.{◌≡◌, ◌++◌, ◌∷◌, List, IfOk, OnOk, map};
ghost use Rattle.std.specs.List.{flat_map};
ghost use Rattle.vlog_tree.specs.declared.item.PortKind.TheVariants as k;
ghost use Rattle.vlog_tree.specs.declared.module.HeaderPort.{HeaderPort};
ghost use Rattle.vlog_tree_runs.specs.Contents.{bare, is_input, is_output, is_reg, port_decl, wire_decl, reg_decl, header_decls, ports_decls, item_decls, decls_in};
ghost use Rattle.elab_flat_scopes.specs.Borrowed.{shape_meant, decl_meant};

use outside::Text;
use std::alloc::{AllocError, Global};
use vlog_tree::{HeaderPort, Item, Module, PortKind, Ports, Range, Register, Shape, Wire};

/// One declaration of a signal; a port may have two, one with its direction and one as `wire` or `reg`.
#[derive(Clone, Copy)]
pub struct Decl<'a> {
    pub name: &'a Text,
    /// None: neither a sign nor a range.
    pub shape: Option<&'a Shape>,
    pub input: bool,
    pub output: bool,
    pub reg: bool,
    /// The range of a memory's words.
    pub words: Option<&'a Range>,
}

// What a name alone repeats in a header.
#[derive(Clone, Copy)]
struct Group<'a> {
    kind: PortKind,
    shape: Option<&'a Shape>,
}

fn is_input(kind: PortKind) -> bool
    ensures { result ≡ is_input kind }
{
    match kind {
        PortKind::Input => true,
        PortKind::Output => false,
        PortKind::OutputReg => false,
    }
}

fn is_output(kind: PortKind) -> bool
    ensures { result ≡ is_output kind }
{
    match kind {
        PortKind::Input => false,
        PortKind::Output => true,
        PortKind::OutputReg => true,
    }
}

fn is_reg(kind: PortKind) -> bool
    ensures { result ≡ is_reg kind }
{
    match kind {
        PortKind::Input => false,
        PortKind::Output => false,
        PortKind::OutputReg => true,
    }
}

fn port_decl<'a>(group: Group<'a>, name: &'a Text) -> Decl<'a>
    ensures { decl_meant result ≡ port_decl group.entry.kind (shape_meant group.entry.shape) name.now }
{
    Decl {
        name,
        shape: group.shape,
        input: is_input(group.kind),
        output: is_output(group.kind),
        reg: is_reg(group.kind),
        words: None,
    }
}

// A port of a header with its group, `before` being the group before it.
fn header_decl<'a>(before: Group<'a>, port: &'a HeaderPort) -> (Group<'a>, Decl<'a>)
    ensures { (rest : List HeaderPort) →
        decl_meant result.1 ∷ header_decls result.0.kind (shape_meant result.0.shape) rest
        ≡ header_decls before.entry.kind (shape_meant before.entry.shape) (port.now ∷ rest) }
{
    match port {
        HeaderPort::Group(kind, shape, name) => {
            let group = Group {
                kind: *kind,
                shape: Some(shape),
            };
            (group, port_decl(group, name))
        }
        HeaderPort::Again(name) => (before, port_decl(before, name)),
    }
}

fn header_list<'a>(alloc: Global, ports: &'a [HeaderPort]) -> Result<Vec<Decl<'a>>, AllocError>
    ensures { IfOk result (λ r. map decl_meant r.items ≡ header_decls k.Input bare ports.now) }
{
    let mut all = Vec::new(alloc);
    let mut group = Group {
        kind: PortKind::Input,
        shape: None,
    };
    for port in ports {
        let (next, decl) = header_decl(group, port);
        group = next;
        all.push(decl)?;
    }
    Ok(all)
}

fn listed<'a>(alloc: Global, ports: &'a Option<Ports>) -> Result<Vec<Decl<'a>>, AllocError>
    ensures { IfOk result (λ r. map decl_meant r.items ≡ ports_decls ports.now) }
{
    match ports {
        Some(Ports::Groups(ports)) => header_list(alloc, ports.as_slice()),
        Some(Ports::Names(_)) => Ok(Vec::new(alloc)),
        None => Ok(Vec::new(alloc)),
    }
}

fn add_ports<'a>(
    all: &mut Vec<Decl<'a>>,
    kind: PortKind,
    shape: &'a Shape,
    names: &'a [Text],
) -> Result<(), AllocError>
    ensures { OnOk result (map decl_meant all.new.items ≡ map decl_meant all.old.items ++ map
        (port_decl kind shape.now) names.now) }
{
    for name in names {
        let group = Group {
            kind,
            shape: Some(shape),
        };
        all.push(port_decl(group, name))?;
    }
    Ok(())
}

fn add_wires<'a>(
    all: &mut Vec<Decl<'a>>,
    shape: &'a Shape,
    wires: &'a [Wire],
) -> Result<(), AllocError>
    ensures { OnOk result (map decl_meant all.new.items ≡ map decl_meant all.old.items ++ map
        (wire_decl shape.now) wires.now) }
{
    for wire in wires {
        all.push(Decl {
            name: &wire.name,
            shape: Some(shape),
            input: false,
            output: false,
            reg: false,
            words: None,
        })?;
    }
    Ok(())
}

fn add_registers<'a>(
    all: &mut Vec<Decl<'a>>,
    shape: &'a Shape,
    registers: &'a [Register],
) -> Result<(), AllocError>
    ensures { OnOk result (map decl_meant all.new.items ≡ map decl_meant all.old.items ++ map
        (reg_decl shape.now) registers.now) }
{
    for register in registers {
        all.push(register_decl(shape, register))?;
    }
    Ok(())
}

fn register_decl<'a>(shape: &'a Shape, register: &'a Register) -> Decl<'a>
    ensures { decl_meant result ≡ reg_decl shape.now register.now }
{
    let words = match &register.words {
        Some(words) => Some(words),
        None => None,
    };
    Decl {
        name: &register.name,
        shape: Some(shape),
        input: false,
        output: false,
        reg: true,
        words,
    }
}

fn add_item_decls<'a>(all: &mut Vec<Decl<'a>>, item: &'a Item) -> Result<(), AllocError>
    ensures { OnOk result (map decl_meant all.new.items ≡ map decl_meant all.old.items ++ item_decls item.now) }
{
    match item {
        Item::Ports(kind, shape, names) => add_ports(all, *kind, shape, names.as_slice()),
        Item::Wires(shape, wires) => add_wires(all, shape, wires.as_slice()),
        Item::Registers(shape, registers) => add_registers(all, shape, registers.as_slice()),
        _ => Ok(()),
    }
}

/// The declarations of signals in a module, in the order of its text.
pub fn decls_in(alloc: Global, text: &Module) -> Result<Vec<Decl<'_>>, AllocError>
    ensures { IfOk result (λ r. map decl_meant r.items ≡ decls_in text.now) }
{
    let mut all = listed(alloc, &text.ports)?;
    for item in text.items.as_slice() {
        add_item_decls(&mut all, item)?;
    }
    Ok(all)
}
