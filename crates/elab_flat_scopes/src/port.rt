// The ports of a module, in the order of its header (IEEE 1364-2005, section 12.3).

ghost use Rattle.std.specs.Prelude.{◌≡◌, ◌∷◌, List, IfOk, map};
ghost use Rattle.vlog_tree.specs.declared.module.HeaderPort.{HeaderPort};
ghost use Rattle.vlog_tree_runs.specs.Contents.{header_names, names_of_ports, port_names};
ghost use Rattle.elab_flat_scopes.specs.Borrowed.{name_meant};

use outside::Text;
use std::alloc::{AllocError, Global};
use vlog_tree::{HeaderPort, Module, Ports};

fn header_name(port: &HeaderPort) -> &Text
    ensures { (rest : List HeaderPort) → name_meant result ∷ header_names rest ≡ header_names (port.now ∷ rest) }
{
    match port {
        HeaderPort::Group(_, _, name) => name,
        HeaderPort::Again(name) => name,
    }
}

fn header_names<'a>(alloc: Global, ports: &'a [HeaderPort]) -> Result<Vec<&'a Text>, AllocError>
    ensures { IfOk result (λ r. map name_meant r.items ≡ header_names ports.now) }
{
    let mut all = Vec::new(alloc);
    for port in ports {
        all.push(header_name(port))?;
    }
    Ok(all)
}

fn names<'a>(alloc: Global, names: &'a [Text]) -> Result<Vec<&'a Text>, AllocError>
    ensures { IfOk result (λ r. map name_meant r.items ≡ names.now) }
{
    let mut all = Vec::new(alloc);
    for name in names {
        all.push(name)?;
    }
    Ok(all)
}

/// The names of a module's ports, in the order of its header.
pub fn port_names(alloc: Global, text: &Module) -> Result<Vec<&Text>, AllocError>
    ensures { IfOk result (λ r. map name_meant r.items ≡ port_names text.now) }
{
    match &text.ports {
        Some(Ports::Names(ports)) => names(alloc, ports.as_slice()),
        Some(Ports::Groups(ports)) => header_names(alloc, ports.as_slice()),
        None => Ok(Vec::new(alloc)),
    }
}
