// The parts of a design, from the nodes of a module's signals.
ghost use Rattle.std.specs.Prelude.{◌≡◌, ◌<◌, ◌++◌, length, map, IfOk, OnOk, if◌then◌else◌};
ghost use Rattle.std.specs.List.{flat_map};
ghost use Rattle.std.specs.Option.{option_map};
ghost use Rattle.elab_flat_scopes.specs.Finding.{place_in};
ghost use Rattle.elab_step.specs.Parts.{zip3, own_net, net_of, register_of, input_of, output_of, net_node};

use elab_flat_scopes::Names;
use elab_step_design::{Net, Register};
use elab_step_expr::{Leaf, Leaves};
use outside::Text;
use std::alloc::{AllocError, Global};
use vlog_tree_runs::{Async, TopPort};

// A net of a leaf's name and length.
fn net(alloc: Global, leaf: &Leaf, node: u64) -> Result<Net, AllocError>
    ensures { IfOk result (λ n. n ≡ record (own_net leaf.now) { node = node }) }
{
    Ok(Net {
        name: Text::copy(alloc, leaf.name.bytes())?,
        width: leaf.width,
        node,
    })
}

// A register of a leaf's name and length.
fn register(alloc: Global, begun: &Leaf, next: u64) -> Result<Register, AllocError>
    ensures { IfOk result (λ r. r ≡ record { name = begun.now.name; width = begun.now.width; node = begun.now.node; next = next }) }
{
    Ok(Register {
        name: Text::copy(alloc, begun.name.bytes())?,
        width: begun.width,
        node: begun.node,
        next,
    })
}

// The node of a signal: that to which a net is solved, or that with which any other one is begun.
fn net_node(is_net: bool, begun: &Leaf, solved: &Leaf) -> u64
    ensures { result ≡ net_node is_net begun.now solved.now }
{
    if is_net { solved.node } else { begun.node }
}

/// The signals, in their order. The flags tell the nets.
pub fn nets_of(
    alloc: Global,
    flags: &[bool],
    begun: &Leaves,
    solved: &Leaves,
) -> Result<Vec<Net>, AllocError>
    requires begun { length begun.now ≡ length flags.now }
    requires solved { length solved.now ≡ length flags.now }
    ensures { IfOk result (λ r. r.items ≡ map net_of (zip3 flags.now begun.now solved.now)) }
{
    let mut all = Vec::new(alloc);
    for i in 0..flags.len() {
        let leaf = begun.leaf(i);
        let node = net_node(flags[i], leaf, solved.leaf(i));
        all.push(net(alloc, leaf, node)?)?;
    }
    Ok(all)
}

// Adds a signal, where it is a register.
fn add_register(
    all: &mut Vec<Register>,
    alloc: Global,
    flag: bool,
    begun: &Leaf,
    next: &Leaf,
) -> Result<(), AllocError>
    ensures { OnOk result (all.new.items ≡ all.old.items ++ register_of (flag, begun.now, next.now)) }
{
    if flag {
        all.push(register(alloc, begun, next.node)?)?;
    }
    Ok(())
}

/// The registers, in the order of the signals. The flags tell them.
pub fn registers_of(
    alloc: Global,
    flags: &[bool],
    begun: &Leaves,
    next: &Leaves,
) -> Result<Vec<Register>, AllocError>
    requires begun { length begun.now ≡ length flags.now }
    requires next { length next.now ≡ length flags.now }
    ensures { IfOk result (λ r. r.items ≡ flat_map register_of (zip3 flags.now begun.now next.now)) }
{
    let mut all = Vec::new(alloc);
    for i in 0..flags.len() {
        add_register(&mut all, alloc, flags[i], begun.leaf(i), next.leaf(i))?;
    }
    Ok(all)
}

// Adds an input of the top.
fn add_input(
    all: &mut Vec<Net>,
    alloc: Global,
    port: &TopPort,
    names: &Names<'_>,
    begun: &Leaves,
) -> Result<(), AllocError>
    requires { length names.now ≡ length begun.now }
    ensures { OnOk result (all.new.items ≡ all.old.items ++ input_of names.now begun.now port.now) }
{
    if port.output {
        return Ok(());
    }
    if let Some(place) = names.place(port.name.bytes()) {
        let leaf = begun.leaf(place);
        all.push(net(alloc, leaf, leaf.node)?)?;
    }
    Ok(())
}

/// The inputs of the top, in the order of its header.
pub fn inputs_of(
    alloc: Global,
    ports: &[TopPort],
    names: &Names<'_>,
    begun: &Leaves,
) -> Result<Vec<Net>, AllocError>
    requires { length names.now ≡ length begun.now }
    ensures { IfOk result (λ r. r.items ≡ flat_map (input_of names.now begun.now) ports.now) }
{
    let mut all = Vec::new(alloc);
    for port in ports {
        add_input(&mut all, alloc, port, names, begun)?;
    }
    Ok(all)
}

// Adds the name of an output of the top.
fn add_output(all: &mut Vec<Text>, alloc: Global, port: &TopPort) -> Result<(), AllocError>
    ensures { OnOk result (all.new.items ≡ all.old.items ++ output_of port.now) }
{
    if port.output {
        all.push(Text::copy(alloc, port.name.bytes())?)?;
    }
    Ok(())
}

/// The names of the outputs of the top, in the order of its header.
pub fn outputs_of(alloc: Global, ports: &[TopPort]) -> Result<Vec<Text>, AllocError>
    ensures { IfOk result (λ r. r.items ≡ flat_map output_of ports.now) }
{
    let mut all = Vec::new(alloc);
    for port in ports {
        add_output(&mut all, alloc, port)?;
    }
    Ok(all)
}

/// A copy of the clock's name.
pub fn clock_of(alloc: Global, clock: &Option<Text>) -> Result<Option<Text>, AllocError>
    ensures { IfOk result (λ r. r ≡ clock.now) }
{
    match clock {
        Some(name) => Ok(Some(Text::copy(alloc, name.bytes())?)),
        None => Ok(None),
    }
}

/// A copy of the resets.
pub fn asyncs_of(alloc: Global, asyncs: &[Async]) -> Result<Vec<Async>, AllocError>
    ensures { IfOk result (λ r. r.items ≡ asyncs.now) }
{
    let mut all = Vec::new(alloc);
    for reset in asyncs {
        all.push(Async {
            name: Text::copy(alloc, reset.name.bytes())?,
            high: reset.high,
        })?;
    }
    Ok(all)
}
