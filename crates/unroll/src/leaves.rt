// The registers and inputs of a design in one cycle of a segment.
ghost use Rattle.std.specs.Prelude.{◌≡◌, ◌<◌, ◌≤◌, pos, ◌-ℤ◌, nat_lt, [], length, map, if◌then◌else◌, IfOk, OnOk};
ghost use Rattle.std.specs.Str.{bytes_eq};
ghost use Rattle.unroll_binding.specs.Binding.{Fits};
ghost use Rattle.elab_step_expr.specs.Nodes.{AddsFrees, IsNode};
ghost use Rattle.unroll_laws.specs.Segments.{cycle_number};
ghost use Rattle.unroll_laws.specs.Tests.{held, level};
ghost use Rattle.unroll.specs.Copies.{AreLeaves, CopiedBefore, FitLeaves, IsWordAt, ShowLeaves};
ghost use Rattle.unroll.specs.Unrolled.{IsSourceWord};
ghost use Rattle.vlog_tree_runs.specs.Places.{Among};
ghost use Rattle.word_core.specs.Words.{word};
ghost use Rattle.word_dag.specs.Adding.{Grows};
ghost use Rattle.word_dag.specs.declared.node.Node.TheVariants.{Free};
ghost use Rattle.elab_step_design.specs.Designs.{IsDesign, source, sources};

use elab_step_design::{Net, Register};
use outside::Text;
use set_tree::Set;
use std::alloc::{AllocError, Global};
use unroll_binding::Bound;
use word_core::Word;
use word_dag::{Dag, Node};

/// A cycle of a segment: how many cycles stand before it, and how many before cycle 0, in which reset is active.
#[derive(Clone, Copy)]
pub struct Moment {
    pub position: u8,
    pub resets: u8,
}

/// The cycle's number: 0 is the first in which reset is inactive.
pub fn cycle_of(moment: Moment) -> i16
    ensures { result ≡ cycle_number moment.resets moment.position }
{
    i16::from(moment.position) - i16::from(moment.resets)
}

// The free word of a register or an input in a cycle.
fn free_node(
    alloc: Global,
    dag: &mut Dag,
    name: &[u8],
    width: u8,
    moment: Moment,
) -> Result<u64, AllocError>
    requires some { 0 < width }
    requires most { width ≤ 64 }
    ensures grows { IfOk result (λ _. Grows dag.old dag.new) }
    ensures frees { IfOk result (λ _. AddsFrees
        (λ n. n ≡ Free name.now width 0 (cycle_number moment.resets moment.position)) dag.old dag.new) }
    ensures node { IfOk result (λ i. IsNode dag.new i width) }
    ensures word { IfOk result (λ i. IsWordAt dag.new i width
        (λ e. e name.now 0 (cycle_number moment.resets moment.position))) }
{
    dag.add(Node::Free {
        name: Text::copy(alloc, name)?,
        width,
        side: 0,
        cycle: cycle_of(moment),
    })
}

/// The level of the reset input where reset is active, or where it isn't.
pub fn level(set: &Set, active: bool) -> u64
    ensures { result ≡ level set.now active }
{
    let high = if active { set.high } else { !set.high };
    u64::from(high)
}

// The node of an input in a cycle: its free word, and of the reset its level.
fn input_node(
    alloc: Global,
    dag: &mut Dag,
    set: &Set,
    input: &Net,
    moment: Moment,
) -> Result<u64, AllocError>
    requires some { 0 < input.now.width }
    requires most { input.now.width ≤ 64 }
    ensures grows { IfOk result (λ _. Grows dag.old dag.new) }
    ensures frees { IfOk result (λ _. AddsFrees
        (λ n. n ≡ Free input.now.name input.now.width 0 (cycle_number moment.resets moment.position)) dag.old dag.new) }
    ensures node { IfOk result (λ i. IsNode dag.new i input.now.width) }
    ensures word { IfOk result (λ i. IsWordAt dag.new i input.now.width
        (λ e. if bytes_eq input.now.name set.now.reset then level set.now
        (nat_lt moment.position moment.resets) else e input.now.name 0 (cycle_number moment.resets moment.position))) }
{
    if input.name.bytes() == set.reset.bytes() {
        let value = level(set, moment.position < moment.resets);
        return dag.add(Node::Const(Word::new(input.width, value)));
    }
    free_node(alloc, dag, input.name.bytes(), input.width, moment)
}

// The node of a register in a cycle: at first its free word, and then what the cycle before leaves in it, whose nodes
// are the copies.
fn register_node(
    alloc: Global,
    dag: &mut Dag,
    bound: &Bound,
    register: &Register,
    moment: Moment,
    copies: &[u64],
) -> Result<u64, AllocError>
    requires among { Among bound.now.design.registers register.now }
    requires design { IsDesign bound.now.design }
    requires fits { Fits bound.now.design bound.now.set }
    requires before { CopiedBefore bound.now.design bound.now.set moment.resets moment.position dag.old copies.now }
    ensures grows { IfOk result (λ _. Grows dag.old dag.new) }
    ensures frees { IfOk result (λ _. AddsFrees
        (λ n. n ≡ Free register.now.name register.now.width 0
        (cycle_number moment.resets moment.position)) dag.old dag.new) }
    ensures node { IfOk result (λ i. IsNode dag.new i register.now.width) }
    ensures word { IfOk result (λ i. IsWordAt dag.new i register.now.width
        (λ e. held bound.now.design bound.now.set moment.resets e moment.position register.now.name)) }
{
    if moment.position > 0 {
        return Ok(copies[register.next as usize]);
    }
    free_node(alloc, dag, register.name.bytes(), register.width, moment)
}

// Puts the nodes of the registers at their places.
fn put_registers(
    alloc: Global,
    dag: &mut Dag,
    bound: &Bound,
    moment: Moment,
    copies: &[u64],
    leaves: &mut [u64],
) -> Result<(), AllocError>
    requires design { IsDesign bound.now.design }
    requires fits { Fits bound.now.design bound.now.set }
    requires before { CopiedBefore bound.now.design bound.now.set moment.resets moment.position dag.old copies.now }
    requires count { length leaves.old ≡ length bound.now.design.nodes }
    ensures grows { OnOk result (Grows dag.old dag.new) }
    ensures frees { OnOk result (AddsFrees (IsSourceWord bound.now.design) dag.old dag.new) }
    ensures leaves { OnOk result (ShowLeaves bound.now.design bound.now.set moment.resets moment.position dag.new leaves.new (map source bound.now.design.registers)) }
{
    for register in bound.design().registers() {
        let node = register_node(alloc, dag, bound, register, moment, copies)?;
        leaves[register.node as usize] = node;
    }
    Ok(())
}

// Puts the nodes of the inputs at their places, beside those of the registers.
fn put_inputs(
    alloc: Global,
    dag: &mut Dag,
    bound: &Bound,
    moment: Moment,
    leaves: &mut [u64],
) -> Result<(), AllocError>
    requires design { IsDesign bound.now.design }
    requires fits { Fits bound.now.design bound.now.set }
    requires leaves { ShowLeaves bound.now.design bound.now.set moment.resets moment.position dag.old leaves.old
        (map source bound.now.design.registers) }
    ensures grows { OnOk result (Grows dag.old dag.new) }
    ensures frees { OnOk result (AddsFrees (IsSourceWord bound.now.design) dag.old dag.new) }
    ensures leaves { OnOk result (ShowLeaves bound.now.design bound.now.set moment.resets moment.position dag.new leaves.new (sources bound.now.design)) }
{
    let set = bound.set().set();
    for input in bound.design().inputs() {
        let node = input_node(alloc, dag, set, input, moment)?;
        leaves[input.node as usize] = node;
    }
    Ok(())
}

/// For each register and input of a design a node with its value in a cycle of a segment, at the place of its node in
/// the design. The copies are the nodes of the cycle before, where there is one.
pub fn leaves_of(
    alloc: Global,
    dag: &mut Dag,
    bound: &Bound,
    moment: Moment,
    copies: &[u64],
) -> Result<Vec<u64>, AllocError>
    requires { CopiedBefore bound.now.design bound.now.set moment.resets moment.position dag.old copies.now }
    ensures grows { IfOk result (λ _. Grows dag.old dag.new) }
    ensures frees { IfOk result (λ _. AddsFrees (IsSourceWord bound.now.design) dag.old dag.new) }
    ensures fit { IfOk result (λ leaves. FitLeaves bound.now.design dag.new leaves.items) }
    ensures leaves { IfOk result (λ leaves. AreLeaves bound.now.design dag.new leaves.items
        (λ e. held bound.now.design bound.now.set moment.resets e moment.position)) }
{
    let count = bound.design().dag().count() as usize;
    let mut leaves = vec![in alloc; 0; count]?;
    put_registers(alloc, dag, bound, moment, copies, leaves.as_mut_slice())?;
    put_inputs(alloc, dag, bound, moment, leaves.as_mut_slice())?;
    Ok(leaves)
}
