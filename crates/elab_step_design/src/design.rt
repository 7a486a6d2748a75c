ghost use Rattle.std.specs.Prelude.{◌≡◌, option_map};
ghost use Rattle.elab_step_design.specs.Designs.{IsDesign};

use outside::Text;
use std::marker::Model;
use vlog_tree_runs::Async;
use word_dag::Dag;

/// A register: its length in bits, the node of its value, and the node of the value that it has in the next cycle.
#[derive(Drop)]
pub struct Register {
    pub name: Text,
    pub width: u8,
    pub node: u64,
    pub next: u64,
}

/// A signal: its length in bits and the node of its value.
#[derive(Drop)]
pub struct Net {
    pub name: Text,
    pub width: u8,
    pub node: u64,
}

/// A block as functions of its registers and inputs, which are the free words of its dag.
#[derive(Drop)]
pub struct Design {
    dag: Dag,
    registers: Vec<Register>,
    inputs: Vec<Net>,
    nets: Vec<Net>,
    outputs: Vec<Text>,
    clock: Option<Text>,
    asyncs: Vec<Async>,
}

impl Model for Design {
    ghost use Rattle.elab_step_design.specs.Designs.{Parts, IsDesign};

    ghost Value = { Parts };

    ghost view = { λ d. record {
      nodes = d.dag;
      registers = d.registers.items;
      inputs = d.inputs.items;
      nets = d.nets.items;
      outputs = d.outputs.items;
      clock = d.clock;
      asyncs = d.asyncs.items;
    } };

    ghost invariant = { λ d. IsDesign (record {
      nodes = d.dag;
      registers = d.registers.items;
      inputs = d.inputs.items;
      nets = d.nets.items;
      outputs = d.outputs.items;
      clock = d.clock;
      asyncs = d.asyncs.items;
    }) };
}

impl Design {
    /// The design of these parts.
    pub fn new(
        dag: Dag,
        registers: Vec<Register>,
        inputs: Vec<Net>,
        nets: Vec<Net>,
        outputs: Vec<Text>,
        clock: Option<Text>,
        asyncs: Vec<Async>,
    ) -> Design
        requires { IsDesign (record { nodes = dag; registers = registers.items; inputs = inputs.items; nets = nets.items; outputs = outputs.items; clock = clock; asyncs = asyncs.items }) }
        ensures { result ≡ record { nodes = dag; registers = registers.items; inputs = inputs.items; nets = nets.items; outputs = outputs.items; clock = clock; asyncs = asyncs.items } }
    {
        Design {
            dag,
            registers,
            inputs,
            nets,
            outputs,
            clock,
            asyncs,
        }
    }

    /// The nodes.
    pub fn dag(&self) -> &Dag
        ensures nodes { result.now ≡ self.now.nodes }
        ensures design { IsDesign self.now }
    {
        &self.dag
    }

    /// The registers, in the order of their declarations.
    pub fn registers(&self) -> &[Register]
        ensures { result.now ≡ self.now.registers }
    {
        self.registers.as_slice()
    }

    /// The inputs of the top, the clock and the resets among them, in the order of its header.
    pub fn inputs(&self) -> &[Net]
        ensures { result.now ≡ self.now.inputs }
    {
        self.inputs.as_slice()
    }

    /// All signals, registers and inputs among them.
    pub fn nets(&self) -> &[Net]
        ensures { result.now ≡ self.now.nets }
    {
        self.nets.as_slice()
    }

    /// The names of the outputs of the top.
    pub fn outputs(&self) -> &[Text]
        ensures { result.now ≡ self.now.outputs }
    {
        self.outputs.as_slice()
    }

    /// The clock's name, where a block waits for one.
    pub fn clock(&self) -> Option<&Text>
        ensures { option_map (λ c. c.now) result ≡ self.now.clock }
    {
        self.clock.as_ref()
    }

    /// The inputs that reset registers at once.
    pub fn asyncs(&self) -> &[Async]
        ensures { result.now ≡ self.now.asyncs }
    {
        self.asyncs.as_slice()
    }
}
