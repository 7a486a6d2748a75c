// The circuits of nodes.
ghost use Rattle.std.specs.Prelude.{◌≡◌, ◌≤◌, ◌<◌, ◌+◌, ◌-◌, ◌++◌, ◌%◌, ◌==◌, if◌then◌else◌, length, take, drop, map, replicate, IfOk};
ghost use Rattle.cnf_build.specs.declared.gates.Gate.TheVariants.{Free};
ghost use Rattle.cnf_build.specs.Circuits.{row, const_lits, true_lit as true_spec, false_lit as false_spec};
ghost use Rattle.cnf_build.specs.Building.{Makes};
ghost use Rattle.word_dag.specs.Nodes.{FitsNode};
ghost use Rattle.cnf_build.specs.Lower.{node_made, lits_at, low_of};
ghost use Rattle.cnf_build.specs.Table.{AllShort};

use crate::operations::{Operands, operation, top_bit};
use crate::{Bitwise, Gate, add_gate, false_lit, gate_row, inverted, true_lit};
use clause_check::Lit;
use std::alloc::{AllocError, Global};
use std::marker::Model;
use word_dag::Node;

/// The literals of a node's word, from the lowest bit.
#[derive(Drop)]
pub struct Wires {
    lits: Vec<Lit>,
}

impl Model for Wires {
    ghost use Rattle.std.specs.Prelude.{List};
    ghost use Rattle.clause_check.specs.declared.literal.Lit.{Lit};

    ghost Value = { List Lit };

    ghost view = { λ w. w.lits.items };
}

impl Wires {
    /// The word of these literals.
    pub fn new(lits: Vec<Lit>) -> Wires
        ensures { result ≡ lits.items }
    {
        Wires { lits }
    }

    /// The literals.
    pub fn lits(&self) -> &[Lit]
        ensures { result.now ≡ self.now }
    {
        self.lits.as_slice()
    }
}

/// The literals of an earlier node.
pub fn operand(table: &[Wires], number: u64) -> &[Lit]
    requires { number < length table.now }
    ensures { result.now ≡ lits_at table.now number }
{
    let wires = &table[number as usize];
    wires.lits()
}

/// The lowest bit of a word.
pub fn low_bit(a: &[Lit]) -> Lit
    ensures { result ≡ low_of a.now }
{
    match a {
        [] => false_lit(),
        [low, ..] => *low,
    }
}

// New variables for a free word.
fn free_row(alloc: Global, gates: &mut Vec<Gate>, width: u8) -> Result<Vec<Lit>, AllocError>
    ensures { IfOk result (λ r. Makes gates.old.items gates.new.items r.items
        (row (length gates.old.items) (replicate width Free))) }
{
    let mut lits = Vec::new(alloc);
    for i in 0..width {
        let lit = add_gate(gates, Gate::Free)?;
        lits.push(lit)?;
    }
    Ok(lits)
}

// The literal of the lowest bit of a number.
fn bit_lit(value: u64) -> Lit
    ensures { result ≡ (if value % 2 == 1 then true_spec else false_spec) }
{
    if value % 2 == 1 {
        true_lit()
    } else {
        false_lit()
    }
}

// The literals of a constant.
fn const_row(alloc: Global, width: u8, value: u64) -> Result<Vec<Lit>, AllocError>
    ensures { IfOk result (λ r. r.items ≡ const_lits width value) }
{
    let mut lits = Vec::new(alloc);
    let mut rest = value;
    for i in 0..width {
        lits.push(bit_lit(rest))?;
        rest /= 2;
    }
    Ok(lits)
}

// The word with copies of a literal above it.
fn padded(alloc: Global, a: &[Lit], width: u8, fill: Lit) -> Result<Vec<Lit>, AllocError>
    requires { length a.now ≤ width }
    ensures { IfOk result (λ r. r.items ≡ a.now ++ replicate (width - length a.now) fill) }
{
    let mut lits = Vec::from_slice(alloc, a)?;
    let fills = vec![in alloc; fill; usize::from(width) - a.len()]?;
    lits.extend_from_slice(&fills)?;
    Ok(lits)
}

// The bits from lo on.
fn sliced(alloc: Global, a: &[Lit], lo: u8, width: u8) -> Result<Vec<Lit>, AllocError>
    requires { lo + width ≤ length a.now }
    ensures { IfOk result (λ r. r.items ≡ take width (drop lo a.now)) }
{
    let high = &a[usize::from(lo)..];
    let lits = Vec::from_slice(alloc, &high[..usize::from(width)])?;
    Ok(lits)
}

/// The circuit of a node.
#[tactic(auto, using(crate::proofs::Table::table_facts))]
pub fn node_lits(
    alloc: Global,
    gates: &mut Vec<Gate>,
    table: &[Wires],
    node: &Node,
) -> Result<Vec<Lit>, AllocError>
    requires fits { FitsNode (map length table.now) node.now }
    requires short { AllShort table.now }
    ensures { IfOk result (λ r. Makes gates.old.items gates.new.items r.items
        (node_made (length gates.old.items) table.now node.now)) }
{
    match node {
        Node::Free { width, .. } => free_row(alloc, gates, *width),
        Node::Const(word) => const_row(alloc, word.width(), word.value()),
        Node::Two { op, width, a, b } => {
            let operands = Operands {
                a: operand(table, *a),
                b: operand(table, *b),
            };
            operation(alloc, gates, *op, *width, &operands)
        }
        Node::Not { a, .. } => inverted(alloc, operand(table, *a)),
        Node::Slice { width, a, lo } => sliced(alloc, operand(table, *a), *lo, *width),
        Node::Zext { width, a } => padded(alloc, operand(table, *a), *width, false_lit()),
        Node::Sext { width, a } => {
            let word = operand(table, *a);
            padded(alloc, word, *width, top_bit(word))
        }
        Node::Mux { c, a, b, .. } => {
            let choice = Bitwise::Choice(low_bit(operand(table, *c)));
            gate_row(alloc, gates, choice, operand(table, *a), operand(table, *b))
        }
    }
}
