// The circuits of the operations on words. A word is the list of its literals, from the lowest bit.
ghost use Rattle.std.specs.Prelude.{◌≡◌, ◌≤◌, ◌++◌, length, IfOk, map, replicate};
ghost use Rattle.clause_check.specs.Clauses.{negated};
ghost use Rattle.cnf_build.specs.Circuits.{zip_gates, row, add_bit_gates, adder, subtractor, equal_from, shifter, product_from, true_lit as true_spec, false_lit as false_spec};
ghost use Rattle.cnf_build.specs.Building.{bit_gate, moved_by, part_made, Makes, Sums, AddsBit, Decides};

use crate::gates::{Gate, add_gate};
use crate::tidy::{negative, positive};
use clause_check::Lit;
use std::alloc::{AllocError, Global};

/// What a gate for each bit of two words computes: and, the and of the negations, exclusive or, or the first word's bit
/// where the literal is true and else the second's.
#[derive(Clone, Copy, Debug)]
pub enum Bitwise {
    Both,
    Neither,
    Differ,
    Choice(Lit),
}

impl Bitwise {
    fn gate(self, a: Lit, b: Lit) -> Gate
        ensures { result ≡ bit_gate self a b }
    {
        match self {
            Bitwise::Both => Gate::And(a, b),
            Bitwise::Neither => Gate::And(a.negated(), b.negated()),
            Bitwise::Differ => Gate::Xor(a, b),
            Bitwise::Choice(c) => Gate::Mux(c, a, b),
        }
    }
}

/// A gate for each bit of two words of one width; its literals, from the lowest bit.
pub fn gate_row(
    alloc: Global,
    gates: &mut Vec<Gate>,
    kind: Bitwise,
    a: &[Lit],
    b: &[Lit],
) -> Result<Vec<Lit>, AllocError>
    requires { length a.now ≡ length b.now }
    ensures { IfOk result (λ r. Makes gates.old.items gates.new.items r.items
        (row (length gates.old.items) (zip_gates (bit_gate kind) a.now b.now))) }
{
    let mut lits = Vec::new(alloc);
    for i in 0..a.len() {
        let lit = add_gate(gates, kind.gate(a[i], b[i]))?;
        lits.push(lit)?;
    }
    Ok(lits)
}

/// Each bit turned.
pub fn inverted(alloc: Global, a: &[Lit]) -> Result<Vec<Lit>, AllocError>
    ensures { IfOk result (λ r. r.items ≡ map negated a.now) }
{
    a.iter().map(|l| l.negated()).collect(alloc)
}

/// A sum, and the carry that goes out.
#[derive(Drop)]
pub struct Sum {
    pub lits: Vec<Lit>,
    pub carry: Lit,
}

// One bit of a sum, and its carry.
fn add_bit(gates: &mut Vec<Gate>, carry: Lit, a: Lit, b: Lit) -> Result<(Lit, Lit), AllocError>
    ensures { IfOk result (AddsBit gates.old.items gates.new.items carry a b) }
{
    let x = add_gate(gates, Gate::Xor(a, b))?;
    let sum = add_gate(gates, Gate::Xor(x, carry))?;
    let both = add_gate(gates, Gate::And(a, b))?;
    let through = add_gate(gates, Gate::And(x, carry))?;
    let none = add_gate(gates, Gate::And(both.negated(), through.negated()))?;
    Ok((sum, none.negated()))
}

/// The sum of two words of one width and a carry that comes in: for each bit x = a xor b, the sum x xor carry, and the
/// next carry (a and b) or (x and carry).
pub fn add(
    alloc: Global,
    gates: &mut Vec<Gate>,
    carry: Lit,
    a: &[Lit],
    b: &[Lit],
) -> Result<Sum, AllocError>
    requires { length a.now ≡ length b.now }
    ensures { IfOk result (λ r. Sums gates.old.items gates.new.items r.lits.items r.carry
        (adder (length gates.old.items) carry a.now b.now)) }
{
    let mut carry = carry;
    let mut lits = Vec::new(alloc);
    for i in 0..a.len() {
        let (sum, next) = add_bit(gates, carry, a[i], b[i])?;
        lits.push(sum)?;
        carry = next;
    }
    Ok(Sum { lits, carry })
}

/// The literal that is always true: variable 0.
pub fn true_lit() -> Lit
    ensures { result ≡ true_spec }
{
    positive(0)
}

/// The literal that is never true.
pub fn false_lit() -> Lit
    ensures { result ≡ false_spec }
{
    negative(0)
}

/// The difference of two words of one width: the first plus the negation of the second plus 1. No carry goes out where
/// it is negative.
pub fn subtract(
    alloc: Global,
    gates: &mut Vec<Gate>,
    a: &[Lit],
    b: &[Lit],
) -> Result<Sum, AllocError>
    requires { length a.now ≡ length b.now }
    ensures { IfOk result (λ r. Sums gates.old.items gates.new.items r.lits.items r.carry
        (subtractor (length gates.old.items) a.now b.now)) }
{
    let inverted = inverted(alloc, b)?;
    add(alloc, gates, true_lit(), a, &inverted)
}

/// Whether two words of one width are equal: the and of the negated exclusive ors, from the lowest bit.
pub fn equal(gates: &mut Vec<Gate>, a: &[Lit], b: &[Lit]) -> Result<Lit, AllocError>
    requires { length a.now ≡ length b.now }
    ensures { IfOk result (λ r. Decides gates.old.items gates.new.items r
        (equal_from (length gates.old.items) true_spec a.now b.now)) }
{
    let mut same = true_lit();
    for i in 0..a.len() {
        let differ = add_gate(gates, Gate::Xor(a[i], b[i]))?;
        same = add_gate(gates, Gate::And(same, differ.negated()))?;
    }
    Ok(same)
}

/// Where a word moves, and what comes in.
#[derive(Clone, Copy, Debug)]
pub enum Direction {
    Up,
    Down(Lit),
}

/// A word moved by a number of bits, within its width.
pub fn moved(
    alloc: Global,
    direction: Direction,
    distance: u64,
    a: &[Lit],
) -> Result<Vec<Lit>, AllocError>
    ensures { IfOk result (λ r. r.items ≡ moved_by direction distance a.now) }
{
    let reach = distance.min(a.len() as u64) as usize;
    match direction {
        Direction::Up => {
            let mut lits = vec![in alloc; false_lit(); reach]?;
            lits.extend_from_slice(&a[..a.len() - reach])?;
            Ok(lits)
        }
        Direction::Down(fill) => {
            let mut lits = Vec::from_slice(alloc, &a[reach..])?;
            let fills = vec![in alloc; fill; reach]?;
            lits.extend_from_slice(&fills)?;
            Ok(lits)
        }
    }
}

/// A word moved by a word: for each bit j of the second word from the lowest, a choice between the word moved by 2^j
/// bits and the word.
pub fn shift(
    alloc: Global,
    gates: &mut Vec<Gate>,
    direction: Direction,
    a: &[Lit],
    b: &[Lit],
) -> Result<Vec<Lit>, AllocError>
    requires { length b.now ≤ 64 }
    ensures { IfOk result (λ r. Makes gates.old.items gates.new.items r.items
        (shifter (length gates.old.items) (moved_by direction) 1 a.now b.now)) }
{
    let mut lits = Vec::from_slice(alloc, a)?;
    for i in 0..b.len() {
        let far = moved(alloc, direction, 1u64 << i, &lits)?;
        lits = gate_row(alloc, gates, Bitwise::Choice(b[i]), &far, &lits)?;
    }
    Ok(lits)
}

// The sum so far, and the word with each bit and-ed with this bit.
fn add_part(
    alloc: Global,
    gates: &mut Vec<Gate>,
    sum: &[Lit],
    a: &[Lit],
    bit: Lit,
) -> Result<Vec<Lit>, AllocError>
    requires { length sum.now ≡ length a.now }
    ensures { IfOk result (λ r. Makes gates.old.items gates.new.items r.items
        (part_made (length gates.old.items) sum.now a.now bit)) }
{
    let bits = vec![in alloc; bit; a.len()]?;
    let part = gate_row(alloc, gates, Bitwise::Both, a, &bits)?;
    let added = add(alloc, gates, false_lit(), sum, &part)?;
    Ok(added.lits)
}

/// The product of two words, as wide as the first: from zero, for each bit of the second word from the lowest, the sum
/// so far plus the first word moved up to that bit with each of its bits and-ed with it.
pub fn multiply(
    alloc: Global,
    gates: &mut Vec<Gate>,
    a: &[Lit],
    b: &[Lit],
) -> Result<Vec<Lit>, AllocError>
    ensures { IfOk result (λ r. Makes gates.old.items gates.new.items r.items
        (product_from (length gates.old.items) (replicate (length a.now) false_spec) a.now b.now)) }
{
    let mut sum = vec![in alloc; false_lit(); a.len()]?;
    let mut up = Vec::from_slice(alloc, a)?;
    for i in 0..b.len() {
        sum = add_part(alloc, gates, &sum, &up, b[i])?;
        up = moved(alloc, Direction::Up, 1, &up)?;
    }
    Ok(sum)
}
