// The circuits of operations.
ghost use Rattle.std.specs.Prelude.{◌≡◌, ◌≤◌, ◌++◌, ◌∷◌, [], length, IfOk};
ghost use Rattle.cnf_build.specs.Circuits.{top_of, top_turned, or_made};
ghost use Rattle.cnf_build.specs.Building.{Makes};
ghost use Rattle.word_dag.specs.Nodes.{FitsOp};
ghost use Rattle.cnf_build.specs.Lower.{op_made};

use crate::{
    Bitwise, Direction, Gate, add, equal, false_lit, gate_row, inverted, multiply, shift, subtract,
};
use clause_check::Lit;
use std::alloc::{AllocError, Global};
use word_dag::Op;

/// The literals of an operation's operands.
#[derive(Clone, Copy)]
pub struct Operands<'a> {
    pub a: &'a [Lit],
    pub b: &'a [Lit],
}

/// The top bit of a word.
#[tactic(auto, using(crate::proofs::Tops::tops))]
pub fn top_bit(a: &[Lit]) -> Lit
    ensures { result ≡ top_of a.now }
{
    if a.is_empty() {
        false_lit()
    } else {
        a[a.len() - 1]
    }
}

// The word with its top bit turned.
#[tactic(auto, using(crate::proofs::Tops::tops))]
fn turned(alloc: Global, a: &[Lit]) -> Result<Vec<Lit>, AllocError>
    ensures { IfOk result (λ r. r.items ≡ top_turned a.now) }
{
    if a.is_empty() {
        return Ok(Vec::new(alloc));
    }
    let mut lits = Vec::from_slice(alloc, &a[..a.len() - 1])?;
    lits.push(a[a.len() - 1].negated())?;
    Ok(lits)
}

// A word of one bit.
fn single(alloc: Global, lit: Lit) -> Result<Vec<Lit>, AllocError>
    ensures { IfOk result (λ r. r.items ≡ lit ∷ []) }
{
    let mut lits = Vec::new(alloc);
    lits.push(lit)?;
    Ok(lits)
}

// The or of each two bits: the negated and of the negations.
fn or_row(
    alloc: Global,
    gates: &mut Vec<Gate>,
    operands: &Operands<'_>,
) -> Result<Vec<Lit>, AllocError>
    requires { length operands.now.a.now ≡ length operands.now.b.now }
    ensures { IfOk result (λ r. Makes gates.old.items gates.new.items r.items
        (or_made (length gates.old.items) operands.now.a.now operands.now.b.now)) }
{
    let neither = gate_row(alloc, gates, Bitwise::Neither, operands.a, operands.b)?;
    inverted(alloc, &neither)
}

// Whether a is below b, unsigned: no carry goes out of the difference.
fn less(
    alloc: Global,
    gates: &mut Vec<Gate>,
    operands: &Operands<'_>,
) -> Result<Vec<Lit>, AllocError>
    requires { length operands.now.a.now ≡ length operands.now.b.now }
    ensures { IfOk result (λ r. Makes gates.old.items gates.new.items r.items
        (op_made (length gates.old.items) Op.Ult operands.now.a.now operands.now.b.now)) }
{
    let difference = subtract(alloc, gates, operands.a, operands.b)?;
    single(alloc, difference.carry.negated())
}

// Whether a is below b in two's complement: unsigned, with both top bits turned.
#[tactic(auto, using(crate::proofs::Tops::lengths))]
fn signed_less(
    alloc: Global,
    gates: &mut Vec<Gate>,
    operands: &Operands<'_>,
) -> Result<Vec<Lit>, AllocError>
    requires { length operands.now.a.now ≡ length operands.now.b.now }
    ensures { IfOk result (λ r. Makes gates.old.items gates.new.items r.items
        (op_made (length gates.old.items) Op.Slt operands.now.a.now operands.now.b.now)) }
{
    let a = turned(alloc, operands.a)?;
    let b = turned(alloc, operands.b)?;
    let operands = Operands {
        a: a.as_slice(),
        b: b.as_slice(),
    };
    less(alloc, gates, &operands)
}

/// The circuit of an operation.
pub fn operation(
    alloc: Global,
    gates: &mut Vec<Gate>,
    op: Op,
    width: u8,
    operands: &Operands<'_>,
) -> Result<Vec<Lit>, AllocError>
    requires fits { FitsOp op width (length operands.now.a.now) (length operands.now.b.now) }
    requires short { length operands.now.b.now ≤ 64 }
    ensures { IfOk result (λ r. Makes gates.old.items gates.new.items r.items
        (op_made (length gates.old.items) op operands.now.a.now operands.now.b.now)) }
{
    let Operands { a, b } = *operands;
    match op {
        Op::Add => {
            let sum = add(alloc, gates, false_lit(), a, b)?;
            Ok(sum.lits)
        }
        Op::Sub => {
            let difference = subtract(alloc, gates, a, b)?;
            Ok(difference.lits)
        }
        Op::Mul => multiply(alloc, gates, a, b),
        Op::And => gate_row(alloc, gates, Bitwise::Both, a, b),
        Op::Or => or_row(alloc, gates, operands),
        Op::Xor => gate_row(alloc, gates, Bitwise::Differ, a, b),
        Op::Shl => shift(alloc, gates, Direction::Up, a, b),
        Op::Shr => shift(alloc, gates, Direction::Down(false_lit()), a, b),
        Op::Sar => shift(alloc, gates, Direction::Down(top_bit(a)), a, b),
        Op::Ult => less(alloc, gates, operands),
        Op::Slt => signed_less(alloc, gates, operands),
        Op::Eq => {
            let same = equal(gates, a, b)?;
            single(alloc, same)
        }
        Op::Concat => {
            let mut lits = Vec::from_slice(alloc, b)?;
            lits.extend_from_slice(a)?;
            Ok(lits)
        }
    }
}
