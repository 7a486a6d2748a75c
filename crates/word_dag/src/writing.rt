// The text of an obligation: a line for each node, and one for the root.
ghost use Rattle.std.specs.Prelude.{◌≡◌, ◌++◌, ◌∷◌, [], map, codes, IfOk, OnOk};
ghost use Rattle.std.specs.Fmt.{decimal, signed_decimal};
ghost use Rattle.word_dag.specs.Text.{spaced, line, op_word as op_word_of, node_line, lines_from, ob_text, Tells};

use crate::node::{Node, Op};
use crate::ob::Ob;
use outside::Text;
use std::alloc::{AllocError, Global};

// A word behind a space.
fn put(out: &mut Vec<u8>, word: &[u8]) -> Result<(), AllocError>
    ensures { OnOk result (out.new.items ≡ out.old.items ++ 32 ∷ word.now) }
{
    out.push(b' ')?;
    out.extend_from_slice(word)?;
    Ok(())
}

// A number behind a space.
fn put_number(alloc: Global, out: &mut Vec<u8>, number: u64) -> Result<(), AllocError>
    ensures { OnOk result (out.new.items ≡ out.old.items ++ 32 ∷ decimal number) }
{
    let digits = number.to_string(alloc)?;
    put(out, digits.as_bytes())
}

fn put_numbers(alloc: Global, out: &mut Vec<u8>, numbers: &[u64]) -> Result<(), AllocError>
    ensures { OnOk result (out.new.items ≡ out.old.items ++ spaced (map decimal numbers.now)) }
{
    for number in numbers {
        put_number(alloc, out, *number)?;
    }
    Ok(())
}

// The first three words of a node's line.
#[tactic(auto, using(crate::proofs::Texts::text_joined))]
fn put_start(
    alloc: Global,
    out: &mut Vec<u8>,
    number: u64,
    kind: &[u8],
    width: u8,
) -> Result<(), AllocError>
    ensures { OnOk result (out.new.items ≡ out.old.items ++
        (decimal number ++ (32 ∷ (kind.now ++ 32 ∷ decimal width)))) }
{
    let digits = number.to_string(alloc)?;
    out.extend_from_slice(digits.as_bytes())?;
    put(out, kind)?;
    put_number(alloc, out, u64::from(width))
}

// A node's line whose operands are numbers.
#[tactic(auto, using(crate::proofs::Texts::text_joined))]
fn put_line(
    alloc: Global,
    out: &mut Vec<u8>,
    number: u64,
    kind: &[u8],
    width: u8,
    operands: &[u64],
) -> Result<(), AllocError>
    ensures { OnOk result (out.new.items ≡ out.old.items ++ line (decimal number)
        (kind.now ∷ decimal width ∷ map decimal operands.now)) }
{
    put_start(alloc, out, number, kind, width)?;
    put_numbers(alloc, out, operands)?;
    out.push(b'\n')?;
    Ok(())
}

// The line of a free node.
#[tactic(auto, using(crate::proofs::Texts::text_joined))]
fn put_free(
    alloc: Global,
    out: &mut Vec<u8>,
    number: u64,
    name: &Text,
    width: u8,
    side: u8,
    cycle: i16,
) -> Result<(), AllocError>
    ensures { OnOk result (out.new.items ≡ out.old.items ++ line (decimal number)
        (codes "free" ∷ decimal width ∷ name.now ∷ decimal side ∷ signed_decimal cycle ∷ [])) }
{
    put_start(alloc, out, number, b"free", width)?;
    put(out, name.bytes())?;
    put_number(alloc, out, u64::from(side))?;
    let digits = cycle.to_string(alloc)?;
    put(out, digits.as_bytes())?;
    out.push(b'\n')?;
    Ok(())
}

fn op_word(op: Op) -> &'static [u8]
    ensures { result.now ≡ op_word_of op }
{
    match op {
        Op::Add => b"add",
        Op::Sub => b"sub",
        Op::Mul => b"mul",
        Op::And => b"and",
        Op::Or => b"or",
        Op::Xor => b"xor",
        Op::Shl => b"shl",
        Op::Shr => b"shr",
        Op::Sar => b"sar",
        Op::Ult => b"ult",
        Op::Slt => b"slt",
        Op::Eq => b"eq",
        Op::Concat => b"concat",
    }
}

fn put_node(alloc: Global, out: &mut Vec<u8>, number: u64, node: &Node) -> Result<(), AllocError>
    ensures { OnOk result (out.new.items ≡ out.old.items ++ node_line number node.now) }
{
    match node {
        Node::Free {
            name,
            width,
            side,
            cycle,
        } => put_free(alloc, out, number, name, *width, *side, *cycle),
        Node::Const(word) => {
            put_line(alloc, out, number, b"const", word.width(), &[word.value()])
        }
        Node::Two { op, width, a, b } => {
            put_line(alloc, out, number, op_word(*op), *width, &[*a, *b])
        }
        Node::Not { width, a } => put_line(alloc, out, number, b"not", *width, &[*a]),
        Node::Slice { width, a, lo } => {
            put_line(alloc, out, number, b"slice", *width, &[*a, u64::from(*lo)])
        }
        Node::Zext { width, a } => put_line(alloc, out, number, b"zext", *width, &[*a]),
        Node::Sext { width, a } => put_line(alloc, out, number, b"sext", *width, &[*a]),
        Node::Mux { width, c, a, b } => {
            put_line(alloc, out, number, b"mux", *width, &[*c, *a, *b])
        }
    }
}

fn put_nodes(alloc: Global, out: &mut Vec<u8>, nodes: &[Node]) -> Result<(), AllocError>
    ensures { OnOk result (out.new.items ≡ out.old.items ++ lines_from 0 nodes.now) }
{
    for i in 0..nodes.len() {
        put_node(alloc, out, i as u64, &nodes[i])?;
    }
    Ok(())
}

#[tactic(auto, using(crate::proofs::Texts::text_joined))]
fn put_root(alloc: Global, out: &mut Vec<u8>, root: u64) -> Result<(), AllocError>
    ensures { OnOk result (out.new.items ≡ out.old.items ++ line (codes "root") (decimal root ∷ [])) }
{
    out.extend_from_slice(b"root")?;
    put_number(alloc, out, root)?;
    out.push(b'\n')?;
    Ok(())
}

/// The text of an obligation: for each node in number order a line with its number, kind, width and operands, and then
/// `root` and the root's number. Single spaces part the words, and a line feed ends each line. No other obligation has
/// this text, where no name has a space or a line feed.
#[tactic(auto, using(crate::proofs::Texts::text_joined))]
pub fn text(alloc: Global, ob: &Ob) -> Result<Vec<u8>, AllocError>
    ensures text { IfOk result (λ t. t.items ≡ ob_text ob.now.nodes ob.now.root) }
    ensures tells { IfOk result (λ t. Tells t.items ob.now) }
{
    let mut out = Vec::new(alloc);
    put_nodes(alloc, &mut out, ob.nodes())?;
    put_root(alloc, &mut out, ob.root())?;
    Ok(out)
}
