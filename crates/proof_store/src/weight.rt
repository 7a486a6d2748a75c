// How much obligations weigh that are gone through at a time.
ghost use Rattle.std.specs.Prelude.{◌≡◌, ◌<◌, ◌≤◌, IfOk, length};
ghost use Rattle.std.specs.List.{flat_map};

use job_pool::Crew;
use std::alloc::AllocError;
use std::thread::Threads;
use word_dag::{Node, Ob, Op};

// How many obligations are gone through at a time at most.
const AT_ONCE: usize = 256;

// Beyond this weight no further obligation is gone through at the same time: some 25 MB of clauses, texts or rows.
const WEIGHT_AT_ONCE: u64 = 1 << 18;

/// What is gone through few at a time.
pub(crate) trait Weighs {
    // About how many gates, or lines of a text or a record, are made of it.
    fn weight(&self) -> u64;
}

// The width of the node of a number; 0 where there is none.
fn width_at(nodes: &[Node], number: u64) -> u8 {
    match nodes.get(number as usize) {
        Some(node) => node.width(),
        None => 0,
    }
}

// About how many gates an operation has on two words of these widths: an adder has five for each bit, a product an
// adder and a row of ands for each bit of its second word, and a shift a row of choices for each.
fn gates_of_operation(op: Op, a: u8, b: u8) -> u64 {
    let (a, b) = (u64::from(a), u64::from(b));
    match op {
        Op::And | Op::Or | Op::Xor => a,
        Op::Eq => a * 2,
        Op::Add | Op::Sub | Op::Ult | Op::Slt => a * 5,
        Op::Mul => a.saturating_mul(b).saturating_mul(6),
        Op::Shl | Op::Shr | Op::Sar => a.saturating_mul(b),
        Op::Concat => 0,
    }
}

fn gates_of_node(nodes: &[Node], node: &Node) -> u64 {
    match node {
        Node::Two { op, a, b, .. } => {
            gates_of_operation(*op, width_at(nodes, *a), width_at(nodes, *b))
        }
        Node::Mux { width, .. } => u64::from(*width),
        Node::Free { .. } | Node::Const(_) | Node::Not { .. } => 0,
        Node::Slice { .. } | Node::Zext { .. } | Node::Sext { .. } => 0,
    }
}

/// About how many gates the clauses of an obligation describe, up to the greatest number of 64 bits.
pub(crate) fn gates_of(ob: &Ob) -> u64 {
    let nodes = ob.nodes();
    let mut gates: u64 = 0;
    for node in nodes {
        gates = gates.saturating_add(gates_of_node(nodes, node));
    }
    gates
}

// Where those end that are gone through at a time, from this one on: one for each worker, and more while they weigh
// little.
fn end_of_few<T: Weighs>(all: &[T], at: usize, workers: u32) -> usize
    requires { at < length all.now }
    ensures more { at < result }
    ensures within { result ≤ length all.now }
{
    let most = all.len().min(at.saturating_add(AT_ONCE));
    let mut end = at + 1;
    let mut weight = all[at].weight();
    while end < most && (end - at < workers as usize || weight < WEIGHT_AT_ONCE) {
        weight = weight.saturating_add(all[end].weight());
        end += 1;
    }
    end
}

/// A list cut into those that are gone through at a time.
pub(crate) fn few_at_a_time<'a, R: Threads + Sync, T: Weighs>(
    crew: &Crew<'_, R>,
    all: &'a [T],
) -> Result<Vec<&'a [T]>, AllocError>
    ensures { IfOk result (λ pieces. flat_map (λ few. few.now) pieces.items ≡ all.now) }
{
    let mut pieces = Vec::new(crew.alloc);
    let mut at = 0;
    while at < all.len() {
        let end = end_of_few(all, at, crew.workers);
        pieces.push(&all[at..end])?;
        at = end;
    }
    Ok(pieces)
}
