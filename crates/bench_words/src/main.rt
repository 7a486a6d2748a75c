//! How long words take: a chain of nodes that is added and taken out, and the clauses of a product of 64 bits.
//!
//! `bench_words LENGTH` builds a chain of so many nodes, 1,000 where no number is given.
#![tactic(auto)]

ghost use Rattle.std.specs.Prelude.{◌≡◌, ◌<◌, [], ◌∷◌, length, map, slice_index, pos, IfOk};
ghost use Rattle.word_dag.specs.declared.node.Node.TheVariants.{Free};
ghost use Rattle.word_dag.specs.Nodes.{width_of};
ghost use Rattle.bench_words.specs.Chains.{EndsIn};

use cnf_build::build;
use outside::Text;
use std::alloc::{AllocError, Global};
use std::{env, io};
use word_dag::{Dag, Node, Op, extract};

fn free(alloc: Global, name: &[u8]) -> Result<Node, AllocError>
    ensures { IfOk result (λ n. n ≡ Free name.now 64 0 (pos 0)) }
{
    Ok(Node::Free {
        name: Text::copy(alloc, name)?,
        width: 64,
        side: 0,
        cycle: 0,
    })
}

fn word(op: Op, a: u64, b: u64) -> Node
    ensures { result ≡ Node.Two op 64 a b }
{
    Node::Two {
        op,
        width: 64,
        a,
        b,
    }
}

fn equal(a: u64, b: u64) -> Node
    ensures { result ≡ Node.Two Op.Eq 1 a b }
{
    Node::Two {
        op: Op::Eq,
        width: 1,
        a,
        b,
    }
}

// Adds a chain of sums to a dag, each of the one before and the first word; the last of them.
fn add_chain(dag: &mut Dag, first: u64, count: u64) -> Result<u64, AllocError>
    requires { EndsIn dag.old first }
    ensures chain { IfOk result (EndsIn dag.new) }
    ensures first { IfOk result (λ _. EndsIn dag.new first) }
{
    let mut last = first;
    for _ in 0..count {
        last = dag.add(word(Op::Add, last, first))?;
    }
    Ok(last)
}

// How many nodes the obligation of a chain has.
fn chain_nodes(alloc: Global, count: u64) -> Result<usize, AllocError> {
    let mut dag = Dag::new(alloc);
    let first = dag.add(free(alloc, b"a")?)?;
    let last = add_chain(&mut dag, first, count)?;
    let root = dag.add(equal(last, first))?;
    let ob = extract(alloc, &dag, root)?;
    Ok(ob.nodes().len())
}

// How many variables and clauses the obligation that a product of 64 bits equals a word has.
fn product_size(alloc: Global) -> Result<(u64, usize), AllocError> {
    let mut dag = Dag::new(alloc);
    let a = dag.add(free(alloc, b"a")?)?;
    let b = dag.add(free(alloc, b"b")?)?;
    let c = dag.add(free(alloc, b"c")?)?;
    let product = dag.add(word(Op::Mul, a, b))?;
    let root = dag.add(equal(product, c))?;
    let ob = extract(alloc, &dag, root)?;
    let built = build(alloc, &ob)?;
    Ok((u64::from(built.cnf.vars), built.cnf.clauses.len()))
}

fn main(rt: HostRuntime) -> io::Result<()> {
    let mut words = env::args(&rt)?;
    let _program = words.next();
    let count = match words.next() {
        Some(word) => word.parse::<u64>().unwrap_or(1_000),
        None => 1_000,
    };
    let nodes = chain_nodes(rt.alloc(), count)?;
    println!(rt; "chain: {nodes} nodes")?;
    let (vars, clauses) = product_size(rt.alloc())?;
    println!(rt; "product of 64 bits: {vars} variables, {clauses} clauses")
}
