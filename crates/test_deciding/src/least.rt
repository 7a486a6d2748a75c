// Small obligations, whose least values are worked out by hand.
ghost use Rattle.std.specs.Prelude.{◌≡◌, ◌≤◌, IfOk};
ghost use Rattle.word_dag.specs.declared.node.Node.TheVariants.{Free};

use least_trace::{LeastEnd, least};
use outside::Text;
use std::alloc::{AllocError, Global};
use std::test::Fail;
use word_core::Word;
use word_dag::{Node, Ob, Op, Table, fits, value_at};

fn free(alloc: Global, name: &[u8], width: u8, side: u8, cycle: i16) -> Result<Node, AllocError>
    ensures { IfOk result (λ node. node ≡ Free name.now width side cycle) }
{
    Ok(Node::Free {
        name: Text::copy(alloc, name)?,
        width,
        side,
        cycle,
    })
}

// The sum of three words is 5; they come in the order of their numbers 2, 1, 0.
fn sum_is_five(alloc: Global) -> Result<Ob, AllocError> {
    let nodes = Vec::from_array(
        alloc,
        [
            free(alloc, b"b", 4, 1, 0)?,
            free(alloc, b"z", 4, 0, 0)?,
            free(alloc, b"c", 4, 1, -1)?,
            Node::Two {
                op: Op::Add,
                width: 4,
                a: 0,
                b: 1,
            },
            Node::Two {
                op: Op::Add,
                width: 4,
                a: 2,
                b: 3,
            },
            Node::Const(Word::new(4, 5)),
            Node::Two {
                op: Op::Eq,
                width: 1,
                a: 4,
                b: 5,
            },
        ],
    )?;
    Ok(Ob::new(nodes, 6))
}

// The product of two words of 8 bits is 251 * 241, both of which are prime.
fn product_of_primes(alloc: Global) -> Result<Ob, AllocError> {
    let nodes = Vec::from_array(
        alloc,
        [
            free(alloc, b"a", 8, 0, 0)?,
            free(alloc, b"b", 8, 0, 0)?,
            Node::Zext { width: 16, a: 0 },
            Node::Zext { width: 16, a: 1 },
            Node::Two {
                op: Op::Mul,
                width: 16,
                a: 2,
                b: 3,
            },
            Node::Const(Word::new(16, 60_491)),
            Node::Two {
                op: Op::Eq,
                width: 1,
                a: 4,
                b: 5,
            },
        ],
    )?;
    Ok(Ob::new(nodes, 6))
}

// The least values, where these are values at which the root is 1.
fn found_from(
    alloc: Global,
    ob: &Ob,
    values: &[u64],
    budget: u64,
) -> Result<Option<LeastEnd>, AllocError>
    requires { 1 ≤ budget }
{
    if !fits(ob.nodes(), values) {
        return Ok(None);
    }
    let mut table = Table::new(alloc, ob.nodes().len())?;
    if value_at(ob, values, &mut table).value() != 1 {
        return Ok(None);
    }
    Ok(Some(least(alloc, ob, values, budget)?))
}

#[test]
fn finds_the_least_words_of_a_sum(rt: HostRuntime) -> Result<(), Fail> {
    let alloc = rt.alloc();
    let ob = sum_is_five(alloc)?;
    match found_from(alloc, &ob, &[14, 15, 8], 1000)? {
        Some(LeastEnd::Found { values, excluded }) => {
            assert_eq!(rt; values.as_slice(), [5, 0, 0].as_slice());
            let bits: Vec<_> = excluded.iter().map(|e| e.bit).collect(alloc)?;
            assert_eq!(rt; bits.as_slice(), [9, 11].as_slice());
        }
        _ => panic!(rt; "the least values"),
    }
    Ok(())
}

#[test]
fn has_no_values_without_free_words(rt: HostRuntime) -> Result<(), Fail> {
    let alloc = rt.alloc();
    let ob = Ob::new(Vec::from_array(alloc, [Node::Const(Word::new(1, 1))])?, 0);
    match found_from(alloc, &ob, &[7], 1)? {
        Some(LeastEnd::Found { values, excluded }) => {
            assert!(rt; values.is_empty() && excluded.is_empty());
        }
        _ => panic!(rt; "no values"),
    }
    Ok(())
}

#[test]
fn stops_at_a_product_or_finds_its_lesser_factor(rt: HostRuntime) -> Result<(), Fail> {
    let alloc = rt.alloc();
    let ob = product_of_primes(alloc)?;
    match found_from(alloc, &ob, &[251, 241], 1)? {
        Some(LeastEnd::Stopped { chain, .. }) => assert_eq!(rt; chain.len(), 1),
        _ => panic!(rt; "a chain"),
    }
    match found_from(alloc, &ob, &[251, 241], 1_000_000)? {
        Some(LeastEnd::Found { values, .. }) => assert_eq!(rt;
            values.as_slice(),
            [241, 251].as_slice()
        ),
        _ => panic!(rt; "the least values"),
    }
    Ok(())
}
