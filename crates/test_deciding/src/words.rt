// Small dags and obligations.
ghost use Rattle.std.specs.Prelude.{◌≡◌, [], ◌∷◌, pos, IfOk};
ghost use Rattle.word_dag.specs.declared.node.Op.TheVariants.{Eq};
ghost use Rattle.word_dag.specs.declared.node.Node.TheVariants.{Free, Const, Two};

use outside::Text;
use std::alloc::{AllocError, Global};
use std::test::Fail;
use word_core::Word;
use word_dag::{Dag, Node, Ob, Op, Table, copy_ob, extract, text, value_at};

// A free word of 2 bits.
fn free(alloc: Global, name: &[u8]) -> Result<Node, AllocError>
    ensures { IfOk result (λ n. n ≡ Free name.now 2 0 (pos 0)) }
{
    Ok(Node::Free {
        name: Text::copy(alloc, name)?,
        width: 2,
        side: 0,
        cycle: 0,
    })
}

// Whether a word of 2 bits equals 3.
fn equals_three(alloc: Global, name: &[u8]) -> Result<Ob, AllocError>
    ensures { IfOk result (λ ob. ob.nodes ≡ Free name.now 2 0 (pos 0) ∷ Const
        (record { width = 2; value = 3 }) ∷ Two Eq 1 0 1 ∷ []) }
{
    let equal = Node::Two {
        op: Op::Eq,
        width: 1,
        a: 0,
        b: 1,
    };
    let mut nodes = Vec::new(alloc);
    nodes.push(free(alloc, name)?)?;
    nodes.push(Node::Const(Word::new(2, 3)))?;
    nodes.push(equal)?;
    Ok(Ob::new(nodes, 2))
}

#[test]
fn value_is_one_at_three_alone(rt: HostRuntime) -> Result<(), Fail> {
    let ob = equals_three(rt.alloc(), b"a")?;
    let mut table = Table::new(rt.alloc(), 3)?;
    assert_eq!(rt; value_at(&ob, &[0], &mut table).value(), 0);
    assert_eq!(rt; value_at(&ob, &[1], &mut table).value(), 0);
    assert_eq!(rt; value_at(&ob, &[2], &mut table).value(), 0);
    assert_eq!(rt; value_at(&ob, &[3], &mut table).value(), 1);
    let copy = copy_ob(rt.alloc(), &ob)?;
    assert_eq!(rt; value_at(&copy, &[3], &mut table).value(), 1);
    Ok(())
}

#[test]
fn equal_nodes_are_shared(rt: HostRuntime) -> Result<(), Fail> {
    let mut dag = Dag::new(rt.alloc());
    let a = dag.add(free(rt.alloc(), b"a")?)?;
    let b = dag.add(free(rt.alloc(), b"b")?)?;
    let again = dag.add(free(rt.alloc(), b"a")?)?;
    assert_eq!(rt; again, a);
    assert_ne!(rt; a, b);
    assert_eq!(rt; dag.count(), 2);
    Ok(())
}

#[test]
fn constants_are_folded(rt: HostRuntime) -> Result<(), Fail> {
    let mut dag = Dag::new(rt.alloc());
    let three = dag.add(Node::Const(Word::new(2, 3)))?;
    let sum = dag.add(Node::Two {
        op: Op::Add,
        width: 2,
        a: three,
        b: three,
    })?;
    assert_eq!(rt; dag.count(), 2);
    let two = dag.add(Node::Const(Word::new(2, 2)))?;
    assert_eq!(rt; two, sum);
    Ok(())
}

#[test]
fn an_obligation_has_what_its_root_reads(rt: HostRuntime) -> Result<(), Fail> {
    let mut dag = Dag::new(rt.alloc());
    let a = dag.add(free(rt.alloc(), b"a")?)?;
    let b = dag.add(free(rt.alloc(), b"b")?)?;
    let root = dag.add(Node::Two {
        op: Op::Ult,
        width: 1,
        a: b,
        b: a,
    })?;
    let _other = dag.add(Node::Not { width: 2, a })?;
    let ob = extract(rt.alloc(), &dag, root)?;
    assert_eq!(rt; ob.nodes().len(), 3);
    assert_eq!(rt; ob.root(), 2);
    Ok(())
}

#[test]
fn text_has_a_line_for_each_node(rt: HostRuntime) -> Result<(), Fail> {
    let ob = equals_three(rt.alloc(), b"a")?;
    let lines = text(rt.alloc(), &ob)?;
    assert_eq!(rt;
        lines.as_slice(),
        b"0 free 2 a 0 0\n1 const 2 3\n2 eq 1 0 1\nroot 2\n".as_slice()
    );
    Ok(())
}
