// Leaves by name and offset.
ghost use Rattle.std.specs.Prelude.{◌≡◌, IfOk};

use elab_step_expr::{Leaf, Leaves};
use outside::Text;
use std::alloc::{AllocError, Global};
use std::test::Fail;

// A leaf of 4 bits.
fn leaf(alloc: Global, name: &[u8], offset: u32, node: u64) -> Result<Leaf, AllocError>
    ensures { IfOk result (λ l. l.width ≡ 4) }
{
    Ok(Leaf {
        name: Text::copy(alloc, name)?,
        offset,
        width: 4,
        low: 0,
        signed: false,
        node,
    })
}

fn add_leaves(alloc: Global, leaves: &mut Leaves) -> Result<(), AllocError> {
    leaves.push(alloc, leaf(alloc, b"a", 0, 5)?)?;
    leaves.push(alloc, leaf(alloc, b"b", 0, 6)?)?;
    leaves.push(alloc, leaf(alloc, b"a", 1, 7)?)?;
    leaves.push(alloc, leaf(alloc, b"a", 0, 8)?)
}

// A name, an offset, and the node of the leaf that is found.
const FOUND: &[(&str, u32, Option<u64>)] = &[
    ("a", 0, Some(5)),
    ("b", 0, Some(6)),
    ("a", 1, Some(7)),
    ("b", 1, None),
    ("c", 0, None),
];

#[test]
fn the_first_leaf_of_a_name_and_offset_is_found(rt: HostRuntime) -> Result<(), Fail> {
    let mut leaves = Leaves::new(rt.alloc());
    add_leaves(rt.alloc(), &mut leaves)?;
    assert!(rt; leaves.len() == 4 && leaves.declared().entries().len() == 4);
    for (name, offset, want) in FOUND {
        let node = leaves.find(name.as_bytes(), *offset).map(|leaf| leaf.node);
        assert_eq!(rt; node, *want);
    }
    Ok(())
}
