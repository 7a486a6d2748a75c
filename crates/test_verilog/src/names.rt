// Names in lists.

use elab_flat_scopes::Names;
use outside::Text;
use std::test::Fail;

#[test]
fn the_first_place_of_a_name_is_found(rt: HostRuntime) -> Result<(), Fail> {
    let alloc = rt.alloc();
    let a = Text::copy(alloc, b"a")?;
    let b = Text::copy(alloc, b"b")?;
    let mut list = Vec::new(alloc);
    list.push(&a)?;
    list.push(&b)?;
    list.push(&a)?;
    let names = Names::of(alloc, list)?;
    for (name, want) in [
        (b"a".as_slice(), Some(0)),
        (b"b".as_slice(), Some(1)),
        (b"".as_slice(), None),
    ] {
        assert_eq!(rt; names.place(name), want);
        assert_eq!(rt; names.has(name), want.is_some());
    }
    Ok(())
}
