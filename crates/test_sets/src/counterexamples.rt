use outside::{MemSink, Text};
use replay::{Shown, Start, Trace, print_trace};
use set_tree::Rows;
use std::alloc::{AllocError, Global};
use std::test::Fail;

fn names(alloc: Global) -> Result<Rows<Text>, AllocError> {
    let mut names = Rows::new(alloc);
    names.push(Text::copy(alloc, b"en")?)?;
    names.push(Text::copy(alloc, b"q")?)?;
    Ok(names)
}

fn trace(alloc: Global, values: &[[u64; 2]]) -> Result<Trace, AllocError> {
    let mut rows = Rows::new(alloc);
    for [en, q] in values {
        let mut row = Rows::new(alloc);
        row.push(*en)?;
        row.push(*q)?;
        rows.push(row)?;
    }
    Ok(Trace {
        names: names(alloc)?,
        rows,
    })
}

#[test]
fn a_segment_with_its_reset_cycles(rt: HostRuntime) -> Result<(), Fail> {
    let alloc: Global = rt.alloc();
    let mut start = Rows::new(alloc);
    start.push(Start {
        name: Text::copy(alloc, b"u.q")?,
        value: 18_446_744_073_709_551_615,
    })?;
    let shown = Shown {
        start,
        before: 2,
        first: trace(alloc, &[[0, 3], [1, 0], [1, 0], [0, 10]])?,
        second: None,
    };
    let mut sink = MemSink::new(alloc, Vec::new(alloc));
    print_trace(b"reset", &shown, &mut sink)?;
    assert!(rt;
        sink.bytes()
            == b"refuted reset\nstart u.q 18446744073709551615\ncycle en q\n-2 0 3\n-1 1 0\n0 1 0\n1 0 10\n".as_slice()
    );
    Ok(())
}

#[test]
fn two_windows(rt: HostRuntime) -> Result<(), Fail> {
    let alloc: Global = rt.alloc();
    let shown = Shown {
        start: Rows::new(alloc),
        before: 0,
        first: trace(alloc, &[[0, 3]])?,
        second: Some(trace(alloc, &[[0, 2]])?),
    };
    let mut sink = MemSink::new(alloc, Vec::new(alloc));
    print_trace(b"determine step", &shown, &mut sink)?;
    assert!(rt;
        sink.bytes()
            == b"refuted determine step\nfirst\ncycle en q\n0 0 3\nsecond\ncycle en q\n0 0 2\n".as_slice()
    );
    Ok(())
}
