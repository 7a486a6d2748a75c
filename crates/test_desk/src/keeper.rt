// The keeper over SQL tables.
use keeper_sql::SqlKeeper;
use outside::{Block, Keeper, OutFault, Sign, Text, TraceText, Traces};
use std::alloc::{AllocError, Global};
use std::fs;
use std::process::Abort;
use std::test::Fail;

// A block to put, with a trace for each of these lines.
#[derive(Clone, Copy)]
struct Row<'a> {
    name: &'a [u8],
    module: Option<&'a [u8]>,
    set: Option<&'a [u8]>,
    report: Option<&'a [u8]>,
    lines: &'a [u32],
}

fn text_if_any(alloc: Global, bytes: Option<&[u8]>) -> Result<Option<Text>, AllocError> {
    match bytes {
        Some(bytes) => Ok(Some(Text::copy(alloc, bytes)?)),
        None => Ok(None),
    }
}

fn add_traces(alloc: Global, traces: &mut Vec<TraceText>, row: &Row<'_>) -> Result<(), AllocError> {
    for line in row.lines {
        let text = Text::copy(alloc, row.name)?;
        traces.push(TraceText { line: *line, text })?;
    }
    Ok(())
}

fn traces_of(alloc: Global, row: &Row<'_>) -> Result<Traces, AllocError> {
    let mut traces = Vec::new(alloc);
    add_traces(alloc, &mut traces, row)?;
    Ok(Traces::new(traces))
}

fn block_of(alloc: Global, row: &Row<'_>) -> Result<Block, AllocError> {
    let module = text_if_any(alloc, row.module)?;
    let set = text_if_any(alloc, row.set)?;
    let report = text_if_any(alloc, row.report)?;
    let traces = traces_of(alloc, row)?;
    Ok(Block {
        module,
        set,
        report,
        traces,
    })
}

fn is(text: &Option<Text>, want: Option<&[u8]>) -> bool {
    match (text, want) {
        (Some(text), Some(want)) => text.bytes() == want,
        (text, want) => text.is_none() && want.is_none(),
    }
}

fn has_traces(block: &Block, row: &Row<'_>) -> bool {
    let traces = block.traces.as_slice();
    traces.len() == row.lines.len()
        && traces.iter().zip(row.lines).all(|(trace, line)| trace.line == *line
            && trace.text.bytes() == row.name)
}

fn is_of(block: &Block, row: &Row<'_>) -> bool {
    is(&block.module, row.module)
        && is(&block.set, row.set)
        && is(&block.report, row.report)
        && has_traces(block, row)
}

// Whether the keeper has this row.
fn has<K: Keeper>(alloc: Global, keeper: &mut K, row: &Row<'_>) -> Result<bool, OutFault> {
    match keeper.block(alloc, row.name)? {
        Some(block) => Ok(is_of(&block, row)),
        None => Ok(false),
    }
}

fn put<K: Keeper>(alloc: Global, keeper: &mut K, row: &Row<'_>) -> Result<(), OutFault> {
    let block = block_of(alloc, row)?;
    keeper.put_block(alloc, row.name, &block)
}

fn add_all(all: &mut Text, texts: &[Text]) -> Result<(), AllocError> {
    for text in texts {
        all.append(b" ")?;
        all.append(text.bytes())?;
    }
    Ok(())
}

// These texts, each behind a space.
fn joined(alloc: Global, texts: &[Text]) -> Result<Text, AllocError> {
    let mut all = Text::copy(alloc, b"")?;
    add_all(&mut all, texts)?;
    Ok(all)
}

// Adds the keys of proofs in their order.
fn walk<K: Keeper>(alloc: Global, keeper: &mut K, keys: &mut Vec<Text>) -> Result<(), OutFault> {
    for _ in 0..9 {
        let above = keys.last().map(|key| key.bytes());
        let Some(key) = keeper.proof_key_after(alloc, above)? else {
            break
        };
        keys.push(key)?;
    }
    Ok(())
}

// The proofs' keys, each behind a space, as a walk from the least one finds them.
fn walked<K: Keeper>(alloc: Global, keeper: &mut K) -> Result<Text, OutFault> {
    let mut keys = Vec::new(alloc);
    walk(alloc, keeper, &mut keys)?;
    Ok(joined(alloc, &keys)?)
}

// Rows as they are put, the second one in place of the first.
const PUT: &[Row] = &[
    Row {
        name: b"b",
        module: None,
        set: None,
        report: None,
        lines: &[3, 1, 4294967295],
    },
    Row {
        name: b"b",
        module: Some(b"module \xff\x00"),
        set: Some(b""),
        report: Some(b"report"),
        lines: &[3, 1, 4294967295],
    },
    Row {
        name: b"a",
        module: None,
        set: None,
        report: None,
        lines: &[7],
    },
    Row {
        name: b"ab",
        module: Some(b"module \xff\x00"),
        set: Some(b""),
        report: Some(b"report"),
        lines: &[],
    },
];

fn keeps<K: Keeper>(rt: &impl Abort, alloc: Global, keeper: &mut K) -> Result<(), Fail> {
    for row in PUT.iter().skip(1) {
        assert!(rt; has(alloc, keeper, row)?);
    }
    Ok(())
}

fn names_are<K: Keeper>(
    rt: &impl Abort,
    alloc: Global,
    keeper: &mut K,
    want: &[u8],
) -> Result<(), Fail> {
    let names = joined(alloc, &keeper.names(alloc)?)?;
    assert!(rt; names.bytes() == want);
    Ok(())
}

fn puts<K: Keeper>(rt: &impl Abort, alloc: Global, keeper: &mut K) -> Result<(), Fail> {
    for row in PUT {
        put(alloc, keeper, row)?;
        assert!(rt; has(alloc, keeper, row)?);
    }
    Ok(())
}

fn blocks<K: Keeper>(rt: &impl Abort, alloc: Global, keeper: &mut K) -> Result<(), Fail> {
    puts(rt, alloc, keeper)?;
    keeps(rt, alloc, keeper)?;
    assert!(rt; keeper.block(alloc, b"c")?.is_none());
    names_are(rt, alloc, keeper, b" a ab b")
}

// Whether this is kept under a key.
fn is_kept<K: Keeper>(
    alloc: Global,
    keeper: &mut K,
    key: &[u8],
    bytes: &[u8],
) -> Result<bool, OutFault> {
    match keeper.proof(alloc, key)? {
        Some(kept) => Ok(kept.as_slice() == bytes),
        None => Ok(false),
    }
}

const PROOFS: &[(&str, &str)] = &[
    ("key", "1"),
    ("", "2"),
    ("\u{7f}", "3"),
    ("k", "4"),
    ("key", "5"),
];

fn proofs<K: Keeper>(rt: &impl Abort, alloc: Global, keeper: &mut K) -> Result<(), Fail> {
    for (key, bytes) in PROOFS {
        keeper.put_proof(alloc, key.as_bytes(), bytes.as_bytes())?;
        assert!(rt; is_kept(alloc, keeper, key.as_bytes(), bytes.as_bytes())?);
    }
    assert!(rt; keeper.proof(alloc, b"ke")?.is_none());
    let keys = walked(alloc, keeper)?;
    assert!(rt; keys.bytes() == b"  k key \x7f".as_slice());
    Ok(())
}

const SIGNED: &[(&str, u64)] = &[("c1", 1), ("c2", 2), ("c1", 3)];

const FOUND: &[(&str, &str, Option<u64>)] = &[
    ("c1", "s", Some(1)),
    ("c2", "s", Some(2)),
    ("c1", "t", None),
];

// Whether a sign-off has this number and block, and the texts of the rows.
fn is_sign(sign: &Sign, block: &str, number: u64) -> bool {
    sign.number == number
        && sign.block.bytes() == block.as_bytes()
        && sign.module.bytes() == b"m".as_slice()
        && sign.set.bytes() == b"s".as_slice()
        && sign.report.bytes() == b"signed off".as_slice()
}

fn signs_stand<K: Keeper>(rt: &impl Abort, alloc: Global, keeper: &mut K) -> Result<(), Fail> {
    let signs = keeper.signs(alloc)?;
    assert!(rt; signs.len() == SIGNED.len());
    for (sign, (block, number)) in signs.iter().zip(SIGNED) {
        assert!(rt; is_sign(sign, block, *number));
    }
    Ok(())
}

fn signs<K: Keeper>(rt: &impl Abort, alloc: Global, keeper: &mut K) -> Result<(), Fail> {
    for (block, number) in SIGNED {
        let put = keeper.put_sign(alloc, block.as_bytes(), b"m", b"s", b"signed off")?;
        assert!(rt; put == *number);
    }
    for (block, set, want) in FOUND {
        let found = keeper.find_sign(alloc, block.as_bytes(), b"m", set.as_bytes())?;
        assert!(rt; found == *want);
    }
    signs_stand(rt, alloc, keeper)
}

fn tables<K: Keeper>(rt: &impl Abort, alloc: Global, keeper: &mut K) -> Result<(), Fail> {
    blocks(rt, alloc, keeper)?;
    proofs(rt, alloc, keeper)?;
    signs(rt, alloc, keeper)
}

#[test]
fn tables_in_memory_have_what_was_put(rt: HostRuntime) -> Result<(), Fail> {
    let alloc = rt.alloc();
    tables(&rt, alloc, &mut SqlKeeper::in_memory(alloc)?)
}

const PATH: &str = "keeper_rows.db";

fn put_in_file(rt: &HostRuntime, alloc: Global) -> Result<(), Fail> {
    let mut keeper = SqlKeeper::over(rt, PATH)?;
    keeper.put_proof(alloc, b"key", b"bytes")?;
    Ok(())
}

fn is_in_file(rt: &HostRuntime, alloc: Global) -> Result<bool, Fail> {
    let mut keeper = SqlKeeper::over(rt, PATH)?;
    Ok(is_kept(alloc, &mut keeper, b"key", b"bytes")?)
}

#[test]
fn a_file_is_opened_with_its_rows(rt: HostRuntime) -> Result<(), Fail> {
    put_in_file(&rt, rt.alloc())?;
    assert!(rt; is_in_file(&rt, rt.alloc())?);
    fs::remove_file(&rt, PATH)?;
    let _ = fs::remove_file(&rt, "keeper_rows.db-wal");
    Ok(())
}

#[test]
fn a_file_that_cannot_be_opened_is_a_fault(rt: HostRuntime) -> Result<(), Fail> {
    let mut keeper = SqlKeeper::over(&rt, "no_such_folder/keeper.db")?;
    assert!(rt; keeper.names(rt.alloc()).err() == Some(OutFault::Failed));
    Ok(())
}
