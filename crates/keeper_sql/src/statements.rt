// The statements over the tables.

use crate::database::{Tables, value_at};
use outside::{Block, OutFault, Sign, Text, TraceText, Traces};
use sqlite::types::{FromSql, ValueRef};
use sqlite::{Row, params};
use std::alloc::Global;

fn text_at(row: &Row, at: usize) -> Result<Text, OutFault> {
    Ok(Text::new(value_at(row, at)?))
}

fn text_if_any(row: &Row, at: usize) -> Result<Option<Text>, OutFault> {
    match value_at(row, at)? {
        Some(bytes) => Ok(Some(Text::new(bytes))),
        None => Ok(None),
    }
}

fn bytes_of(text: &Option<Text>) -> Option<&[u8]> {
    match text {
        Some(text) => Some(text.bytes()),
        None => None,
    }
}

fn block_of(row: &Row, traces: Traces) -> Result<Block, OutFault> {
    let module = text_if_any(row, 0)?;
    let set = text_if_any(row, 1)?;
    let report = text_if_any(row, 2)?;
    Ok(Block {
        module,
        set,
        report,
        traces,
    })
}

fn trace_of(row: &Row) -> Result<TraceText, OutFault> {
    let line = value_at(row, 0)?;
    let text = text_at(row, 1)?;
    Ok(TraceText { line, text })
}

fn sign_of(row: &Row) -> Result<Sign, OutFault> {
    let number = value_at(row, 0)?;
    let block = text_at(row, 1)?;
    let module = text_at(row, 2)?;
    let set = text_at(row, 3)?;
    let report = text_at(row, 4)?;
    Ok(Sign {
        number,
        block,
        module,
        set,
        report,
    })
}

// The value of an answer of at most one row, which has one column.
fn only_value<T: Tables, V: FromSql>(
    tables: &mut T,
    sql: &str,
    params: &[ValueRef<'_>],
) -> Result<Option<V>, OutFault> {
    let rows = tables.rows(sql, params)?;
    match rows.first() {
        Some(row) => Ok(Some(value_at(row, 0)?)),
        None => Ok(None),
    }
}

pub fn block<T: Tables>(
    tables: &mut T,
    alloc: Global,
    name: &[u8],
) -> Result<Option<Block>, OutFault> {
    let rows = tables.rows(
        "SELECT module, property_set, report FROM blocks WHERE name = ?1",
        params![name],
    )?;
    let Some(row) = rows.first() else {
        return Ok(None);
    };
    let traces = traces(tables, alloc, name)?;
    let block = block_of(row, traces)?;
    Ok(Some(block))
}

fn traces<T: Tables>(tables: &mut T, alloc: Global, block: &[u8]) -> Result<Traces, OutFault> {
    let rows = tables.rows(
        "SELECT line, text FROM traces WHERE block = ?1 ORDER BY place",
        params![block],
    )?;
    let mut traces = Vec::new(alloc);
    for row in &rows {
        traces.push(trace_of(row)?)?;
    }
    Ok(Traces::new(traces))
}

pub fn names<T: Tables>(tables: &mut T, alloc: Global) -> Result<Vec<Text>, OutFault> {
    let rows = tables.rows("SELECT name FROM blocks ORDER BY name", &[])?;
    let mut names = Vec::new(alloc);
    for row in &rows {
        names.push(text_at(row, 0)?)?;
    }
    Ok(names)
}

pub fn put_block<T: Tables>(tables: &mut T, name: &[u8], block: &Block) -> Result<(), OutFault> {
    tables.run("BEGIN", &[])?;
    let written = write_block(tables, name, block);
    end(tables, written)
}

// Ends a transaction: keeps what was written, or undoes it where not all of it was.
fn end<T: Tables>(tables: &mut T, written: Result<(), OutFault>) -> Result<(), OutFault> {
    let ended = match written {
        Ok(()) => tables.run("COMMIT", &[]),
        Err(fault) => Err(fault),
    };
    if ended.is_err() {
        // It is refused where the failure itself has undone the transaction.
        let _ = tables.run("ROLLBACK", &[]);
    }
    ended
}

fn write_block<T: Tables>(tables: &mut T, name: &[u8], block: &Block) -> Result<(), OutFault> {
    tables.run("DELETE FROM traces WHERE block = ?1", params![name])?;
    tables.run("DELETE FROM blocks WHERE name = ?1", params![name])?;
    insert_block(tables, name, block)?;
    for trace in block.traces.as_slice() {
        insert_trace(tables, name, trace)?;
    }
    Ok(())
}

fn insert_block<T: Tables>(tables: &mut T, name: &[u8], block: &Block) -> Result<(), OutFault> {
    let module = bytes_of(&block.module);
    let set = bytes_of(&block.set);
    let report = bytes_of(&block.report);
    tables.run(
        "INSERT INTO blocks (name, module, property_set, report) VALUES (?1, ?2, ?3, ?4)",
        params![name, module, set, report],
    )
}

fn insert_trace<T: Tables>(
    tables: &mut T,
    block: &[u8],
    trace: &TraceText,
) -> Result<(), OutFault> {
    tables.run(
        "INSERT INTO traces (block, line, text) VALUES (?1, ?2, ?3)",
        params![block, trace.line, trace.text.bytes()],
    )
}

pub fn proof<T: Tables>(tables: &mut T, key: &[u8]) -> Result<Option<Vec<u8>>, OutFault> {
    only_value(
        tables,
        "SELECT bytes FROM proofs WHERE key = ?1",
        params![key],
    )
}

pub fn put_proof<T: Tables>(tables: &mut T, key: &[u8], bytes: &[u8]) -> Result<(), OutFault> {
    tables.run(
        "INSERT INTO proofs (key, bytes) VALUES (?1, ?2) ON CONFLICT (key) DO UPDATE SET bytes = ?2",
        params![key, bytes],
    )
}

pub fn proof_key_after<T: Tables>(
    tables: &mut T,
    key: Option<&[u8]>,
) -> Result<Option<Text>, OutFault> {
    let found = match key {
        Some(key) => only_value(
            tables,
            "SELECT key FROM proofs WHERE key > ?1 ORDER BY key LIMIT 1",
            params![key],
        )?,
        None => only_value(tables, "SELECT key FROM proofs ORDER BY key LIMIT 1", &[])?,
    };
    Ok(found.map(Text::new))
}

// What a sign-off is found by.
#[derive(Clone, Copy)]
struct Texts<'a> {
    block: &'a [u8],
    module: &'a [u8],
    set: &'a [u8],
}

// FNV-1a (Fowler, Noll and Vo, 64 bits) over further bytes.
fn mixed(hash: u64, bytes: &[u8]) -> u64 {
    let mut hash = hash;
    for byte in bytes {
        hash = (hash ^ u64::from(*byte)).wrapping_mul(0x100_0000_01b3);
    }
    hash
}

// Texts that differ may have one digest, so a sign-off that is found by it is compared.
fn digest(texts: &Texts<'_>) -> i64 {
    let hash = mixed(0xcbf2_9ce4_8422_2325, texts.block);
    let hash = mixed(mixed(hash, texts.module), texts.set);
    i64::try_from(hash >> 1).unwrap_or(0)
}

pub fn find_sign<T: Tables>(
    tables: &mut T,
    block: &[u8],
    module: &[u8],
    set: &[u8],
) -> Result<Option<u64>, OutFault> {
    let texts = Texts { block, module, set };
    let rows = tables.rows(
        "SELECT number FROM sign_keys WHERE digest = ?1 ORDER BY number",
        params![digest(&texts)],
    )?;
    for row in &rows {
        let number: i64 = value_at(row, 0)?;
        let found = sign_with(tables, number, &texts)?;
        if found.is_some() {
            return Ok(found);
        }
    }
    Ok(None)
}

// The number, where the sign-off that has it is of these texts.
fn sign_with<T: Tables>(
    tables: &mut T,
    number: i64,
    texts: &Texts<'_>,
) -> Result<Option<u64>, OutFault> {
    only_value(
        tables,
        "SELECT number FROM signs WHERE number = ?1 AND block = ?2 AND module = ?3 AND property_set = ?4",
        params![number, texts.block, texts.module, texts.set],
    )
}

pub fn put_sign<T: Tables>(
    tables: &mut T,
    block: &[u8],
    module: &[u8],
    set: &[u8],
    report: &[u8],
) -> Result<u64, OutFault> {
    let number = next_sign(tables)?;
    let Ok(answer) = u64::try_from(number) else {
        return Err(OutFault::Failed);
    };
    tables.run("BEGIN", &[])?;
    let written = write_sign(tables, number, &Texts { block, module, set }, report);
    end(tables, written)?;
    Ok(answer)
}

fn write_sign<T: Tables>(
    tables: &mut T,
    number: i64,
    texts: &Texts<'_>,
    report: &[u8],
) -> Result<(), OutFault> {
    tables.run(
        "INSERT INTO signs (number, block, module, property_set, report) VALUES (?1, ?2, ?3, ?4, ?5)",
        params![number, texts.block, texts.module, texts.set, report],
    )?;
    put_key(tables, number, digest(texts))
}

fn put_key<T: Tables>(tables: &mut T, number: i64, digest: i64) -> Result<(), OutFault> {
    tables.run(
        "INSERT INTO sign_keys (number, digest) VALUES (?1, ?2)",
        params![number, digest],
    )
}

// One more than the number of sign-offs.
fn next_sign<T: Tables>(tables: &mut T) -> Result<i64, OutFault> {
    only_value(tables, "SELECT COUNT(*) + 1 FROM sign_keys", &[])?.ok_or(OutFault::Failed)
}

/// Enters the sign-offs that the index of digests doesn't have yet: those of a file that was written without it.
pub fn index_signs<T: Tables>(tables: &mut T) -> Result<(), OutFault> {
    let newest = "SELECT number FROM sign_keys ORDER BY number DESC LIMIT 1";
    let mut last: i64 = only_value(tables, newest, &[])?.unwrap_or(0);
    for _ in 0..u64::MAX {
        match index_sign_after(tables, last)? {
            Some(number) => last = number,
            None => break,
        }
    }
    Ok(())
}

// Enters the first sign-off behind this number, and says which it is.
fn index_sign_after<T: Tables>(tables: &mut T, last: i64) -> Result<Option<i64>, OutFault> {
    let rows = tables.rows(
        "SELECT number, block, module, property_set FROM signs WHERE number > ?1 ORDER BY number LIMIT 1",
        params![last],
    )?;
    let Some(row) = rows.first() else {
        return Ok(None);
    };
    let number = value_at(row, 0)?;
    put_key(tables, number, digest_of(row)?)?;
    Ok(Some(number))
}

fn digest_of(row: &Row) -> Result<i64, OutFault> {
    let (block, module, set) = (text_at(row, 1)?, text_at(row, 2)?, text_at(row, 3)?);
    Ok(digest(&Texts {
        block: block.bytes(),
        module: module.bytes(),
        set: set.bytes(),
    }))
}

/// All sign-offs. One row is held at a time besides what is answered.
pub fn signs<T: Tables>(tables: &mut T, alloc: Global) -> Result<Vec<Sign>, OutFault> {
    let mut signs = Vec::new(alloc);
    let mut last = 0;
    for _ in 0..u64::MAX {
        let Some(sign) = sign_after(tables, last)? else {
            break
        };
        last = sign.number;
        signs.push(sign)?;
    }
    Ok(signs)
}

// The first sign-off behind this number.
fn sign_after<T: Tables>(tables: &mut T, last: u64) -> Result<Option<Sign>, OutFault> {
    let Ok(last) = i64::try_from(last) else {
        return Ok(None);
    };
    let rows = tables.rows(
        "SELECT number, block, module, property_set, report FROM signs WHERE number > ?1 ORDER BY number LIMIT 1",
        params![last],
    )?;
    match rows.first() {
        Some(row) => Ok(Some(sign_of(row)?)),
        None => Ok(None),
    }
}
