// How statements are run. No clause says what the tables hold.

use outside::OutFault;
use sqlite::types::{FromSql, ValueRef};
use sqlite::{Alter, Connection, Error, ErrorCode, File, FileStore, MemStore, Row};
use std::alloc::Global;
use std::thread;
use std::time::Duration;

const NO_MEMORY: Error = Error::SqliteFailure(ErrorCode::OutOfMemory);

// A file that another program holds is tried this often, with so many milliseconds between two tries: five seconds in
// all.
const TRIES: u32 = 250;

const PAUSE: u64 = 20;

// Blobs compare in byte order, so each key is kept as one.
const MAKE_TABLES: &str =
    "CREATE TABLE IF NOT EXISTS blocks (name BLOB PRIMARY KEY NOT NULL, module BLOB, property_set BLOB, report BLOB) STRICT;
    CREATE TABLE IF NOT EXISTS traces (place INTEGER PRIMARY KEY, block BLOB NOT NULL, line INTEGER NOT NULL, text BLOB NOT NULL) STRICT;
    CREATE INDEX IF NOT EXISTS traces_of_blocks ON traces (block);
    CREATE TABLE IF NOT EXISTS proofs (key BLOB PRIMARY KEY NOT NULL, bytes BLOB NOT NULL) STRICT;
    CREATE TABLE IF NOT EXISTS signs (number INTEGER PRIMARY KEY, block BLOB NOT NULL, module BLOB NOT NULL, property_set BLOB NOT NULL, report BLOB NOT NULL) STRICT;
    CREATE TABLE IF NOT EXISTS sign_keys (number INTEGER PRIMARY KEY, digest INTEGER NOT NULL) STRICT;
    CREATE INDEX IF NOT EXISTS sign_keys_by_digest ON sign_keys (digest)";

/// Tables that statements can be run over.
pub trait Tables {
    /// Runs a statement that changes rows, or begins or ends a transaction.
    fn run(&mut self, sql: &str, params: &[ValueRef<'_>]) -> Result<(), OutFault>;

    /// The rows of an answer.
    fn rows(&mut self, sql: &str, params: &[ValueRef<'_>]) -> Result<Vec<Row>, OutFault>;
}

// Why a statement was refused. The fault isn't counted yet.
fn fault_of(error: Error) -> OutFault {
    if error == NO_MEMORY {
        OutFault::Memory
    } else {
        OutFault::Failed
    }
}

/// A value of a row.
pub fn value_at<T: FromSql>(row: &Row, at: usize) -> Result<T, OutFault> {
    row.get(at).map_err(fault_of)
}

fn execute<S: Alter>(
    conn: &mut Connection<S>,
    sql: &str,
    params: &[ValueRef<'_>],
) -> Result<(), OutFault> {
    match conn.execute(sql, params) {
        Ok(_) => Ok(()),
        Err(error) => Err(fault_of(error)),
    }
}

fn query<S: Alter>(
    conn: &mut Connection<S>,
    sql: &str,
    params: &[ValueRef<'_>],
) -> Result<Vec<Row>, OutFault> {
    conn.query_all(sql, params).map_err(fault_of)
}

// Opens the file, or makes it with a sum behind each page, unless another program holds it.
fn try_to_open(rt: &HostRuntime, path: &str) -> Result<Option<Database>, OutFault> {
    match Connection::open_with_sums(rt, path) {
        Ok(conn) => Ok(Some(Database::OnDisk(conn))),
        Err(Error::SqliteFailure(ErrorCode::DatabaseBusy)) => Ok(None),
        Err(error) => Err(fault_of(error)),
    }
}

fn make_tables<S: Alter>(conn: &mut Connection<S>) -> Result<(), OutFault> {
    conn.execute_batch(MAKE_TABLES).map_err(fault_of)
}

/// Where the tables are.
pub enum Database {
    OnDisk(Connection<FileStore<File>>),
    InMemory(Connection<MemStore>),
    /// They couldn't be opened: each statement is refused.
    Shut,
}

impl Drop for Database {
    fn drop(self) {
        match self {
            // What the log has is copied into the file. Where that fails, the next opening finds it in the log.
            Database::OnDisk(conn) => {
                let _ = conn.close();
            }
            Database::InMemory(conn) => drop(conn),
            Database::Shut => {}
        }
    }
}

impl Database {
    /// The file at this path, which is made where it isn't there. Where another program holds it, it is waited for.
    pub fn open(rt: &HostRuntime, path: &str) -> Result<Database, OutFault> {
        for _ in 0..TRIES {
            if let Some(database) = try_to_open(rt, path)? {
                return Ok(database);
            }
            thread::sleep(rt, Duration::from_millis(PAUSE));
        }
        Err(OutFault::Failed)
    }

    /// Whether there are tables.
    pub fn is_open(&self) -> bool {
        !matches!(self, Database::Shut)
    }

    /// A database in memory, without tables.
    pub fn in_memory(alloc: Global) -> Result<Database, OutFault> {
        Ok(Database::InMemory(Connection::open_in_memory(alloc)?))
    }

    /// Makes each table that is absent.
    pub fn make_tables(&mut self) -> Result<(), OutFault> {
        match self {
            Database::OnDisk(conn) => make_tables(conn),
            Database::InMemory(conn) => make_tables(conn),
            Database::Shut => Err(OutFault::Failed),
        }
    }
}

impl Tables for Database {
    fn run(&mut self, sql: &str, params: &[ValueRef<'_>]) -> Result<(), OutFault> {
        match self {
            Database::OnDisk(conn) => execute(conn, sql, params),
            Database::InMemory(conn) => execute(conn, sql, params),
            Database::Shut => Err(OutFault::Failed),
        }
    }

    fn rows(&mut self, sql: &str, params: &[ValueRef<'_>]) -> Result<Vec<Row>, OutFault> {
        match self {
            Database::OnDisk(conn) => query(conn, sql, params),
            Database::InMemory(conn) => query(conn, sql, params),
            Database::Shut => Err(OutFault::Failed),
        }
    }
}
