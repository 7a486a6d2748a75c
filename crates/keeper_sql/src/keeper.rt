// The keeper.
ghost use Rattle.std.specs.Prelude.{◌≡◌, None, IfOk};
ghost use Rattle.outside.specs.Faults.{HasCause};

use crate::database::Database;
use crate::statements;
use outside::{Block, Keeper, OutFault, Sign, Text};
use std::alloc::{AllocError, Global};

/// A store in tables of a database: blocks, traces, proofs, sign-offs, and an index of these by digests of their texts.
/// It doesn't tell what they hold. Each call that fails leaves them as they were.
#[derive(Drop)]
pub struct SqlKeeper {
    database: Database,
    faults: u64,
}

impl SqlKeeper {
    /// A keeper over the file at this path, with no faults so far. A file that isn't there is made, with a sum behind
    /// each page, and so is each table that it doesn't have. A file that another program holds is waited for, five
    /// seconds at most. Refused only where memory runs out: where the file can't be opened otherwise, isn't such a
    /// database, or has a page that its sum doesn't fit, the keeper's every call counts a fault.
    pub fn over(rt: &HostRuntime, path: &str) -> Result<SqlKeeper, AllocError>
        ensures { IfOk result (λ keeper. ⟦<SqlKeeper as Keeper>⟧.faults keeper ≡ 0) }
    {
        SqlKeeper::on(Database::open(rt, path))
    }

    /// A keeper over tables in memory without rows, with no faults so far.
    pub fn in_memory(alloc: Global) -> Result<SqlKeeper, AllocError>
        ensures { IfOk result (λ keeper. ⟦<SqlKeeper as Keeper>⟧.faults keeper ≡ 0) }
    {
        SqlKeeper::on(Database::in_memory(alloc))
    }

    /// Whether its tables could be opened. Where they couldn't, its every call counts a fault.
    pub fn is_open(&self) -> bool {
        self.database.is_open()
    }

    // A keeper over what was opened, with its tables made.
    fn on(opened: Result<Database, OutFault>) -> Result<SqlKeeper, AllocError>
        ensures { IfOk result (λ keeper. keeper.faults ≡ 0) }
    {
        let database = match with_tables(opened) {
            Ok(database) => database,
            Err(OutFault::Memory) => return Err(AllocError),
            Err(OutFault::Failed) => Database::Shut,
        };
        Ok(SqlKeeper {
            database,
            faults: 0,
        })
    }
}

fn with_tables(opened: Result<Database, OutFault>) -> Result<Database, OutFault> {
    let mut database = opened?;
    database.make_tables()?;
    statements::index_signs(&mut database)?;
    Ok(database)
}

// Counts a statement that was refused as a fault, running out of memory aside.
fn counted<T>(answer: Result<T, OutFault>, faults: &mut u64) -> Result<T, OutFault>
    ensures { HasCause faults.old faults.new result }
{
    if let Err(OutFault::Failed) = answer {
        *faults = faults.saturating_add(1);
    }
    answer
}

impl Keeper for SqlKeeper {
    ghost tables = { λ k. None };

    ghost faults = { λ k. k.faults };

    fn block(&mut self, alloc: Global, name: &[u8]) -> Result<Option<Block>, OutFault> {
        counted(
            statements::block(&mut self.database, alloc, name),
            &mut self.faults,
        )
    }

    fn names(&mut self, alloc: Global) -> Result<Vec<Text>, OutFault> {
        counted(
            statements::names(&mut self.database, alloc),
            &mut self.faults,
        )
    }

    fn put_block(&mut self, _alloc: Global, name: &[u8], block: &Block) -> Result<(), OutFault> {
        counted(
            statements::put_block(&mut self.database, name, block),
            &mut self.faults,
        )
    }

    fn proof(&mut self, _alloc: Global, key: &[u8]) -> Result<Option<Vec<u8>>, OutFault> {
        counted(statements::proof(&mut self.database, key), &mut self.faults)
    }

    fn put_proof(&mut self, _alloc: Global, key: &[u8], bytes: &[u8]) -> Result<(), OutFault> {
        counted(
            statements::put_proof(&mut self.database, key, bytes),
            &mut self.faults,
        )
    }

    fn proof_key_after(
        &mut self,
        _alloc: Global,
        key: Option<&[u8]>,
    ) -> Result<Option<Text>, OutFault> {
        counted(
            statements::proof_key_after(&mut self.database, key),
            &mut self.faults,
        )
    }

    fn find_sign(
        &mut self,
        _alloc: Global,
        block: &[u8],
        module_text: &[u8],
        set_text: &[u8],
    ) -> Result<Option<u64>, OutFault> {
        counted(
            statements::find_sign(&mut self.database, block, module_text, set_text),
            &mut self.faults,
        )
    }

    fn put_sign(
        &mut self,
        _alloc: Global,
        block: &[u8],
        module_text: &[u8],
        set_text: &[u8],
        report: &[u8],
    ) -> Result<u64, OutFault> {
        counted(
            statements::put_sign(&mut self.database, block, module_text, set_text, report),
            &mut self.faults,
        )
    }

    fn signs(&mut self, alloc: Global) -> Result<Vec<Sign>, OutFault> {
        counted(
            statements::signs(&mut self.database, alloc),
            &mut self.faults,
        )
    }
}
