// A store in memory.
ghost use Rattle.std.specs.Prelude.{◌≡◌, ◌&&◌, [], Option, Some, map, option_map};
ghost use Rattle.std.specs.FinMap.{empty};
ghost use Rattle.std.specs.Str.{bytes_eq};
ghost use Rattle.outside.specs.Tables.{sign_number};

use crate::byte_map::ByteMap;
use crate::plan::Plan;
use crate::rows::{copy_of_block, copy_of_signs};
use crate::{Block, Keeper, OutFault, Sign, Text};
use std::alloc::Global;

/// A store in memory, which keeps what is put until it is dropped.
#[derive(Drop)]
pub struct MemKeeper {
    blocks: ByteMap<Block>,
    proofs: ByteMap<Text>,
    signs: Vec<Sign>,
    plan: Plan,
    faults: u64,
}

impl MemKeeper {
    /// A store with empty tables. The calls of these numbers are to fail, counted from 1 over all its calls.
    pub fn new(alloc: Global, fails: Vec<u64>) -> MemKeeper
        ensures tables { ⟦<MemKeeper as Keeper>⟧.tables result ≡ Some
            (record { blocks = empty; proofs = empty; signs = [] }) }
        ensures faults { ⟦<MemKeeper as Keeper>⟧.faults result ≡ 0 }
    {
        MemKeeper {
            blocks: ByteMap::new(alloc),
            proofs: ByteMap::new(alloc),
            signs: Vec::new(alloc),
            plan: Plan::new(fails),
            faults: 0,
        }
    }

    /// From here on the calls of these numbers are to fail, counted from 1 again. The tables and the count of faults
    /// stay.
    pub fn set_fails(&mut self, fails: Vec<u64>)
        ensures tables { ⟦<MemKeeper as Keeper>⟧.tables self.new ≡ ⟦<MemKeeper as Keeper>⟧.tables self.old }
        ensures faults { ⟦<MemKeeper as Keeper>⟧.faults self.new ≡ ⟦<MemKeeper as Keeper>⟧.faults self.old }
    {
        self.plan = Plan::new(fails);
    }
}

impl Keeper for MemKeeper {
    ghost tables = { λ k. Some (record { blocks = k.blocks; proofs = k.proofs; signs = k.signs.items }) };

    ghost faults = { λ k. k.faults };

    fn block(&mut self, alloc: Global, name: &[u8]) -> Result<Option<Block>, OutFault> {
        if self.plan.fails_now(&mut self.faults) {
            return Err(OutFault::Failed);
        }
        match self.blocks.get(name) {
            Some(block) => Ok(Some(copy_of_block(alloc, block)?)),
            None => Ok(None),
        }
    }

    fn names(&mut self, alloc: Global) -> Result<Vec<Text>, OutFault> {
        if self.plan.fails_now(&mut self.faults) {
            return Err(OutFault::Failed);
        }
        Ok(self.blocks.names(alloc)?)
    }

    fn put_block(&mut self, alloc: Global, name: &[u8], block: &Block) -> Result<(), OutFault> {
        if self.plan.fails_now(&mut self.faults) {
            return Err(OutFault::Failed);
        }
        let block = copy_of_block(alloc, block)?;
        Ok(self.blocks.put(alloc, name, block)?)
    }

    fn proof(&mut self, alloc: Global, key: &[u8]) -> Result<Option<Vec<u8>>, OutFault> {
        if self.plan.fails_now(&mut self.faults) {
            return Err(OutFault::Failed);
        }
        match self.proofs.get(key) {
            Some(bytes) => Ok(Some(bytes.bytes().to_vec(alloc)?)),
            None => Ok(None),
        }
    }

    fn put_proof(&mut self, alloc: Global, key: &[u8], bytes: &[u8]) -> Result<(), OutFault> {
        if self.plan.fails_now(&mut self.faults) {
            return Err(OutFault::Failed);
        }
        let bytes = Text::copy(alloc, bytes)?;
        Ok(self.proofs.put(alloc, key, bytes)?)
    }

    fn proof_key_after(
        &mut self,
        alloc: Global,
        key: Option<&[u8]>,
    ) -> Result<Option<Text>, OutFault> {
        if self.plan.fails_now(&mut self.faults) {
            return Err(OutFault::Failed);
        }
        Ok(self.proofs.key_after(alloc, key)?)
    }

    fn find_sign(
        &mut self,
        _alloc: Global,
        block: &[u8],
        module_text: &[u8],
        set_text: &[u8],
    ) -> Result<Option<u64>, OutFault> {
        if self.plan.fails_now(&mut self.faults) {
            return Err(OutFault::Failed);
        }
        match first_of(&self.signs, block, module_text, set_text) {
            Some(sign) => Ok(Some(sign.number)),
            None => Ok(None),
        }
    }

    fn put_sign(
        &mut self,
        alloc: Global,
        block: &[u8],
        module_text: &[u8],
        set_text: &[u8],
        report: &[u8],
    ) -> Result<u64, OutFault> {
        if self.plan.fails_now(&mut self.faults) {
            return Err(OutFault::Failed);
        }
        let number = self.signs.len() as u64 + 1;
        let block = Text::copy(alloc, block)?;
        let module = Text::copy(alloc, module_text)?;
        let set = Text::copy(alloc, set_text)?;
        let report = Text::copy(alloc, report)?;
        self.signs.push(Sign {
            number,
            block,
            module,
            set,
            report,
        })?;
        Ok(number)
    }

    fn signs(&mut self, alloc: Global) -> Result<Vec<Sign>, OutFault> {
        if self.plan.fails_now(&mut self.faults) {
            return Err(OutFault::Failed);
        }
        Ok(copy_of_signs(alloc, &self.signs)?)
    }
}

// The first sign-off of these three texts.
fn first_of<'a>(
    signs: &'a [Sign],
    block: &[u8],
    module_text: &[u8],
    set_text: &[u8],
) -> Option<&'a Sign>
    ensures { option_map (λ s. s.now.number) result ≡ sign_number block.now module_text.now set_text.now signs.now }
{
    signs
        .iter()
        .find(|sign| is_of(sign, block, module_text, set_text))
}

fn is_of(sign: &Sign, block: &[u8], module_text: &[u8], set_text: &[u8]) -> bool
    ensures { result ≡ (bytes_eq sign.now.block block.now &&
        (bytes_eq sign.now.module module_text.now && bytes_eq sign.now.set set_text.now)) }
{
    sign.block.bytes() == block
        && (sign.module.bytes() == module_text && sign.set.bytes() == set_text)
}
