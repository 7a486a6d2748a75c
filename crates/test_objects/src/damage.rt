// What a keeper has for the lines of a run, and changes of it.
use outside::{Keeper, MemKeeper, OutFault, Text};
use proof_store_records::{fits_version_1, read_steps, write_steps_1};
use std::alloc::Global;
use std::io;

/// What stands wrong in a script, or in what a keeper has.
pub fn wrong() -> io::Error {
    io::Error::from(io::ErrorKind::InvalidData)
}

/// What a keeper gives that isn't planned to fail here.
pub fn given<T: Drop>(res: Result<T, OutFault>) -> io::Result<T> {
    match res {
        Ok(value) => Ok(value),
        Err(_) => Err(wrong()),
    }
}

/// A line of a report by its name, and the key of its proof, which is the text of its obligation.
#[derive(Drop)]
pub struct Key {
    pub name: Text,
    pub key: Vec<u8>,
}

/// What becomes of the proof of a line.
#[derive(Clone, Copy)]
pub enum Damage {
    Emptied,
    Halved,
    /// That of the next line, the first one's for the last, stands in its place.
    Neighbour,
    /// The byte at this place has its lowest bit turned.
    Turned(usize),
}

/// A keeper, and the lines of the last run over it that had some.
#[derive(Drop)]
pub struct Kept {
    pub keeper: MemKeeper,
    pub keys: Vec<Key>,
}

impl Kept {
    /// A keeper without rows, and no lines.
    pub fn new(alloc: Global) -> Kept {
        Kept {
            keeper: MemKeeper::new(alloc, Vec::new(alloc)),
            keys: Vec::new(alloc),
        }
    }

    /// The place of a line.
    pub fn place(&self, name: &str) -> io::Result<usize> {
        self.keys
            .iter()
            .position(|key| key.name.bytes() == name.as_bytes())
            .ok_or(wrong())
    }

    // The place of the next line, the first one's for the last.
    fn neighbour(&self, at: usize) -> usize {
        let next = at.saturating_add(1);
        if next == self.keys.len() { 0 } else { next }
    }

    /// The proof that is kept for the line at a place.
    pub fn proof(&mut self, alloc: Global, at: usize) -> io::Result<Vec<u8>> {
        match self.keys.get(at) {
            Some(key) => given(self.keeper.proof(alloc, &key.key))?.ok_or(wrong()),
            None => Err(wrong()),
        }
    }

    /// Puts bytes in the place of the proof of the line at a place.
    pub fn put(&mut self, alloc: Global, at: usize, bytes: &[u8]) -> io::Result<()> {
        match self.keys.get(at) {
            Some(key) => given(self.keeper.put_proof(alloc, &key.key, bytes)),
            None => Err(wrong()),
        }
    }

    /// What stands in the place of the proof of the line at a place once it is damaged.
    pub fn damaged(&mut self, alloc: Global, at: usize, damage: Damage) -> io::Result<Vec<u8>> {
        match damage {
            Damage::Emptied => Ok(Vec::new(alloc)),
            Damage::Halved => Ok(halved(self.proof(alloc, at)?)),
            Damage::Turned(byte) => Ok(turned(self.proof(alloc, at)?, byte)),
            Damage::Neighbour => {
                let next = self.neighbour(at);
                self.proof(alloc, next)
            }
        }
    }

    /// Puts the records of the lines again as records of version 1, where that holds them.
    pub fn put_first(&mut self, alloc: Global) -> io::Result<()> {
        for key in &self.keys {
            put_first(alloc, &mut self.keeper, &key.key)?;
        }
        Ok(())
    }
}

fn halved(bytes: Vec<u8>) -> Vec<u8> {
    let mut bytes = bytes;
    bytes.truncate(bytes.len() / 2);
    bytes
}

// The bytes, of which the one at a place has its lowest bit turned.
fn turned(bytes: Vec<u8>, at: usize) -> Vec<u8> {
    let mut bytes = bytes;
    if let Some(byte) = bytes.get_mut(at) {
        *byte ^= 1;
    }
    bytes
}

// Puts the record under a key again as one of version 1, where that holds it.
fn put_first(alloc: Global, keeper: &mut MemKeeper, key: &[u8]) -> io::Result<()> {
    let bytes = given(keeper.proof(alloc, key))?.ok_or(wrong())?;
    let steps = read_steps(alloc, &bytes)?.ok_or(wrong())?;
    if fits_version_1(&steps) {
        let first = write_steps_1(alloc, &steps)?;
        given(keeper.put_proof(alloc, key, &first))?;
    }
    Ok(())
}
