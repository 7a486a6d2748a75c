// What a run came to.
use crate::damage::Key;
use desk_core_reports::Book;
use outside::{MemPort, MemSink, Text};
use std::alloc::{AllocError, Global};
use word_dag::text;

/// Where the lines of a run were decided: how many at the keeper, by a helper and by the workers, and how many numbers
/// these drew.
#[derive(Clone, Copy)]
pub struct Counts {
    pub kept: u64,
    pub helped: u64,
    pub solved: u64,
    pub draws: usize,
}

/// What a run came to: its status, what it put, the replies to its peers, its lines, and where they were decided.
#[derive(Drop)]
pub struct Ran {
    pub status: u8,
    pub out: Vec<u8>,
    pub replies: Vec<Text>,
    pub keys: Vec<Key>,
    pub counts: Counts,
}

fn keys_of(alloc: Global, book: &Book) -> Result<Vec<Key>, AllocError> {
    let mut keys = Vec::new(alloc);
    for line in &book.lines {
        keys.push(Key {
            name: Text::copy(alloc, line.name.bytes())?,
            key: text(alloc, &line.ob)?,
        })?;
    }
    Ok(keys)
}

fn replies_of(alloc: Global, port: &MemPort, peers: usize) -> Result<Vec<Text>, AllocError> {
    let mut replies = Vec::new(alloc);
    for at in 0..peers {
        replies.push(Text::copy(alloc, port.reply(at))?)?;
    }
    Ok(replies)
}

impl Ran {
    /// What a call with this status and this book came to, which put what this sink has, and replied to so many peers
    /// at this port.
    pub fn of(
        alloc: Global,
        status: u8,
        book: &Book,
        outward: (&MemSink, &MemPort),
        peers: usize,
    ) -> Result<Ran, AllocError> {
        let (out, port) = outward;
        let counts = Counts {
            kept: book.kept,
            helped: book.helped,
            solved: book.solved,
            draws: book.draws.len(),
        };
        Ok(Ran {
            status,
            out: out.bytes().to_vec(alloc)?,
            replies: replies_of(alloc, port, peers)?,
            keys: keys_of(alloc, book)?,
            counts,
        })
    }
}
