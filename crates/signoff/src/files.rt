// The files of a job, read again for what standard error says of them.
use outside::{FileShelf, OutFault, Shelf, Text};
use signoff_words::Job;
use std::alloc::{AllocError, Global};

// The most bytes of a text.
const LIMIT: usize = 1048576;

/// The bytes of a job's two files.
#[derive(Drop)]
pub struct Read {
    pub module: Vec<u8>,
    pub set: Vec<u8>,
}

/// The two files of a job, read again; none where one can't be any more.
pub fn read_again(rt: &HostRuntime, job: &Job) -> Result<Option<Read>, AllocError> {
    let alloc = rt.alloc();
    let mut shelf = FileShelf::new(rt.clone()?);
    let Some(module) = bytes_of(&mut shelf, alloc, &job.module)? else {
        return Ok(None);
    };
    let Some(set) = bytes_of(&mut shelf, alloc, &job.set)? else {
        return Ok(None);
    };
    Ok(Some(Read { module, set }))
}

// A file, none where it can't be read any more.
fn bytes_of<F: Shelf>(
    shelf: &mut F,
    alloc: Global,
    name: &Text,
) -> Result<Option<Vec<u8>>, AllocError> {
    match shelf.read(alloc, name.bytes(), LIMIT) {
        Ok(bytes) => Ok(Some(bytes)),
        Err(OutFault::Failed) => Ok(None),
        Err(OutFault::Memory) => Err(AllocError),
    }
}
