// Runs of the top call over memory.
use desk_core_reports::Book;
use helper_box::Helper;
use outside::{File, Gate, MemKeeper, MemPort, MemShelf, MemSink, Text};
use signoff_call::signoff;
use std::alloc::{AllocError, Global};
use std::test::Fail;
use std::thread::Threads;

fn file(alloc: Global, name: &str, bytes: &[u8]) -> Result<File, AllocError> {
    Ok(File {
        name: Text::copy(alloc, name.as_bytes())?,
        bytes: Text::copy(alloc, bytes)?,
    })
}

fn shelf(alloc: Global, module: &[u8], set: &[u8]) -> Result<MemShelf, AllocError> {
    let mut files = Vec::new(alloc);
    files.push(file(alloc, "M", module)?)?;
    files.push(file(alloc, "S", set)?)?;
    Ok(MemShelf::new(files, Vec::new(alloc)))
}

fn words(alloc: Global, texts: &[&str]) -> Result<Vec<String>, AllocError> {
    texts
        .iter()
        .map(|text| String::from_str(alloc, text))
        .try_collect(alloc)
}

// Runs words over these objects: the status. Nothing fails here, so that nothing is dropped on the way.
fn called(
    rt: &(impl Threads + Sync + AllocGlobal),
    words: &[String],
    shelf: MemShelf,
    port: MemPort,
    gate: &(impl Gate + Sync),
) -> u8 {
    let alloc = rt.alloc();
    let mut shelf = shelf;
    let mut port = port;
    let mut out = MemSink::new(alloc, Vec::new(alloc));
    let mut keeper = MemKeeper::new(alloc, Vec::new(alloc));
    let helpers: Vec<Box<dyn Helper>> = Vec::new(alloc);
    let mut book = Book::new(alloc);
    signoff(
        rt,
        alloc,
        words,
        &mut shelf,
        &mut out,
        &mut keeper,
        &mut port,
        gate,
        helpers,
        &mut book,
    )
}

/// Runs words over the files M and S and a gate: the status.
pub fn run(
    rt: &(impl Threads + Sync + AllocGlobal),
    texts: &[&str],
    module: &[u8],
    set: &[u8],
    gate: &(impl Gate + Sync),
) -> Result<u8, Fail> {
    let alloc = rt.alloc();
    let words = words(alloc, texts)?;
    let shelf = shelf(alloc, module, set)?;
    let port = MemPort::new(alloc, Vec::new(alloc), 0, Vec::new(alloc))?;
    Ok(called(rt, &words, shelf, port, gate))
}
