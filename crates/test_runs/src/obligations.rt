// The obligations that a check decides, beside those that the makers of lines give.
use desk_core_stages::bound_of;
use std::alloc::{AllocError, Global};
use std::{fs, io};
use test_objects::{Key, wrong};
use twin_tests::twin_obs;
use unroll::design_obs;
use unroll_binding::Bound;
use word_dag::{Named, text};

// Whether a line has this name, and decided this very obligation.
fn is_of(alloc: Global, key: &Key, named: &Named) -> Result<bool, AllocError> {
    let wanted = text(alloc, &named.ob)?;
    Ok(key.name.bytes() == named.name.bytes() && key.key.as_slice() == wanted.as_slice())
}

// How many obligations are those of lines, both from the first on.
fn same(alloc: Global, keys: &[Key], all: &[Named]) -> Result<usize, AllocError> {
    let mut count: usize = 0;
    for (key, named) in keys.iter().zip(all.iter()) {
        if is_of(alloc, key, named)? {
            count = count.saturating_add(1);
        }
    }
    Ok(count)
}

// The obligations of a bound set, those of the design's lines first.
fn both(alloc: Global, bound: &Bound) -> Result<Vec<Named>, AllocError> {
    let mut all = design_obs(alloc, bound)?;
    let mut of_set = twin_obs(alloc, bound.set())?;
    all.append(&mut of_set)?;
    Ok(all)
}

// The obligations of two texts.
fn obligations(alloc: Global, module: &str, set: &str) -> io::Result<Vec<Named>> {
    match bound_of(alloc, module.as_bytes(), set.as_bytes()) {
        Ok(bound) => {
            let all = both(alloc, &bound);
            // a call, since a proof would write out the drop of all trees here
            drop(bound);
            Ok(all?)
        }
        Err(_) => Err(wrong()),
    }
}

/// `M S`: prints how many lines the last run had, how many obligations both makers give of the texts, and how many of
/// these are the lines', by name and text.
pub fn put_obligations(rt: &HostRuntime, keys: &[Key], rest: &str) -> io::Result<()> {
    let (module, set) = rest.split_once(' ').ok_or(wrong())?;
    let module = fs::read_to_string(rt, module)?;
    let set = fs::read_to_string(rt, set)?;
    let all = obligations(rt.alloc(), &module, &set)?;
    let (lines, made, same) = (keys.len(), all.len(), same(rt.alloc(), keys, &all)?);
    println!(rt; "lines {lines}, obligations {made}, same {same}")
}
