//! signoff: reads a Verilog module and a set of operation properties, decides the lines of their report, and prints it.
//! On standard error it says where and why it refused, or how it is called, what a counterexample shows, and where that
//! is wanted how far it is.
#![tactic(auto)]

mod files;
mod note;
mod progress;
mod summary;

use crate::note::put_note;
use crate::progress::{Wish, wish_of};
use crate::summary::put_summary;
use desk_core_reports::Book;
use signoff_objects::answer;
use std::alloc::AllocError;
use std::env;
use std::io::ErrorKind;
use std::process::ExitCode;
use std::time::Instant;

// The status where memory is wanting.
const NO_MEMORY: u8 = 70;

// Answers the words over real objects, and ends with the status.
fn main(rt: HostRuntime) -> ExitCode {
    let since = Instant::now(&rt).ok();
    let Ok(words) = words_of(&rt) else {
        return ExitCode::from(NO_MEMORY);
    };
    let Wish { told, summary } = wish_of(&rt, &words);
    let mut book = Book::new(rt.alloc());
    let status = answer(&rt, &rt, &words, told, &mut book);
    if summary {
        put_summary(&rt, &book, since);
    }
    put_note(&rt, &words, status, &book);
    ExitCode::from(status)
}

// The words after the program's name. Those that aren't text count as wrong ones: there are none then.
fn words_of(rt: &HostRuntime) -> Result<Vec<String>, AllocError> {
    match env::args(rt) {
        Ok(all) => all.skip(1).collect(rt.alloc()),
        Err(fault) if fault.kind() == ErrorKind::OutOfMemory => Err(AllocError),
        Err(_) => Ok(Vec::new(rt.alloc())),
    }
}
