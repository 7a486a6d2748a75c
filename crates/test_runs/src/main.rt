//! Runs of the program: command lines over its real objects, and over objects in memory that fail and are changed. Each
//! is printed with what it puts and its status. The scripts `rows` and `memory` say what is run; `values` has
//! expressions whose values are printed.
#![tactic(auto)]

mod each;
mod files;
mod memory;
mod obligations;
mod script;
mod shown;
mod told;
mod values;

use std::{fs, io};

fn main(rt: HostRuntime) -> io::Result<()> {
    files::play(&rt, &rt, &fs::read_to_string(&rt, "rows")?)?;
    script::play(&rt, &rt, &fs::read_to_string(&rt, "memory")?)?;
    values::play(&rt, &fs::read_to_string(&rt, "values")?)
}
