// Lengths, signs and values of expressions.
use crate::script::number;
use std::io;
use test_objects::{names, shown, wrong};
use vlog_tree::Valuation;

// Prints a line and what its expression comes to.
fn put_value(rt: &HostRuntime, line: &str, valuation: &Valuation) -> io::Result<()> {
    let (length, text) = line.split_once(": ").ok_or(wrong())?;
    let length = number(length)?.min(64) as u8;
    let value = shown(rt.alloc(), text.as_bytes(), length, valuation)?;
    println!(rt; "{line} = {value}")
}

/// Prints the value of each line's expression. Lines that begin with # say nothing.
pub fn play(rt: &HostRuntime, script: &str) -> io::Result<()> {
    let valuation = names(rt.alloc())?;
    for line in script.lines() {
        if !line.is_empty() && !line.starts_with('#') {
            put_value(rt, line, &valuation)?;
        }
    }
    Ok(())
}
