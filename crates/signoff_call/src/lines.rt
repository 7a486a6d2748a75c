// Bytes that go out line by line.
ghost use Rattle.std.specs.Prelude.{◌≡◌, ◌≤◌, length, OnOk, OnErr};
ghost use Rattle.std.specs.Io.KnownBytes.{Appends};
ghost use Rattle.outside.specs.Faults.{HasCause};
ghost use Rattle.signoff_call.specs.Run.{AppendsPrefix};

use outside::{OutFault, Sink};
use std::alloc::Global;

// The bytes of the first line, with its line feed where it has one.
fn line_length(bytes: &[u8]) -> usize
    requires some { 1 ≤ length bytes.now }
    ensures some { 1 ≤ result }
    ensures most { result ≤ length bytes.now }
{
    match bytes.iter().position(|byte| *byte == 10) {
        Some(at) => at + 1,
        None => bytes.len(),
    }
}

/// Puts bytes line by line, so that a sink that refuses one has all lines before it.
pub fn put_lines<S: Sink>(alloc: Global, bytes: &[u8], out: &mut S) -> Result<(), OutFault>
    ensures ok { OnOk result (Appends (S.written out.old) (S.written out.new) bytes.now) }
    ensures err { OnErr result (AppendsPrefix (S.written out.old) (S.written out.new) bytes.now) }
    ensures cause { HasCause (S.faults out.old) (S.faults out.new) result }
{
    let mut from = 0;
    while from < bytes.len() {
        let to = from + line_length(&bytes[from..]);
        out.put(&bytes[from..to])?;
        from = to;
    }
    Ok(())
}
