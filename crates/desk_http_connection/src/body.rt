// Reads the rest of a body.
ghost use Rattle.std.specs.Prelude.{◌≡◌, ◌≤◌, length};
ghost use Rattle.desk_http_connection.specs.Body.{Fills};

use desk_http_request::{More, read_some};
use outside::Port;

/// How reading a body ends.
#[derive(Clone, Copy, Debug)]
pub enum Filled {
    Whole,
    End,
    Broken,
    NoMemory,
}

/// Reads until the body has that many bytes, and never past them.
pub fn fill<P: Port>(port: &mut P, body: &mut Vec<u8>, count: usize) -> Filled
    requires within { length body.old.items ≤ count }
    ensures fills { Fills (P.wire port.old) (P.wire port.new) (P.faults port.old)
        (P.faults port.new) count body.old.items body.new.items result }
    ensures other { P.next_faults port.new ≡ P.next_faults port.old }
{
    'body: while body.len() < count {
        match read_some(port, body, count - body.len()) {
            More::Bytes => {}
            More::End => return Filled::End,
            More::Broken => return Filled::Broken,
            More::NoMemory => return Filled::NoMemory,
        }
    }
    Filled::Whole
}
