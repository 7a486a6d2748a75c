// Reads until the head is whole, or can't be.
ghost use Rattle.std.specs.Prelude.{◌≡◌, ◌<◌, [], length};
ghost use Rattle.desk_http_request.specs.Reading.{Ends, Reads};

use crate::Refusal;
use crate::judge::{Judgement, judge};
use httparse::spans::{HeaderSpan, RequestSpans};
use outside::{Failed, Port};

// How many bytes of a head are read at once. What follows the head may come with them.
const HEAD_PIECE: usize = 1024;

/// How reading a head ends.
#[derive(Clone, Copy, Debug)]
pub enum Reading {
    /// The front holds a head.
    Head(RequestSpans),
    /// No continuation of the front is a head, or a bound ended it without one.
    Refused(Refusal),
    /// The peer ended before the head was whole.
    Cut,
    /// A read failed.
    Broken,
    /// Memory ran out.
    NoMemory,
}

/// Reads the head of a request from the present connection. What was read stands in `bytes`: the head, and what came
/// with it.
pub fn read_head<P: Port>(port: &mut P, bytes: &mut Vec<u8>, headers: &mut [HeaderSpan]) -> Reading
    requires room { length headers.old ≡ 65 }
    requires nothing_yet { bytes.old.items ≡ [] }
    ensures ends { Ends (P.wire port.old) (P.wire port.new) (P.faults port.old)
        (P.faults port.new) bytes.new.items headers.new result }
    ensures other { P.next_faults port.new ≡ P.next_faults port.old }
{
    'head: loop {
        match judge(bytes, headers) {
            Judgement::Whole(spans) => return Reading::Head(spans),
            Judgement::Hopeless => return Reading::Refused(Refusal::Head),
            Judgement::Large => return Reading::Refused(Refusal::LargeHead),
            Judgement::Partial => {}
        }
        match read_some(port, bytes, HEAD_PIECE) {
            More::Bytes => {}
            More::End => return Reading::Cut,
            More::Broken => return Reading::Broken,
            More::NoMemory => return Reading::NoMemory,
        }
    }
}

/// How one more read ends.
#[derive(Clone, Copy, Debug)]
pub enum More {
    /// Some bytes were added.
    Bytes,
    /// The peer has ended.
    End,
    /// The read failed.
    Broken,
    /// Memory ran out.
    NoMemory,
}

/// Reads at least one byte of the present connection, at most that many, and adds them.
pub fn read_some<P: Port>(port: &mut P, bytes: &mut Vec<u8>, most: usize) -> More
    requires some { 0 < most }
    ensures reads { Reads (P.wire port.old) (P.wire port.new) (P.faults port.old)
        (P.faults port.new) most bytes.old.items bytes.new.items result }
    ensures other { P.next_faults port.new ≡ P.next_faults port.old }
{
    let mut chunk = [0u8; 4096];
    let (room, _) = chunk.split_at_mut(most.min(4096));
    match port.read(room) {
        Err(Failed) => More::Broken,
        Ok(n) => {
            if n == 0 {
                return More::End;
            }
            let (read, _) = room.split_at(n);
            match bytes.extend_from_slice(read) {
                Ok(()) => More::Bytes,
                Err(_) => More::NoMemory,
            }
        }
    }
}
