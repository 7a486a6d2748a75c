// Requests.
ghost use Rattle.std.specs.Prelude.{◌≡◌, ◌≤◌, length};
ghost use Rattle.desk_http_connection.specs.Serve.{Takes};
ghost use Rattle.desk_http_connection.specs.Rest.{TakesBody, TakesRest};
ghost use Rattle.desk_http_request.specs.Seen.{seen_place};
ghost use Rattle.desk_http_request.specs.Front.{front as front_of};
ghost use Rattle.httparse.specs.Spans.{IsRequestOf, IsRequestWithin};

use crate::body::{Filled, fill};
use desk_http_request::{Place, Reading, Refusal, Wanted, asked, front_len, read_head, wanted_of};
use httparse::spans::{EMPTY_HEADER_SPAN, HeaderSpan, RequestSpans};
use outside::Port;
use std::alloc::{AllocError, Global};

/// What the bytes of a connection come to.
#[derive(Drop)]
pub enum Request {
    /// A whole request, which asks for this.
    Asked(Wanted),
    /// It is refused at its head.
    Refused(Refusal),
    /// The peer ended before the request was whole or refused.
    Partial,
}

/// What reading a request comes to.
#[derive(Drop)]
pub enum Take {
    /// The request.
    Whole(Request),
    /// A read failed.
    Broken,
    /// Memory ran out.
    NoMemory,
}

/// Reads one request from the present connection.
pub fn read_request<P: Port>(alloc: Global, port: &mut P) -> Take
    ensures takes { Takes (P.wire port.old) (P.wire port.new) (P.faults port.old) (P.faults port.new) result }
    ensures other { P.next_faults port.new ≡ P.next_faults port.old }
{
    let mut bytes = Vec::new(alloc);
    let mut headers = [EMPTY_HEADER_SPAN; 65];
    match read_head(port, &mut bytes, &mut headers) {
        Reading::Head(spans) => read_rest(alloc, port, &bytes, &headers, spans),
        Reading::Refused(refusal) => Take::Whole(Request::Refused(refusal)),
        Reading::Cut => Take::Whole(Request::Partial),
        Reading::Broken => Take::Broken,
        Reading::NoMemory => Take::NoMemory,
    }
}

// Reads the body of a request whose head was read, unless the head is refused.
fn read_rest<P: Port>(
    alloc: Global,
    port: &mut P,
    bytes: &[u8],
    headers: &[HeaderSpan],
    spans: RequestSpans,
) -> Take
    requires within { IsRequestWithin (front_of bytes.now) headers.now spans }
    requires head { IsRequestOf (front_of bytes.now) headers.now spans }
    ensures rest { TakesRest (P.wire port.old) (P.wire port.new) (P.faults port.old)
        (P.faults port.new) bytes.now result }
    ensures other { P.next_faults port.new ≡ P.next_faults port.old }
{
    let (len, _) = front_len(bytes);
    let (front, _) = bytes.split_at(len);
    match asked(alloc, front, headers, spans) {
        Err(AllocError) => Take::NoMemory,
        Ok(Err(refusal)) => Take::Whole(Request::Refused(refusal)),
        Ok(Ok(order)) => {
            let (_, after) = bytes.split_at(spans.len);
            read_body(alloc, port, after, order.place, order.count as usize)
        }
    }
}

// Reads the body, of which some bytes were read with the head.
fn read_body<P: Port>(
    alloc: Global,
    port: &mut P,
    after: &[u8],
    place: Place<'_>,
    count: usize,
) -> Take
    ensures body { TakesBody (P.wire port.old) (P.wire port.new) (P.faults port.old) (P.faults port.new) after.now
        (seen_place place.entry) count result }
    ensures other { P.next_faults port.new ≡ P.next_faults port.old }
{
    let (part, _) = after.split_at(count.min(after.len()));
    let Ok(mut body) = part.to_vec(alloc) else {
        return Take::NoMemory;
    };
    match fill(port, &mut body, count) {
        Filled::Whole => match wanted_of(alloc, place, &body) {
            Ok(wanted) => Take::Whole(Request::Asked(wanted)),
            Err(AllocError) => Take::NoMemory,
        },
        Filled::End => Take::Whole(Request::Partial),
        Filled::Broken => Take::Broken,
        Filled::NoMemory => Take::NoMemory,
    }
}
