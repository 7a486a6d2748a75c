// What a head asks for.
ghost use Rattle.std.specs.Prelude.{◌≡◌, ◌≤◌, All, IfOk, Ok, codes, length, map, option_map, take};
ghost use Rattle.httparse.specs.Spans.{IsHeaderWithin, IsRequestWithin, header_bytes, span_bytes};
ghost use Rattle.desk_http_request.specs.Asked.{asked as asked_by, is_well_named as is_well_named_by, lengthed as lengthed_by, method_of as method_of_place, placed as placed_by, wanted_of as wanted_of_place};
ghost use Rattle.desk_http_request.specs.Joins.{declared_of};
ghost use Rattle.desk_http_request.specs.Places.{path_of as path_of_target, place_of as place_of_path};
ghost use Rattle.desk_http_request.specs.Seen.{seen_order, seen_place};

use crate::Refusal;
use crate::fields::{Length, declared_length, has_header};
use crate::places::{Place, is_block_name, is_word, line_number, path_of, place_of};
use crate::wanted::Wanted;
use desk_core_commands::Command;
use httparse::spans::{HeaderSpan, RequestSpans};
use outside::Text;
use std::alloc::{AllocError, Global};

/// What a head asks for.
#[derive(Clone, Copy, Debug)]
pub struct Order<'a> {
    /// What the path names.
    pub place: Place<'a>,
    /// How many bytes the body has, at most 1,048,576.
    pub count: u64,
}

const MOST_LENGTH: u64 = 1048576;

/// What the head in this buffer asks for, or the first cause by which it is refused. The spans are those of the head.
pub fn asked<'a>(
    alloc: Global,
    buf: &'a [u8],
    headers: &[HeaderSpan],
    spans: RequestSpans,
) -> Result<Result<Order<'a>, Refusal>, AllocError>
    requires within { IsRequestWithin buf.now headers.now spans }
    ensures { IfOk result (λ r. seen_order r ≡ asked_by (span_bytes buf.now spans.method)
        (span_bytes buf.now spans.path)
        (map (header_bytes buf.now) (take spans.headers headers.now))) }
{
    let (fields, _) = headers.split_at(spans.headers);
    asked_by_fields(alloc, buf, fields, spans.method.of(buf), spans.path.of(buf))
}

fn asked_by_fields<'a>(
    alloc: Global,
    buf: &[u8],
    fields: &[HeaderSpan],
    method: &[u8],
    target: &'a [u8],
) -> Result<Result<Order<'a>, Refusal>, AllocError>
    requires within { All (IsHeaderWithin (length buf.now)) fields.now }
    ensures { IfOk result (λ r. seen_order r ≡ asked_by method.now target.now (map (header_bytes buf.now) fields.now)) }
{
    if has_header(buf, fields, b"transfer-encoding") {
        return Ok(Err(Refusal::Coding));
    }
    let length = declared_length(buf, fields, b"content-length");
    lengthed(alloc, method, path_of(target), length)
}

fn lengthed<'a>(
    alloc: Global,
    method: &[u8],
    path: &'a [u8],
    length: Length,
) -> Result<Result<Order<'a>, Refusal>, AllocError>
    ensures { IfOk result (λ r. seen_order r ≡ lengthed_by method.now path.now (declared_of length)) }
{
    match length {
        Length::Faulty => Ok(Err(Refusal::Length)),
        Length::Absent => {
            if is_word(method, b"PUT") {
                Ok(Err(Refusal::NoLength))
            } else {
                Ok(placed(method, place_of(alloc, path)?, 0))
            }
        }
        Length::Count(count) => {
            if count > MOST_LENGTH {
                Ok(Err(Refusal::Long))
            } else {
                Ok(placed(method, place_of(alloc, path)?, count))
            }
        }
    }
}

fn placed<'a>(method: &[u8], place: Option<Place<'a>>, count: u64) -> Result<Order<'a>, Refusal>
    ensures { seen_order result ≡ placed_by method.now (option_map (λ p. seen_place p) place.entry) count }
{
    match place {
        None => Err(Refusal::NoRoute),
        Some(place) => {
            if !is_word(method, method_of(place)) {
                Err(Refusal::Method)
            } else if is_well_named(place) {
                Ok(Order { place, count })
            } else {
                Err(Refusal::Name)
            }
        }
    }
}

fn method_of(place: Place<'_>) -> &'static [u8]
    ensures { result.now ≡ method_of_place (seen_place place.entry) }
{
    match place {
        Place::File(_) => b"GET",
        Place::Blocks => b"GET",
        Place::Signoffs => b"GET",
        Place::Module(_) => b"PUT",
        Place::Set(_) => b"PUT",
        Place::Check(_) => b"POST",
        Place::Report(_) => b"GET",
        Place::Sign(_) => b"POST",
        Place::Trace(_, _) => b"GET",
    }
}

fn is_well_named(place: Place<'_>) -> bool
    ensures { result ≡ is_well_named_by (seen_place place.entry) }
{
    match place {
        Place::File(_) => true,
        Place::Blocks => true,
        Place::Signoffs => true,
        Place::Module(name) => is_block_name(name),
        Place::Set(name) => is_block_name(name),
        Place::Check(name) => is_block_name(name),
        Place::Report(name) => is_block_name(name),
        Place::Sign(name) => is_block_name(name),
        Place::Trace(name, _) => is_block_name(name),
    }
}

/// What is asked for at a place, with the body.
pub fn wanted_of(alloc: Global, place: Place<'_>, body: &[u8]) -> Result<Wanted, AllocError>
    ensures { IfOk result (λ wanted. wanted ≡ wanted_of_place (seen_place place.entry) body.now) }
{
    match place {
        Place::File(file) => Ok(Wanted::File(file)),
        Place::Blocks => Ok(Wanted::Act(Command::Blocks)),
        Place::Signoffs => Ok(Wanted::Act(Command::Signoffs)),
        Place::Module(name) => Ok(Wanted::Act(Command::PutModule {
            name: Text::copy(alloc, name)?,
            text: Text::copy(alloc, body)?,
        })),
        Place::Set(name) => Ok(Wanted::Act(Command::PutSet {
            name: Text::copy(alloc, name)?,
            text: Text::copy(alloc, body)?,
        })),
        Place::Check(name) => Ok(Wanted::Act(Command::Check {
            name: Text::copy(alloc, name)?,
        })),
        Place::Report(name) => Ok(Wanted::Act(Command::GetReport {
            name: Text::copy(alloc, name)?,
        })),
        Place::Sign(name) => Ok(Wanted::Act(Command::SignOff {
            name: Text::copy(alloc, name)?,
        })),
        Place::Trace(name, line) => Ok(Wanted::Act(Command::GetTrace {
            name: Text::copy(alloc, name)?,
            line: line_number(line),
        })),
    }
}
