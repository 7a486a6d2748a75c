// Replies.
ghost use Rattle.std.specs.Prelude.{◌≡◌, ◌++◌, IfOk, OnOk, codes, decimal, map, length, string_bytes};
ghost use Rattle.desk_http_reply.specs.Reply.{bytes_of as bytes_of_file, error_with, file_reply as reply_of_file, head_bytes, header_line, kind_of as kind_of_file, status_line as status_line_of, phrase as phrase_of, keeper_reply as reply_at_fault, refusal_reply as reply_of_refusal, reply_of as reply_of_answer, reply_with};

use crate::body::{add_decimal, error_body, names_body, number_body, signs_body};
use crate::page_files::{PAGE_CSS, PAGE_HTML, PAGE_JS};
use desk_core_commands::Answer;
use desk_http_request::{PageFile, Refusal};
use outside::Text;
use std::alloc::{AllocError, Global};

/// A status, and the bytes that go out with it.
#[derive(Drop)]
pub struct Reply {
    /// The status code.
    pub status: u16,
    /// The status line, the fields, an empty line and the body.
    pub bytes: Text,
}

/// The reply where memory ran out, with the status 507.
pub const STARVED: &[u8] =
    b"HTTP/1.1 507 Insufficient Storage\r\nContent-Length: 0\r\nConnection: close\r\n\r\n";

const TEXT: &str = "text/plain";

const JSON: &str = "application/json";

/// The reply to an answer of the desk.
pub fn reply_of(alloc: Global, answer: &Answer) -> Result<Reply, AllocError>
    ensures { IfOk result (λ reply. reply ≡ reply_of_answer answer.now) }
{
    match answer {
        Answer::Stored => reply_with_body(alloc, 200, JSON, b"{\"stored\":true}"),
        Answer::Refused(line) => error(alloc, 422, line.bytes()),
        Answer::NoBlock => error(alloc, 404, b"no block"),
        Answer::NoText => error(alloc, 404, b"no text"),
        Answer::NoReport => error(alloc, 404, b"no report"),
        Answer::NoTrace => error(alloc, 404, b"no trace"),
        Answer::NotSigned => error(alloc, 409, b"not signed off"),
        Answer::Reported(text) => reply_with_body(alloc, 200, TEXT, text.bytes()),
        Answer::Traced(text) => reply_with_body(alloc, 200, TEXT, text.bytes()),
        Answer::Signed(number) => reply_with_body(alloc, 200, JSON, &number_body(alloc, *number)?),
        Answer::Names(names) => reply_with_body(alloc, 200, JSON, &names_body(alloc, names)?),
        Answer::Signs(signs) => reply_with_body(alloc, 200, JSON, &signs_body(alloc, signs)?),
    }
}

/// The reply to a request that is refused.
pub fn refusal_reply(alloc: Global, refusal: Refusal) -> Result<Reply, AllocError>
    ensures { IfOk result (λ reply. reply ≡ reply_of_refusal refusal) }
{
    match refusal {
        Refusal::Head => error(alloc, 400, b"head"),
        Refusal::LargeHead => error(alloc, 431, b"large head"),
        Refusal::Coding => error(alloc, 501, b"coding"),
        Refusal::Length => error(alloc, 400, b"length"),
        Refusal::NoLength => error(alloc, 411, b"no length"),
        Refusal::Long => error(alloc, 413, b"long"),
        Refusal::NoRoute => error(alloc, 404, b"no route"),
        Refusal::Method => error(alloc, 405, b"method"),
        Refusal::Name => error(alloc, 400, b"name"),
    }
}

/// The reply to a request for a file of the page.
pub fn file_reply(alloc: Global, file: PageFile) -> Result<Reply, AllocError>
    ensures { IfOk result (λ reply. reply ≡ reply_of_file file) }
{
    reply_with_body(alloc, 200, kind_of(file), bytes_of(file))
}

// What kind of text the file is (RFC 2046, 2318 and 9239).
fn kind_of(file: PageFile) -> &'static str
    ensures { result.now ≡ kind_of_file file }
{
    match file {
        PageFile::Html => "text/html; charset=utf-8",
        PageFile::Style => "text/css",
        PageFile::Script => "text/javascript",
    }
}

fn bytes_of(file: PageFile) -> &'static [u8]
    ensures { result.now ≡ bytes_of_file file }
{
    match file {
        PageFile::Html => PAGE_HTML,
        PageFile::Style => PAGE_CSS,
        PageFile::Script => PAGE_JS,
    }
}

/// The reply where the desk's store failed.
pub fn keeper_reply(alloc: Global) -> Result<Reply, AllocError>
    ensures { IfOk result (λ reply. reply ≡ reply_at_fault) }
{
    error(alloc, 503, b"keeper")
}

fn error(alloc: Global, status: u16, text: &[u8]) -> Result<Reply, AllocError>
    ensures { IfOk result (λ reply. reply ≡ error_with status text.now) }
{
    reply_with_body(alloc, status, JSON, &error_body(alloc, text)?)
}

fn reply_with_body(alloc: Global, status: u16, kind: &str, body: &[u8]) -> Result<Reply, AllocError>
    ensures { IfOk result (λ reply. reply ≡ reply_with status kind.now body.now) }
{
    let mut bytes = head(alloc, status, kind, body.len())?;
    bytes.extend_from_slice(body)?;
    Ok(Reply {
        status,
        bytes: Text::new(bytes),
    })
}

fn head(alloc: Global, status: u16, kind: &str, count: usize) -> Result<Vec<u8>, AllocError>
    ensures { IfOk result (λ head. head.items ≡ head_bytes status kind.now count) }
{
    let mut head = status_line(alloc, status)?;
    add_header(&mut head, b"Content-Type", kind.as_bytes())?;
    add_number(alloc, &mut head, b"Content-Length", count)?;
    add_header(&mut head, b"Connection", b"close")?;
    head.extend_from_slice(b"\r\n")?;
    Ok(head)
}

#[tactic(auto, unfolding(crate::specs::Reply::status_line))]
fn status_line(alloc: Global, status: u16) -> Result<Vec<u8>, AllocError>
    ensures { IfOk result (λ line. line.items ≡ status_line_of status) }
{
    let mut line = b"HTTP/1.1 ".to_vec(alloc)?;
    add_decimal(alloc, &mut line, u64::from(status))?;
    line.extend_from_slice(b" ")?;
    line.extend_from_slice(phrase(status).as_bytes())?;
    line.extend_from_slice(b"\r\n")?;
    Ok(line)
}

fn add_number(
    alloc: Global,
    head: &mut Vec<u8>,
    name: &[u8],
    number: usize,
) -> Result<(), AllocError>
    ensures { OnOk result (head.new.items ≡ head.old.items ++ header_line name.now (decimal number)) }
{
    let digits = format!(in alloc; "{number}")?;
    add_header(head, name, digits.as_bytes())
}

#[tactic(auto, unfolding(crate::specs::Reply::header_line))]
fn add_header(head: &mut Vec<u8>, name: &[u8], value: &[u8]) -> Result<(), AllocError>
    ensures { OnOk result (head.new.items ≡ head.old.items ++ header_line name.now value.now) }
{
    head.extend_from_slice(name)?;
    head.extend_from_slice(b": ")?;
    head.extend_from_slice(value)?;
    head.extend_from_slice(b"\r\n")?;
    Ok(())
}

fn phrase(status: u16) -> &'static str
    ensures { result.now ≡ phrase_of status }
{
    match status {
        200 => "OK",
        400 => "Bad Request",
        404 => "Not Found",
        405 => "Method Not Allowed",
        409 => "Conflict",
        411 => "Length Required",
        413 => "Content Too Large",
        422 => "Unprocessable Content",
        431 => "Request Header Fields Too Large",
        501 => "Not Implemented",
        _ => "Service Unavailable",
    }
}
