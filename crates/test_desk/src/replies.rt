use desk_core_commands::{Answer, Names, Signs};
use desk_http_reply::{Reply, STARVED, file_reply, keeper_reply, refusal_reply, reply_of};
use desk_http_request::{PageFile, Refusal};
use outside::{Sign, Text};
use std::alloc::{AllocError, Global};
use std::process::Abort;
use std::test::Fail;

// Whether the reply has this status, phrase, kind and body.
fn is(
    alloc: Global,
    reply: &Reply,
    status: u16,
    phrase: &str,
    kind: &str,
    body: &str,
) -> Result<bool, AllocError> {
    let length = body.len();
    let want = format!(in alloc;
        "HTTP/1.1 {status} {phrase}\r\nContent-Type: {kind}\r\nContent-Length: {length}\r\nConnection: close\r\n\r\n{body}"
    )?;
    Ok(reply.status == status && reply.bytes.bytes() == want.as_bytes())
}

const JSON: &str = "application/json";

const TEXT: &str = "text/plain";

// The status, phrase, kind and body of a reply.
type Want<'a> = (u16, &'a str, &'a str, &'a str);

// Wants this reply.
fn replied(rt: &(impl Abort + AllocGlobal), reply: &Reply, want: Want<'_>) -> Result<(), Fail> {
    let (status, phrase, kind, body) = want;
    let told = is(rt.alloc(), reply, status, phrase, kind, body)?;
    assert!(rt; told, "{body}");
    Ok(())
}

const REFUSALS: &[(Refusal, u16, &str, &str)] = &[
    (Refusal::Head, 400, "Bad Request", "{\"error\":\"head\"}"),
    (
        Refusal::LargeHead,
        431,
        "Request Header Fields Too Large",
        "{\"error\":\"large head\"}",
    ),
    (
        Refusal::Coding,
        501,
        "Not Implemented",
        "{\"error\":\"coding\"}",
    ),
    (
        Refusal::Length,
        400,
        "Bad Request",
        "{\"error\":\"length\"}",
    ),
    (
        Refusal::NoLength,
        411,
        "Length Required",
        "{\"error\":\"no length\"}",
    ),
    (
        Refusal::Long,
        413,
        "Content Too Large",
        "{\"error\":\"long\"}",
    ),
    (
        Refusal::NoRoute,
        404,
        "Not Found",
        "{\"error\":\"no route\"}",
    ),
    (
        Refusal::Method,
        405,
        "Method Not Allowed",
        "{\"error\":\"method\"}",
    ),
    (Refusal::Name, 400, "Bad Request", "{\"error\":\"name\"}"),
];

fn refused(rt: &(impl Abort + AllocGlobal), refusal: Refusal, want: Want<'_>) -> Result<(), Fail> {
    replied(rt, &refusal_reply(rt.alloc(), refusal)?, want)
}

#[test]
fn each_refusal_has_its_reply(rt: HostRuntime) -> Result<(), Fail> {
    for (refusal, status, phrase, body) in REFUSALS {
        refused(&rt, *refusal, (*status, phrase, JSON, body))?;
    }
    Ok(())
}

#[test]
fn a_desk_that_fails_has_its_reply(rt: HostRuntime) -> Result<(), Fail> {
    let body = "{\"error\":\"keeper\"}";
    let keeper = keeper_reply(rt.alloc())?;
    replied(&rt, &keeper, (503, "Service Unavailable", JSON, body))?;
    assert!(rt;
        STARVED
            == b"HTTP/1.1 507 Insufficient Storage\r\nContent-Length: 0\r\nConnection: close\r\n\r\n".as_slice()
    );
    Ok(())
}

// Wants a reply of this kind to a request for a file of the page.
fn sent(rt: &(impl Abort + AllocGlobal), file: PageFile, kind: &str) -> Result<(), Fail> {
    let alloc = rt.alloc();
    let reply = file_reply(alloc, file)?;
    let head = format!(in alloc; "HTTP/1.1 200 OK\r\nContent-Type: {kind}\r\nContent-Length: ")?;
    assert!(rt; reply.status == 200, "{kind}");
    assert!(rt; reply.bytes.bytes().starts_with(head.as_bytes()), "{kind}");
    Ok(())
}

#[test]
fn each_file_of_the_page_has_its_kind(rt: HostRuntime) -> Result<(), Fail> {
    sent(&rt, PageFile::Html, "text/html; charset=utf-8")?;
    sent(&rt, PageFile::Style, "text/css")?;
    sent(&rt, PageFile::Script, "text/javascript")
}

// Wants this reply to an answer.
fn told(rt: &(impl Abort + AllocGlobal), answer: Answer, want: Want<'_>) -> Result<(), Fail> {
    let reply = reply_of(rt.alloc(), &answer);
    drop(answer);
    replied(rt, &reply?, want)
}

// Wants that there is not what is asked for.
fn absent(rt: &(impl Abort + AllocGlobal), answer: Answer, body: &str) -> Result<(), Fail> {
    told(rt, answer, (404, "Not Found", JSON, body))
}

#[test]
fn each_answer_has_its_reply(rt: HostRuntime) -> Result<(), Fail> {
    let alloc = rt.alloc();
    let stored = (200, "OK", JSON, "{\"stored\":true}");
    told(&rt, Answer::Stored, stored)?;
    let fault = Text::copy(alloc, b"module: Deep")?;
    let body = "{\"error\":\"module: Deep\"}";
    let refused = (422, "Unprocessable Content", JSON, body);
    told(&rt, Answer::Refused(fault), refused)?;
    absent(&rt, Answer::NoBlock, "{\"error\":\"no block\"}")?;
    absent(&rt, Answer::NoText, "{\"error\":\"no text\"}")?;
    absent(&rt, Answer::NoReport, "{\"error\":\"no report\"}")?;
    absent(&rt, Answer::NoTrace, "{\"error\":\"no trace\"}")?;
    let open = (409, "Conflict", JSON, "{\"error\":\"not signed off\"}");
    told(&rt, Answer::NotSigned, open)?;
    let signed = (200, "OK", JSON, "{\"number\":1203}");
    told(&rt, Answer::Signed(1203), signed)?;
    let report = Text::copy(alloc, b"proved reset\nsigned off\n")?;
    let reported = (200, "OK", TEXT, "proved reset\nsigned off\n");
    told(&rt, Answer::Reported(report), reported)?;
    let trace = Text::copy(alloc, b"refuted hold\n")?;
    told(
        &rt,
        Answer::Traced(trace),
        (200, "OK", TEXT, "refuted hold\n"),
    )
}

fn sign(alloc: Global, number: u64, block: &[u8]) -> Result<Sign, AllocError> {
    let block = Text::copy(alloc, block)?;
    let module = Text::copy(alloc, b"m")?;
    let set = Text::copy(alloc, b"s")?;
    let report = Text::copy(alloc, b"r")?;
    Ok(Sign {
        number,
        block,
        module,
        set,
        report,
    })
}

fn two_signs(alloc: Global) -> Result<Answer, AllocError> {
    let mut signs = Vec::new(alloc);
    signs.push(sign(alloc, 1, b"c1")?)?;
    signs.push(sign(alloc, 12, b"c 2")?)?;
    Ok(Answer::Signs(Signs::new(signs)))
}

fn two_names(alloc: Global) -> Result<Answer, AllocError> {
    let mut names = Vec::new(alloc);
    names.push(Text::copy(alloc, b"a.b-C_9")?)?;
    names.push(Text::copy(alloc, b"a\"b\\c\xff")?)?;
    Ok(Answer::Names(Names::new(names)))
}

#[test]
fn lists_are_json(rt: HostRuntime) -> Result<(), Fail> {
    let alloc = rt.alloc();
    let names = "[\"a.b-C_9\",\"a?b?c?\"]";
    told(&rt, two_names(alloc)?, (200, "OK", JSON, names))?;
    let none = Answer::Names(Names::new(Vec::new(alloc)));
    told(&rt, none, (200, "OK", JSON, "[]"))?;
    let signs = "[{\"block\":\"c1\",\"number\":1},{\"block\":\"c?2\",\"number\":12}]";
    told(&rt, two_signs(alloc)?, (200, "OK", JSON, signs))
}
