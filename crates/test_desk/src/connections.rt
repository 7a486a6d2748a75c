// Connections in memory, and a desk that answers by a block's name.
use desk_core_commands::{Answer, Command, DeskFault, Names, Signs};
use desk_http_connection::{Incoming, ServeFault, Served, receive, reply_to};
use desk_http_reply::{PAGE_CSS, PAGE_HTML, PAGE_JS};
use outside::{MemPort, Text};
use std::alloc::{AllocError, Global};
use std::process::Abort;
use std::test::Fail;

// Counts the commands, keeps the last text and the last line, and answers by the block's name.
#[derive(Drop)]
struct NamedAnswers {
    acts: u32,
    text: Text,
    line: u32,
}

impl NamedAnswers {
    fn act(&mut self, alloc: Global, command: &Command) -> Result<Answer, DeskFault> {
        self.acts = self.acts.saturating_add(1);
        match self.answer(alloc, command) {
            Ok(answer) => answer,
            Err(AllocError) => Err(DeskFault::Memory),
        }
    }

    fn answer(
        &mut self,
        alloc: Global,
        command: &Command,
    ) -> Result<Result<Answer, DeskFault>, AllocError> {
        let answer = match command {
            Command::PutModule { name, text } => {
                self.text = Text::copy(alloc, text.bytes())?;
                return named(alloc, name.bytes());
            }
            Command::PutSet { name: _, text } => {
                self.text = Text::copy(alloc, text.bytes())?;
                Answer::Stored
            }
            Command::Check { name } => return named(alloc, name.bytes()),
            Command::GetReport { name } => Answer::Reported(Text::copy(alloc, name.bytes())?),
            Command::GetTrace { name, line } => {
                self.line = *line;
                Answer::Traced(Text::copy(alloc, name.bytes())?)
            }
            Command::SignOff { name: _ } => Answer::Signed(7),
            Command::Blocks => Answer::Names(Names::new(Vec::new(alloc))),
            Command::Signoffs => Answer::Signs(Signs::new(Vec::new(alloc))),
        };
        Ok(Ok(answer))
    }
}

fn named(alloc: Global, name: &[u8]) -> Result<Result<Answer, DeskFault>, AllocError> {
    let Ok(name) = str::from_utf8(name) else {
        return Ok(Ok(Answer::NoBlock));
    };
    match name {
        "none" => Ok(Ok(Answer::NoBlock)),
        "textless" => Ok(Ok(Answer::NoText)),
        "unchecked" => Ok(Ok(Answer::NoReport)),
        "proved" => Ok(Ok(Answer::NoTrace)),
        "open" => Ok(Ok(Answer::NotSigned)),
        "wrong" => Ok(Ok(Answer::Refused(Text::copy(alloc, b"module: Deep")?))),
        "lost" => Ok(Err(DeskFault::Keeper)),
        "full" => Ok(Err(DeskFault::Memory)),
        _ => Ok(Ok(Answer::Stored)),
    }
}

fn desk(alloc: Global) -> NamedAnswers {
    NamedAnswers {
        acts: 0,
        text: Text::new(Vec::new(alloc)),
        line: 9,
    }
}

// Serves one connection by this desk.
fn serve_one(
    alloc: Global,
    port: &mut MemPort,
    desk: &mut NamedAnswers,
) -> Result<Served, ServeFault> {
    match receive(alloc, port)? {
        Incoming::Done(served) => Ok(served),
        Incoming::Act(command) => {
            let outcome = desk.act(alloc, &command);
            Ok(reply_to(alloc, port, &outcome))
        }
    }
}

// A port with one connection, on which these bytes come. The calls of these numbers fail.
fn port(alloc: Global, sent: &[u8], fails: &[u64]) -> Result<MemPort, AllocError> {
    port_with_room(alloc, sent, 512, fails)
}

// Such a port, with room for a reply of so many bytes.
fn port_with_room(
    alloc: Global,
    sent: &[u8],
    room: usize,
    fails: &[u64],
) -> Result<MemPort, AllocError> {
    let mut peers = Vec::new(alloc);
    peers.push(Text::copy(alloc, sent)?)?;
    MemPort::new(alloc, peers, room, fails.to_vec(alloc)?)
}

// Serves a connection on which these bytes come, and says whether the reply has the status and ends so.
fn gives(
    alloc: Global,
    desk: &mut NamedAnswers,
    sent: &[u8],
    status: u16,
    end: &str,
) -> Result<bool, AllocError> {
    let mut port = port(alloc, sent, &[])?;
    let served = serve_one(alloc, &mut port, desk);
    Ok(served == Ok(Served::Replied { status }) && port.reply(0).ends_with(end.as_bytes()))
}

// What a peer sends, and the status and the end of the reply.
type Row<'a> = (&'a str, u16, &'a str);

// Serves connections one after another, and wants these replies.
fn replies(
    rt: &(impl Abort + AllocGlobal),
    desk: &mut NamedAnswers,
    rows: &[Row],
) -> Result<(), Fail> {
    for (sent, status, end) in rows {
        let given = gives(rt.alloc(), desk, sent.as_bytes(), *status, end)?;
        assert!(rt; given, "{sent}");
    }
    Ok(())
}

const ROUTES: &[Row] = &[
    (
        "PUT /blocks/c1/module HTTP/1.1\r\nContent-Length: 3\r\n\r\nabcd",
        200,
        "{\"stored\":true}",
    ),
    (
        "PUT /blocks/c1/set HTTP/1.0\r\ncontent-LENGTH:\t2 \r\n\r\nab",
        200,
        "{\"stored\":true}",
    ),
    (
        "POST /blocks/c1/check HTTP/1.1\r\n\r\n",
        200,
        "{\"stored\":true}",
    ),
    ("GET /blocks/c1/report HTTP/1.1\r\n\r\n", 200, "\r\n\r\nc1"),
    (
        "GET /blocks/c1/trace/12 HTTP/1.1\r\n\r\n",
        200,
        "\r\n\r\nc1",
    ),
    (
        "POST /blocks/c1/sign HTTP/1.1\r\n\r\n",
        200,
        "{\"number\":7}",
    ),
    ("GET /blocks HTTP/1.1\r\n\r\n", 200, "\r\n\r\n[]"),
    ("GET /signoffs?all HTTP/1.1\r\n\r\n", 200, "\r\n\r\n[]"),
];

#[test]
fn each_route_has_its_command(rt: HostRuntime) -> Result<(), Fail> {
    let mut desk = desk(rt.alloc());
    replies(&rt, &mut desk, ROUTES)?;
    assert!(rt; desk.acts == 8 && desk.line == 12 && desk.text.bytes() == b"ab".as_slice());
    Ok(())
}

// Asks for a file of the page, and says whether the reply ends with these bytes.
fn gives_file(
    alloc: Global,
    desk: &mut NamedAnswers,
    target: &str,
    file: &[u8],
) -> Result<bool, AllocError> {
    let sent = format!(in alloc; "GET {target} HTTP/1.1\r\nAccept: */*\r\n\r\n")?;
    let mut port = port_with_room(alloc, sent.as_bytes(), 65_536, &[])?;
    let served = serve_one(alloc, &mut port, desk);
    Ok(served == Ok(Served::Replied { status: 200 }) && port.reply(0).ends_with(file))
}

#[test]
fn the_page_is_sent_without_the_desk(rt: HostRuntime) -> Result<(), Fail> {
    let alloc = rt.alloc();
    let mut desk = desk(alloc);
    assert!(rt; gives_file(alloc, &mut desk, "/", PAGE_HTML)?);
    assert!(rt; gives_file(alloc, &mut desk, "/page.css?1", PAGE_CSS)?);
    assert!(rt; gives_file(alloc, &mut desk, "/page.js", PAGE_JS)?);
    assert!(rt; desk.acts == 0);
    Ok(())
}

// The text of a line, and the number that it has at the desk.
const LINES: &[(&str, u32)] = &[
    ("0", 0),
    ("00012", 12),
    ("99999", 99999),
    ("100000", 0),
    ("+1", 0),
];

fn reads_line(alloc: Global, desk: &mut NamedAnswers, line: &str) -> Result<bool, AllocError> {
    let sent = format!(in alloc; "GET /blocks/c1/trace/{line} HTTP/1.1\n\n")?;
    gives(alloc, desk, sent.as_bytes(), 200, "c1")
}

fn lines(rt: &(impl Abort + AllocGlobal), desk: &mut NamedAnswers) -> Result<(), Fail> {
    for (line, number) in LINES {
        let read = reads_line(rt.alloc(), desk, line)?;
        assert!(rt; read, "{line}");
        assert!(rt; desk.line == *number, "{line}");
    }
    Ok(())
}

#[test]
fn a_line_is_one_to_five_digits(rt: HostRuntime) -> Result<(), Fail> {
    lines(&rt, &mut desk(rt.alloc()))
}

const HEADS: &[Row] = &[
    (
        "\0GET / HTTP/1.1\r\n\r\n",
        400,
        "\r\n\r\n{\"error\":\"head\"}",
    ),
    (
        "PUT /x HTTP/1.1\r\nTransfer-Encoding: chunked\r\nContent-Length: a\r\n\r\n",
        501,
        "\r\n\r\n{\"error\":\"coding\"}",
    ),
    (
        "PUT /blocks/c1/module HTTP/1.1\r\nContent-Length: 9\r\ntransfer-encoding: x\r\n\r\n",
        501,
        "\r\n\r\n{\"error\":\"coding\"}",
    ),
    (
        "PUT /x HTTP/1.1\r\nContent-Length: 1a\r\n\r\n",
        400,
        "\r\n\r\n{\"error\":\"length\"}",
    ),
    (
        "PUT /x HTTP/1.1\r\nContent-Length:\r\n\r\n",
        400,
        "\r\n\r\n{\"error\":\"length\"}",
    ),
    (
        "PUT /x HTTP/1.1\r\nContent-Length: 12345678901\r\n\r\n",
        400,
        "\r\n\r\n{\"error\":\"length\"}",
    ),
    (
        "PUT /x HTTP/1.1\r\nContent-Length: 1\r\nContent-Length: 2\r\n\r\na",
        400,
        "\r\n\r\n{\"error\":\"length\"}",
    ),
    (
        "PUT /x HTTP/1.1\r\n\r\n",
        411,
        "\r\n\r\n{\"error\":\"no length\"}",
    ),
    (
        "PUT /x HTTP/1.1\r\nContent-Length: 1048577\r\n\r\n",
        413,
        "\r\n\r\n{\"error\":\"long\"}",
    ),
    (
        "PATCH /x HTTP/1.1\r\n\r\n",
        404,
        "\r\n\r\n{\"error\":\"no route\"}",
    ),
    (
        "GET /blocks/ HTTP/1.1\r\n\r\n",
        404,
        "\r\n\r\n{\"error\":\"no route\"}",
    ),
    (
        "GET /blocks//report HTTP/1.1\r\n\r\n",
        404,
        "\r\n\r\n{\"error\":\"no route\"}",
    ),
    (
        "GET /blocks/a/b/report HTTP/1.1\r\n\r\n",
        404,
        "\r\n\r\n{\"error\":\"no route\"}",
    ),
    (
        "GET /blocks/c1/trace/ HTTP/1.1\r\n\r\n",
        404,
        "\r\n\r\n{\"error\":\"no route\"}",
    ),
    (
        "GET // HTTP/1.1\r\n\r\n",
        404,
        "\r\n\r\n{\"error\":\"no route\"}",
    ),
    (
        "GET /page.html HTTP/1.1\r\n\r\n",
        404,
        "\r\n\r\n{\"error\":\"no route\"}",
    ),
    (
        "POST / HTTP/1.1\r\n\r\n",
        405,
        "\r\n\r\n{\"error\":\"method\"}",
    ),
    (
        "GET blocks HTTP/1.1\r\n\r\n",
        404,
        "\r\n\r\n{\"error\":\"no route\"}",
    ),
    (
        "get /blocks HTTP/1.1\r\n\r\n",
        405,
        "\r\n\r\n{\"error\":\"method\"}",
    ),
    (
        "GET /blocks/a%2Fb/check HTTP/1.1\r\n\r\n",
        405,
        "\r\n\r\n{\"error\":\"method\"}",
    ),
    (
        "GET /blocks/a%2Fb/report HTTP/1.1\r\n\r\n",
        400,
        "\r\n\r\n{\"error\":\"name\"}",
    ),
];

#[test]
fn a_head_is_refused_by_its_first_cause(rt: HostRuntime) -> Result<(), Fail> {
    let mut desk = desk(rt.alloc());
    replies(&rt, &mut desk, HEADS)?;
    assert!(rt; desk.acts == 0);
    Ok(())
}

#[test]
fn a_target_that_is_no_utf_8_is_no_head(rt: HostRuntime) -> Result<(), Fail> {
    let mut desk = desk(rt.alloc());
    let sent = b"GET /blocks/\xff/report HTTP/1.1\r\n\r\n";
    let given = gives(rt.alloc(), &mut desk, sent, 400, "{\"error\":\"head\"}")?;
    assert!(rt; given);
    Ok(())
}

const REFUSED: &[Row] = &[
    (
        "POST /blocks/none/check HTTP/1.1\r\n\r\n",
        404,
        "{\"error\":\"no block\"}",
    ),
    (
        "POST /blocks/textless/check HTTP/1.1\r\n\r\n",
        404,
        "{\"error\":\"no text\"}",
    ),
    (
        "POST /blocks/unchecked/check HTTP/1.1\r\n\r\n",
        404,
        "{\"error\":\"no report\"}",
    ),
    (
        "POST /blocks/proved/check HTTP/1.1\r\n\r\n",
        404,
        "{\"error\":\"no trace\"}",
    ),
    (
        "POST /blocks/open/check HTTP/1.1\r\n\r\n",
        409,
        "{\"error\":\"not signed off\"}",
    ),
    (
        "POST /blocks/wrong/check HTTP/1.1\r\n\r\n",
        422,
        "{\"error\":\"module: Deep\"}",
    ),
    (
        "POST /blocks/lost/check HTTP/1.1\r\n\r\n",
        503,
        "{\"error\":\"keeper\"}",
    ),
    (
        "POST /blocks/full/check HTTP/1.1\r\n\r\n",
        507,
        "Insufficient Storage\r\nContent-Length: 0\r\nConnection: close\r\n\r\n",
    ),
];

#[test]
fn what_the_desk_refuses_is_told(rt: HostRuntime) -> Result<(), Fail> {
    replies(&rt, &mut desk(rt.alloc()), REFUSED)
}

fn add_fields(bytes: &mut Vec<u8>, fields: u32, more: u32) -> Result<(), AllocError> {
    for _ in 0..fields {
        bytes.extend_from_slice(b"a: b\r\n")?;
    }
    for _ in 0..more {
        bytes.push(b'a')?;
    }
    Ok(())
}

// A head with so many fields, and then so many bytes of one more, and then this.
fn long_head(alloc: Global, fields: u32, more: u32, end: &[u8]) -> Result<Vec<u8>, AllocError> {
    let mut bytes = b"GET /blocks HTTP/1.1\r\n".to_vec(alloc)?;
    add_fields(&mut bytes, fields, more)?;
    bytes.extend_from_slice(end)?;
    Ok(bytes)
}

// How many fields a head has, how many bytes of one more, what ends it, and the status and the end of the reply.
const FRONTS: &[(u32, u32, &[u8], u16, &str)] = &[
    (64, 0, b"\r\n", 200, "[]"),
    (65, 0, b"", 431, "{\"error\":\"large head\"}"),
    (0, 16384 - 22, b"", 431, "{\"error\":\"large head\"}"),
];

fn fronts(rt: &(impl Abort + AllocGlobal), desk: &mut NamedAnswers) -> Result<(), Fail> {
    for (fields, more, end, status, reply) in FRONTS {
        let sent = long_head(rt.alloc(), *fields, *more, end)?;
        let given = gives(rt.alloc(), desk, &sent, *status, reply)?;
        assert!(rt; given);
    }
    Ok(())
}

// Whether a request of these bytes alone is cut.
fn is_cut(alloc: Global, desk: &mut NamedAnswers, sent: &[u8]) -> Result<bool, AllocError> {
    let mut port = port(alloc, sent, &[])?;
    let served = serve_one(alloc, &mut port, desk);
    Ok(served == Ok(Served::Cut) && port.reply(0).is_empty())
}

#[test]
fn a_front_ends_at_its_bounds(rt: HostRuntime) -> Result<(), Fail> {
    let alloc = rt.alloc();
    let mut desk = desk(alloc);
    fronts(&rt, &mut desk)?;
    let short = long_head(alloc, 0, 16384 - 23, b"")?;
    let cut = is_cut(alloc, &mut desk, &short)?;
    assert!(rt; cut);
    Ok(())
}

const PUT: &[u8] =
    b"PUT /blocks/c1/module HTTP/1.1\r\nContent-Length: 3\r\nContent-Length: 03\r\n\r\nabc";

fn cuts(rt: &(impl Abort + AllocGlobal), desk: &mut NamedAnswers) -> Result<(), Fail> {
    for n in 0..PUT.len() {
        let cut = is_cut(rt.alloc(), desk, PUT.split_at(n).0)?;
        assert!(rt; cut && desk.acts == 0, "after {n}");
    }
    Ok(())
}

#[test]
fn a_request_that_ends_early_is_cut(rt: HostRuntime) -> Result<(), Fail> {
    let alloc = rt.alloc();
    let mut desk = desk(alloc);
    cuts(&rt, &mut desk)?;
    let given = gives(alloc, &mut desk, PUT, 200, "{\"stored\":true}")?;
    assert!(rt; given && desk.text.bytes() == b"abc".as_slice());
    Ok(())
}

// The call that fails, what becomes of the connection, and how often the desk acts.
const FAILS: &[(u64, Result<Served, ServeFault>, u32)] = &[
    (1, Err(ServeFault::Next), 0),
    (2, Ok(Served::Broken), 0),
    (3, Ok(Served::Broken), 1),
    (4, Ok(Served::Broken), 1),
    (5, Ok(Served::Replied { status: 200 }), 1),
];

fn fails(
    rt: &(impl Abort + AllocGlobal),
    call: u64,
    want: Result<Served, ServeFault>,
    acts: u32,
) -> Result<(), Fail> {
    let mut desk = desk(rt.alloc());
    let mut port = port(rt.alloc(), PUT, &[call])?;
    let served = serve_one(rt.alloc(), &mut port, &mut desk);
    assert!(rt; served == want, "call {call}");
    assert!(rt; desk.acts == acts, "call {call}");
    assert!(rt; port.reply(0).is_empty() == (call < 4), "call {call}");
    Ok(())
}

// The port's calls are `next`, `read`, `write` and `finish`, numbered from 1.
#[test]
fn a_port_that_fails_is_told(rt: HostRuntime) -> Result<(), Fail> {
    for (call, want, acts) in FAILS {
        fails(&rt, *call, *want, *acts)?;
    }
    Ok(())
}
