// One connection.
ghost use Rattle.std.specs.Prelude.{◌≡◌, ◌≤◌, OnErr, OnOk};
ghost use Rattle.outside.specs.Faults.{Rose};
ghost use Rattle.desk_http_connection.specs.declared.serve.Served.TheVariants.{Broken};
ghost use Rattle.desk_http_connection.specs.Serve.{Receives, ReceivesPresent, RepliesTo, Sends, SendsReplyTo, reply_or_starved};

use crate::request::{Request, Take, read_request};
use desk_core_commands::{Answer, Command, DeskFault};
use desk_http_reply::{Reply, STARVED, file_reply, keeper_reply, refusal_reply, reply_of};
use desk_http_request::Wanted;
use outside::{Failed, Port};
use std::alloc::{AllocError, Global};
use std::error::Error;
use std::fmt;

/// What serving a connection came to.
#[derive(Clone, Copy, Debug, PartialEq, Eq)]
pub enum Served {
    /// A reply with this status was written.
    Replied { status: u16 },
    /// The peer ended before its request was whole or refused. Nothing was written.
    Cut,
    /// A read, a write or the end failed.
    Broken,
}

/// Why no connection was served.
#[derive(Clone, Copy, Debug, PartialEq, Eq)]
pub enum ServeFault {
    /// The port gave no next connection.
    Next,
    /// Memory ran out before the request began.
    Memory,
}

impl fmt::Display for ServeFault {
    fn fmt<W: fmt::Write>(&self, f: &mut fmt::Formatter<W>) -> fmt::Result {
        f.write_str(match self {
            ServeFault::Next => "the port gave no next connection",
            ServeFault::Memory => "out of memory",
        })
    }
}

impl Error for ServeFault {}

/// What a connection that was taken comes to.
#[derive(Drop)]
pub enum Incoming {
    /// Its request asks for this command, and awaits a reply.
    Act(Command),
    /// It was served, and no command is carried out.
    Done(Served),
}

/// Takes one connection and reads one request. One that asks for no command is served at once: it asks for a file of
/// the page, or is refused, the peer has ended early, a read failed, or memory ran out, where the reply is the fixed
/// text with the status 507.
pub fn receive<P: Port>(alloc: Global, port: &mut P) -> Result<Incoming, ServeFault>
    ensures receives { Receives (P.wire port.old) (P.wire port.new) (P.faults port.old) (P.faults port.new) result }
    ensures next_ok { OnOk result (P.next_faults port.new ≡ P.next_faults port.old) }
    ensures next_err { OnErr result (Rose (P.next_faults port.old) (P.next_faults port.new)) }
{
    match port.next() {
        Ok(()) => Ok(receive_present(alloc, port)),
        Err(Failed) => Err(ServeFault::Next),
    }
}

fn receive_present<P: Port>(alloc: Global, port: &mut P) -> Incoming
    ensures receives { ReceivesPresent (P.wire port.old) (P.wire port.new) (P.faults port.old)
        (P.faults port.new) result }
    ensures other { P.next_faults port.new ≡ P.next_faults port.old }
{
    match read_request(alloc, port) {
        Take::Whole(Request::Asked(Wanted::Act(command))) => Incoming::Act(command),
        Take::Whole(Request::Asked(Wanted::File(file))) => {
            let reply = file_reply(alloc, file);
            Incoming::Done(send_reply(port, &reply))
        }
        Take::Whole(Request::Refused(refusal)) => {
            let reply = refusal_reply(alloc, refusal);
            Incoming::Done(send_reply(port, &reply))
        }
        Take::Whole(Request::Partial) => match port.finish() {
            Ok(()) => Incoming::Done(Served::Cut),
            Err(Failed) => Incoming::Done(Served::Broken),
        },
        Take::NoMemory => Incoming::Done(send(port, 507, STARVED)),
        Take::Broken => Incoming::Done(break_off(port)),
    }
}

/// Writes the reply to what a command came to, and finishes the connection. Where memory runs out for it, the reply is
/// the fixed text with the status 507.
pub fn reply_to<P: Port>(alloc: Global, port: &mut P, outcome: &Result<Answer, DeskFault>) -> Served
    ensures sends { SendsReplyTo outcome.now (P.wire port.old) (P.wire port.new) (P.faults port.old)
        (P.faults port.new) result }
    ensures other { P.next_faults port.new ≡ P.next_faults port.old }
{
    let reply = outcome_reply(alloc, outcome);
    send_reply(port, &reply)
}

// The reply to what a command came to. An error: there was no memory for it.
fn outcome_reply(alloc: Global, outcome: &Result<Answer, DeskFault>) -> Result<Reply, AllocError>
    ensures { RepliesTo outcome.now (reply_or_starved result) }
{
    match outcome {
        Ok(answer) => reply_of(alloc, answer),
        Err(DeskFault::Keeper) => keeper_reply(alloc),
        Err(DeskFault::Memory) => Err(AllocError),
    }
}

// Writes the reply, or the fixed text where there was no memory for one.
fn send_reply<P: Port>(port: &mut P, reply: &Result<Reply, AllocError>) -> Served
    ensures sends { Sends (P.wire port.old) (P.wire port.new) (P.faults port.old) (P.faults port.new)
        (reply_or_starved reply.now).status (reply_or_starved reply.now).bytes result }
    ensures other { P.next_faults port.new ≡ P.next_faults port.old }
{
    match reply {
        Ok(reply) => send(port, reply.status, reply.bytes.bytes()),
        Err(_) => send(port, 507, STARVED),
    }
}

// Writes the bytes, and closes the connection.
fn send<P: Port>(port: &mut P, status: u16, bytes: &[u8]) -> Served
    ensures sends { Sends (P.wire port.old) (P.wire port.new) (P.faults port.old)
        (P.faults port.new) status bytes.now result }
    ensures other { P.next_faults port.new ≡ P.next_faults port.old }
{
    match port.write(bytes) {
        Ok(()) => match port.finish() {
            Ok(()) => Served::Replied { status },
            Err(Failed) => Served::Broken,
        },
        Err(Failed) => break_off(port),
    }
}

// Closes a connection that has failed.
fn break_off<P: Port>(port: &mut P) -> Served
    ensures wire { P.wire port.new ≡ P.wire port.old }
    ensures broken { result ≡ Broken }
    ensures later { P.faults port.old ≤ P.faults port.new }
    ensures other { P.next_faults port.new ≡ P.next_faults port.old }
{
    match port.finish() {
        Ok(()) => Served::Broken,
        Err(Failed) => Served::Broken,
    }
}
