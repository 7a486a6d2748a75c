// What is printed of runs over objects in memory.
use std::io;
use std::io::Write;
use test_objects::{Counts, Ran, parts};

/// Prints bytes as they are.
pub fn put(rt: &HostRuntime, bytes: &[u8]) -> io::Result<()> {
    io::writer(rt).write_all(bytes)
}

// Prints a reply: its status and its body.
fn put_reply(rt: &HostRuntime, reply: &[u8]) -> io::Result<()> {
    match parts(reply) {
        Some((status, body)) => println!(rt; "{status} {body}"),
        None => {
            let count = reply.len();
            println!(rt; "no head, {count} bytes")
        }
    }
}

/// Prints what a run put, its replies, its status, and where its lines were decided.
pub fn put_run(rt: &HostRuntime, line: &str, ran: &Ran) -> io::Result<()> {
    println!(rt; "> {line}")?;
    for reply in &ran.replies {
        put_reply(rt, reply.bytes())?;
    }
    put(rt, &ran.out)?;
    let status = ran.status;
    let Counts {
        kept,
        helped,
        solved,
        draws,
    } = ran.counts;
    println!(rt; "status {status}, kept {kept}, helped {helped}, solved {solved}, draws {draws}")
}
