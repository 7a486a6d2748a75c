// Real files, the standard output, and connections.
use outside::{Console, Failed, FileShelf, OutFault, Port, Shelf, Sink, TcpPort};
use std::fs;
use std::io::{Read, Write};
use std::net::{SocketAddr, TcpListener, TcpStream};
use std::process::Abort;
use std::test::Fail;
use std::time::Duration;

// Whether bytes that were read are these, or the call failed where there are none.
fn are(read: &Result<Vec<u8>, OutFault>, want: Option<&str>) -> bool {
    match read {
        Ok(bytes) => want == str::from_utf8(bytes).ok(),
        Err(fault) => want.is_none() && *fault == OutFault::Failed,
    }
}

const FILE: &str = "outside_shelf_test.txt";

// Wants the first bytes of the file, or that it can't be read.
fn file_has(
    rt: &(impl Abort + AllocGlobal),
    shelf: &mut FileShelf<HostRuntime>,
    limit: usize,
    want: Option<&str>,
) {
    let read = shelf.read(rt.alloc(), FILE.as_bytes(), limit);
    assert!(rt; are(&read, want));
}

#[test]
fn a_real_file_is_read_up_to_the_limit(rt: HostRuntime) -> Result<(), Fail> {
    fs::write(&rt, FILE, "counter")?;
    let mut shelf = FileShelf::new(rt);
    file_has(&rt, &mut shelf, 7, Some("counter"));
    file_has(&rt, &mut shelf, 2, Some("cou"));
    fs::remove_file(&rt, FILE)?;
    file_has(&rt, &mut shelf, 7, None);
    Ok(())
}

#[test]
fn the_standard_output_takes_bytes(rt: HostRuntime) -> Result<(), Fail> {
    let mut console = Console::new(rt);
    console.put(b"signed off\n")?;
    Ok(())
}

fn port(
    rt: &HostRuntime,
    listener: Option<TcpListener>,
    seconds: u64,
) -> Result<TcpPort<HostRuntime>, Fail> {
    let limit = Duration::from_secs(seconds);
    Ok(TcpPort::new(rt.clone()?, listener, limit))
}

// A port that listens, whose peers have so many seconds, and its address.
fn listening(rt: &HostRuntime, seconds: u64) -> Result<(TcpPort<HostRuntime>, SocketAddr), Fail> {
    let listener = TcpListener::bind(rt, "127.0.0.1:0")?;
    let address = listener.local_addr()?;
    Ok((port(rt, Some(listener), seconds)?, address))
}

fn connection(rt: &impl Abort, port: &mut TcpPort<HostRuntime>) {
    let mut buffer = [0u8; 8];
    assert!(rt; port.next() == Ok(()));
    assert!(rt; port.read(&mut buffer) == Ok(3));
    assert!(rt; port.write(b"200") == Ok(()));
    assert!(rt; port.finish() == Ok(()));
}

// What a peer gets until the connection is closed.
fn received(rt: &HostRuntime, peer: &mut TcpStream) -> Result<Vec<u8>, Fail> {
    let mut reply = Vec::new(rt.alloc());
    peer.read_to_end(&mut reply)?;
    Ok(reply)
}

// One thread: the peer connects and writes before the port takes the connection, and reads after it was closed.
#[test]
fn a_listener_takes_a_connection(rt: HostRuntime) -> Result<(), Fail> {
    let (mut port, address) = listening(&rt, 60)?;
    let mut peer = TcpStream::connect(&rt, address)?;
    peer.write_all(b"GET")?;
    connection(&rt, &mut port);
    let reply = received(&rt, &mut peer)?;
    assert!(rt; reply.as_slice() == b"200".as_slice());
    Ok(())
}

#[test]
fn no_listener_takes_no_connection(rt: HostRuntime) -> Result<(), Fail> {
    assert!(rt; port(&rt, None, 60)?.next() == Err(Failed));
    Ok(())
}

// The peer connects and sends nothing. Once its second is over there is nothing to be read or written.
#[test]
fn a_silent_peer_is_waited_for_no_longer_than_its_limit(rt: HostRuntime) -> Result<(), Fail> {
    let (mut port, address) = listening(&rt, 1)?;
    let _peer = TcpStream::connect(&rt, address)?;
    let mut buffer = [0u8; 8];
    assert!(rt; port.next() == Ok(()));
    assert!(rt; port.read(&mut buffer) == Err(Failed));
    assert!(rt; port.read(&mut buffer) == Err(Failed));
    assert!(rt; port.finish() == Ok(()));
    Ok(())
}
