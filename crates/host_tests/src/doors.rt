//! Doors in memory, and the real one over loopback.

use crate::odd_host::Slow;
use crate::told::{agree, tell, tell_bytes, tell_count, tell_value};
use ob_base::NoMemory;
use ob_io::{Door, MemDoor, SureDoor, TcpDoor};
use std::alloc::Global;
use std::io::{self, Read, Write};
use std::net::{Ipv4Addr, Shutdown, SocketAddr, TcpListener, TcpStream};
use std::test::Fail;

/// Makes a call for each letter, and adds what it answers: `n` next, `r` a read and what the
/// room holds then, `w` a write of `x`, `W` one of `xyz`, and `s` that it is shut.
fn tell_calls<D: Door>(text: &mut String, door: &mut D, room: &mut [u8], calls: &str) {
    for call in calls.bytes() {
        match call {
            b'n' => tell_next(text, door),
            b'r' => {
                tell_count(text, door.read(room));
                tell_bytes(text, room);
            }
            b'w' => tell_count(text, door.write(b"x")),
            b'W' => tell_count(text, door.write(b"xyz")),
            _ => door.shut(),
        }
    }
}

/// What connections send, one after another, with a bar between two.
fn streams(alloc: Global, all: &str) -> Result<Vec<Vec<u8>>, NoMemory> {
    let mut streams = Vec::new(alloc);
    for text in all.split('|') {
        streams.push(text.as_bytes().to_vec(alloc)?)?;
    }
    Ok(streams)
}

/// Adds whether the next connection came.
fn tell_next<D: Door>(text: &mut String, door: &mut D) {
    tell(
        text,
        match door.next() {
            Ok(true) => "came",
            Ok(false) => "ended",
            Err(_) => "failed",
        },
    );
}

/// Adds what was written to a connection.
fn tell_written(text: &mut String, written: Option<&[u8]>) {
    match written {
        Some(bytes) => tell_bytes(text, bytes),
        None => tell(text, "none"),
    }
}

/// Adds how many bytes the peer read or wrote.
fn tell_peer(text: &mut String, answer: io::Result<usize>) {
    match answer {
        Ok(count) => tell_value(text, &count),
        Err(_) => tell(text, "failed"),
    }
}

/// A sure door with these connections; none where memory is wanting.
fn sure_door(alloc: Global, all: &str, cut: usize, room: usize) -> Option<SureDoor> {
    match SureDoor::new(alloc, streams(alloc, all).ok()?, cut, room) {
        Ok(door) => Some(door),
        Err(_) => None,
    }
}

/// Connections one after another, of which a read gives two bytes and which take three.
fn tell_sure(alloc: Global, text: &mut String) {
    let mut room = [b'.'; 4];
    if let Some(mut door) = sure_door(alloc, "abc|d", 2, 3) {
        tell_calls(text, &mut door, &mut room, "nrwnrWwsn");
        tell_written(text, door.written(0));
        tell_written(text, door.written(1));
        tell_written(text, door.written(2));
    }
}

/// A door without connections, which ends.
fn tell_none(alloc: Global, text: &mut String) {
    let mut room = [b'.'; 2];
    if let Ok(mut door) = SureDoor::new(alloc, Vec::new(alloc), 1, 0) {
        tell_calls(text, &mut door, &mut room, "nrWs");
    }
}

/// A door whose calls of some numbers fail.
fn tell_failing(alloc: Global, text: &mut String) {
    let mut room = [b'.'; 2];
    if let Ok(mut door) = failing_door(alloc) {
        tell_calls(text, &mut door, &mut room, "nnrrww");
        tell_written(text, door.written(0));
        tell_calls(text, &mut door, &mut room, "sr");
    }
}

/// A door of one connection whose first, third and fifth call fail.
fn failing_door(alloc: Global) -> Result<MemDoor, NoMemory> {
    let fail = [1, 3, 5].to_vec(alloc)?;
    MemDoor::new(alloc, streams(alloc, "ab")?, 1, 4, fail)
}

#[test]
fn doors_in_memory(rt: HostRuntime) -> Result<(), Fail> {
    let mut text = String::new(rt.alloc());
    tell_sure(rt.alloc(), &mut text);
    tell(&mut text, "without connections:");
    tell_none(rt.alloc(), &mut text);
    tell(&mut text, "fails at 1, 3 and 5:");
    tell_failing(rt.alloc(), &mut text);
    agree(
        &rt,
        text.as_str(),
        "came 2 ab.. 1 came 1 db.. 2 failed ended x xy none \
         without connections: ended 0 .. 3 \
         fails at 1, 3 and 5: failed came failed .. 1 a. failed 1 x 0 a. ",
    );
    Ok(())
}

/// A listener of loopback, at a port that is free.
fn listener(rt: &HostRuntime) -> io::Result<TcpListener> {
    TcpListener::bind(rt, SocketAddr::from((Ipv4Addr::LOCALHOST, 0)))
}

/// The two ends of a connection over loopback, first that which asked for it.
fn ends(rt: &HostRuntime) -> io::Result<(TcpStream, TcpStream)> {
    let listener = listener(rt)?;
    let peer = TcpStream::connect(rt, listener.local_addr()?)?;
    let (stream, _) = listener.accept()?;
    Ok((peer, stream))
}

/// Bytes both ways over loopback, and either side's end.
fn tell_tcp(text: &mut String, mut peer: TcpStream, stream: TcpStream) {
    let mut room = [b'.'; 4];
    let mut door: TcpDoor<&HostRuntime> = TcpDoor::over(stream);
    tell_peer(text, peer.write(b"abc"));
    tell_calls(text, &mut door, &mut room, "nrW");
    tell_peer(text, peer.read(&mut room));
    tell_bytes(text, &room);
    let _ = peer.shutdown(Shutdown::Write);
    tell_calls(text, &mut door, &mut room, "rs");
    tell_peer(text, peer.read(&mut room));
    tell_calls(text, &mut door, &mut room, "n");
}

/// A port that is taken, which fails at the first next.
fn tell_taken(rt: &HostRuntime, text: &mut String) -> io::Result<()> {
    let listener = listener(rt)?;
    let mut door = TcpDoor::new(rt, listener.local_addr()?.port());
    tell_next(text, &mut door);
    Ok(())
}

#[test]
fn doors_of_the_host(rt: HostRuntime) -> Result<(), Fail> {
    let mut text = String::new(rt.alloc());
    let (peer, stream) = ends(&rt)?;
    tell_tcp(&mut text, peer, stream);
    tell(&mut text, "a taken port:");
    tell_taken(&rt, &mut text)?;
    agree(
        &rt,
        text.as_str(),
        "3 came 3 abc. 3 3 xyz. 0 xyz. 0 ended a taken port: failed ",
    );
    Ok(())
}

/// A read for each letter, and how many bytes each gave: `l` into a large room, `s` into a
/// small one.
fn tell_sizes<D: Door>(text: &mut String, door: &mut D, sizes: &str) {
    let mut large = [b'.'; 100];
    let mut small = [b'.'; 2];
    for size in sizes.bytes() {
        match size {
            b'l' => tell_count(text, door.read(&mut large)),
            _ => tell_count(text, door.read(&mut small)),
        }
    }
}

/// Each read takes ten seconds by the clock: the first three give enough, the next don't.
#[test]
fn a_slow_peer_is_ended(rt: HostRuntime) -> Result<(), Fail> {
    let mut text = String::new(rt.alloc());
    let (mut peer, stream) = ends(&rt)?;
    tell_peer(&mut text, peer.write(&[b'x'; 306]));
    let mut door = TcpDoor::timed(Slow::new(), stream);
    tell_next(&mut text, &mut door);
    tell_sizes(&mut text, &mut door, "lllssss");
    agree(&rt, text.as_str(), "306 came 100 100 100 2 2 failed 0 ");
    Ok(())
}
