//! The messages of a connection in memory, in pieces of some length, and the replies to them.

use ob_base::NoMemory;
use ob_http::{Held, HttpFault, Inlet, next_request, write_reply};
use ob_io::{Door, MemDoor};
use probe_parts::told::Told;
use probe_parts::words::{bytes_of, first_word};
use std::alloc::Global;

/// The body of the reply to each message.
const BODY: &[u8] = b"{}";

/// The length of the longest body that is told byte by byte.
const LONGEST_TOLD: usize = 256;

/// What a checksum is multiplied by for each further byte.
const CHECKSUM_FACTOR: u64 = 1_000_003;

/// What a connection sends, and how.
#[derive(Clone, Copy)]
struct Sender<'b> {
    bytes: &'b [u8],
    /// How many bytes a read gives at most.
    cut: usize,
    /// The number of the door's call that fails.
    fails: u64,
}

/// What came in, and how far it was answered.
#[derive(Drop)]
struct Served {
    /// None where the connection failed before it was there.
    inlet: Option<Inlet>,
    /// How many bytes were written before its reply.
    before: usize,
    /// Whether another may follow.
    goes_on: bool,
}

/// Adds the items of the connection that a line names, with what is written at each, for each
/// length of the pieces.
pub(crate) fn put_connections(alloc: Global, told: &mut Told, times: u32, asked: &str) {
    let (cuts, rest) = first_word(asked);
    let (fails, parts) = first_word(rest);
    let fails = told.found(fails.parse().ok(), 0);
    if told.is_malformed() {
        return told.put("no connection");
    }
    let bytes = all_bytes(alloc, told, parts);
    if told.is_malformed() {
        told.put("no bytes");
    } else {
        put_cuts(alloc, told, times, cuts, fails, bytes.as_slice());
    }
}

/// Adds the answer for each length of the pieces, where it is another than that before.
fn put_cuts(alloc: Global, told: &mut Told, times: u32, cuts: &str, fails: u64, bytes: &[u8]) {
    let mut before = String::new(alloc);
    for cut in cuts.split(',') {
        let mut answer = Told::new(alloc);
        put_cut(alloc, &mut answer, times, cut, fails, bytes);
        let answer = told.take(answer);
        put_other(told, before.as_str(), answer.as_str());
        before = answer;
    }
}

/// Adds the answer for a length of the pieces.
fn put_cut(alloc: Global, told: &mut Told, times: u32, cut: &str, fails: u64, bytes: &[u8]) {
    match cut_of(cut) {
        Some(cut) => put_connection(alloc, told, times, Sender { bytes, cut, fails }),
        None => told.put("no connection"),
    }
}

/// Adds an answer, where it is another than that before.
fn put_other(told: &mut Told, before: &str, answer: &str) {
    if answer != before {
        told.put(if told.is_empty() { "" } else { " | " });
        told.put(answer);
    }
}

/// How many bytes a read gives at most.
fn cut_of(cut: &str) -> Option<usize> {
    match cut {
        "whole" => Some(usize::MAX),
        _ => cut.parse().ok(),
    }
}

/// The bytes of all parts.
fn all_bytes(alloc: Global, told: &mut Told, parts: &str) -> Vec<u8> {
    let mut bytes = Vec::new(alloc);
    for part in parts.split_whitespace() {
        add_part(alloc, told, &mut bytes, part);
    }
    bytes
}

/// Adds the bytes of a part.
fn add_part(alloc: Global, told: &mut Told, bytes: &mut Vec<u8>, part: &str) {
    let (count, digits) = match part.split_once('*') {
        Some(both) => both,
        None => ("1", part),
    };
    let count: u32 = told.found(count.parse().ok(), 0);
    let piece = bytes_of(alloc, told, digits);
    for _ in 0..count {
        if bytes.extend_from_slice(piece.as_slice()).is_err() {
            return told.lack();
        }
    }
}

/// Adds the items of a connection, which is served so many times, and how many of its bytes
/// were taken.
fn put_connection(alloc: Global, told: &mut Told, times: u32, sender: Sender<'_>) {
    for _ in 1..times {
        match door_of(alloc, sender) {
            Ok(mut door) => serve(alloc, told, &mut door, sender.bytes.len()),
            Err(_) => return told.lack(),
        }
    }
    match door_of(alloc, sender) {
        Ok(mut door) => put_items(alloc, told, &mut door, sender.bytes.len()),
        Err(_) => told.lack(),
    }
}

/// A door whose one connection has come. There is room for each reply, since no message is
/// shorter than half of one.
fn door_of(alloc: Global, sender: Sender<'_>) -> Result<MemDoor, NoMemory> {
    let bytes = Vec::from_slice(alloc, sender.bytes)?;
    let room = sender.bytes.len().saturating_mul(3).saturating_add(256);
    let fails = vec![in alloc; sender.fails]?;
    let mut streams = Vec::new(alloc);
    streams.push(bytes)?;
    let mut door = MemDoor::new(alloc, streams, sender.cut, room, fails)?;
    let _ = door.next();
    Ok(door)
}

/// Takes all messages of a connection, at most so many and one, and answers them.
fn serve(alloc: Global, told: &mut Told, door: &mut MemDoor, most: usize) {
    let mut held = Held::new(alloc);
    for _ in 0..=most {
        if !serve_next(told, door, &mut held).goes_on {
            break;
        }
    }
}

/// Adds all items of a connection, at most so many and one, and how many bytes were taken.
fn put_items(alloc: Global, told: &mut Told, door: &mut MemDoor, most: usize) {
    let mut held = Held::new(alloc);
    for _ in 0..=most {
        if !put_item(told, door, &mut held) {
            break;
        }
    }
    told.put("taken:");
    told.put_shown(&held.taken());
}

/// Adds the next item of a connection with what is written at it, and tells whether another
/// may follow.
fn put_item(told: &mut Told, door: &mut MemDoor, held: &mut Held) -> bool {
    let start = written_from(door, 0).len();
    let served = serve_next(told, door, held);
    put_inlet(told, &served.inlet);
    let written = written_from(door, start);
    put_written(told, written, served.before.saturating_sub(start));
    served.goes_on
}

/// Takes the next message of a connection and answers it; none where it failed before one
/// was there.
fn serve_next(told: &mut Told, door: &mut MemDoor, held: &mut Held) -> Served {
    let inlet = match next_request(door, held) {
        Ok(inlet) => Some(inlet),
        Err(HttpFault::Failed) => None,
        Err(HttpFault::NoMemory) => {
            told.lack();
            None
        }
    };
    let before = written_from(door, 0).len();
    let goes_on = match &inlet {
        Some(Inlet::Post { keep, .. }) => write_reply(door, 200, BODY, *keep).is_ok() && *keep,
        Some(Inlet::Bad(status)) => {
            let _ = write_reply(door, *status, b"", false);
            false
        }
        _ => false,
    };
    Served {
        inlet,
        before,
        goes_on,
    }
}

/// What was written to the connection, from this byte on.
fn written_from(door: &MemDoor, start: usize) -> &[u8] {
    match door.written(0) {
        Some(bytes) if start <= bytes.len() => &bytes[start..],
        _ => b"",
    }
}

/// Adds what came in.
fn put_inlet(told: &mut Told, inlet: &Option<Inlet>) {
    match inlet {
        Some(Inlet::Post { body, keep }) => {
            told.put(if *keep { "post:keep:" } else { "post:close:" });
            put_body(told, body.as_slice());
        }
        Some(Inlet::Bad(status)) => {
            told.put("bad:");
            told.put_shown(status);
        }
        Some(Inlet::Ended) => told.put("ended"),
        Some(Inlet::Cut) => told.put("cut"),
        None => told.put("failed"),
    }
}

/// Adds a body, or of a long one its length and its checksum.
fn put_body(told: &mut Told, body: &[u8]) {
    if body.len() <= LONGEST_TOLD {
        put_quoted(told, body);
    } else {
        told.put_shown(&body.len());
        told.put(":");
        told.put_count(checksum(body));
    }
}

/// Adds bytes as text, in quotes.
fn put_quoted(told: &mut Told, bytes: &[u8]) {
    told.put("\"");
    told.put_shown(&bytes.escape_ascii());
    told.put("\"");
}

/// A number in which each byte counts by its place, so that bytes that change places change it.
fn checksum(bytes: &[u8]) -> u64 {
    let mut sum: u64 = 0;
    for byte in bytes {
        sum = sum.wrapping_mul(CHECKSUM_FACTOR).wrapping_add(*byte as u64);
    }
    sum
}

/// Adds what was written while a message came in, so many bytes, and its reply.
fn put_written(told: &mut Told, written: &[u8], before: usize) {
    let (interim, reply) = written.split_at(before.min(written.len()));
    told.put(" ");
    put_quoted(told, interim);
    told.put(" ");
    put_quoted(told, reply);
    told.put(" ");
}

/// Adds what two replies write: one with a body, and one that tells a fault and closes.
pub(crate) fn put_replies(alloc: Global, told: &mut Told, body: &str) {
    let sender = Sender {
        bytes: body.as_bytes(),
        cut: 1,
        fails: 0,
    };
    match door_of(alloc, sender) {
        Ok(mut door) => put_both(told, &mut door, sender.bytes),
        Err(_) => told.lack(),
    }
}

/// Adds whether two replies are written, and their bytes.
fn put_both(told: &mut Told, door: &mut MemDoor, body: &[u8]) {
    told.put_bool(write_reply(door, 200, body, true).is_ok());
    told.put(" ");
    told.put_bool(write_reply(door, 405, b"", false).is_ok());
    told.put(" ");
    put_quoted(told, written_from(door, 0));
}
